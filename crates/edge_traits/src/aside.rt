//! Devices in memory that are put aside under their names.

ghost use Rattle.std.specs.Prelude.{◌≡◌, ◌<◌, List, ℕ, [], false, bytes_eq, if◌then◌else◌, vec_len, vec_capacity};
ghost use Rattle.std.specs.List.{position};
ghost use Rattle.edge_traits.specs.Pages.{page_at};
ghost use Rattle.edge_traits.specs.MemDevices.{is_of, pages_in};

use crate::named_pages::NamedPages;
use std::mem;

/// The place of the first device of that name.
fn place_of(devices: &[NamedPages], name: &[u8]) -> Option<usize>
    ensures { result ≡ position (is_of name.now) devices.now }
{
    devices
        .iter()
        .position(|device| device.name.as_slice() == name)
}

/// Takes the device out whose name this one without a page has, which stays in its place; that one itself, where there is none.
#[tactic(auto, using(crate::proofs::PutAside::read_name, crate::proofs::PutAside::read_pages, crate::proofs::PutAside::found_nowhere, crate::proofs::PutAside::others_stay))]
pub(crate) fn take(devices: &mut Vec<NamedPages>, none: NamedPages) -> NamedPages
    requires { none.pages.items ≡ [] }
    ensures name { result.name.items ≡ none.name.items }
    ensures pages { page_at result.pages.items ≡ pages_in devices.old.items none.name.items }
    ensures others { (other : List ℕ) → bytes_eq none.name.items other ≡ false → pages_in devices.new.items other ≡ pages_in devices.old.items other }
    ensures count { vec_len devices.new ≡ vec_len devices.old }
    ensures room { vec_capacity devices.new ≡ vec_capacity devices.old }
{
    match place_of(devices, &none.name) {
        Some(place) => mem::replace(&mut devices[place], none),
        None => none,
    }
}

/// Puts a device aside in the place of its name, or behind the others.
#[tactic(auto, using(crate::proofs::PutAside::put_at, crate::proofs::PutAside::put_behind))]
pub(crate) fn put(devices: &mut Vec<NamedPages>, device: NamedPages)
    requires { vec_len devices.old < vec_capacity devices.old }
    ensures { (name : List ℕ) → pages_in devices.new.items name ≡ (if bytes_eq device.name.items name then page_at device.pages.items else pages_in devices.old.items name) }
{
    match place_of(devices, &device.name) {
        Some(place) => devices[place] = device,
        None => devices.push_reserved(device),
    }
}
