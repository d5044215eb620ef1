//! Where a record stands in the pages of its run.
//!
//! Where a page has 512 identifiers or 2,048 single bytes, no division is made.

ghost use Rattle.std.specs.Prelude.{◌≡◌, ◌-◌, ◌/◌, ◌%◌, ◌<◌, ◌≤◌};
ghost use Rattle.ghost_model.specs.forms.Runs.{per_page};

use ghost_base::runs::per_page;

/// How many pages of a run there are before that of a record.
#[tactic(auto, using(crate::proofs::InPages::ids_before, crate::proofs::InPages::bytes_before))]
#[inline]
pub fn pages_before(width: u32, place: u32) -> u32
    requires some { 0 < width }
    requires fits { width ≤ 2048 }
    ensures pages { result ≡ place / per_page width }
{
    match width {
        4 => place / 512,
        1 => place / 2048,
        _ => place / per_page(width),
    }
}

/// The slot of a record in its page.
#[tactic(auto, using(crate::proofs::InPages::id_slot, crate::proofs::InPages::byte_slot))]
#[inline]
pub fn slot_in_page(width: u32, place: u32) -> u32
    requires some { 0 < width }
    requires fits { width ≤ 2048 }
    ensures slot { result ≡ place % per_page width }
    ensures within { result < per_page width }
{
    match width {
        4 => place % 512,
        1 => place % 2048,
        _ => place % per_page(width),
    }
}

/// How many records stand behind one in its page.
#[tactic(auto, using(crate::proofs::InPages::id_slot))]
#[inline]
pub fn left_in_page(width: u32, place: u32) -> u32
    requires some { 0 < width }
    requires fits { width ≤ 2048 }
    ensures left { result ≡ per_page width - 1 - place % per_page width }
    ensures some { 0 < per_page width }
{
    if width == 4 {
        return 511 - place % 512;
    }
    let records = per_page(width);
    records - 1 - place % records
}
