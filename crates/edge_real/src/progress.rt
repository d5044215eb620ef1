//! Long work told on a terminal, as it goes on.

ghost use Rattle.std.specs.Prelude.{◌≡◌, ◌<◌, ◌+◌, ◌*◌, ◌/◌, IfSome};

use crate::file_name::FileName;
use std::io::{Eprint, IsTerminal};
use std::rt::HostRuntime;

/// The standard error, where it is a terminal. Where it is none nobody waits there, and nothing is told.
pub fn terminal(rt: &HostRuntime) -> Option<&HostRuntime> {
    if rt.stderr().is_terminal() {
        Some(rt)
    } else {
        None
    }
}

/// The standard error, where it is a terminal to which the rows do not go too.
pub fn terminal_apart(rt: &HostRuntime) -> Option<&HostRuntime> {
    if rt.stdout().is_terminal() {
        None
    } else {
        terminal(rt)
    }
}

/// How far the work on the pages of a device came, in tenths of them.
#[derive(Clone, Copy, Drop)]
pub(crate) struct Tenths {
    /// How many tenths were reached.
    reached: u64,
}

impl Tenths {
    /// Before the first page.
    pub(crate) fn none() -> Tenths
        ensures none { result.reached ≡ 0 }
    {
        Tenths { reached: 0 }
    }

    /// The tenths that are done with this page of so many, where they are more than before.
    pub(crate) fn next(&mut self, page: u32, pages: u32) -> Option<u64>
        ensures tenths { IfSome result (λ tenths. tenths ≡ (page + 1) * 10 / pages) }
        ensures rises { IfSome result (λ tenths. self.old.reached < tenths) }
        ensures reached { IfSome result (λ tenths. self.new.reached ≡ tenths) }
    {
        if pages == 0 {
            return None;
        }
        let tenths = (u64::from(page) + 1) * 10 / u64::from(pages);
        if tenths <= self.reached {
            return None;
        }
        self.reached = tenths;
        Some(tenths)
    }
}

/// Tells a line about a file, where there is a terminal.
pub(crate) fn tell_file<E: Eprint>(to: &Option<E>, deed: &str, name: &str) {
    if let Some(to) = to {
        let name = FileName::of(name);
        let _told = eprintln!(to; "{deed} {name}");
    }
}

/// Tells how many tenths of a device's pages are done, where there is a terminal.
pub(crate) fn tell_tenths<E: Eprint>(to: &Option<E>, tenths: u64) {
    if let Some(to) = to {
        let _told = eprintln!(to; "written: {tenths}0 percent of the device's pages");
    }
}
