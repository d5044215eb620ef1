//! A file that is written whole.

ghost use Rattle.std.specs.Prelude.{◌≡◌, ◌<◌, ◌≤◌, ◌+◌, ℕ, [], true, length, get_or, OnOk};
ghost use Rattle.ghost_model.specs.forms.Runs.{Stores, pages_of};
ghost use Rattle.flash_pages.specs.Filling.{CanFill};
ghost use Rattle.index_files.specs.Writing.{Writes};

use crate::faults::IndexFault;
use edge_traits::flash::Flash;
use flash_pages::filling::{Records, write_run};

/// Writes all records of a source, each of `width` bytes, from page `first` on, each page once.
pub(crate) fn write_records<F: Flash, C: Records>(
    flash: &mut F,
    buf: &mut [u8; 2048],
    source: &C,
    first: u32,
    width: u32,
) -> Result<(), IndexFault>
    requires some { 0 < width }
    requires fits { width ≤ 256 }
    requires widths { (i : ℕ) → i < length (C.records source.now) → length (get_or (C.records source.now) i []) ≡ width }
    requires can { CanFill (F.state flash.old) first (pages_of (length (C.records source.now)) width) }
    ensures stores { OnOk result (F.told ≡ true → Stores (F.state flash.new).page (record { first = first; count = length (C.records source.now); width = width }) (C.records source.now)) }
    ensures writes { Writes first (first + pages_of (length (C.records source.now)) width) (pages_of (length (C.records source.now)) width) (F.state flash.old) (F.state flash.new) result }
{
    match write_run(flash, buf, source, first, width) {
        Ok(_) => Ok(()),
        Err(_) => Err(IndexFault::Flash),
    }
}
