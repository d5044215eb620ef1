//! A file that is written whole.

ghost use Rattle.std.specs.Prelude.{◌≡◌, ◌<◌, ◌≤◌, ◌+◌, ◌*◌, ℕ, List, [], ◌∷◌, true, length, get_or, OnOk};
ghost use Rattle.std.specs.List.{All};
ghost use Rattle.ghost_model.specs.forms.Flash.{HoldsLists};
ghost use Rattle.ghost_model.specs.forms.Runs as runs;
ghost use Rattle.ghost_model.specs.forms.Runs.{Stores, number_cell, pages_of};
ghost use Rattle.ghost_base.specs.Runs.{run_of};
ghost use Rattle.flash_pages.specs.Filling.{CanFill};
ghost use Rattle.index_lists.specs.Lists.{AreListed};
ghost use Rattle.index_files.specs.Files.{AreLevels, ranks_of, counts_of, level_pages, written_pages};
ghost use Rattle.flash_build.specs.Building.{Wrote};

use crate::faults::BuildFault;
use edge_traits::flash::Flash;
use flash_pages::filling::{Records, write_numbers, write_run};
use ghost_base::runs::Run;
use index_files::{IndexFault, write_lists};
use std::alloc::Global;

/// Writes all records of a source, each of `width` bytes, from page `first` on, each page once.
pub(crate) fn write_records<F: Flash, C: Records>(
    flash: &mut F,
    buf: &mut [u8; 2048],
    source: &C,
    first: u32,
    width: u32,
) -> Result<(), BuildFault>
    requires some { 0 < width }
    requires fits { width ≤ 256 }
    requires widths { (i : ℕ) → i < length (C.records source.now) → length (get_or (C.records source.now) i []) ≡ width }
    requires can { CanFill (F.state flash.old) first (pages_of (length (C.records source.now)) width) }
    ensures stores { OnOk result (F.told ≡ true → Stores (F.state flash.new).page (record { first = first; count = length (C.records source.now); width = width }) (C.records source.now)) }
    ensures wrote { Wrote first (first + pages_of (length (C.records source.now)) width) (pages_of (length (C.records source.now)) width) (F.state flash.old) (F.state flash.new) result }
{
    match write_run(flash, buf, source, first, width) {
        Ok(_) => Ok(()),
        Err(_) => Err(BuildFault::Flash),
    }
}

/// Writes a number as the one record of a file, on page `first`.
pub(crate) fn write_number<F: Flash>(
    flash: &mut F,
    buf: &mut [u8; 2048],
    number: u32,
    first: u32,
) -> Result<(), BuildFault>
    requires can { CanFill (F.state flash.old) first 1 }
    ensures stores { OnOk result (F.told ≡ true → Stores (F.state flash.new).page (record { first = first; count = 1; width = 4 }) (number_cell number ∷ [])) }
    ensures wrote { Wrote first (first + 1) 1 (F.state flash.old) (F.state flash.new) result }
{
    match write_numbers(flash, buf, &[number], first) {
        Ok(_) => Ok(()),
        Err(_) => Err(BuildFault::Flash),
    }
}

/// Writes the entries of an index: its directory and, from page `begin` on, its level files, each page once. `levels` has,
/// for each level, the ranks of its rows; `rows` are those of the first level in order, counted from 0.
pub(crate) fn write_entries<F: Flash, H: Records>(
    alloc: Global,
    flash: &mut F,
    buf: &mut [u8; 2048],
    heads: &H,
    levels: &[Vec<u32>],
    rows: &[u32],
    directory: Run,
    begin: u32,
) -> Result<(), BuildFault>
    requires some { 0 < directory.width }
    requires fits { directory.width ≤ 256 }
    requires entries { directory.count ≡ length (H.records heads.now) }
    requires widths { (entry : ℕ) → entry < length (H.records heads.now) → length (get_or (H.records heads.now) entry []) + 8 * length levels.now ≡ directory.width }
    requires small { All (λ ranks. length ranks.items < 2097152) levels.now }
    requires ranked { All (λ ranks. All (λ rank. rank < directory.count) ranks.items) levels.now }
    requires rows { 0 < length levels.now → AreListed (get_or (ranks_of levels.now) 0 []) directory.count rows.now }
    requires order { runs.run_end (run_of directory) ≤ begin }
    requires can { CanFill (F.state flash.old) directory.first (runs.run_pages (run_of directory)) }
    requires can_levels { CanFill (F.state flash.old) begin (level_pages (counts_of (ranks_of levels.now))) }
    ensures holds { OnOk result (F.told ≡ true → (tables : List ℕ) (lists : ℕ → List (List ℕ)) (file : ℕ → runs.Run) → AreLevels (ranks_of levels.now) directory.count begin tables lists file → HoldsLists (F.state flash.new).page (run_of directory) file (H.records heads.now) tables lists) }
    ensures wrote { Wrote directory.first (begin + level_pages (counts_of (ranks_of levels.now))) (runs.run_pages (run_of directory) + written_pages (ranks_of levels.now) directory.count) (F.state flash.old) (F.state flash.new) result }
{
    match write_lists(alloc, flash, buf, heads, levels, rows, directory, begin) {
        Ok(()) => Ok(()),
        Err(IndexFault::NoMemory) => Err(BuildFault::NoMemory),
        Err(IndexFault::Flash) => Err(BuildFault::Flash),
    }
}
