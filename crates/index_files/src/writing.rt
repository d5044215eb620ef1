//! The files of an index, written whole.

ghost use Rattle.std.specs.Prelude.{◌≡◌, ◌<◌, ◌≤◌, ◌+◌, ◌*◌, ℕ, List, [], true, length, get_or, OnOk};
ghost use Rattle.std.specs.List.{All};
ghost use Rattle.ghost_model.specs.forms.Flash.{HoldsLists, directory_records};
ghost use Rattle.ghost_model.specs.forms.Runs as runs;
ghost use Rattle.ghost_base.specs.Runs.{run_of};
ghost use Rattle.edge_traits.specs.Devices.{Counts, ChangesOnly};
ghost use Rattle.flash_pages.specs.Filling.{CanFill};
ghost use Rattle.index_lists.specs.Lists.{AreListed};
ghost use Rattle.index_files.specs.Directory.{AreBegins};
ghost use Rattle.index_files.specs.Faults.{IndexCause, EndsAtFault};
ghost use Rattle.index_files.specs.Files.{AreLevels, ranks_of, counts_of, level_pages, written_pages};
ghost use Rattle.index_files.specs.Writing.{Writes};

use crate::directory::{Entries, level_starts};
use crate::faults::IndexFault;
use crate::levels::write_levels;
use crate::records::write_records;
use edge_traits::flash::Flash;
use flash_pages::Run;
use flash_pages::filling::Records;
use index_lists::laws::lists_stand_between;
use std::alloc::Global;

/// Writes the directory of an index, whose pages are blank, each page once. For each level it is told where the list of each
/// entry begins in the level's file.
fn write_directory<F: Flash, H: Records>(
    alloc: Global,
    flash: &mut F,
    buf: &mut [u8; 2048],
    heads: &H,
    levels: &[Vec<u32>],
    begins: &[Vec<u32>],
    directory: Run,
) -> Result<(), IndexFault>
    requires some { 0 < directory.width }
    requires fits { directory.width ≤ 256 }
    requires entries { directory.count ≡ length (H.records heads.now) }
    requires widths { (entry : ℕ) → entry < length (H.records heads.now) → length (get_or (H.records heads.now) entry []) + 8 * length levels.now ≡ directory.width }
    requires small { All (λ ranks. length ranks.items < 2097152) levels.now }
    requires ranked { All (λ ranks. All (λ rank. rank < directory.count) ranks.items) levels.now }
    requires begins { AreBegins (ranks_of levels.now) directory.count (ranks_of begins.now) }
    requires can { CanFill (F.state flash.old) directory.first (runs.run_pages (run_of directory)) }
    ensures stores { OnOk result (F.told ≡ true → (begin : ℕ) (tables : List ℕ) (lists : ℕ → List (List ℕ)) (file : ℕ → runs.Run) → AreLevels (ranks_of levels.now) directory.count begin tables lists file → runs.Stores (F.state flash.new).page (run_of directory) (directory_records (H.records heads.now) tables lists)) }
    ensures writes { Writes directory.first (runs.run_end (run_of directory)) (runs.run_pages (run_of directory)) (F.state flash.old) (F.state flash.new) result }
{
    lists_stand_between();
    match level_starts(alloc, levels, directory.count) {
        Err(_) => Err(IndexFault::NoMemory),
        Ok(starts) => {
            let entries = Entries {
                heads,
                starts: &starts,
                begins,
            };
            write_records(flash, buf, &entries, directory.first, directory.width)
        }
    }
}

/// Writes the level files of an index, from page `begin` on, and then its directory, each page once.
///
/// The directory has a record for each entry: its head, and eight bytes for each level. `levels` has, for each level, the
/// ranks of its rows: the number of the entry in whose list the row stands; `rows` are those of the first level in order,
/// counted from 0. `directory` has as many records as there are entries; its pages and those of the level files' rooms, which
/// have four bytes for each row, are blank. It keeps four bytes for each entry a level, where the entry's list begins; besides
/// these it takes, one later level at a time, four for each row of it and four for each entry, and four for each entry a level
/// while the directory is written.
///
/// Where the flash fails, nothing more is written.
pub fn write_lists<F: Flash, H: Records>(
    alloc: Global,
    flash: &mut F,
    buf: &mut [u8; 2048],
    heads: &H,
    levels: &[Vec<u32>],
    rows: &[u32],
    directory: Run,
    begin: u32,
) -> Result<(), IndexFault>
    requires some { 0 < directory.width }
    requires fits { directory.width ≤ 256 }
    requires entries { directory.count ≡ length (H.records heads.now) }
    requires widths { (entry : ℕ) → entry < length (H.records heads.now) → length (get_or (H.records heads.now) entry []) + 8 * length levels.now ≡ directory.width }
    requires small { All (λ ranks. length ranks.items < 2097152) levels.now }
    requires ranked { All (λ ranks. All (λ rank. rank < directory.count) ranks.items) levels.now }
    requires rows { 0 < length levels.now → AreListed (get_or (ranks_of levels.now) 0 []) directory.count rows.now }
    requires order { runs.run_end (run_of directory) ≤ begin }
    requires can { CanFill (F.state flash.old) directory.first (runs.run_pages (run_of directory)) }
    requires can_levels { CanFill (F.state flash.old) begin (level_pages (counts_of (ranks_of levels.now))) }
    ensures holds { OnOk result (F.told ≡ true → (tables : List ℕ) (lists : ℕ → List (List ℕ)) (file : ℕ → runs.Run) → AreLevels (ranks_of levels.now) directory.count begin tables lists file → HoldsLists (F.state flash.new).page (run_of directory) file (H.records heads.now) tables lists) }
    ensures others { ChangesOnly directory.first (begin + level_pages (counts_of (ranks_of levels.now))) (F.state flash.old) (F.state flash.new) }
    ensures exact { OnOk result (Counts (runs.run_pages (run_of directory) + written_pages (ranks_of levels.now) directory.count) (F.state flash.old).calls (F.state flash.new).calls) }
    ensures at_most { (F.state flash.new).calls ≤ (F.state flash.old).calls + (runs.run_pages (run_of directory) + written_pages (ranks_of levels.now) directory.count) }
    ensures deep_reads { (F.state flash.new).deep_reads ≡ (F.state flash.old).deep_reads }
    ensures cause { IndexCause (F.state flash.old).faults (F.state flash.new).faults result }
    ensures last { EndsAtFault (F.state flash.new).since_fault result }
{
    let begins = write_levels(alloc, flash, buf, levels, rows, directory.count, begin)?;
    write_directory(alloc, flash, buf, heads, levels, &begins, directory)
}
