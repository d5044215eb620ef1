//! The level files.

ghost use Rattle.std.specs.Prelude.{◌≡◌, ◌<◌, ◌≤◌, ◌+◌, ◌/◌, ◌^◌, ℕ, List, [], true, length, get_or, IfOk, IfSome, OnOk};
ghost use Rattle.std.specs.List.{All};
ghost use Rattle.ghost_model.specs.forms.Gaps.{StoresBytes, gaps_after, level_bytes, with_codes};
ghost use Rattle.ghost_model.specs.forms.Runs.{pages_of};
ghost use Rattle.ghost_model.specs.laws.GapLaws.{AscendsTo};
ghost use Rattle.flash_pages.specs.CodeWriters.{CanPut, HasCodes, WritesUpTo};
ghost use Rattle.flash_pages.specs.Filling.{CanFill};
ghost use Rattle.index_lists.specs.Lists.{AreListed, identifiers_of, lists_of};
ghost use Rattle.index_files.specs.Directory.{AreBegins, AreBeginsOf};
ghost use Rattle.index_files.specs.Files.{counts_of, level_file, level_pages, level_written, ranks_of, written_pages};
ghost use Rattle.index_files.specs.Levels.{begin_behind, codes_end, level_run};
ghost use Rattle.index_files.specs.Writing.{Writes};

use crate::faults::IndexFault;
use edge_traits::Failed;
use edge_traits::flash::Flash;
use flash_pages::code_filler::CodeFiller;
use ghost_model::gaps::level_files_fit;
use index_lists::laws::lists_stand_between;
use index_lists::{list_starts, rows_by_rank};
use std::alloc::Global;

/// The identifiers of four bytes that a page takes.
const IDS_PER_PAGE: usize = 512;

/// How many pages the room of a level file has: those of four bytes for each row.
fn pages_of_level(rows: usize) -> u32
    requires few { rows < 2097152 }
    ensures pages { result ≡ pages_of rows 4 }
{
    ((rows + (IDS_PER_PAGE - 1)) / IDS_PER_PAGE) as u32
}

/// Puts the codes of a list, given its rows, which are counted from 0, and answers where it begins: at its first code, and a list
/// without a row at the end of what was put before.
fn put_list<F: Flash>(
    codes: &mut CodeFiller,
    flash: &mut F,
    buf: &mut [u8; 2048],
    rows: &[u32],
) -> Result<u32, Failed>
    requires list { AscendsTo 2097151 (identifiers_of rows.now) }
    requires can { CanPut (F.state flash.old) codes.old (codes_end codes.old.filler.count (gaps_after 0 (identifiers_of rows.now))) }
    requires room { codes_end codes.old.filler.count (gaps_after 0 (identifiers_of rows.now)) < 2 ^ 32 }
    ensures begin { IfOk result (λ begin. begin ≡ begin_behind codes.old.filler.count (identifiers_of rows.now)) }
    ensures end { OnOk result (codes.new.filler.count ≡ codes_end codes.old.filler.count (gaps_after 0 (identifiers_of rows.now))) }
    ensures put { OnOk result ((bytes : List ℕ) → HasCodes F.told (F.state flash.old).page buf.old codes.old bytes → HasCodes F.told (F.state flash.new).page buf.new codes.new (with_codes bytes (gaps_after 0 (identifiers_of rows.now)))) }
    ensures same { codes.new.filler.first ≡ codes.old.filler.first }
    ensures writes { WritesUpTo (F.state flash.old) (F.state flash.new) codes.old (codes_end codes.old.filler.count (gaps_after 0 (identifiers_of rows.now)) / 2048) result }
{
    let mut begin = codes.end();
    let mut before = 0;
    for row in rows {
        let identifier = *row + 1;
        let place = codes.put(flash, buf, identifier - before)?;
        if before == 0 {
            begin = place;
        }
        before = identifier;
    }
    Ok(begin)
}

/// Writes the file of a level from a page on, given its rows in order: the lists of all entries, one after another. It answers
/// where each list begins.
fn write_ordered<F: Flash>(
    alloc: Global,
    flash: &mut F,
    buf: &mut [u8; 2048],
    rows: &[u32],
    ranks: &[u32],
    entries: u32,
    first: u32,
) -> Result<Vec<u32>, IndexFault>
    requires small { length ranks.now < 2097152 }
    requires order { AreListed ranks.now entries rows.now }
    requires ranked { All (λ rank. rank < entries) ranks.now }
    requires can { CanFill (F.state flash.old) first (pages_of (length ranks.now) 4) }
    ensures begins { IfOk result (λ begins. AreBeginsOf (lists_of ranks.now entries) entries begins.items) }
    ensures stores { OnOk result (F.told ≡ true → StoresBytes (F.state flash.new).page (level_run first (length ranks.now)) (level_bytes (lists_of ranks.now entries))) }
    ensures fits { OnOk result (level_written entries ranks.now ≤ pages_of (length ranks.now) 4) }
    ensures writes { Writes first (first + pages_of (length ranks.now) 4) (level_written entries ranks.now) (F.state flash.old) (F.state flash.new) result }
{
    level_files_fit();
    lists_stand_between();
    let starts = list_starts(alloc, ranks, entries)?;
    let mut begins = Vec::with_capacity(alloc, entries as usize)?;
    let mut codes = CodeFiller::begin(first);
    for entry in 0..entries as usize {
        let list = &rows[starts[entry] as usize..starts[entry + 1] as usize];
        begins.push_reserved(put_list(&mut codes, flash, buf, list)?);
    }
    codes.finish(flash, buf)?;
    Ok(begins)
}

/// Writes the file of a level from a page on: the lists of all entries, one after another. The rows may be told in order. It
/// answers where each list begins.
fn write_level<F: Flash>(
    alloc: Global,
    flash: &mut F,
    buf: &mut [u8; 2048],
    ranks: &[u32],
    order: Option<&[u32]>,
    entries: u32,
    first: u32,
) -> Result<Vec<u32>, IndexFault>
    requires small { length ranks.now < 2097152 }
    requires order { IfSome order (λ rows. AreListed ranks.now entries rows.now) }
    requires ranked { All (λ rank. rank < entries) ranks.now }
    requires can { CanFill (F.state flash.old) first (pages_of (length ranks.now) 4) }
    ensures begins { IfOk result (λ begins. AreBeginsOf (lists_of ranks.now entries) entries begins.items) }
    ensures stores { OnOk result (F.told ≡ true → StoresBytes (F.state flash.new).page (level_run first (length ranks.now)) (level_bytes (lists_of ranks.now entries))) }
    ensures fits { OnOk result (level_written entries ranks.now ≤ pages_of (length ranks.now) 4) }
    ensures writes { Writes first (first + pages_of (length ranks.now) 4) (level_written entries ranks.now) (F.state flash.old) (F.state flash.new) result }
{
    if let Some(rows) = order {
        return write_ordered(alloc, flash, buf, rows, ranks, entries, first);
    }
    write_ranked(alloc, flash, buf, ranks, entries, first)
}

/// Writes the file of a level from a page on, given the ranks of its rows: the lists of all entries, one after another. It
/// answers where each list begins.
fn write_ranked<F: Flash>(
    alloc: Global,
    flash: &mut F,
    buf: &mut [u8; 2048],
    ranks: &[u32],
    entries: u32,
    first: u32,
) -> Result<Vec<u32>, IndexFault>
    requires small { length ranks.now < 2097152 }
    requires ranked { All (λ rank. rank < entries) ranks.now }
    requires can { CanFill (F.state flash.old) first (pages_of (length ranks.now) 4) }
    ensures begins { IfOk result (λ begins. AreBeginsOf (lists_of ranks.now entries) entries begins.items) }
    ensures stores { OnOk result (F.told ≡ true → StoresBytes (F.state flash.new).page (level_run first (length ranks.now)) (level_bytes (lists_of ranks.now entries))) }
    ensures fits { OnOk result (level_written entries ranks.now ≤ pages_of (length ranks.now) 4) }
    ensures writes { Writes first (first + pages_of (length ranks.now) 4) (level_written entries ranks.now) (F.state flash.old) (F.state flash.new) result }
{
    match rows_by_rank(alloc, ranks, entries) {
        Err(_) => Err(IndexFault::NoMemory),
        Ok(rows) => write_ordered(alloc, flash, buf, &rows, ranks, entries, first),
    }
}

/// Writes the files of all levels one after another from a page on, each in its room, given the rows of the first level in order.
/// It answers for each level where each list begins.
pub(crate) fn write_levels<F: Flash>(
    alloc: Global,
    flash: &mut F,
    buf: &mut [u8; 2048],
    levels: &[Vec<u32>],
    rows: &[u32],
    entries: u32,
    begin: u32,
) -> Result<Vec<Vec<u32>>, IndexFault>
    requires rows { 0 < length levels.now → AreListed (get_or (ranks_of levels.now) 0 []) entries rows.now }
    requires small { All (λ ranks. length ranks.items < 2097152) levels.now }
    requires ranked { All (λ ranks. All (λ rank. rank < entries) ranks.items) levels.now }
    requires can { CanFill (F.state flash.old) begin (level_pages (counts_of (ranks_of levels.now))) }
    ensures begins { IfOk result (λ begins. AreBegins (ranks_of levels.now) entries (ranks_of begins.items)) }
    ensures stores { OnOk result (F.told ≡ true → (level : ℕ) → level < length levels.now → StoresBytes (F.state flash.new).page (level_file begin (counts_of (ranks_of levels.now)) level) (level_bytes (lists_of (get_or (ranks_of levels.now) level []) entries))) }
    ensures writes { Writes begin (begin + level_pages (counts_of (ranks_of levels.now))) (written_pages (ranks_of levels.now) entries) (F.state flash.old) (F.state flash.new) result }
{
    let mut begins = Vec::with_capacity(alloc, levels.len())?;
    let mut first = begin;
    let mut order = Some(rows);
    for ranks in levels {
        begins.push_reserved(write_level(alloc, flash, buf, ranks, order.take(), entries, first)?);
        first += pages_of_level(ranks.len());
    }
    Ok(begins)
}
