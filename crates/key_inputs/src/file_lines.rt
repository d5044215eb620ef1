//! The lines of a table's file.

ghost use Rattle.std.specs.Prelude.{◌≡◌, [], IfSome, true};
ghost use Rattle.ghost_model.specs.core.Database.{records_of};
ghost use Rattle.key_inputs.specs.FileLines.{BeginsOn, spells};
ghost use Rattle.key_inputs.specs.FileLines as lines;

use crate::record_search::line_by_search;
use csv::ByteRecord;
use csv_split::records::Records;
use std::alloc::Global;

/// The line of a file, from 1, on which a record begins, counted from 1 too: none where the file has no such record, and for
/// want of memory. What a search finds is tried by the records of the lines up to it and of those before it.
pub fn line_of_record(alloc: Global, file: &[u8], rec: u32) -> Option<u32>
    ensures line { IfSome result (BeginsOn file.now rec) }
{
    let line = line_by_search(file, rec);
    if begins_on(alloc, file, rec, line) {
        Some(line)
    } else {
        None
    }
}

/// Whether a file is found to spell no record, which for want of memory it is not.
pub(crate) fn spells_none(alloc: Global, file: &[u8]) -> bool
    ensures none { result ≡ true → records_of file.now ≡ [] }
{
    let mut row = ByteRecord::new(alloc);
    let mut records = Records::open(alloc, file);
    match records.read(&mut row) {
        Ok(found) => !found,
        Err(_) => false,
    }
}

/// Whether a record is found to begin on a line, which for want of memory it is not.
fn begins_on(alloc: Global, file: &[u8], rec: u32, line: u32) -> bool
    ensures line { result ≡ true → BeginsOn file.now rec line }
{
    let up_to = first_lines(file, line);
    let before = first_lines(file, line.saturating_sub(1));
    match (
        spells_many(alloc, up_to, rec),
        spells_many(alloc, before, rec),
    ) {
        (Some(true), Some(false)) => true,
        _ => false,
    }
}

/// The first lines of a file, so many as there are.
fn first_lines(file: &[u8], count: u32) -> &[u8]
    ensures lines { result.now ≡ lines.first_lines count file.now }
{
    let mut left = count;
    for at in 0..file.len() {
        if left == 0 {
            return &file[..at];
        }
        if file[at] == b'\n' {
            left -= 1;
        }
    }
    file
}

/// Whether a text spells so many records or more; none for want of memory.
fn spells_many(alloc: Global, text: &[u8], count: u32) -> Option<bool>
    ensures many { IfSome result (λ many. many ≡ spells text.now count) }
{
    let mut row = ByteRecord::new(alloc);
    let mut records = Records::open(alloc, text);
    for _ in 0..count {
        match records.read(&mut row) {
            Ok(true) => {}
            Ok(false) => return Some(false),
            Err(_) => return None,
        }
    }
    Some(true)
}
