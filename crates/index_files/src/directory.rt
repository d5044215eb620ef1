//! The records of a directory.

ghost use Rattle.std.specs.Prelude.{◌≡◌, ◌<◌, ◌≤◌, ◌+◌, ◌*◌, ◌++◌, ℕ, [], length, map, take, get_or, slice_index, replicate, IfOk};
ghost use Rattle.std.specs.List.{All};
ghost use Rattle.ghost_model.specs.forms.Runs.{number_cell};
ghost use Rattle.index_files.specs.Files.{ranks_of};
ghost use Rattle.index_files.specs.Directory.{AreStarts, CanBeRead, entry_places, entry_records};

use flash_pages::filling::Records;
use index_lists::list_starts;
use std::alloc::{AllocError, Global};

/// Entries that have no bytes of their own, as those of an id index.
#[derive(Drop)]
pub struct NoHeads {
    /// How many entries there are.
    pub entries: u32,
}

impl Records for NoHeads {
    ghost records = { λ heads. replicate heads.entries [] };

    fn count(&self) -> u32 {
        self.entries
    }

    fn record<'a>(&'a self, _i: u32, room: &'a mut [u8; 256]) -> &'a [u8] {
        &room[..0]
    }
}

/// For each level where the list of each entry starts in the level's file, and behind the last entry where it ends.
pub(crate) fn level_starts(
    alloc: Global,
    levels: &[Vec<u32>],
    entries: u32,
) -> Result<Vec<Vec<u32>>, AllocError>
    requires small { All (λ ranks. length ranks.items < 2097152) levels.now }
    requires ranked { All (λ ranks. All (λ rank. rank < entries) ranks.items) levels.now }
    ensures starts { IfOk result (λ starts. AreStarts (ranks_of levels.now) entries (ranks_of starts.items)) }
{
    let mut all = Vec::with_capacity(alloc, levels.len())?;
    for ranks in levels {
        all.push(list_starts(alloc, ranks, entries)?)?;
    }
    Ok(all)
}

/// The records of a directory: the head of each entry, and for each level the place of its list.
#[derive(Drop)]
pub(crate) struct Entries<'e, H: Records> {
    /// The entries' own bytes.
    pub heads: &'e H,
    /// For each level how many rows come before each list, and how many there are.
    pub starts: &'e [Vec<u32>],
    /// For each level where the lists begin in the bytes of its file.
    pub begins: &'e [Vec<u32>],
    ghost readable: { CanBeRead (H.records heads.now) (ranks_of starts.now) (ranks_of begins.now) },
}

impl<'e, H: Records> Records for Entries<'e, H> {
    ghost records = { λ source. entry_records (H.records source.heads.now) (ranks_of source.starts.now) (ranks_of source.begins.now) };

    fn count(&self) -> u32 {
        self.heads.count()
    }

    fn record<'a>(&'a self, i: u32, room: &'a mut [u8; 256]) -> &'a [u8] {
        let head = put_head(self.heads, i, room);
        let width = put_places(self.starts, self.begins, i as usize, head, room);
        &room[..width]
    }
}

/// Puts the head of an entry at the front of a record, and tells how many bytes it has.
fn put_head<H: Records>(heads: &H, entry: u32, out: &mut [u8; 256]) -> usize
    requires there { entry < length (H.records heads.now) }
    requires fits { length (get_or (H.records heads.now) entry []) ≤ 256 }
    ensures width { result ≡ length (get_or (H.records heads.now) entry []) }
    ensures put { take result out.new ≡ get_or (H.records heads.now) entry [] }
{
    let mut room = [0; 256];
    let head = heads.record(entry, &mut room);
    out[..head.len()].copy_from_slice(head);
    head.len()
}

/// Puts the places of an entry's lists behind so many bytes of its record, and tells how many bytes the record has.
fn put_places(
    starts: &[Vec<u32>],
    begins: &[Vec<u32>],
    entry: usize,
    at: usize,
    out: &mut [u8; 256],
) -> usize
    requires fits { at + 8 * length starts.now ≤ 256 }
    requires many { length begins.now ≡ length starts.now }
    requires long { (level : ℕ) → level < length starts.now → entry + 1 < length (get_or (ranks_of starts.now) level []) }
    requires wide { (level : ℕ) → level < length starts.now → entry < length (get_or (ranks_of begins.now) level []) }
    requires rise { (level : ℕ) → level < length starts.now → slice_index (get_or (ranks_of starts.now) level []) entry ≤ slice_index (get_or (ranks_of starts.now) level []) (entry + 1) }
    ensures width { result ≡ at + 8 * length starts.now }
    ensures put { take result out.new ≡ take at out.old ++ entry_places (ranks_of starts.now) (ranks_of begins.now) entry (length starts.now) }
{
    for level in 0..starts.len() {
        let column = &starts[level];
        put_place(
            out,
            at + 8 * level,
            begins[level][entry],
            column[entry + 1] - column[entry],
        );
    }
    at + 8 * starts.len()
}

/// Puts the place of a list: where it begins in its level's file, and how many rows it has.
fn put_place(out: &mut [u8; 256], at: usize, begin: u32, count: u32)
    requires fits { at + 8 ≤ 256 }
    ensures put { take (at + 8) out.new ≡ take at out.old ++ (number_cell begin ++ number_cell count) }
{
    put_number(out, at, begin);
    put_number(out, at + 4, count);
}

/// Puts a number at a place of a record in four bytes, most significant first.
fn put_number(out: &mut [u8; 256], at: usize, number: u32)
    requires fits { at + 4 ≤ 256 }
    ensures put { take (at + 4) out.new ≡ take at out.old ++ number_cell number }
{
    out[at..at + 4].copy_from_slice(&number.to_be_bytes());
}
