//! The pages of a device in memory.

ghost use Rattle.std.specs.Prelude.{◌≡◌, ◌≤◌, ◌*◌, [], vec_len};

use std::alloc::Global;

/// The pages of a device in memory under its name, and which of them are marked as blank.
#[derive(Drop)]
pub(crate) struct NamedPages {
    pub(crate) name: Vec<u8>,
    pub(crate) pages: Vec<[u8; 2048]>,
    pub(crate) marks: Vec<u64>,
    ghost sized: { vec_len pages ≡ 64 * vec_len marks },
    ghost small: { vec_len marks ≤ 60000000 },
}

impl NamedPages {
    /// A device of that name without a page.
    pub(crate) fn none(alloc: Global, name: Vec<u8>) -> NamedPages
        ensures name { result.name ≡ name }
        ensures pages { result.pages.items ≡ [] }
    {
        NamedPages {
            name,
            pages: Vec::new(alloc),
            marks: Vec::new(alloc),
        }
    }

    /// Has these pages and marks in place of its own.
    pub(crate) fn renew(&mut self, pages: Vec<[u8; 2048]>, marks: Vec<u64>)
        requires sized { vec_len pages ≡ 64 * vec_len marks }
        requires small { vec_len marks ≤ 60000000 }
        ensures name { self.new.name ≡ self.old.name }
        ensures pages { self.new.pages ≡ pages }
        ensures marks { self.new.marks ≡ marks }
    {
        self.pages = pages;
        self.marks = marks;
    }
}
