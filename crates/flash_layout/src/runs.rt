//! The pages of runs, and blocks.

ghost use Rattle.std.specs.Prelude.{◌≡◌, ◌<◌, ◌≤◌, ◌+◌, ◌%◌};
ghost use Rattle.ghost_model.specs.forms.Runs as runs;
ghost use Rattle.ghost_model.specs.forms.Layout as layout;
ghost use Rattle.ghost_base.specs.Runs.{run_of};

use ghost_base::runs::Run;

/// The bytes of a page.
pub const PAGE_BYTES: u32 = 2048;

/// The pages of a block.
pub const BLOCK_PAGES: u32 = 64;

/// How many pages so many records of a width need, at most 1,004,096 records of 1 to 2,048 bytes.
pub fn pages(count: u32, width: u32) -> u32
    requires some { 0 < width }
    requires fits { width ≤ 2048 }
    requires rows { count ≤ 1004096 }
    ensures value { result ≡ runs.pages_of count width }
    ensures most { result ≤ count }
{
    let each = PAGE_BYTES / width;
    (count + (each - 1)) / each
}

/// The number of pages of a run, which has at most 1,004,096 records of 1 to 2,048 bytes.
pub fn run_pages(run: &Run) -> u32
    requires some { 0 < run.now.width }
    requires fits { run.now.width ≤ 2048 }
    requires rows { run.now.count ≤ 1004096 }
    ensures value { result ≡ runs.run_pages (run_of run.now) }
    ensures most { result ≤ run.now.count }
{
    pages(run.count, run.width)
}

/// So many pages rounded up to whole blocks.
pub fn in_blocks(pages: u32) -> u32
    requires small { pages < 4000000000 }
    ensures value { result ≡ layout.in_blocks pages }
    ensures whole { result % 64 ≡ 0 }
    ensures low { pages ≤ result }
    ensures high { result ≤ pages + 63 }
{
    BLOCK_PAGES * ((pages + (BLOCK_PAGES - 1)) / BLOCK_PAGES)
}
