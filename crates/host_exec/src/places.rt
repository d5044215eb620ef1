//! Where the rows of each table begin in the visible file.

ghost use Rattle.std.specs.Prelude.{◌≡◌, ◌≤◌, ◌<◌, ◌*◌, ◌^◌, ℕ, List, length, slice_index, All};
ghost use Rattle.host_exec.specs.RowBytes as bytes;
ghost use Rattle.host_exec.specs.RowBytes.{table_start};
ghost use Rattle.host_exec.specs.Holdings.{AreStarts};

use crate::form::row_width;
use crate::turning::rows_of;
use arrayvec::ArrayVec;
use ghost_base::limits::MAX_TABLES;
use tree_schema::{Catalog, catalog_len};

/// Where the rows of each table begin, and where the file ends, in bytes.
#[derive(Drop)]
pub struct Places {
    pub starts: ArrayVec<u64, MAX_TABLES>,
    pub end: u64,
}

/// The bytes of the rows of a table.
fn table_bytes(catalog: &Catalog, table: usize) -> u64
    ensures bytes { result ≡ slice_index catalog.now.counts table * bytes.row_width catalog.now.schema table }
    ensures most { result ≤ 1_560_000_000 }
{
    let rows = rows_of(catalog, table);
    let width = row_width(catalog.schema(), table);
    rows as u64 * width as u64
}

/// Where the rows of the tables of a catalog stand in its file.
pub fn places_of(catalog: &Catalog) -> Places
    ensures starts { AreStarts catalog.now result.starts.items }
    ensures near { All (λ start. start < 2 ^ 63) result.starts.items }
    ensures end { result.end ≡ table_start catalog.now (length catalog.now.schema) }
    ensures within { result.end < 2 ^ 63 }
{
    let tables = catalog.schema().tables();
    let mut starts = ArrayVec::new();
    let mut end = catalog_len(catalog) as u64;
    let mut table = 0;
    'tables: while table < tables {
        starts.push(end);
        end += table_bytes(catalog, table);
        table += 1;
    }
    Places { starts, end }
}
