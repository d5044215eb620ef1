//! The line that is printed after a loading.

ghost use Rattle.std.specs.Prelude.{◌≡◌, ◌≤◌, ◌<◌, ◌*◌, OnOk, OnErr, length};
ghost use Rattle.std.specs.List.{sum};
ghost use Rattle.ghost_model.specs.core.Causes.{HasCause};
ghost use Rattle.edge_traits.specs.Written.{grown, GrowsByFront};
ghost use Rattle.key_load.specs.Loadings.{loaded_line};

use edge_traits::Failed;
use edge_traits::sink::Sink;
use edge_traits::writing::write_all;
use flash_layout::limits::a_catalog_has_a_layout;
use key_lines::line::{Line, put, put_number};
use tree_schema::Catalog;

/// The number of all rows of a catalog.
pub fn rows_of(cat: &Catalog) -> u64
    ensures value { result ≡ sum cat.now.counts }
{
    a_catalog_has_a_layout(cat);
    let mut rows = 0;
    for table in 0..cat.schema().tables() {
        rows += u64::from(cat.rows(table).unwrap_or(0));
    }
    rows
}

/// Prints how many tables and rows were loaded to how many pages.
pub(crate) fn print_line<O: Sink>(cat: &Catalog, pages: u32, out: &mut O) -> Result<(), Failed>
    ensures cause { HasCause (O.faults out.old) (O.faults out.new) result }
    ensures printed { OnOk result (O.written out.new ≡ grown (O.written out.old) (loaded_line cat.now pages)) }
    ensures failed { OnErr result (GrowsByFront (O.written out.old) (loaded_line cat.now pages) (O.written out.new)) }
{
    let mut line = Line::new();
    put(&mut line, b"= tables ");
    put_number(&mut line, cat.schema().tables() as u64);
    put(&mut line, b" rows ");
    put_number(&mut line, rows_of(cat));
    put(&mut line, b" pages ");
    put_number(&mut line, u64::from(pages));
    put(&mut line, b"\n");
    write_all(out, line.as_slice())
}
