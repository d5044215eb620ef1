//! The line that is printed after a migration.

ghost use Rattle.std.specs.Prelude.{◌≡◌, OnOk, OnErr};
ghost use Rattle.ghost_model.specs.core.Causes.{HasCause};
ghost use Rattle.edge_traits.specs.Written.{grown, GrowsByFront};
ghost use Rattle.key_migrate.specs.Results.{migrated_line};

use edge_traits::Failed;
use edge_traits::sink::Sink;
use edge_traits::writing::write_all;
use key_lines::line::{Line, put, put_number};
use key_load::rows_of;
use tree_schema::Catalog;

/// The number of a catalog's version.
fn version_of(cat: &Catalog) -> u64
    ensures value { result ≡ cat.now.version }
{
    u64::from(cat.version().number())
}

/// Prints how many tables and rows were migrated, and to which version.
pub(crate) fn print_line<O: Sink>(cat: &Catalog, out: &mut O) -> Result<(), Failed>
    ensures cause { HasCause (O.faults out.old) (O.faults out.new) result }
    ensures printed { OnOk result (O.written out.new ≡ grown (O.written out.old) (migrated_line cat.now)) }
    ensures failed { OnErr result (GrowsByFront (O.written out.old) (migrated_line cat.now) (O.written out.new)) }
{
    let mut line = Line::new();
    put(&mut line, b"= migrated tables ");
    put_number(&mut line, cat.schema().tables() as u64);
    put(&mut line, b" rows ");
    put_number(&mut line, rows_of(cat));
    put(&mut line, b" version ");
    put_number(&mut line, version_of(cat));
    put(&mut line, b"\n");
    write_all(out, line.as_slice())
}
