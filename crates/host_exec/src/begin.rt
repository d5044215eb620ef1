//! How a host begins: it reads the visible file through once.

ghost use Rattle.std.specs.Prelude.{◌≡◌, ◌≤◌, ◌<◌, ◌^◌, ℕ, List, Some, Err, length, IfOk, IfSome, MatchBool, MatchOption, All, is_ok, true};
ghost use Rattle.ghost_model.specs.core.Causes.{HasCause, Rose};
ghost use Rattle.ghost_model.specs.forms.Catalog.{BeginsWithCatalog};
ghost use Rattle.edge_traits.specs.Files.{file_of};
ghost use Rattle.host_exec.specs.RowBytes.{table_start};
ghost use Rattle.host_exec.specs.Holdings.{AreStarts};
ghost use Rattle.host_exec.specs.Checked.{IsChecked, IsImage, IsNoImage};

use crate::checking::{check_tables, ends_at};
use crate::filling::fill;
use crate::places::{Places, places_of};
use edge_traits::Failed;
use edge_traits::depot::Depot;
use ghost_model::catalogs::{catalogs_have_one_spelling, no_catalog_is_long};
use tree_schema::{Catalog, read_catalog};

/// The bytes that a catalog has at most.
const CATALOG_BYTES: usize = 16_640;

/// A visible file: its catalog, and where the rows of its tables begin.
#[derive(Drop)]
pub struct Opened {
    pub catalog: Catalog,
    pub places: Places,
}

/// Whether a file ends where the tables of a catalog end, and its rows spell values.
pub(crate) fn check_file<D: Depot>(
    depot: &mut D,
    name: &str,
    catalog: &Catalog,
    places: &Places,
) -> Result<bool, Failed>
    requires starts { AreStarts catalog.now places.now.starts.items }
    requires near { All (λ start. start < 2 ^ 63) places.now.starts.items }
    requires end { places.now.end ≡ table_start catalog.now (length catalog.now.schema) }
    ensures cause { HasCause (D.faults depot.old) (D.faults depot.new) result }
    ensures appends { D.append_faults depot.new ≡ D.append_faults depot.old }
    ensures same { D.contents depot.new ≡ D.contents depot.old }
    ensures goes_well { D.sure depot.old name.now → is_ok result ≡ true }
    ensures stays_sure { D.sure depot.old name.now → D.sure depot.new name.now }
    ensures checked { IfOk result (λ good. (file : List ℕ) → file_of (D.contents depot.old) name.now ≡ Some file
        → MatchBool good (IsChecked catalog.now file) (IsChecked catalog.now file → ⊥)) }
{
    if !ends_at(depot, name, places.end)? {
        return Ok(false);
    }
    check_tables(catalog, &places.starts, depot, name)
}

/// The catalog of a visible file and where its tables stand; `None` exactly where its bytes are no visible image of the version
/// that is served.
pub fn open<D: Depot>(depot: &mut D, name: &str) -> Result<Option<Opened>, Failed>
    ensures cause { HasCause (D.faults depot.old) (D.faults depot.new) result }
    ensures appends { D.append_faults depot.new ≡ D.append_faults depot.old }
    ensures same { D.contents depot.new ≡ D.contents depot.old }
    ensures goes_well { D.sure depot.old name.now → is_ok result ≡ true }
    ensures stays_sure { D.sure depot.old name.now → D.sure depot.new name.now }
    ensures starts { IfOk result (λ opened. IfSome opened (λ o. AreStarts o.catalog o.places.starts.items)) }
    ensures near { IfOk result (λ opened. IfSome opened (λ o. All (λ start. start < 2 ^ 63) o.places.starts.items)) }
    ensures opened { IfOk result (λ opened. (file : List ℕ) → file_of (D.contents depot.old) name.now ≡ Some file
        → MatchOption opened (IsNoImage file) (λ o. IsImage o.catalog file)) }
{
    let mut head = [0; CATALOG_BYTES];
    fill(depot, name, 0, &mut head)?;
    no_catalog_is_long();
    catalogs_have_one_spelling();
    match read_catalog(&head) {
        None => Ok(None),
        Some(catalog) => {
            if !catalog.is_current() {
                return Ok(None);
            }
            let places = places_of(&catalog);
            if check_file(depot, name, &catalog, &places)? {
                Ok(Some(Opened { catalog, places }))
            } else {
                Ok(None)
            }
        }
    }
}
