//! Laws of what was read back.

ghost use Rattle.flash_build.specs.Rejoined.{LegalPartsRejoin};

use flash_layout::limits::a_catalog_has_a_layout;
use tree_schema::Catalog;
use tree_schema::catalog_bytes::a_catalog_is_short;

/// A public and a hidden part that go with one catalog, where each foreign key names a row, are the two parts of a database: of the
/// two rejoined.
pub fn legal_parts_rejoin(cat: &Catalog)
    ensures rejoin { LegalPartsRejoin cat.now }
{
    a_catalog_has_a_layout(cat);
    a_catalog_is_short(cat);
}
