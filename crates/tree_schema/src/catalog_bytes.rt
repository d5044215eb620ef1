//! The bytes of a catalog, in parts.

ghost use Rattle.std.specs.Prelude.{◌≡◌, ◌≤◌, ◌-◌, min, length, take, drop, bytes_eq};
ghost use Rattle.ghost_model.specs.forms.Catalog as catalog;
ghost use Rattle.tree_schema.specs.CatalogParts.{CatalogsAreShort};
ghost use Rattle.tree_schema.specs.Views.{version_of};
ghost use Rattle.tree_schema.specs.Windows.{pane, with_text};

use crate::canonical::put_schema;
use crate::window::Window;
use crate::{Catalog, Version};

/// The most bytes of a catalog.
pub const MAX_CATALOG: usize = 16_640;

/// The bytes of a catalog before its canonical text.
pub const HEAD_BYTES: usize = 16;

/// The place of the version among them, behind the mark.
pub const VERSION_AT: usize = 7;

/// The bytes that are compared at a time.
const PAGE_BYTES: usize = 2048;

/// Each catalog is one that both sides may share, and has at most 16,640 bytes.
pub fn catalogs_are_short()
    ensures short { CatalogsAreShort }
{
    ghost_model::schema::one_schema_reading();
    ghost_model::catalogs::a_catalog_of_each_text();
    ghost_model::catalogs::no_catalog_is_long();
}

/// A catalog is one that both sides may share, and has at most 16,640 bytes.
pub fn a_catalog_is_short(cat: &Catalog)
    ensures catalog { catalog.IsCatalog cat.now }
    ensures most { length (catalog.catalog_bytes cat.now) ≤ 16_640 }
{
    let _schema = cat.schema();
    let _generation = cat.generation();
    catalogs_are_short();
}

/// What stands before the canonical text, whose length is told.
fn put_head(window: &mut Window, out: &mut [u8], version: Version, generation: u32, text_len: u32)
    ensures text { pane window.new out.new ≡ with_text (pane window.old out.old) (catalog.catalog_head (version_of version) generation text_len) }
{
    window.put(out, b"GHOSTDB");
    window.put(out, &[version.number()]);
    window.put(out, &generation.to_be_bytes());
    window.put(out, &text_len.to_be_bytes());
}

/// The number of rows of each table.
fn put_counts(window: &mut Window, out: &mut [u8], cat: &Catalog)
    ensures text { pane window.new out.new ≡ with_text (pane window.old out.old) (catalog.counts_bytes cat.now.counts) }
{
    for table in 0..cat.schema().tables() {
        if let Some(rows) = cat.rows(table) {
            window.put(out, &rows.to_be_bytes());
        }
    }
}

/// The length of the canonical text. A window behind as many bytes as a catalog has at most is not reached by it, and
/// what is left to skip tells its length.
fn text_len(cat: &Catalog) -> u32
    ensures value { result ≡ length (catalog.canonical_text cat.now.schema) }
    ensures most { result ≤ 16_640 }
{
    a_catalog_is_short(cat);
    let mut window = Window {
        skip: MAX_CATALOG,
        filled: 0,
    };
    put_schema(&mut window, &mut [], cat.schema());
    (MAX_CATALOG - window.skip) as u32
}

/// The number of bytes of a catalog, at most 16,640.
pub fn catalog_len(cat: &Catalog) -> u16
    ensures value { result ≡ length (catalog.catalog_bytes cat.now) }
    ensures most { result ≤ 16_640 }
    ensures catalog { catalog.IsCatalog cat.now }
{
    a_catalog_is_short(cat);
    let tables = cat.schema().tables() as u32;
    (HEAD_BYTES as u32 + text_len(cat) + 4 * tables) as u16
}

/// The bytes of a catalog.
fn put_catalog(window: &mut Window, out: &mut [u8], cat: &Catalog)
    ensures text { pane window.new out.new ≡ with_text (pane window.old out.old) (catalog.catalog_bytes cat.now) }
{
    put_head(window, out, cat.version(), cat.generation(), text_len(cat));
    put_schema(window, out, cat.schema());
    put_counts(window, out, cat);
}

/// Writes the bytes of a catalog from place `at` on over the front of `out`, as many as there are and find room, and
/// answers how many that is. The bytes behind them stay.
pub fn catalog_part(cat: &Catalog, at: usize, out: &mut [u8]) -> usize
    ensures count { result ≡ min (length out.old) (length (catalog.catalog_bytes cat.now) - at) }
    ensures bytes { take result out.new ≡ take result (drop at (catalog.catalog_bytes cat.now)) }
    ensures rest { drop result out.new ≡ drop result out.old }
{
    let mut window = Window {
        skip: at,
        filled: 0,
    };
    put_catalog(&mut window, out, cat);
    window.filled
}

/// Whether bytes that a page holds are those of a catalog from place `at` on.
fn is_page_of_catalog(cat: &Catalog, at: usize, bytes: &[u8]) -> bool
    requires fits { length bytes.now ≤ 2048 }
    ensures same { result ≡ bytes_eq bytes.now (take (length bytes.now) (drop at (catalog.catalog_bytes cat.now))) }
{
    let mut page = [0; PAGE_BYTES];
    let (out, _rest) = page.split_at_mut(bytes.len());
    catalog_part(cat, at, out) == bytes.len() && *bytes == *out
}

/// Whether bytes are those of a catalog from place `at` on.
pub fn is_catalog_part(cat: &Catalog, at: usize, bytes: &[u8]) -> bool
    ensures same { result ≡ bytes_eq bytes.now (take (length bytes.now) (drop at (catalog.catalog_bytes cat.now))) }
{
    a_catalog_is_short(cat);
    let mut rest = bytes;
    let mut at = at;
    while !rest.is_empty() {
        let (piece, later) = rest.split_at(rest.len().min(PAGE_BYTES));
        if !is_page_of_catalog(cat, at, piece) {
            return false;
        }
        at += piece.len();
        rest = later;
    }
    true
}
