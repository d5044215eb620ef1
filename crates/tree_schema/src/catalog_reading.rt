//! Catalogs from their bytes.

ghost use Rattle.std.specs.Prelude.{◌≡◌, ℕ, ◌≤◌, ◌++◌, true, false, List, length, IsTrue, IfSome, IfNone, IsSomeAnd};
ghost use Rattle.std.specs.Int.{from_be_bytes, w32};
ghost use Rattle.ghost_model.specs.core.Channel as channel;
ghost use Rattle.ghost_model.specs.forms.Catalog as catalog;
ghost use Rattle.tree_schema.specs.Catalogs.{are_counts};
ghost use Rattle.tree_schema.specs.CatalogParts.{HasParts, AreParts, BeginsWithCount};
ghost use Rattle.tree_schema.specs.Views.{version_of};

use crate::catalog_bytes::{
    HEAD_BYTES, VERSION_AT, a_catalog_is_short, catalog_len, is_catalog_part,
};
use crate::reading::read_schema;
use crate::{Catalog, Schema, Version};
use arrayvec::ArrayVec;
use ghost_base::limits::{MAX_ROWS, MAX_TABLES};

/// The bytes of a number of four bytes.
const NUMBER_BYTES: usize = 4;

/// What bytes that may begin with a catalog have behind its mark.
#[derive(Clone, Copy)]
pub struct Parts<'a> {
    /// The version.
    pub version: Version,

    /// The generation.
    pub generation: u32,

    /// The bytes in the place of the canonical text.
    pub text: &'a [u8],

    /// The bytes behind them.
    pub later: &'a [u8],
}

/// The number that four bytes spell.
fn number_of(bytes: &[u8]) -> u32
    requires four { length bytes.now ≡ 4 }
    ensures value { result ≡ from_be_bytes w32 bytes.now }
{
    u32::from_be_bytes([bytes[0], bytes[1], bytes[2], bytes[3]])
}

/// The parts of bytes, as far as their version is one and they are as long as they say.
pub fn parts_of<'a>(bytes: &'a [u8]) -> Option<Parts<'a>>
    ensures only { (version generation : ℕ) (text later : List ℕ) → HasParts bytes.now version generation text later → IsSomeAnd result (λ parts. AreParts parts version generation text later) }
{
    if bytes.len() < HEAD_BYTES {
        return None;
    }
    let (head, body) = bytes.split_at(HEAD_BYTES);
    let Some(version) = Version::of(head[VERSION_AT]) else {
        return None;
    };
    let (_mark, numbers) = head.split_at(HEAD_BYTES - 2 * NUMBER_BYTES);
    let (generation, size) = numbers.split_at(NUMBER_BYTES);
    let text_len = number_of(size) as usize;
    if body.len() < text_len {
        return None;
    }
    let (text, later) = body.split_at(text_len);
    Some(Parts {
        version,
        generation: number_of(generation),
        text,
        later,
    })
}

/// The number of rows at the front of bytes, and the bytes behind it.
fn count_of<'a>(bytes: &'a [u8]) -> Option<(u32, &'a [u8])>
    ensures found { IfSome result (λ found. BeginsWithCount bytes.now found.0 found.1.now) }
    ensures only { (count : ℕ) (later : List ℕ) → BeginsWithCount bytes.now count later → IsSomeAnd result (λ found. (found.0 ≡ count) × (found.1.now ≡ later)) }
{
    if bytes.len() < NUMBER_BYTES {
        return None;
    }
    let (number, later) = bytes.split_at(NUMBER_BYTES);
    let rows = number_of(number);
    if rows > MAX_ROWS {
        return None;
    }
    Some((rows, later))
}

/// The numbers of rows of so many tables at the front of bytes.
fn counts_of(bytes: &[u8], tables: usize) -> Option<ArrayVec<u32, MAX_TABLES>>
    requires few { tables ≤ MAX_TABLES }
    ensures one_each { IfSome result (λ counts. length counts.items ≡ tables) }
    ensures within { IfSome result (λ counts. IsTrue (are_counts counts.items)) }
    ensures only { (counts later : List ℕ) → length counts ≡ tables → IsTrue (are_counts counts) → bytes.now ≡ catalog.counts_bytes counts ++ later → IsSomeAnd result (λ found. found.items ≡ counts) }
{
    let mut counts = ArrayVec::new();
    let mut rest = bytes;
    while counts.len() < tables {
        let Some((rows, later)) = count_of(rest) else {
            return None;
        };
        counts.push(rows);
        rest = later;
    }
    Some(counts)
}

/// Whether bytes begin with those of a catalog.
fn begins_with(bytes: &[u8], cat: &Catalog) -> bool
    ensures yes { result ≡ true → (rest : List ℕ) × (bytes.now ≡ catalog.catalog_bytes cat.now ++ rest) }
    ensures no { result ≡ false → (rest : List ℕ) → bytes.now ≡ catalog.catalog_bytes cat.now ++ rest → ⊥ }
{
    let count = catalog_len(cat) as usize;
    if bytes.len() < count {
        return false;
    }
    let (front, _rest) = bytes.split_at(count);
    is_catalog_part(cat, 0, front)
}

/// The catalog of this version, generation and schema with which bytes begin, whose numbers of rows begin these bytes.
fn catalog_with(
    bytes: &[u8],
    version: Version,
    schema: Schema,
    generation: u32,
    counts: &[u8],
) -> Option<Catalog>
    ensures begins { IfSome result (λ cat. catalog.BeginsWithCatalog bytes.now cat) }
    ensures none { IfNone result ((cat : channel.Catalog) (later : List ℕ) → catalog.BeginsWithCatalog bytes.now cat → cat.version ≡ version_of version → cat.schema ≡ schema → cat.generation ≡ generation → counts.now ≡ catalog.counts_bytes cat.counts ++ later → ⊥) }
{
    if generation == 0 {
        return None;
    }
    let Some(counts) = counts_of(counts, schema.tables()) else {
        return None;
    };
    let cat = Catalog::of_version(version, schema, counts, generation);
    a_catalog_is_short(&cat);
    if begins_with(bytes, &cat) {
        Some(cat)
    } else {
        None
    }
}

/// The catalog with which bytes begin. There is none exactly where no front of the bytes spells a catalog; where there is
/// one, it is of the version that its bytes tell, has `catalog_len` bytes, and what stands behind them is left alone.
pub fn read_catalog(bytes: &[u8]) -> Option<Catalog>
    ensures begins { IfSome result (λ cat. catalog.BeginsWithCatalog bytes.now cat) }
    ensures none { IfNone result ((cat : channel.Catalog) → catalog.BeginsWithCatalog bytes.now cat → ⊥) }
{
    ghost_model::schema::one_schema_reading();
    ghost_model::catalogs::no_catalog_is_long();
    let Some(parts) = parts_of(bytes) else {
        return None;
    };
    match read_schema(parts.text) {
        Ok(schema) => catalog_with(bytes, parts.version, schema, parts.generation, parts.later),
        Err(_) => None,
    }
}
