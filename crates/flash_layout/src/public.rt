//! What depends on the version alone: how many pages are public, and how many scratch areas there are.

ghost use Rattle.std.specs.Prelude.{◌≡◌, ◌≤◌};
ghost use Rattle.ghost_model.specs.forms.Layout as layout;

use tree_schema::{Catalog, Version};

/// The number of public pages, which lie before all others: 64 for the catalog's bytes, and at version 2 a block for the gate and one
/// for each of two headers.
pub fn public_pages(cat: &Catalog) -> u32
    ensures pages { result ≡ layout.public_pages cat.now }
    ensures most { result ≤ 256 }
    ensures catalog { 64 ≤ result }
{
    match cat.version() {
        Version::One => 64,
        Version::Two => 256,
    }
}

/// How many scratch areas there are: six at version 1, and eight at version 2.
pub fn scratch_count(cat: &Catalog) -> u32
    ensures count { result ≡ layout.scratch_count cat.now }
    ensures most { result ≤ 8 }
    ensures least { 6 ≤ result }
{
    match cat.version() {
        Version::One => 6,
        Version::Two => 8,
    }
}
