//! The bytes of a catalog that were not welcomed yet.

ghost use Rattle.std.specs.Prelude.{◌≡◌, ◌≤◌, length, take, drop, bytes_eq};
ghost use Rattle.ghost_model.specs.forms.Catalog.{catalog_bytes};

use std::marker::Model;
use tree_schema::Catalog;
use tree_schema::catalog_bytes::{a_catalog_is_short, catalog_len, is_catalog_part};

/// The bytes of a catalog that were not welcomed yet: those from a place on.
#[derive(Drop)]
pub struct Missing<'a> {
    cat: &'a Catalog,
    at: usize,
}

impl<'a> Model for Missing<'a> {
    ghost use Rattle.std.specs.Prelude.{ℕ, List, drop};
    ghost use Rattle.ghost_model.specs.forms.Catalog.{catalog_bytes};

    ghost Value = { List ℕ };

    ghost view = { λ missing. drop missing.at (catalog_bytes missing.cat.now) };
}

/// The place in the bytes of a catalog that comes so many bytes after another.
fn place_after(cat: &Catalog, at: usize, count: usize) -> usize
    requires some { count ≤ length (drop at (catalog_bytes cat.now)) }
    ensures rest { drop result (catalog_bytes cat.now) ≡ drop count (drop at (catalog_bytes cat.now)) }
{
    a_catalog_is_short(cat);
    if count == 0 { at } else { at + count }
}

impl<'a> Missing<'a> {
    /// All bytes of a catalog.
    pub(crate) fn new(cat: &'a Catalog) -> Self
        ensures bytes { result ≡ catalog_bytes cat.now }
    {
        Missing { cat, at: 0 }
    }

    /// How many bytes there are.
    pub(crate) fn len(&self) -> usize
        ensures count { result ≡ length self.now }
    {
        (catalog_len(self.cat) as usize).saturating_sub(self.at)
    }

    /// Whether they begin with these.
    pub(crate) fn begins_with(&self, part: &[u8]) -> bool
        ensures same { result ≡ bytes_eq part.now (take (length part.now) self.now) }
    {
        is_catalog_part(self.cat, self.at, part)
    }

    /// Leaves the first of them out.
    pub(crate) fn leave_out(&mut self, count: usize)
        requires { count ≤ length self.old }
        ensures rest { self.new ≡ drop count self.old }
    {
        self.at = place_after(self.cat, self.at, count);
    }
}
