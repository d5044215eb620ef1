//! A host.

ghost use Rattle.std.specs.Prelude.{◌≡◌, ◌<◌, ◌^◌, length, All};
ghost use Rattle.ghost_model.specs.forms.Catalog.{catalog_bytes};
ghost use Rattle.host_exec.specs.Saying.{IsWithin};

use crate::reply::Reply;
use crate::stage::Stage;
use arrayvec::ArrayVec;
use ghost_base::limits::MAX_TABLES;
use tree_schema::Catalog;

/// A host over a depot's visible file, of which it keeps the name, the catalog and where the rows of each table begin.
#[derive(Drop)]
pub struct Host {
    pub(crate) name: String,
    pub(crate) catalog: Catalog,
    pub(crate) starts: ArrayVec<u64, MAX_TABLES>,
    pub(crate) reply: Reply,
    pub(crate) stage: Stage,
    pub(crate) ghost near: { All (λ start. start < 2 ^ 63) starts.items },
    pub(crate) ghost within: { IsWithin (length (catalog_bytes catalog)) reply.rows reply.piece.rows stage },
}
