//! Cells of some kinds.

ghost use Rattle.std.specs.Prelude.{◌≡◌, map, IsTrue};
ghost use Rattle.std.specs.List.{list_all};
ghost use Rattle.ghost_model.specs.core.NextMove as next;
ghost use Rattle.ghost_base.specs.Views.{kind_of};
ghost use Rattle.visible_spool.specs.Replies.{is_narrow};

use ghost_base::{Kind, cell_width, decode_cell};

/// Whether bytes are cells of these kinds, and nothing else.
pub(crate) fn are_cells(kinds: &[Kind], cells: &[u8]) -> bool
    requires narrow { IsTrue (list_all is_narrow (map kind_of kinds.now)) }
    ensures cells { result ≡ next.are_cells (map kind_of kinds.now) cells.now }
{
    let mut rest = kinds;
    let mut bytes = cells;
    'kinds: while let Some((kind, later)) = rest.split_first() {
        let width = cell_width(*kind);
        if bytes.len() < width {
            return false;
        }
        let (cell, after) = bytes.split_at(width);
        if decode_cell(*kind, cell).is_none() {
            return false;
        }
        bytes = after;
        rest = later;
    }
    bytes.is_empty()
}
