//! The rows of a reply, as the frames bring them.

ghost use Rattle.std.specs.Prelude.{◌≡◌, ℕ, ◌≤◌, ◌&&◌, true, length, map, nat_lt, nat_le, IsTrue, IfSome, is_some, drop, slice_index};
ghost use Rattle.std.specs.List.{list_all};
ghost use Rattle.ghost_model.specs.core.Asks.{row_in};
ghost use Rattle.ghost_model.specs.core.NextMove as next;
ghost use Rattle.ghost_base.specs.Views.{kind_of};
ghost use Rattle.channel_pump.specs.Narrow.{is_narrow};
ghost use Rattle.channel_pump.specs.Asked.{form_kinds, width_of, rows_with};
ghost use Rattle.channel_pump.specs.Rows.{IsTally};

use crate::forms::AskForm;
use channel_codec::reading::number_in;
use ghost_base::{Kind, cell_width, decode_cell};

/// What is counted of the rows of one frame.
#[derive(Clone, Copy)]
pub(crate) struct Tally {
    /// How many rows there are.
    pub(crate) rows: u32,
    /// The identifier of the last one, or that of the row before where there is none.
    pub(crate) last: u32,
}

/// The bytes of a row: its identifier and its cells.
pub(crate) fn row_width(kinds: &[Kind]) -> usize
    requires few { length kinds.now ≤ 24 }
    requires narrow { IsTrue (list_all is_narrow (map kind_of kinds.now)) }
    ensures width { result ≡ width_of (map kind_of kinds.now) }
    ensures some { 4 ≤ result }
    ensures most { result ≤ 1564 }
{
    let mut width = 4;
    let mut rest = kinds;
    'kinds: while let Some((kind, later)) = rest.split_first() {
        width += cell_width(*kind);
        rest = later;
    }
    width
}

/// Whether bytes are cells of these kinds, and nothing else.
fn are_cells(kinds: &[Kind], cells: &[u8]) -> bool
    requires { IsTrue (list_all is_narrow (map kind_of kinds.now)) }
    ensures { result ≡ next.are_cells (map kind_of kinds.now) cells.now }
{
    let mut rest = kinds;
    let mut bytes = cells;
    'kinds: while let Some((kind, later)) = rest.split_first() {
        let width = cell_width(*kind);
        if bytes.len() < width {
            return false;
        }
        let (cell, after) = bytes.split_at(width);
        if decode_cell(*kind, cell).is_none() {
            return false;
        }
        bytes = after;
        rest = later;
    }
    bytes.is_empty()
}

/// Whether a row may come after one with this identifier: its own is above that one and at most the number of rows, and
/// its cells spell values.
fn row_fits(form: &AskForm, last: u32, row: &[u8]) -> bool
    requires { 4 ≤ length row.now }
    ensures { result ≡ (nat_lt last (row_in row.now).identifier && nat_le (row_in row.now).identifier form.now.rows
        && next.are_cells (map kind_of form.now.kinds.now) (row_in row.now).cells) }
{
    let identifier = number_in(row);
    let (_identifier, cells) = row.split_at(4);
    last < identifier && identifier <= form.rows && are_cells(form.kinds, cells)
}

/// Counts the rows of a frame, if each may come where it stands.
pub(crate) fn read_rows(form: &AskForm, last: u32, payload: &[u8]) -> Option<Tally>
    ensures fits { is_some result ≡ next.rows_fit form.now.rows last (map kind_of form.now.kinds.now) (rows_with (map kind_of form.now.kinds.now) payload.now) }
    ensures tally { IfSome result (λ tally. IsTally last form.now.rows (rows_with (map kind_of form.now.kinds.now) payload.now) tally) }
{
    let width = row_width(form.kinds);
    let mut left = payload.len() / width;
    let mut rest = payload;
    let mut rows = 0;
    let mut before = last;
    'rows: while left > 0 {
        let (row, later) = rest.split_at(width);
        if !row_fits(form, before, row) {
            return None;
        }
        before = number_in(row);
        rows += 1;
        left -= 1;
        rest = later;
    }
    Some(Tally { rows, last: before })
}
