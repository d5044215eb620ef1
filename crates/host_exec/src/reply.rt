//! What a reply is made of.

ghost use Rattle.std.specs.Prelude.{◌≡◌, ◌≤◌, ◌<◌, ◌/◌, ◌^◌, true};
ghost use Rattle.ghost_model.specs.core.Asks as asks;
ghost use Rattle.channel_codec.specs.AskViews.{ask_view};
ghost use Rattle.host_exec.specs.RowBytes.{reply_width, form_of, is_ended};
ghost use Rattle.host_exec.specs.FormViews.{form_view};
ghost use Rattle.host_exec.specs.Pieces.{HasFit};

use crate::form::{Form, form_of};
use crate::piece::Piece;
use arrayvec::ArrayVec;
use channel_codec::ask::{Ask, row_width};
use channel_codec::frame::PAYLOAD_BYTES;
use tree_schema::Schema;

/// A reply: its ask over the bytes of rows, where the rows of the table begin in the file, how many there are, how many of the
/// reply one frame has at most, and the rows that were read and not gone through yet.
#[derive(Drop)]
pub struct Reply {
    pub form: Form,
    pub start: u64,
    pub rows: u32,
    pub most: u32,
    pub piece: Piece,
    pub ghost few: { rows ≤ 1_000_000 },
    pub ghost ended: { is_ended (form_view form) ≡ true },
    pub ghost narrow: { form.width ≤ 1560 },
    pub ghost within: { start < 2 ^ 63 },
    pub ghost full: { most ≡ 2040 / reply_width (form_view form) },
    pub ghost some: { 0 < most },
    pub ghost fits: { HasFit form.width piece },
}

/// The reply to an ask, which is proper, of a table that has so many rows, where they begin in the file.
pub fn reply_of(schema: &Schema, ask: &Ask, start: u64, rows: u32) -> Reply
    requires proper { asks.is_proper_ask schema.now (ask_view ask.now) ≡ true }
    requires start { start < 2 ^ 63 }
    requires few { rows ≤ 1_000_000 }
    ensures form { form_view result.form ≡ form_of schema.now (ask_view ask.now) }
    ensures start { result.start ≡ start }
    ensures rows { result.rows ≡ rows }
    ensures none { result.piece.rows ≡ 0 }
{
    let form = form_of(schema, ask);
    let width = row_width(schema, ask);
    let most = (PAYLOAD_BYTES / width) as u32;
    Reply {
        form,
        start,
        rows,
        most,
        piece: Piece::new(),
    }
}

/// A reply of no rows.
pub fn no_reply() -> Reply
    ensures rows { result.rows ≡ 0 }
    ensures none { result.piece.rows ≡ 0 }
{
    let form = Form {
        width: 0,
        columns: ArrayVec::new(),
        checks: ArrayVec::new(),
    };
    Reply {
        form,
        start: 0,
        rows: 0,
        most: 510,
        piece: Piece::new(),
    }
}
