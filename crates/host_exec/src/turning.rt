//! How a frame of the key is answered.

ghost use Rattle.std.specs.Prelude.{◌≡◌, ◌≤◌, ◌<◌, ◌^◌, ℕ, List, Some, None, length, slice_index, IfSome, IfNone, All, true};
ghost use Rattle.ghost_model.specs.core.Channel as channel;
ghost use Rattle.ghost_model.specs.readings.AskReading as reading;
ghost use Rattle.channel_codec.specs.Views.{frame_view};
ghost use Rattle.host_exec.specs.Saying as saying;
ghost use Rattle.host_exec.specs.RowBytes.{form_of};
ghost use Rattle.host_exec.specs.FormViews.{form_view};
ghost use Rattle.host_exec.specs.Taken.{TakesAsk};

use crate::reply::{Reply, reply_of};
use crate::stage::Stage;
use channel_codec::asking::ask_of;
use channel_codec::frame::Frame;
use tree_schema::Catalog;

/// The stage that a frame of the key leads to, if it is no ask and comes in its place.
pub fn next_stage(stage: Stage, frame: &Frame) -> Option<Stage>
    ensures turned { result ≡ saying.turned stage (frame_view frame.now) }
{
    match (stage, frame) {
        (Stage::Greeting, Frame::Hello { .. }) => Some(Stage::Welcoming { at: 0 }),
        (Stage::Listening { .. }, Frame::Bye) => Some(Stage::Over),
        (
            Stage::Replying {
                serial,
                place,
                sent,
            },
            Frame::More { serial: other },
        ) if *other == serial => Some(Stage::Answering {
            serial,
            place,
            sent,
        }),
        _ => None,
    }
}

/// The number of rows of a table, and 0 where there is no such table.
pub(crate) fn rows_of(catalog: &Catalog, table: usize) -> u32
    ensures rows { result ≡ slice_index catalog.now.counts table }
    ensures few { result ≤ 1_000_000 }
{
    let _ = catalog.schema();
    match catalog.rows(table) {
        None => 0,
        Some(rows) => rows,
    }
}

/// Where the rows of a table begin in the file, and 0 where there is no such table.
pub(crate) fn start_of(starts: &[u64], table: usize) -> u64
    requires { All (λ start. start < 2 ^ 63) starts.now }
    ensures start { result ≡ slice_index starts.now table }
    ensures within { result < 2 ^ 63 }
{
    if table < starts.len() {
        starts[table]
    } else {
        0
    }
}

/// The reply to the ask that a payload spells, if it spells one.
pub fn take_ask(catalog: &Catalog, starts: &[u64], payload: &[u8]) -> Option<Reply>
    requires { All (λ start. start < 2 ^ 63) starts.now }
    ensures taken { IfSome result (λ reply. TakesAsk catalog.now starts.now payload.now reply) }
    ensures none { IfNone result (reading.ask_in catalog.now.schema payload.now ≡ None) }
{
    let schema = catalog.schema();
    let ask = ask_of(schema, payload)?;
    let table = ask.table as usize;
    let start = start_of(starts, table);
    let rows = rows_of(catalog, table);
    Some(reply_of(schema, &ask, start, rows))
}
