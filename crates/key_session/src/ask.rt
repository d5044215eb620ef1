//! The ask whose reply is at hand.

ghost use Rattle.std.specs.Prelude.{◌≡◌, ◌<◌, map, IsTrue};
ghost use Rattle.std.specs.List.{list_all};
ghost use Rattle.ghost_model.specs.core.Asks as asks;
ghost use Rattle.ghost_model.specs.core.Asks.{NumberedAsk};
ghost use Rattle.ghost_base.specs.Views.{kind_of};
ghost use Rattle.channel_codec.specs.AskViews.{ask_view};
ghost use Rattle.visible_spool.specs.Replies.{is_narrow};
ghost use Rattle.key_session.specs.Kept.{IsAskOf};

use arrayvec::ArrayVec;
use channel_codec::ask::{Ask, kind_at, row_width};
use ghost_base::Kind;
use ghost_base::limits::MAX_COLUMNS;
use tree_schema::Schema;

/// An ask, as far as its rows need it.
#[derive(Drop)]
pub struct AskAtHand {
    /// The text, by its number, and 0 before the first.
    pub text: u32,

    /// The table.
    pub table: usize,

    /// What the cells of a row hold.
    pub kinds: ArrayVec<Kind, MAX_COLUMNS>,

    /// How many bytes a row has.
    pub width: usize,
}

/// The kinds of an ask's columns.
fn column_kinds(schema: &Schema, ask: &Ask) -> ArrayVec<Kind, MAX_COLUMNS>
    ensures kinds { map kind_of result.items ≡ asks.kinds_of schema.now (ask_view ask.now) }
    ensures narrow { IsTrue (list_all is_narrow (map kind_of result.items)) }
{
    let mut kinds = ArrayVec::new();
    let mut rest = ask.columns.as_slice();
    'columns: while let Some((column, later)) = rest.split_first() {
        kinds.push(kind_at(schema, ask.table as usize, *column as usize));
        rest = later;
    }
    kinds
}

impl AskAtHand {
    /// No ask.
    pub(crate) fn none() -> AskAtHand
        ensures text { result.text ≡ 0 }
    {
        AskAtHand {
            text: 0,
            table: 0,
            kinds: ArrayVec::new(),
            width: 4,
        }
    }

    /// An ask of a text.
    pub(crate) fn of(schema: &Schema, text: u32, ask: &Ask) -> AskAtHand
        ensures text { result.text ≡ text }
        ensures ask { (asked : NumberedAsk) → 0 < asked.text → asked.text ≡ text → asked.ask ≡ ask_view ask.now → IsAskOf schema.now asked result }
    {
        AskAtHand {
            text,
            table: ask.table as usize,
            kinds: column_kinds(schema, ask),
            width: row_width(schema, ask),
        }
    }
}
