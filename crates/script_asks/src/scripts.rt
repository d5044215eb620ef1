//! The asks of the texts of a script, one at a time.

ghost use Rattle.std.specs.Prelude.{◌≡◌, ℕ, ◌+◌, ◌*◌, ◌<◌, ◌≤◌, ◌==◌, true, List, [], ◌∷◌, length, drop, map, IfSome, IfNone};
ghost use Rattle.std.specs.List.{list_any};
ghost use Rattle.ghost_model.specs.core.Schema.{Schema as Tables};
ghost use Rattle.ghost_model.specs.core.Asks as asks;
ghost use Rattle.ghost_model.specs.core.Asks.{NumberedAsk};
ghost use Rattle.ghost_model.specs.core.NextMove as next;
ghost use Rattle.ghost_model.specs.readings.QueryReading.{reading};
ghost use Rattle.ghost_model.specs.core.Texts as texts;
ghost use Rattle.channel_codec.specs.AskViews.{ask_view};
ghost use Rattle.script_asks.specs.Left.{are_numbered, are_proper, asked_left, hand_asks};

use crate::queries::next_ask;
use channel_codec::ask::Ask;
use ghost_base::limits::{MAX_TABLES, MAX_TEXTS};
use ghost_model::channel::{asks_are_few, asks_are_proper};
use spj_parse::laws::joins_count_once;
use spj_parse::{Query, Texts, read_query};
use std::marker::Model;
use std::mem;
use tree_schema::Schema;

/// The query of the text at hand, and its ask at hand.
#[derive(Drop)]
struct Hand {
    query: Query,
    ask: Ask,
}

/// The asks of a script that are left. A clause sees them as asks with the numbers of their texts, which are at most 64.
#[derive(Drop)]
pub struct ScriptAsks<'a> {
    schema: &'a Schema,
    texts: Texts<'a>,
    number: u32,
    hand: Option<Hand>,
}

impl<'a> Model for ScriptAsks<'a> {
    ghost use Rattle.std.specs.Prelude.{List, length, ◌+◌, ◌≤◌};
    ghost use Rattle.ghost_model.specs.core.Asks.{NumberedAsk};

    ghost Value = { List NumberedAsk };

    ghost use Rattle.script_asks.specs.Left.{asked_left};

    ghost view = { λ asks. asked_left asks.schema.now asks.number asks.hand asks.texts };

    ghost invariant = { λ asks. asks.number + length asks.texts ≤ 64 };
}

/// The first ask of the query that a text means.
fn hand_of(schema: &Schema, text: &[u8]) -> Option<Hand>
    ensures asks { hand_asks schema.now result ≡ asks.asks_of_reading schema.now (reading schema.now text.now) }
{
    joins_count_once();
    match read_query(schema, text) {
        Ok(query) => match next_ask(schema, &query, 0) {
            Some(ask) => Some(Hand { query, ask }),
            None => None,
        },
        Err(_) => None,
    }
}

/// Goes on to the next text that has an ask, if there is one, and to its first ask.
fn fetch<'a>(schema: &Schema, texts: &mut Texts<'a>, number: &mut u32) -> Option<Hand>
    requires few { number.old + length texts.old ≤ 64 }
    ensures left { asked_left schema.now number.new result texts.new ≡ asks.asked_from schema.now (number.old + 1) (map (reading schema.now) texts.old) }
    ensures few { number.new + length texts.new ≤ 64 }
    ensures later { IfSome result (λ _. number.old < number.new) }
{
    'texts: loop {
        let Some(text) = texts.next() else {
            return None;
        };
        *number += 1;
        let hand = hand_of(schema, text);
        if hand.is_some() {
            return hand;
        }
    }
}

/// Whether the text with this number is among some texts, the first of which has the number behind `number`, and is asked
/// anything.
fn is_asked(schema: &Schema, texts: &mut Texts, number: u32, text: u32) -> bool
    requires few { number + length texts.old ≤ 64 }
    ensures any { result ≡ list_any (λ asked. asked.text == text) (asks.asked_from schema.now (number + 1) (map (reading schema.now) texts.old)) }
{
    let mut number = number;
    'texts: loop {
        let Some(other) = texts.next() else {
            return false;
        };
        number += 1;
        if number == text {
            return hand_of(schema, other).is_some();
        }
    }
}

/// Goes on to the next text that has an ask where the one at hand is this text.
fn pass_text<'a>(
    schema: &Schema,
    texts: &mut Texts<'a>,
    number: &mut u32,
    hand: &mut Option<Hand>,
    text: u32,
)
    requires few { number.old + length texts.old ≤ 64 }
    ensures rest { asked_left schema.now number.new hand.new texts.new ≡ next.of_later_texts text (asked_left schema.now number.old hand.old texts.old) }
    ensures few { number.new + length texts.new ≤ 64 }
{
    if hand.is_some() && *number == text {
        *hand = fetch(schema, texts, number);
    }
}

impl<'a> ScriptAsks<'a> {
    /// All asks of a script of at most 64 texts over a schema.
    pub fn new(schema: &'a Schema, script: &'a [u8]) -> Self
        requires few { length (texts.texts_of script.now) ≤ 64 }
        ensures all { result ≡ asks.asked_of schema.now (texts.texts_of script.now) }
        ensures proper { are_proper schema.now result ≡ true }
        ensures numbered { are_numbered result ≡ true }
        ensures count { length result ≤ MAX_TABLES * MAX_TEXTS }
    {
        asks_are_few();
        asks_are_proper();
        let _tables = schema.tables();
        let mut texts = Texts::new(script);
        let mut number = 0;
        let hand = fetch(schema, &mut texts, &mut number);
        ScriptAsks {
            schema,
            texts,
            number,
            hand,
        }
    }

    /// The first ask, and the number of its text.
    pub fn first(&self) -> Option<(u32, &Ask)>
        ensures some { IfSome result (λ first. (later : List NumberedAsk) × (self.now ≡ asks.asked first.0 (ask_view first.1.now) ∷ later)) }
        ensures few { IfSome result (λ first. first.0 ≤ 64) }
        ensures proper { (schema : Tables) → are_proper schema self.now ≡ true
            → IfSome result (λ first. asks.is_proper_ask schema (ask_view first.1.now) ≡ true) }
        ensures none { IfNone result (self.now ≡ []) }
    {
        match &self.hand {
            Some(hand) => Some((self.number, &hand.ask)),
            None => None,
        }
    }

    /// Whether an ask of this text is left.
    pub fn has_text(&self, text: u32) -> bool
        ensures any { result ≡ list_any (λ asked. asked.text == text) self.now }
    {
        let Some(_hand) = &self.hand else {
            return false;
        };
        if self.number == text {
            return true;
        }
        is_asked(self.schema, &mut self.texts.again(), self.number, text)
    }

    /// Leaves the first ask out.
    pub fn leave_out(&mut self)
        ensures rest { self.new ≡ drop 1 self.old }
    {
        let Some(hand) = mem::take(&mut self.hand) else {
            return;
        };
        match next_ask(self.schema, &hand.query, hand.ask.table as usize + 1) {
            Some(ask) => {
                self.hand = Some(Hand {
                    query: hand.query,
                    ask,
                })
            }
            None => self.hand = fetch(self.schema, &mut self.texts, &mut self.number),
        }
    }

    /// Leaves those at the front out that are of this text.
    pub fn give_up(&mut self, text: u32)
        ensures rest { self.new ≡ next.of_later_texts text self.old }
    {
        pass_text(
            self.schema,
            &mut self.texts,
            &mut self.number,
            &mut self.hand,
            text,
        );
    }
}
