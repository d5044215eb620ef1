//! The asks of a session that are left: those of a script over a catalog, which are read as they come due.

ghost use Rattle.std.specs.Prelude.{◌≡◌, ◌≤◌, ◌==◌, ◌*◌, true, [], ◌∷◌, List, take, length, drop, map, IfSome, IfNone, IsTrue};
ghost use Rattle.std.specs.List.{list_all, list_any};
ghost use Rattle.ghost_model.specs.core.Asks as asked;
ghost use Rattle.ghost_model.specs.core.Schema.{is_empty};
ghost use Rattle.ghost_model.specs.core.Channel.{count_of as table_rows};
ghost use Rattle.ghost_model.specs.core.Texts.{texts_of};
ghost use Rattle.ghost_base.specs.Views.{kind_of};
ghost use Rattle.channel_codec.specs.AskViews.{ask_view};
ghost use Rattle.script_asks.specs.Left.{are_proper};
ghost use Rattle.channel_pump.specs.Asked.{AreAsked};
ghost use Rattle.channel_pump.specs.Forms.{Form, IsFirst, form_of};
ghost use Rattle.channel_pump.specs.Narrow.{is_narrow};
ghost use Rattle.channel_pump.specs.Scripts.{forms_asked, kinds_held, payload_held};
ghost use Rattle.channel_pump.specs.State as state;
ghost use Rattle.channel_pump.specs.Turning.{forms_after};

use crate::forms::AskForm;
use arrayvec::ArrayVec;
use channel_codec::ask::{Ask, kind_at, put_ask};
use channel_codec::frame::PAYLOAD_BYTES;
use ghost_base::Kind;
use ghost_base::limits::{MAX_COLUMNS, MAX_TABLES, MAX_TEXTS};
use script_asks::scripts::ScriptAsks;
use std::marker::Model;
use tree_schema::{Catalog, Schema};

/// The asks of a session that are left.
#[derive(Drop)]
pub struct Asks<'a> {
    catalog: &'a Catalog,
    asks: ScriptAsks<'a>,
    /// The payload of the first ask's frame stands at the front.
    payload: [u8; PAYLOAD_BYTES],
    /// How many bytes it has.
    size: usize,
    /// The kinds of the first ask's columns in their order.
    kinds: ArrayVec<Kind, MAX_COLUMNS>,
}

impl<'a> Model for Asks<'a> {
    ghost use Rattle.std.specs.Prelude.{List, take, map, ◌≤◌};
    ghost use Rattle.ghost_base.specs.Views.{kind_of};
    ghost use Rattle.channel_pump.specs.Forms.{Form};
    ghost use Rattle.channel_pump.specs.Scripts.{IsHeld, forms_asked};

    ghost Value = { List Form };

    ghost view = { λ left. forms_asked left.catalog.now left.asks };

    ghost invariant = { λ left. (left.size ≤ 2040)
        × IsHeld left.catalog.now left.asks (take left.size left.payload) (map kind_of left.kinds.items) };
}

/// The kinds of an ask's columns.
fn column_kinds(schema: &Schema, ask: &Ask) -> ArrayVec<Kind, MAX_COLUMNS>
    ensures kinds { map kind_of result.items ≡ asked.kinds_of schema.now (ask_view ask.now) }
    ensures narrow { IsTrue (list_all is_narrow (map kind_of result.items)) }
{
    let mut kinds = ArrayVec::new();
    let mut rest = ask.columns.as_slice();
    'columns: while let Some((column, later)) = rest.split_first() {
        kinds.push(kind_at(schema, ask.table as usize, *column as usize));
        rest = later;
    }
    kinds
}

/// The kinds of the columns of the first of some asks.
fn first_kinds(schema: &Schema, asks: &ScriptAsks) -> ArrayVec<Kind, MAX_COLUMNS>
    ensures kinds { map kind_of result.items ≡ kinds_held schema.now asks.now }
    ensures narrow { IsTrue (list_all is_narrow (map kind_of result.items)) }
{
    match asks.first() {
        Some((_text, ask)) => column_kinds(schema, ask),
        None => ArrayVec::new(),
    }
}

/// Writes the payload of the first of some asks, all of which are proper, over the front of `out`, and answers how many
/// bytes it has.
fn put_first(schema: &Schema, asks: &ScriptAsks, out: &mut [u8; PAYLOAD_BYTES]) -> usize
    requires proper { are_proper schema.now asks.now ≡ true }
    ensures bytes { take result out.new ≡ payload_held schema.now asks.now }
    ensures most { result ≤ 2040 }
{
    match asks.first() {
        Some((_text, ask)) => put_ask(schema, ask, out),
        None => 0,
    }
}

/// The number of rows of a table of a catalog.
fn row_count(catalog: &Catalog, table: usize) -> u32
    ensures rows { result ≡ table_rows catalog.now table }
{
    catalog.rows(table).unwrap_or(0)
}

impl<'a> Asks<'a> {
    /// All asks of a script of at most 64 texts over a catalog.
    pub(crate) fn new(catalog: &'a Catalog, script: &'a [u8]) -> Self
        requires few { length (texts_of script.now) ≤ MAX_TEXTS }
        ensures asked { AreAsked catalog.now result (asked.asked_of catalog.now.schema (texts_of script.now)) }
        ensures count { length result ≤ MAX_TABLES * MAX_TEXTS }
    {
        let asks = ScriptAsks::new(catalog.schema(), script);
        let mut payload = [0; PAYLOAD_BYTES];
        let size = put_first(catalog.schema(), &asks, &mut payload);
        let kinds = first_kinds(catalog.schema(), &asks);
        Asks {
            catalog,
            asks,
            payload,
            size,
            kinds,
        }
    }

    /// The first ask, as the pump needs it.
    pub(crate) fn first(&self) -> Option<AskForm<'_>>
        ensures some { IfSome result (λ form. (later : List Form) × (self.now ≡ form_of form ∷ later)) }
        ensures none { IfNone result (self.now ≡ []) }
    {
        match self.asks.first() {
            Some((text, ask)) => Some(AskForm {
                text,
                ask,
                payload: &self.payload[..self.size],
                kinds: self.kinds.as_slice(),
                rows: row_count(self.catalog, ask.table as usize),
            }),
            None => None,
        }
    }

    /// The first ask, and the number of its text.
    pub(crate) fn asked(&self) -> Option<(u32, &Ask)>
        ensures some { IfSome result (λ first. IsFirst self.now first.0 (ask_view first.1.now)) }
        ensures none { IfNone result (self.now ≡ []) }
    {
        self.asks.first()
    }

    /// Whether an ask of this text is left.
    pub(crate) fn has_text(&self, text: u32) -> bool
        ensures any { result ≡ list_any (λ form. form.text == text) self.now }
    {
        self.asks.has_text(text)
    }

    /// Whether none is left.
    pub(crate) fn is_empty(&self) -> bool
        ensures none { result ≡ is_empty self.now }
    {
        self.first().is_none()
    }

    /// The payload of the first ask's frame, and no bytes where there is none.
    pub(crate) fn payload(&self) -> &[u8]
        ensures value { result.now ≡ state.first_payload self.now }
        ensures short { length result.now ≤ 2040 }
    {
        match self.first() {
            Some(form) => form.payload,
            None => &[],
        }
    }

    /// Leaves the first ask out.
    pub(crate) fn leave_out(&mut self)
        ensures rest { self.new ≡ drop 1 self.old }
    {
        self.asks.leave_out();
        self.size = put_first(self.catalog.schema(), &self.asks, &mut self.payload);
        self.kinds = first_kinds(self.catalog.schema(), &self.asks);
    }

    /// Leaves those at the front out that are of this text.
    pub(crate) fn give_up(&mut self, text: u32)
        ensures rest { self.new ≡ forms_after text self.old }
    {
        self.asks.give_up(text);
        self.size = put_first(self.catalog.schema(), &self.asks, &mut self.payload);
        self.kinds = first_kinds(self.catalog.schema(), &self.asks);
    }
}
