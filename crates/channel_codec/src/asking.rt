//! The ask that bytes spell.

ghost use Rattle.std.specs.Prelude.{ℕ, List, ◌≡◌, ◌≤◌, ◌+◌, true, None, bytes_eq, length, map, take, drop, slice_index, option_map, IfSome, IfNone};
ghost use Rattle.ghost_model.specs.core.Asks as asks;
ghost use Rattle.ghost_model.specs.readings.AskReading as reading;
ghost use Rattle.ghost_model.specs.core.Schema.{Kind as Kinds, plain_of};
ghost use Rattle.ghost_model.specs.forms.Cells as cells;
ghost use Rattle.ghost_model.specs.readings.CellReading as cell_reading;
ghost use Rattle.ghost_base.specs.Views.{kind_of, operator_of, test_of, value_of};
ghost use Rattle.channel_codec.specs.AskViews.{test_view, ask_view};

use crate::ask::{Ask, ColumnTest, is_proper, kind_at, put_ask};
use crate::bytes::{behind, byte_at, front};
use crate::frame::PAYLOAD_BYTES;
use arrayvec::ArrayVec;
use ghost_base::limits::{MAX_CHARS, MAX_COLUMNS, MAX_CONDITIONS};
use ghost_base::value::Value;
use ghost_base::{Kind, Operator, Test, Text64, cell_width, decode_cell};
use ghost_model::channel::asks_have_one_spelling;
use tree_schema::Schema;
use tree_schema::schema::schemas_are_trees;

/// The operator of a byte from 1 to 6.
fn operator_in(code: u8) -> Operator
    ensures { operator_of result ≡ reading.operator_of code }
{
    match code {
        1 => Operator::Equal,
        2 => Operator::Unequal,
        3 => Operator::Less,
        4 => Operator::AtMost,
        5 => Operator::More,
        _ => Operator::AtLeast,
    }
}

/// The value of a cell, and the empty text where it spells none.
fn value_in(kind: Kind, cell: &[u8]) -> Value
    requires { cells.cell_width (plain_of (kind_of kind)) ≤ MAX_CHARS }
    ensures { value_of result ≡ reading.value_or_none (cell_reading.decode_cell (kind_of kind) cell.now) }
{
    match decode_cell(kind, cell) {
        None => Value::Chars(Text64::of(&[])),
        Some(value) => value,
    }
}

/// Whether the byte of a code says that the next condition is of its group, and the code.
fn code_in(byte: u8) -> (bool, u8)
    ensures more { result.0 ≡ reading.says_more byte }
    ensures code { result.1 ≡ reading.code_in byte }
{
    if byte >= 128 {
        (true, byte - 128)
    } else {
        (false, byte)
    }
}

/// How many bytes a literal's cell has after a code.
fn literal_width(kind: Kind, code: u8) -> usize
    ensures width { result ≡ reading.literal_width (kind_of kind) code }
{
    if code == 7 || code == 8 {
        0
    } else {
        cell_width(kind.plain())
    }
}

/// The test of a code, with the literal of the cell behind it, if it has one.
fn test_with(code: u8, literal: Value) -> Test
    ensures test { (kind : Kinds) (cell : List ℕ) → value_of literal ≡ reading.value_or_none (cell_reading.decode_cell (plain_of kind) cell)
        → test_of result ≡ reading.test_with kind code cell }
{
    match code {
        7 => Test::IsNull,
        8 => Test::IsNotNull,
        _ => Test::Compared(operator_in(code), literal),
    }
}

/// The conditions, so many, that the front of some bytes may spell.
fn tests_in(
    schema: &Schema,
    table: usize,
    count: usize,
    bytes: &[u8],
) -> ArrayVec<ColumnTest, MAX_CONDITIONS>
    requires { count ≤ MAX_CONDITIONS }
    ensures { map test_view result.items ≡ reading.tests_in schema.now table count bytes.now }
{
    let mut tests = ArrayVec::new();
    let mut left = count;
    let mut rest = bytes;
    'tests: while left > 0 {
        let column = byte_at(rest, 0);
        let (more, code) = code_in(byte_at(rest, 1));
        let kind = kind_at(schema, table, column as usize);
        let width = literal_width(kind, code);
        let value = value_in(kind.plain(), front(behind(rest, 2), width));
        let test = test_with(code, value);
        tests.push(ColumnTest { column, test, more });
        rest = behind(rest, 2 + width);
        left -= 1;
    }
    tests
}

/// The columns of an ask.
fn columns_in(columns: &[u8]) -> ArrayVec<u8, MAX_COLUMNS>
    requires { length columns.now ≤ MAX_COLUMNS }
    ensures { result.items ≡ columns.now }
{
    let mut kept = ArrayVec::new();
    let _ = kept.try_extend_from_slice(columns);
    kept
}

/// The only ask that bytes may spell, and `None` where they spell none for its size.
fn ask_like(schema: &Schema, payload: &[u8]) -> Option<Ask>
    ensures like { IfSome result (λ ask. ask_view ask ≡ reading.ask_like schema.now payload.now) }
    ensures none { IfNone result (reading.ask_in schema.now payload.now ≡ None) }
{
    let _ = schema.tables();
    schemas_are_trees();
    asks_have_one_spelling();
    let table = byte_at(payload, 0);
    let columns = byte_at(payload, 1) as usize;
    if columns > MAX_COLUMNS {
        return None;
    }
    let after = behind(payload, 2 + columns);
    let tests = byte_at(after, 0) as usize;
    if tests > MAX_CONDITIONS {
        return None;
    }
    Some(Ask {
        table,
        columns: columns_in(front(behind(payload, 2), columns)),
        tests: tests_in(schema, table as usize, tests, behind(after, 1)),
    })
}

/// Whether bytes are the payload of an ask.
fn is_payload(schema: &Schema, ask: &Ask, payload: &[u8]) -> bool
    requires { asks.is_proper_ask schema.now (ask_view ask.now) ≡ true }
    ensures { result ≡ bytes_eq (asks.ask_payload schema.now (ask_view ask.now)) payload.now }
{
    let mut places = [0; PAYLOAD_BYTES];
    let count = put_ask(schema, ask, &mut places);
    let (spelled, _rest) = places.split_at(count);
    spelled == payload
}

/// The ask whose payload bytes are, and `None` exactly where they are the payload of no ask that a key may send.
pub fn ask_of(schema: &Schema, payload: &[u8]) -> Option<Ask>
    ensures ask { option_map ask_view result ≡ reading.ask_in schema.now payload.now }
{
    let ask = ask_like(schema, payload)?;
    if is_proper(schema, &ask) && is_payload(schema, &ask, payload) {
        Some(ask)
    } else {
        None
    }
}
