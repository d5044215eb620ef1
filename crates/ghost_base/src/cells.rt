//! Cells: the bytes of one value in a column of a kind.

ghost use Rattle.std.specs.Prelude.{◌≡◌, ◌≤◌, ◌++◌, ◌-◌, ◌==◌, false, length, replicate, IsTrue, IfSome, Some, option_map};
ghost use Rattle.std.specs.Int.{from_be_bytes, w64};
ghost use Rattle.std.specs.List.{list_all};
ghost use Rattle.ghost_model.specs.forms.Cells as cells;
ghost use Rattle.ghost_model.specs.readings.CellReading as reading;
ghost use Rattle.ghost_model.specs.refusals.Tokens.{is_printable};
ghost use Rattle.ghost_model.specs.core.Schema.{is_nullable, plain_of};
ghost use Rattle.ghost_base.specs.Views.{kind_of, value_of};
ghost use Rattle.ghost_model.specs.core.Database as database;

use crate::limits::MAX_CHARS;
use crate::text::put_padded;
use crate::{Kind, Text64, Value};

/// The number of bytes of a cell.
pub fn cell_width(kind: Kind) -> usize
    ensures { result ≡ cells.cell_width (kind_of kind) }
{
    match kind {
        Kind::Integer => 8,
        Kind::Chars(most) => most as usize,
        Kind::IntegerOrNull => 9,
        Kind::CharsOrNull(most) => most as usize + 1,
    }
}

/// Whether a value is of a kind: an integer, or a text of printable bytes, at most as many as the kind says; or NULL where
/// the kind allows it.
pub fn is_of_kind(kind: Kind, value: &Value) -> bool
    ensures { result ≡ database.is_of_kind (kind_of kind) (value_of value.now) }
{
    match (kind, value) {
        (Kind::Integer | Kind::IntegerOrNull, Value::Int(number)) => {
            // Read, so that the proof knows it as a number of 64 bits.
            let _number = *number;
            true
        }
        (Kind::Chars(most) | Kind::CharsOrNull(most), Value::Chars(text)) => {
            text.len() <= most as usize && is_printable_text(text.as_bytes())
        }
        (_, Value::Null) => kind.is_nullable(),
        _ => false,
    }
}

/// Writes the cell of a value, which is of the kind (`is_of_kind`), into as many bytes as it has.
#[tactic(auto, using(crate::proofs::CellSpelling::reads_back))]
pub fn encode_cell(kind: Kind, value: &Value, out: &mut [u8])
    requires kind { IsTrue (database.is_of_kind (kind_of kind) (value_of value.now)) }
    requires width { length out.old ≡ cells.cell_width (kind_of kind) }
    ensures cell { out.new ≡ cells.encode_cell (kind_of kind) (value_of value.now) }
    ensures spells { reading.decode_cell (kind_of kind) out.new ≡ Some (value_of value.now) }
{
    if value.is_null() {
        out.fill(0);
    } else if kind.is_nullable() {
        let (flag, cell) = out.split_at_mut(1);
        flag.fill(1);
        encode_plain(kind.plain(), value, cell);
    } else {
        encode_plain(kind, value, out);
    }
}

/// Writes the cell of a value in a column that may not be NULL.
fn encode_plain(kind: Kind, value: &Value, out: &mut [u8])
    requires plain { is_nullable (kind_of kind) ≡ false }
    requires kind { IsTrue (database.is_of_kind (kind_of kind) (value_of value.now)) }
    requires width { length out.old ≡ cells.cell_width (kind_of kind) }
    ensures cell { out.new ≡ cells.encode_cell (kind_of kind) (value_of value.now) }
{
    match (kind, value) {
        (Kind::Integer, Value::Int(number)) => {
            out.copy_from_slice(&above_lowest(*number).to_be_bytes());
        }
        (Kind::Chars(_), Value::Chars(text)) => put_padded(text.as_bytes(), out),
        _ => {}
    }
}

/// The value that bytes spell in a column of a kind, and `None` exactly where they spell none.
#[tactic(auto, using(crate::proofs::CellSpelling::spells_a_cell))]
pub fn decode_cell(kind: Kind, bytes: &[u8]) -> Option<Value>
    requires { cells.cell_width (plain_of (kind_of kind)) ≤ MAX_CHARS }
    ensures value { option_map value_of result ≡ reading.decode_cell (kind_of kind) bytes.now }
    ensures kind { IfSome result (λ value. IsTrue (database.is_of_kind (kind_of kind) (value_of value))) }
    ensures cell { IfSome result (λ value. cells.encode_cell (kind_of kind) (value_of value) ≡ bytes.now) }
{
    if !kind.is_nullable() {
        return decode_plain(kind, bytes);
    }
    let Some((flag, cell)) = bytes.split_first() else {
        return None;
    };
    match *flag {
        1 => decode_plain(kind.plain(), cell),
        0 if cell.len() == cell_width(kind.plain()) && is_zero(cell) => Some(Value::Null),
        _ => None,
    }
}

/// The value that bytes spell in a column that may not be NULL.
fn decode_plain(kind: Kind, bytes: &[u8]) -> Option<Value>
    requires plain { is_nullable (kind_of kind) ≡ false }
    requires width { cells.cell_width (kind_of kind) ≤ MAX_CHARS }
    ensures value { option_map value_of result ≡ reading.decode_cell (kind_of kind) bytes.now }
{
    if bytes.len() != cell_width(kind) {
        return None;
    }
    match kind {
        Kind::Integer => Some(Value::Int(from_lowest(distance_of(bytes)))),
        Kind::Chars(_) => {
            let text = text_in(bytes);
            if !is_printable_text(text) || !is_zero(&bytes[text.len()..]) {
                return None;
            }
            Some(Value::Chars(Text64::of(text)))
        }
        Kind::IntegerOrNull | Kind::CharsOrNull(_) => None,
    }
}

/// How far an integer is above the lowest of 64 bits.
fn above_lowest(number: i64) -> u64
    ensures { result ≡ cells.above_lowest number }
{
    if number >= 0 {
        (1u64 << 63) + number as u64
    } else {
        (1u64 << 63) - number.unsigned_abs()
    }
}

/// The integer that is so far above the lowest.
fn from_lowest(distance: u64) -> i64
    ensures { result ≡ reading.from_lowest distance }
{
    if distance >= 1u64 << 63 {
        (distance - (1u64 << 63)) as i64
    } else {
        -1 - ((1u64 << 63) - 1 - distance) as i64
    }
}

/// The number that eight bytes spell, the most significant first.
fn distance_of(cell: &[u8]) -> u64
    requires { length cell.now ≡ 8 }
    ensures { result ≡ from_be_bytes w64 cell.now }
{
    let mut bytes = [0; 8];
    bytes.copy_from_slice(cell);
    u64::from_be_bytes(bytes)
}

/// The bytes before the first zero byte.
fn text_in(cell: &[u8]) -> &[u8]
    ensures { result.now ≡ reading.text_in cell.now }
{
    &cell[..text_len(cell)]
}

/// How many bytes stand before the first zero byte.
fn text_len(cell: &[u8]) -> usize
    ensures { result ≡ length (reading.text_in cell.now) }
{
    cell.iter().take_while(|byte| **byte != 0).count()
}

/// Whether every byte is a character of a text: 0x20 to 0x7E.
pub fn is_printable_text(text: &[u8]) -> bool
    ensures { result ≡ list_all is_printable text.now }
{
    text.iter().all(|&byte| 0x20 <= byte && byte <= 0x7E)
}

/// Whether every byte is zero. It looks for the greatest, so that it goes over many at a time.
fn is_zero(padding: &[u8]) -> bool
    ensures { result ≡ list_all (λ byte. byte == 0) padding.now }
{
    let mut most = 0;
    let mut left = padding;
    'bytes: while let Some((byte, later)) = left.split_first() {
        if most < *byte {
            most = *byte;
        }
        left = later;
    }
    most == 0
}
