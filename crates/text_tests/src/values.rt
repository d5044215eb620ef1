//! Values, their order and their cells.

use crate::clinic::chars;
use ghost_base::limits::{MAX_CELL, MAX_CHARS};
use ghost_base::{
    Kind, Operator, Value, cell_width, compare, decode_cell, encode_cell, is_of_kind,
};

/// The cell of a value in a column of its kind, with zero bytes behind it.
fn cell_of(kind: Kind, value: &Value) -> [u8; 65] {
    let mut places = [0; 65];
    if cell_width(kind) > MAX_CELL || !is_of_kind(kind, value) {
        return [0xEE; 65];
    }
    encode_cell(kind, value, &mut places[..cell_width(kind)]);
    places
}

/// Whether the cells of two values, if both are of a kind, are ordered as these two numbers.
fn cells_are_ordered(kind: Kind, a: &Value, b: &Value, i: usize, j: usize) -> bool {
    if !is_of_kind(kind, a) || !is_of_kind(kind, b) {
        return true;
    }
    let order = cell_of(kind, a).as_slice().cmp(cell_of(kind, b).as_slice());
    order == i.cmp(&j)
}

/// Whether each operator holds between two values as it does between these two numbers, and none where one is NULL.
fn operators_hold(a: &Value, b: &Value, i: usize, j: usize) -> bool {
    let known = !a.is_null() && !b.is_null();
    Operator::Equal.holds(a, b) == (known && i == j)
        && Operator::Unequal.holds(a, b) == (known && i != j)
        && Operator::Less.holds(a, b) == (known && i < j)
        && Operator::AtMost.holds(a, b) == (known && i <= j)
        && Operator::More.holds(a, b) == (known && i > j)
        && Operator::AtLeast.holds(a, b) == (known && i >= j)
}

#[test]
fn values_operators_and_cells_have_one_order(rt: HostRuntime) {
    let ascending = [
        Value::Null,
        Value::Int(i64::MIN),
        Value::Int(-1),
        Value::Int(0),
        Value::Int(5),
        chars(""),
        chars("B"),
        chars("a"),
        chars("aa"),
        chars("b"),
    ];
    for (i, a) in ascending.iter().enumerate() {
        for (j, b) in ascending.iter().enumerate() {
            assert!(rt; compare(a, b) == i.cmp(&j), "at {i} and {j}");
            assert!(rt;
                (a == b) == (i == j) && operators_hold(a, b, i, j),
                "at {i} and {j}"
            );
            for kind in [
                Kind::Integer,
                Kind::Chars(2),
                Kind::IntegerOrNull,
                Kind::CharsOrNull(2),
            ] {
                assert!(rt; cells_are_ordered(kind, a, b, i, j), "at {i} and {j}");
            }
        }
    }
}

/// Whether bytes are the cell of just this value, or of none.
fn is_cell(kind: Kind, bytes: &[u8], value: Option<Value>) -> bool {
    if cell_width(kind) > MAX_CELL || cell_width(kind.plain()) > MAX_CHARS {
        return false;
    }
    match value {
        None => decode_cell(kind, bytes).is_none(),
        Some(value) => {
            decode_cell(kind, bytes) == Some(value)
                && cell_of(kind, &value).get(..cell_width(kind)) == Some(bytes)
        }
    }
}

#[test]
fn cells_spell_their_values(rt: HostRuntime) {
    let int = |number| Some(Value::Int(number));
    let cases: [(Kind, &[u8], Option<Value>); 14] = [
        (Kind::Integer, b"\0\0\0\0\0\0\0\0", int(i64::MIN)),
        (Kind::Integer, b"\x7F\xFF\xFF\xFF\xFF\xFF\xFF\xFF", int(-1)),
        (Kind::Integer, b"\x80\0\0\0\0\0\0\x05", int(5)),
        (
            Kind::Integer,
            b"\xFF\xFF\xFF\xFF\xFF\xFF\xFF\xFF",
            int(i64::MAX),
        ),
        (Kind::Integer, b"\0\0\0\0\0\0\0", None),
        (Kind::Integer, b"\0\0\0\0\0\0\0\0\0", None),
        (Kind::Chars(8), b"cardio\0\0", Some(chars("cardio"))),
        (Kind::Chars(2), b"FR", Some(chars("FR"))),
        (Kind::Chars(3), b"\0\0\0", Some(chars(""))),
        (Kind::Chars(3), b"a\0a", None),
        (Kind::Chars(2), b"\x7F\0", None),
        (Kind::Chars(2), b"\x1F\0", None),
        (Kind::Chars(3), b"ab", None),
        (Kind::Chars(3), b"ab\0\0", None),
    ];
    for (kind, bytes, value) in cases.iter() {
        assert!(rt; is_cell(*kind, bytes, *value), "{bytes:?}");
    }
}

/// NULL is a zero byte and as many zero bytes as the cell would have, any other value the cell behind a byte 1.
#[test]
fn cells_that_may_be_null_spell_their_values(rt: HostRuntime) {
    let int = |number| Some(Value::Int(number));
    let cases: [(Kind, &[u8], Option<Value>); 24] = [
        (Kind::IntegerOrNull, b"\x01\x80\0\0\0\0\0\0\x05", int(5)),
        (Kind::IntegerOrNull, b"\x01\0\0\0\0\0\0\0\0", int(i64::MIN)),
        (
            Kind::IntegerOrNull,
            b"\0\0\0\0\0\0\0\0\0",
            Some(Value::Null),
        ),
        (Kind::IntegerOrNull, b"\x02\x80\0\0\0\0\0\0\x05", None),
        (Kind::IntegerOrNull, b"\x02\0\0\0\0\0\0\0\0", None),
        (Kind::IntegerOrNull, b"\0\0\0\0\0\0\0\0\x05", None),
        (Kind::IntegerOrNull, b"\0\x80\0\0\0\0\0\0\0", None),
        (Kind::IntegerOrNull, b"\x80\0\0\0\0\0\0\x05", None),
        (Kind::IntegerOrNull, b"\0\0\0\0\0\0\0\0", None),
        (Kind::IntegerOrNull, b"\x01", None),
        (Kind::IntegerOrNull, b"", None),
        (Kind::CharsOrNull(2), b"\x01FR", Some(chars("FR"))),
        (Kind::CharsOrNull(2), b"\x01\0\0", Some(chars(""))),
        (Kind::CharsOrNull(2), b"\0\0\0", Some(Value::Null)),
        (Kind::CharsOrNull(64), &[0; 65], Some(Value::Null)),
        (Kind::CharsOrNull(2), b"\x02FR", None),
        (Kind::CharsOrNull(2), b"\x02\0\0", None),
        (Kind::CharsOrNull(2), b"\0F\0", None),
        (Kind::CharsOrNull(2), b"\0\0\x01", None),
        (Kind::CharsOrNull(2), b"\x01\x1F\0", None),
        (Kind::CharsOrNull(2), b"\x01\0R", None),
        (Kind::CharsOrNull(2), b"FR", None),
        (Kind::CharsOrNull(2), b"\0\0", None),
        (Kind::CharsOrNull(64), &[0; 64], None),
    ];
    for (kind, bytes, value) in cases.iter() {
        assert!(rt; is_cell(*kind, bytes, *value), "{bytes:?}");
    }
}
