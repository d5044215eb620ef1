//! Columns that may be NULL: the fields that they take, and the cells that they keep.

use csv_split::{Cells, FlatCells, LoadFault, Place};
use ghost_base::{Kind, Text64, Value};
use std::alloc::AllocError;

/// Where a file's first value stands behind its identifier.
const AT: Place = Place {
    table: 0,
    rec: 2,
    column: 1,
};

#[test]
fn an_empty_field_is_null_and_another_is_an_integer(rt: HostRuntime) -> Result<(), LoadFault> {
    let mut cells = Cells::new(rt.alloc(), Kind::IntegerOrNull);
    cells.take(AT, b"")?;
    cells.take(AT, b"0")?;
    assert!(rt; matches!(cells.get(0), Some(Value::Null)));
    assert!(rt; matches!(cells.get(1), Some(Value::Int(0))));
    assert!(rt; matches!(cells.take(AT, b"-"), Err(LoadFault::BadInt(_))));
    Ok(())
}

#[test]
fn a_text_beside_null_stands_behind_a_byte(rt: HostRuntime) -> Result<(), AllocError> {
    let mut cells = FlatCells::new(rt.alloc(), Kind::CharsOrNull(2));
    cells.push(&Value::Null)?;
    cells.push(&Value::Chars(Text64::of(b"a")))?;
    assert_eq!(rt; cells.cell(0), b"\0\0\0".as_slice());
    assert_eq!(rt; cells.cell(1), b"\x01a\0".as_slice());
    Ok(())
}
