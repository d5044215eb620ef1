//! The two parts of the clinic, and its visible image.

use crate::clinic::{FILES, SCHEMA, all_rows, catalog_bytes, chars, files_of};
use csv_split::{read_tables, rejoin, split, visible_image};
use ghost_base::Value;
use std::alloc::{AllocError, Global};
use std::test::Fail;
use tree_schema::{Catalog, read_catalog};

/// The cells of the clinic's visible columns.
const CELLS: &[u8] =
    b"cardio\0\0neuro\0\0\0cardio\0\0\x80\0\0\0\0\0\0\x1e\x80\0\0\0\0\0\0\x29\x80\0\0\0\0\0\0\x05\x80\0\0\0\0\0\0\x05\x80\0\0\0\0\0\0\x09\x80\0\0\0\0\0\0\x02";

/// Files with other hidden values and foreign keys.
const CHANGED: [&str; 3] = [
    "id,specialty,country\n1,cardio,DE\n2,neuro,IT\n3,cardio,PT\n",
    "id,age,name\n1,30,Cyd\n2,41,Dan\n",
    "id,day,purpose,doc,pat\n1,5,cold,2,2\n2,5,cold,1,1\n3,9,burn,2,2\n4,2,burn,3,1\n",
];

/// Whether files spell tables that are split into parts with this image and these hidden values of the second visit, and
/// come again from the two parts.
fn is_split(
    alloc: Global,
    cat: &Catalog,
    texts: &[&str],
    image: &[u8],
    values: &[Option<Value>],
) -> Result<bool, AllocError> {
    let files = files_of(alloc, texts)?;
    if files.len() != cat.schema().tables() {
        return Ok(false);
    }
    let Ok(tables) = read_tables(alloc, cat.schema(), &files) else {
        return Ok(false);
    };
    let rows = all_rows(alloc, cat.schema(), &tables)?;
    let (public, hidden) = split(alloc, cat.schema(), tables)?;
    let bytes = visible_image(alloc, cat, &public)?;
    let mut same = *bytes == *image && public.tables() == 3 && hidden.rows(2) == 4;
    for (column, value) in values.iter().enumerate() {
        same = same && hidden.value(2, 2, column) == *value;
    }
    let again = rejoin(alloc, cat.schema(), public, hidden)?;
    Ok(same && all_rows(alloc, cat.schema(), &again)?.as_str() == rows.as_str())
}

#[test]
fn hidden_values_come_again_and_change_no_byte_of_the_image(rt: HostRuntime) -> Result<(), Fail> {
    let mut bytes = catalog_bytes(rt.alloc(), b"GHOSTDB\x02\0\0\0\x01", SCHEMA, &[3, 2, 4])?;
    let cat = read_catalog(&bytes).ok_or("no catalog")?;
    bytes.extend_from_slice(CELLS)?;
    assert!(rt; bytes.len() == 437);
    for (texts, purpose, doctor, patient) in [(&FILES, "check", 3, 2), (&CHANGED, "cold", 1, 1)] {
        let values = [
            Some(chars(purpose)),
            Some(Value::Int(doctor)),
            Some(Value::Int(patient)),
            None,
        ];
        assert!(rt;
            is_split(rt.alloc(), &cat, texts, &bytes, &values)?,
            "{purpose}"
        );
    }
    Ok(())
}
