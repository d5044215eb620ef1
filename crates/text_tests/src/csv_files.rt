//! What CSV files are read as.

use crate::clinic::{FILES, SCHEMA, files_of, rows_of};
use csv_split::{LoadFault, Tables, check_references, read_table, read_tables};
use ghost_base::Value;
use std::alloc::{AllocError, Global};
use std::fmt::Write;
use std::test::Fail;
use tree_schema::{Schema, read_schema};

/// Files of one of the clinic's tables, the others being as they are, and the rows of that table or the fault: one case a
/// line, with the table's place and a blank in front of the file, `;` where the file ends a line, and `|` behind it.
const CASES: &str =
    "0 id,specialty,country;1,cardio,FR;2,neuro,ES;3,cardio,ES;|1 'cardio' 'FR';2 'neuro' 'ES';3 'cardio' 'ES';
0 ID,Specialty,COUNTRY\r;1,cardiolo,FR\r;2,a,ES\r;3,b,ES|1 'cardiolo' 'FR';2 'a' 'ES';3 'b' 'ES';
0 \u{FEFF}id,specialty,country;1,,FR;2,a,ES;3,b,ES|1 '' 'FR';2 'a' 'ES';3 'b' 'ES';
0 id,specialty,country;;1,\"a,b\",FR;2,\"a\"\"b\",ES;3,\"card\"io,ES;|1 'a,b' 'FR';2 'a\"b' 'ES';3 'cardio' 'ES';
0 id,specialty,country\r1,x,FR\r2,a b,ES\r3,b,ES\r|1 'x' 'FR';2 'a b' 'ES';3 'b' 'ES';
0 id,specialty,country;+001,a,FR;002,a,ES;+3,b,\"ES|1 'a' 'FR';2 'a' 'ES';3 'b' 'ES';
1 id,age,name;1,-9223372036854775808,Ann;2,+0009223372036854775807,;3,-0,Cy|1 -9223372036854775808 'Ann';2 9223372036854775807 '';3 0 'Cy';
0 id,country,specialty;|the first record does not name the columns: table 0, record 1, column 0
0 id,specialty,country;7,cardio;|the record has not one field for each column: table 0, record 2, column 0
0 id,specialty,country;1,a,FR;x,cardiolog,ES;|the identifier is not the row's number: table 0, record 3, column 0
0 id,specialty,country;1,a,FR;;2,cardiolog,FRA;|the field is too long or no text: table 0, record 3, column 1
1 id,age,name;1,9223372036854775808,Ann;2,41,Bob;|the field is no integer within 64 bits: table 1, record 2, column 1
2 id,day,purpose,doc,pat;1,5,flu,1,1;2,5,flu,1,3;3,5,flu,4,1;|the foreign key is the identifier of no row: table 2, record 3, column 4
2 id,day,purpose,doc,pat;1,5,flu,4,1;2,x,flu,1,1;|the field is no integer within 64 bits: table 2, record 3, column 1";

/// The bytes of a file that is written on one line.
fn file_of(alloc: Global, line: &str) -> Result<Vec<u8>, AllocError> {
    let mut file = Vec::new(alloc);
    for byte in line.as_bytes() {
        file.push(if *byte == b';' { b'\n' } else { *byte })?;
    }
    Ok(file)
}

/// What comes of the clinic's files with another in the place of one of them: that table's rows, or the fault in words.
fn outcome(
    alloc: Global,
    schema: &Schema,
    table: usize,
    file: Vec<u8>,
) -> Result<String, AllocError> {
    let mut files = files_of(alloc, &FILES)?;
    if files.len() != schema.tables() || table >= files.len() {
        return format!(in alloc; "no such table");
    }
    files[table] = file;
    match read_tables(alloc, schema, &files) {
        Ok(tables) => rows_of(alloc, schema, &tables, table),
        Err(fault) => format!(in alloc; "{fault}"),
    }
}

#[test]
fn each_file_has_its_rows_or_its_fault(rt: HostRuntime) -> Result<(), Fail> {
    let schema = read_schema(SCHEMA.as_bytes())?;
    for case in CASES.split('\n') {
        let (given, told) = case.split_once('|').unwrap_or((case, ""));
        let (place, line) = given.split_once(' ').unwrap_or((given, ""));
        let table = match place {
            "0" => 0,
            "1" => 1,
            _ => 2,
        };
        let file = file_of(rt.alloc(), line)?;
        let found = outcome(rt.alloc(), &schema, table, file)?;
        assert_eq!(rt; found.as_str(), told, "{given}");
    }
    Ok(())
}

#[test]
fn tables_are_read_one_by_one(rt: HostRuntime) -> Result<(), Fail> {
    let schema = read_schema(SCHEMA.as_bytes())?;
    let mut tables = Tables::new(rt.alloc());
    for (table, file) in FILES.iter().enumerate() {
        assert!(rt; table < schema.tables());
        tables.push(read_table(rt.alloc(), &schema, table, file.as_bytes())?)?;
    }
    assert!(rt; tables.tables() == 3 && check_references(&schema, &tables).is_ok());
    assert!(rt; tables.rows(2) == 4 && tables.rows(3) == 0);
    assert!(rt; tables.value(2, 4, 3) == Some(Value::Int(2)));
    assert!(rt; tables.value(2, 5, 3) == None && tables.value(2, 4, 5) == None);
    let visits = tables.table(2).ok_or("no table")?;
    assert!(rt; visits.rows() == 4 && visits.value(3, 1) == Some(Value::Int(9)));
    assert!(rt; visits.column(0).is_none() && visits.column(4).is_some());
    Ok(())
}

/// A file of so many doctors.
fn doctors(alloc: Global, rows: u32) -> Result<String, AllocError> {
    let mut text = String::new(alloc);
    writeln!(text, "id,specialty,country")?;
    for identifier in 1..=rows {
        writeln!(text, "{identifier},,")?;
    }
    Ok(text)
}

#[test]
fn a_million_rows_are_read(rt: HostRuntime) -> Result<(), Fail> {
    let schema = read_schema(SCHEMA.as_bytes())?;
    assert!(rt; schema.tables() > 0);
    let text = doctors(rt.alloc(), 1_000_000)?;
    let read = read_table(rt.alloc(), &schema, 0, text.as_bytes())?;
    assert!(rt; read.rows() == 1_000_000 && read.value(1_000_000, 3) == None);
    assert!(rt; read.value(1_000_000, 0) == Some(Value::Int(1_000_000)));
    Ok(())
}

#[test]
fn a_file_has_at_most_so_many_bytes(rt: HostRuntime) -> Result<(), Fail> {
    let schema = read_schema(SCHEMA.as_bytes())?;
    assert!(rt; schema.tables() > 1);
    let mut file: Vec<u8> = vec![in rt.alloc(); b'\n'; 67_108_865]?;
    file[0] = b'x';
    let read = read_table(rt.alloc(), &schema, 1, &file);
    assert!(rt; matches!(read, Err(LoadFault::FileLimit(_))));
    file.truncate(67_108_864);
    let read = read_table(rt.alloc(), &schema, 1, &file);
    assert!(rt; matches!(read, Err(LoadFault::Header(_))));
    Ok(())
}
