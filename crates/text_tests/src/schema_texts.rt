//! Texts that declare schemas, and what they declare.

use ghost_base::Kind;
use std::alloc::{AllocError, Global};
use std::test::Fail;
use tree_schema::{Cursor, Mark, read_schema};

/// Texts, and the fault of each or the number of its tables: one case a line, with `|` behind the text.
const CASES: &str = "CREATE TABLE t (id INT PRIMARY KEY, c CHAR(064), d CHAR(1));|1 tables
create table B(id int primary key, b int references C(id), c char(07)hidden);\tCREATE TABLE c (ID INT PRIMARY KEY);|2 tables
CREATE TABLE t (id INT PRIMARY KEY|the text breaks the grammar at byte 34
CREATE TABLE t (id INTEGER PRIMARY KEY HIDDEN HIDDEN);|the text breaks the grammar at byte 46
CREATE TABLE select (id INTEGER);|the text breaks the grammar at byte 13
CREATE TABLE t (a INT REFERENCES u(ide));|the text breaks the grammar at byte 35
CREATE TABLE t (id INTEGER PRIMARY KEY, c CHAR|the text breaks the grammar at byte 46
CREATE TABLE t (id INT, c CHAR(0));|the text is beyond the limits of a schema
CREATE TABLE t (c INT); CREATE TABLE T (id INT PRIMARY KEY, C INT, c INT);|column 0 of table 1 repeats a name
CREATE TABLE t (id INT PRIMARY KEY, c INT REFERENCES u); CREATE TABLE v (id INT);|table 1 does not begin with its one identifier
CREATE TABLE t (id INT PRIMARY KEY, c INT REFERENCES u, d INT REFERENCES v);|column 1 of table 0 references no table
CREATE TABLE t (id INT PRIMARY KEY, c INT REFERENCES t, d INT REFERENCES t);|table 0 is referenced twice
CREATE TABLE t (id INT PRIMARY KEY, c INT REFERENCES t(id));|following parents from table 0 returns to it
CREATE TABLE a (id INT PRIMARY KEY); CREATE TABLE b (id INT PRIMARY KEY);|2 tables have no parent
 |0 tables have no parent";

/// What comes of a text: the number of its tables, or its fault in words.
fn outcome(alloc: Global, text: &str) -> Result<String, AllocError> {
    match read_schema(text.as_bytes()) {
        Ok(schema) => format!(in alloc; "{} tables", schema.tables()),
        Err(fault) => format!(in alloc; "{fault}"),
    }
}

#[test]
fn each_text_declares_its_tables_or_has_its_fault(rt: HostRuntime) -> Result<(), Fail> {
    for case in CASES.split('\n') {
        let (text, told) = case.split_once('|').unwrap_or((case, ""));
        assert_eq!(rt; outcome(rt.alloc(), text)?.as_str(), told, "{text}");
    }
    Ok(())
}

/// The clinic's schema as one may write it.
const CLINIC: &[u8] =
    b"CREATE TABLE doctor (id INTEGER PRIMARY KEY, specialty CHAR(8), country CHAR(2) HIDDEN);
CREATE TABLE Patient (id INTEGER PRIMARY KEY, age INTEGER, name CHAR(8) HIDDEN);
CREATE TABLE visit (id INTEGER PRIMARY KEY, day INTEGER, purpose CHAR(8) HIDDEN, doc INTEGER REFERENCES doctor(id) HIDDEN, pat INTEGER REFERENCES PATIENT);
";

#[test]
fn a_schema_tells_its_tables_and_columns(rt: HostRuntime) -> Result<(), Fail> {
    let clinic = read_schema(CLINIC)?;
    assert!(rt; clinic.tables() == 3 && clinic.columns(0) == 3 && clinic.columns(2) == 5);
    let patient = clinic.table(1).ok_or("no table")?;
    assert!(rt; patient.name.as_slice() == b"patient".as_slice() && patient.columns.len() == 3);
    let specialty = clinic.column(0, 1).ok_or("no column")?;
    assert!(rt; specialty.name.as_slice() == b"specialty".as_slice());
    assert!(rt; matches!(specialty.kind, Kind::Chars(8)) && specialty.child.is_none());
    let key = clinic.column(2, 4).ok_or("no column")?;
    assert!(rt; matches!(key.kind, Kind::Integer) && key.child == Some(1));
    assert!(rt; clinic.is_hidden(2, 4) && clinic.is_visible(2, 1) && !clinic.is_visible(2, 0));
    assert!(rt; clinic.parent(0) == Some(2) && clinic.parent(2) == None);
    assert!(rt; clinic.children(2).as_slice() == [0, 1].as_slice());
    if clinic.tables() > 1 {
        assert!(rt; clinic.path_to_root(1).as_slice() == [1, 2].as_slice());
    }
    Ok(())
}

#[test]
fn tokens_stand_at_their_offsets(rt: HostRuntime) -> Result<(), Fail> {
    let mut cursor = Cursor::of(b"SELECT a.b <= 'it''s'");
    for (mark, offset) in [
        (Mark::Select, 0),
        (Mark::Name, 7),
        (Mark::Point, 8),
        (Mark::Name, 9),
        (Mark::AtMost, 11),
        (Mark::Quoted, 14),
        (Mark::End, 21),
    ] {
        let token = cursor.next().ok_or("no token")?;
        assert!(rt; token.mark == mark && token.at == offset, "at {offset}");
    }
    assert!(rt; cursor.next().is_none());
    Ok(())
}
