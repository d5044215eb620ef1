//! What is told of broken files of tables and broken schemas, and of how many texts are refused.

use crate::clinic::SCHEMA;
use csv_split::Place;
use file_messages::{BrokenFile, BrokenText, schema_lines, table_line};
use key_inputs::{BrokenSchema, BrokenTable, FieldNamed, RecordNamed, Shown};
use std::test::Fail;
use text_messages::RefusedCount;
use tree_schema::read_schema;

/// First lines of the doctors' file that do not name its columns in their order, and behind `|` what is told.
const HEADERS: &str =
    "id,country,specialty|the columns stand in another order than in the schema, id,country,specialty for id,specialty,country: do not change this line alone, which would swap columns; bring the columns of the schema, or those of the whole file, into the other's order
1,cardio,FR|the first line has a row and no names: put above it the line id,specialty,country
number,field,land|the first line names no column of the schema: see that the file's columns are those of the schema, in their order, and let the first line be id,specialty,country
id;specialty;country|its fields are divided by ;: write the file with commas
id\tspecialty\tcountry|its fields are divided by tabs: write the file with commas
\"id\",\"specialty\"|the first line has 2 names, and the table 3 columns, id,specialty,country: let the file and the schema have the same ones
ID,Specialty,land|name 3 is land, and in the schema country: where it is the same column, write the same name in both; else bring the columns into one order
i\0d\0,\0|the file is in UTF-16: save it as plain ASCII";

/// Fields of the doctors' specialties that are refused, and behind `|` what is told.
const CHARS: &str = "cardiolog|it has 9 bytes: write at most 8 bytes
M\u{fc}ller|byte 2 of it is C3, of an accented letter: write it as plain letters, as ae; a text has bytes from 20 to 7E
a\tb|byte 2 of it is 09, a tab: write a blank; a text has bytes from 20 to 7E";

/// Fields of the visits' days that are refused, and behind `|` what is told.
const NUMBERS: &str =
    "|it is empty: write NULL behind INTEGER in the schema, or a number that stands for it, as -1
14.2|write a whole number, and keep tenths, as 142 for 14.2
2024-01-31|write a whole number, as 5 or -12, and a date as 20240131
 5|write a whole number, as 5 or -12, with no blank; NULL is an empty field";

/// Fields of the visits' doctors that are refused, and behind `|` what is told.
const REFERENCES: &str = "|it is empty, and a foreign key is never NULL: write the id of a row
x|write a whole number, as 5 or -12, with no blank; NULL is an empty field";

/// Schemas that are not in the grammar, and behind `|` where each stops and what is told.
const SCHEMAS: &str =
    "CREATE TABLE t (id INTEGER PRIMARY KEY, c VARCHAR(8));|42|the kinds are INTEGER and CHAR(n), n from 1 to 64
CREATE TABLE t (id INTEGER PRIMARY KEY, c DATE);|42|there are no dates: write CHAR(10) for 2024-01-31, or INTEGER for 20240131
CREATE TABLE t (id INTEGER PRIMARY KEY, c CHAR(8) NOT NULL);|50|a column that may not be NULL is the rule: leave NOT NULL out
CREATE TABLE t (id INTEGER PRIMARY KEY, c CHAR(8) HIDDEN NULL);|57|NULL stands behind INTEGER or CHAR(n), and HIDDEN behind it; id and foreign keys are never NULL
CREATE TABLE t (id INTEGER PRIMARY KEY NULL);|39|NULL stands behind INTEGER or CHAR(n), and HIDDEN behind it; id and foreign keys are never NULL
CREATE TABLE t (id INTEGER PRIMARY KEY, c INTEGER REFERENCES u NULL);|63|NULL stands behind INTEGER or CHAR(n), and HIDDEN behind it; id and foreign keys are never NULL
CREATE TABLE t (id INTEGER PRIMARY KEY, c INTEGER NULL REFERENCES u);|55|id and foreign keys are never NULL: leave NULL out
CREATE TABLE t (id INTEGER PRIMARY KEY) CREATE TABLE u (id INTEGER PRIMARY KEY);|40|end each CREATE TABLE by );
CREATE TABLE \"t\" (id INTEGER PRIMARY KEY);|13|a name stands without quotes";

/// A field at a column of a table.
fn field_at(table: u8, column: u8) -> FieldNamed {
    FieldNamed {
        at: Place {
            table,
            rec: 2,
            column,
        },
        table: Shown::of(b"table"),
        column: Shown::of(b"column"),
        line: Some(2),
    }
}

#[test]
fn a_broken_table_is_told_by_its_cause_and_without_its_rows(rt: HostRuntime) -> Result<(), Fail> {
    let schema = read_schema(SCHEMA.as_bytes())?;
    let header = BrokenTable::Header(RecordNamed {
        at: Place {
            table: 0,
            rec: 1,
            column: 0,
        },
        table: Shown::of(b"doctor"),
        line: Some(1),
    });
    for (cases, table, column) in [
        (HEADERS, 0, 0),
        (CHARS, 0, 1),
        (NUMBERS, 2, 1),
        (REFERENCES, 2, 3),
    ] {
        for case in cases.split('\n') {
            let (written, told) = case.split_once('|').unwrap_or((case, ""));
            let field = field_at(table, column);
            let value = Shown::of(written.as_bytes());
            let broken = match (table, column) {
                (0, 0) => header,
                (0, _) => BrokenTable::BadChars { field, value },
                _ => BrokenTable::BadInt { field, value },
            };
            let file = BrokenFile {
                file: "f.csv",
                schema: &schema,
                broken,
                line: written.as_bytes(),
            };
            let line = table_line(rt.alloc(), &file)?;
            assert_eq!(rt;
                line.strip_prefix("f.csv: ").unwrap_or(""),
                told,
                "{written}"
            );
        }
    }
    Ok(())
}

#[test]
fn a_schema_is_told_by_the_word_at_which_it_stops(rt: HostRuntime) -> Result<(), Fail> {
    for case in SCHEMAS.split('\n') {
        let (written, told) = case.split_once('|').unwrap_or((case, ""));
        let (at, told) = told.split_once('|').unwrap_or((told, ""));
        let text = BrokenText {
            file: "s.sql",
            schema: written.as_bytes(),
            broken: BrokenSchema::Syntax {
                at: at.parse::<usize>().unwrap_or(0),
            },
        };
        let lines = schema_lines(rt.alloc(), &text)?;
        let last = lines.split('\n').last().unwrap_or("");
        assert_eq!(rt;
            last.strip_prefix("s.sql: ").unwrap_or(""),
            told,
            "{written}"
        );
    }
    Ok(())
}

#[test]
fn the_number_of_refused_texts_is_told(rt: HostRuntime) -> Result<(), Fail> {
    for (refused, texts, told) in [
        (1, 1, "1 of 1 text was refused"),
        (1, 30, "1 of 30 texts was refused"),
        (25, 30, "25 of 30 texts were refused"),
    ] {
        let count = RefusedCount { refused, texts };
        assert_eq!(rt; format!(in rt.alloc(); "{count}")?.as_str(), told);
    }
    Ok(())
}
