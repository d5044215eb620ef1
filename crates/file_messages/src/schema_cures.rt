//! What to write in place of what a schema cannot go on with, by the word that stands there.

use text_places::cures::{Stop, word_cure};
use tree_schema::Mark;

/// What a schema is to be.
const FORM: &str =
    "write for each table CREATE TABLE name (id INTEGER PRIMARY KEY, column, column); a column being a name and INTEGER, CHAR(n) or INTEGER REFERENCES table(id), behind the first two NULL where it may be empty, and HIDDEN at the end where only the key may have it";

/// Words that other schemas have, and behind `|` what stands for them here.
const OTHER_WORDS: &str =
    "varchar varchar2 nvarchar text string character clob|the kinds are INTEGER and CHAR(n), n from 1 to 64
date datetime timestamp time|there are no dates: write CHAR(10) for 2024-01-31, or INTEGER for 20240131
decimal numeric float real double money number|there are whole numbers alone: write INTEGER, and keep tenths, as 142 for 14.2
bigint smallint tinyint serial boolean bool|write INTEGER
foreign constraint unique index|leave it out: a foreign key is a column INTEGER REFERENCES table(id)
default check collate comment on|it is not in this language: leave it out";

/// What to write in a schema in place of the token at which it stops.
pub(crate) fn schema_cure(stop: &Stop<'_>) -> &'static str {
    match stop.token.mark {
        Mark::Create => "end each CREATE TABLE by );",
        Mark::Minus => "there are no comments: leave it out",
        Mark::Bad => match stop.token.bytes.first() {
            Some(b'"' | b'`' | b'[' | b']') => "a name stands without quotes",
            Some(b'/' | b'#') => "there are no comments: leave it out",
            Some(0x80..=0xFF) =>
                "an accented letter stands in no name: names have a to z, digits and _",
            _ => FORM,
        },
        Mark::Primary if stop.mark_before() == Mark::Comma => {
            "write id INTEGER PRIMARY KEY as the first column"
        }
        Mark::Primary | Mark::References if stop.mark_before() == Mark::Null => {
            "id and foreign keys are never NULL: leave NULL out"
        }
        Mark::Not => "a column that may not be NULL is the rule: leave NOT NULL out",
        Mark::Null => {
            "NULL stands behind INTEGER or CHAR(n), and HIDDEN behind it; id and foreign keys are never NULL"
        }
        Mark::Name | Mark::Reserved => word_cure(OTHER_WORDS, stop.token.bytes).unwrap_or(FORM),
        _ => FORM,
    }
}
