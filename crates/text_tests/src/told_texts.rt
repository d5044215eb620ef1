//! What is told of refused texts over the clinic, line by line.

use crate::clinic::SCHEMA;
use key_lines::ToldText;
use spj_parse::{Refusal, read_query};
use std::alloc::{AllocError, Global};
use std::test::Fail;
use text_messages::{RefusedText, ScriptRead, refused_lines, script_lines};
use tree_schema::{Schema, read_schema};

/// Texts, and behind `|` the column of the place and what is told there of the text.
const NAMES: &str =
    "SELECT x FROM patients|15: text 1: there is no table patients: the tables are doctor, patient, visit
SELECT doctors.id FROM visit|8: text 1: there is no table doctors: the tables are doctor, patient, visit
SELECT mrm FROM patient|8: text 1: no table in FROM has a column mrm: patient has id, age, name
SELECT mrm FROM visit, patient|8: text 1: no table in FROM has a column mrm: visit has id, day, purpose, doc, pat; patient has id, age, name
SELECT visit.mrm FROM visit|8: text 1: visit has no column mrm: visit has id, day, purpose, doc, pat
SELECT day, name FROM visit|13: text 1: name is a column of patient, which is not in FROM: write FROM visit, patient WHERE pat = patient.id
SELECT specialty FROM patient|8: text 1: specialty is a column of doctor, which is not in FROM: write FROM patient, doctor, visit WHERE pat = patient.id AND doc = doctor.id
SELECT doctor.id FROM visit|8: text 1: id is a column of doctor, which is not in FROM: write FROM visit, doctor WHERE doc = doctor.id
SELECT id FROM visit, doctor WHERE doc = doctor.id|8: text 1: visit and doctor both have a column id: write visit.id or doctor.id
SELECT day FROM visit, visit|24: text 1: visit stands twice in FROM: write it once
SELECT day FROM visit WHERE day IS NOT NULL AND dai IS NULL|49: text 1: no table in FROM has a column dai: visit has id, day, purpose, doc, pat
SELECT day FROM visit WHERE visits.day IS NULL|29: text 1: there is no table visits: the tables are doctor, patient, visit";

const LITERALS: &str =
    "SELECT day FROM visit WHERE day = '5'|35: text 1: day is INTEGER, and '5' a text: write a whole number without quotes
SELECT day FROM visit WHERE doc = 'Ann'|35: text 1: doc has the ids of doctor, and 'Ann' is a text: write an id, or AND doc = doctor.id with doctor in FROM, and compare a column of doctor
SELECT age FROM patient WHERE name = -5|38: text 1: name is CHAR(8), and -5 a number: write '-5'
SELECT age FROM patient WHERE age IS NOT NULL AND name = 5|58: text 1: name is CHAR(8), and 5 a number: write '5'
SELECT age FROM patient WHERE name BETWEEN 'a' AND 7|52: text 1: name is CHAR(8), and 7 a number: write '7'
SELECT age FROM patient WHERE name = 'it''s long'|38: text 1: name is CHAR(8), and 'it''s long' has 9 bytes: write at most 8
SELECT age FROM patient WHERE age = -9223372036854775809|37: text 1: -9223372036854775809 is outside 64 bits: write a number from -9223372036854775808 to 9223372036854775807";

const LINKS: &str =
    "SELECT age FROM patient, visit|17: text 1: patient has no join: write WHERE pat = patient.id
SELECT day FROM visit, doctor WHERE day = 5|24: text 1: doctor has no join: write AND doc = doctor.id
SELECT day FROM visit, doctor WHERE day IS NULL|24: text 1: doctor has no join: write AND doc = doctor.id
SELECT age FROM patient, doctor|26: text 1: patient and doctor are not linked in FROM: write FROM patient, doctor, visit WHERE pat = patient.id AND doc = doctor.id
SELECT day FROM visit, doctor WHERE visit.id = doctor.id|37: text 1: visit.id = doctor.id is no foreign key and the id that it names: write FROM visit, doctor WHERE doc = doctor.id
SELECT day FROM visit WHERE doc = pat|29: text 1: two columns of one table are not compared: leave out doc = pat
SELECT day FROM visit, doctor WHERE doc = doctor.id AND (day = 1 OR specialty = 'x')|69: text 1: between these parentheses stand columns of visit, and specialty is one of doctor: write there tests of one table, or a text for each table
SELECT day FROM visit WHERE day IN (1, 'x')|40: text 1: day is INTEGER, and 'x' a text: write a whole number without quotes";

const LIMITS: &str =
    "SELECT aaaaaaaaaaaaaaaaaaaaaaaaaaaaaaaaa FROM visit|8: text 1: the name aaaaaaaaaaaaaaaaaaaaaaaaaaaaaaaaa has 33 bytes: write at most 32
SELECT * FROM visit, visit, visit, visit, visit, visit, visit|8: text 1: * stands for 35 columns here: write at most 32 by their names
SELECT day FROM visit WHERE id IS NULL AND id IS NULL AND id IS NULL AND id IS NULL AND id IS NULL AND id IS NULL AND id IS NULL AND id IS NULL AND id IS NULL AND id IS NULL AND id IS NULL AND id IS NULL AND id IS NULL AND id IS NULL AND id IS NULL AND day IS NOT NULL AND pat IS NULL|274: text 1: there are more than 16 conditions, BETWEEN being two, IN one for each value, and a join none: write at most 16";

/// Texts, and behind `|` the column of the place, the word with which the text cannot go on, and what to write.
const WORDS: &str =
    "SELECT day FROM visit JOIN doctor|23: text 1 cannot go on with JOIN: there is no JOIN .. ON: write FROM a, b WHERE a.f = b.id, f being the foreign key
SELECT day FROM visit v, doctor|23: text 1 cannot go on with v: put a comma between two tables; there are no second names, and no JOIN .. ON
SELECT day FROM visit ORDER BY day|23: text 1 cannot go on with ORDER: it is not in this language: the rows come in the order of the ids of the top table, so sort or cut the printed lines
SELECT day FROM visit LIMIT 5|23: text 1 cannot go on with LIMIT: it is not in this language: the rows come in the order of the ids of the top table, so sort or cut the printed lines
SELECT DISTINCT day FROM visit|17: text 1 cannot go on with day: there is no DISTINCT: take double ones out of the printed lines
SELECT COUNT(*) FROM visit|8: text 1 cannot go on with COUNT: it is not built yet: count or sum up the printed lines
SELECT avg(day) FROM visit|11: text 1 cannot go on with (: there are no functions: write the column alone
SELECT day FROM visit GROUP BY day|23: text 1 cannot go on with GROUP: it is not built yet: count or sum up the printed lines
SELECT day FROM group|17: text 1 cannot go on with group: the word is reserved, and no table or column has it as its name
SELECT key FROM visit|8: text 1 cannot go on with key: the word is reserved, and no table or column has it as its name
SELECT day AS d FROM visit|12: text 1 cannot go on with AS: there are no second names: leave it out
SELECT day doc FROM visit|12: text 1 cannot go on with doc: put a comma between two columns, or FROM before a table; there are no second names
SELECT day FROM visit WHERE day = 1 OR day = 2|37: text 1 cannot go on with OR: it stands between parentheses: write (day = 1 OR day = 2)
SELECT day FROM visit WHERE day IN ()|37: text 1 cannot go on with ): write a number, as 5, or a text, as 'flu'
SELECT day FROM visit WHERE day IN (1, NULL)|40: text 1 cannot go on with NULL: NULL is no value: write (c IN (1, 2) OR c IS NULL)
SELECT day FROM visit WHERE day IN (1 2)|39: text 1 cannot go on with 2: put a comma between two values
SELECT day FROM visit WHERE day IN 5|36: text 1 cannot go on with 5: write values between parentheses behind IN, as IN (1, 2)
SELECT day FROM visit WHERE day IN (1, 2|41: text 1 cannot end here: put a comma behind the value, or ) behind the last one
SELECT day FROM visit WHERE day NOT IN (1, 2)|33: text 1 cannot go on with NOT: there is no NOT IN: write <> for each value, with AND between them
SELECT day FROM visit WHERE (day = 1 AND day = 2)|38: text 1 cannot go on with AND: between parentheses tests have OR between them: write AND outside of the parentheses
SELECT day FROM visit WHERE (day BETWEEN 1 AND 2 OR day = 3)|34: text 1 cannot go on with BETWEEN: it stands outside of parentheses: write BETWEEN in a condition of its own
SELECT day FROM visit WHERE (doc = doctor.id OR day = 3)|36: text 1 cannot go on with doctor: two columns are compared outside of parentheses: write the join as a condition of its own
SELECT day FROM visit WHERE ((day = 1 OR day = 2))|30: text 1 cannot go on with (: parentheses stand in no others, but for those of IN: leave them out
SELECT day FROM visit WHERE (day = 1 OR )|41: text 1 cannot go on with ): write a test here, as day = 5
SELECT day FROM visit WHERE (day = 1 OR day = 2|48: text 1 cannot end here: write OR and a test, and ) behind the last one
SELECT day FROM visit WHERE day = NULL|35: text 1 cannot go on with NULL: write IS NULL
SELECT day FROM visit WHERE day NULL|33: text 1 cannot go on with NULL: write IS NULL
SELECT day FROM visit WHERE day <> null|36: text 1 cannot go on with null: write IS NOT NULL
SELECT day FROM visit WHERE day > NULL|35: text 1 cannot go on with NULL: write IS NULL or IS NOT NULL
SELECT day FROM visit WHERE day BETWEEN NULL AND 5|41: text 1 cannot go on with NULL: write IS NULL or IS NOT NULL
SELECT day FROM visit WHERE day NOT NULL|33: text 1 cannot go on with NOT: write IS NOT NULL
SELECT day FROM visit WHERE day NOTNULL|33: text 1 cannot go on with NOTNULL: write IS NULL or IS NOT NULL
SELECT day FROM visit WHERE day NOT BETWEEN 1 AND 2|33: text 1 cannot go on with NOT: it stands behind IS alone: write <>, or the opposite comparison
SELECT day FROM visit WHERE NOT day = 5|29: text 1 cannot go on with NOT: it stands behind IS alone: write <>, or the opposite comparison
SELECT day FROM visit WHERE day IS 5|36: text 1 cannot go on with 5: write NULL or NOT NULL behind IS; a value is compared by =
SELECT day FROM visit WHERE day IS|35: text 1 cannot end here: write NULL or NOT NULL behind IS; a value is compared by =
SELECT day FROM visit WHERE purpose IS NOT 'flu'|44: text 1 cannot go on with 'flu': write NULL behind IS NOT; a value is compared by <>
SELECT day IS NULL FROM visit|12: text 1 cannot go on with IS: it stands in WHERE behind a column: write column IS NULL
SELECT null FROM visit|8: text 1 cannot go on with null: the word is reserved, and no table or column has it as its name
SELECT day FROM visit WHERE purpose LIKE 'f'|37: text 1 cannot go on with LIKE: it is not in this language: for a beginning write c >= 'Mue' AND c < 'Muf'
SELECT day FROM visit WHERE (day = 1)|37: text 1 cannot go on with ): between parentheses stand two tests or more, with OR between them: leave the parentheses out
SELECT day FROM visit WHERE day != 5|33: text 1 cannot go on with !: write <> for unequal
SELECT day FROM visit WHERE day == 5|34: text 1 cannot go on with =: write one =
SELECT day FROM visit WHERE day = 1.5|36: text 1 cannot go on with .: there are whole numbers alone: keep tenths, as 142 for 14.2
SELECT day FROM visit WHERE day < doc|35: text 1 cannot go on with doc: two columns are compared by = alone, a foreign key with the id that it names; a text stands between ' and '
SELECT day FROM visit WHERE 5 = day|29: text 1 cannot go on with 5: write the column first, as day = 5
SELECT day FROM visit WHERE purpose = \"flu\"|39: text 1 cannot go on with \": a name stands without quotes, and a text between ' and '
SELECT \"day\" FROM visit|8: text 1 cannot go on with \": a name stands without quotes, and a text between ' and '
SELECT visit.* FROM visit|14: text 1 cannot go on with *: * stands alone: write SELECT * FROM, or the columns by their names
SELECT day FROM visit -- all|23: text 1 cannot go on with -: there are no comments: leave it out
SELECT day FROM visit SELECT age FROM patient|23: text 1 cannot go on with SELECT: put ; between two texts
DELETE FROM visit|1: text 1 cannot go on with DELETE: a text begins with SELECT, and changes no data
SELECT day FROM|16: text 1 cannot end here: write SELECT columns FROM tables, and if need be WHERE and conditions with AND between them
SELECT day FROM visit WHERE purpose = 'M\u{fc}ller'|39: text 1 cannot go on with ': the text that begins here has byte C3: write bytes from 20 to 7E, no accented letter
SELECT day FROM visit WHERE purpose = 'flu|39: text 1 cannot go on with ': the text that begins here has no closing '";

/// The lines of a text, which is the only one of its script; none where it is not refused.
fn lines_of(alloc: Global, schema: &Schema, script: &str) -> Result<String, AllocError> {
    match read_query(schema, script.as_bytes()) {
        Ok(_) => Ok(String::new(alloc)),
        Err(refusal) => refused_lines(
            alloc,
            &RefusedText {
                file: "q.sql",
                script: script.as_bytes(),
                schema: Some(schema),
                text: 1,
                refusal,
            },
        ),
    }
}

#[test]
fn each_refused_text_is_told_by_name_place_and_cure(rt: HostRuntime) -> Result<(), Fail> {
    let schema = read_schema(SCHEMA.as_bytes())?;
    for cases in [NAMES, LITERALS, LINKS, LIMITS, WORDS] {
        for case in cases.split('\n') {
            let (text, told) = case.split_once('|').unwrap_or((case, ""));
            let lines = lines_of(rt.alloc(), &schema, text)?;
            let first = lines.split('\n').next().unwrap_or("");
            let found = first
                .strip_prefix("q.sql, line 1, column ")
                .unwrap_or(first);
            assert_eq!(rt; found, told, "{text}");
        }
    }
    Ok(())
}

#[test]
fn a_refused_text_is_shown_in_its_line(rt: HostRuntime) -> Result<(), Fail> {
    let schema = read_schema(SCHEMA.as_bytes())?;
    let mut text = RefusedText {
        file: "q.sql",
        script: b"SELECT day FROM visit;\nSELECT age\n  FROM patients",
        schema: Some(&schema),
        text: 2,
        refusal: Refusal::UnknownTable,
    };
    assert_eq!(rt;
        refused_lines(rt.alloc(), &text)?.as_str(),
        "q.sql, line 3, column 8: text 2: there is no table patients: the tables are doctor, patient, visit\n      FROM patients\n           ^"
    );
    text.schema = None;
    assert_eq!(rt;
        refused_lines(rt.alloc(), &text)?.as_str(),
        "q.sql, line 2, column 1: text 2: it names a table that is not there: write behind FROM, and before a point, the names of the schema's tables\n    SELECT age\n    ^"
    );
    text.script = b"";
    assert_eq!(rt;
        refused_lines(rt.alloc(), &text)?.as_str(),
        "text 2: it names a table that is not there: write behind FROM, and before a point, the names of the schema's tables"
    );
    text.script = b"\xEF\xBB\xBFSELECT day FROM visit";
    text.text = 1;
    text.refusal = Refusal::Syntax { at: 0 };
    assert_eq!(rt;
        refused_lines(rt.alloc(), &text)?.as_str(),
        "q.sql, line 1, column 1: text 1: the file begins with a byte order mark: save it without, as plain ASCII"
    );
    Ok(())
}

#[test]
fn the_refused_texts_of_a_script_are_told_one_after_another(rt: HostRuntime) -> Result<(), Fail> {
    let schema = read_schema(SCHEMA.as_bytes())?;
    let answered = ToldText {
        refusal: None,
        rows: 3,
    };
    let refused = ToldText {
        refusal: Some(Refusal::UnknownTable),
        rows: 0,
    };
    let read = ScriptRead {
        file: "q.sql",
        script: b"SELECT day FROM visit;\nSELECT age FROM patients",
        schema: Some(&schema),
    };
    let lines = script_lines(rt.alloc(), &read, &[answered, refused])?;
    assert_eq!(rt;
        lines.as_str(),
        "q.sql, line 2, column 17: text 2: there is no table patients: the tables are doctor, patient, visit\n    SELECT age FROM patients\n                    ^\n1 of 2 texts was refused"
    );
    assert!(rt; script_lines(rt.alloc(), &read, &[answered, answered])?.is_empty());
    Ok(())
}
