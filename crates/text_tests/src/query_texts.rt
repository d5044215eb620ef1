//! What query texts over the clinic mean, and how a script is cut into texts.

use crate::clinic::{SCHEMA, put_value};
use ghost_base::{Operator, Test};
use spj_parse::{Field, Query, Texts, read_query, text_count};
use std::alloc::{AllocError, Global};
use std::fmt::Write;
use std::test::Fail;
use tree_schema::{Schema, read_schema};

/// Texts, and the query that each means or its fault: one case a line, with `|` behind the text. Tables and columns are
/// told by their places.
const CASES: &str = "SELECT*FROM doctor|from 0 top 0 select 0.0 0.1 0.2
select DAY from VISIT where Day=5|from 2 top 2 select 2.1 where 2.1=5
SELECT * FROM doctor, visit WHERE doctor.id = doc|from 0 2 top 2 select 0.0 0.1 0.2 2.0 2.1 2.2 2.3 2.4 join 2.3=0.0
SELECT doc, id, doc FROM visit|from 2 top 2 select 2.3 2.0 2.3
SELECT visit.id, Specialty, name FROM patient, visit, doctor WHERE doc = doctor.id AND pat = patient.id|from 1 2 0 top 2 select 2.0 0.1 1.2 join 2.4=1.0 2.3=0.0
SELECT day FROM patient, visit, doctor WHERE doc = doctor.id AND day = 5 AND patient.id = pat AND doc = doctor.id|from 1 2 0 top 2 select 2.1 join 2.4=1.0 2.3=0.0 where 2.1=5
SELECT day FROM visit WHERE day = - 5|from 2 top 2 select 2.1 where 2.1=-5
SELECT day FROM visit WHERE day = +5|from 2 top 2 select 2.1 where 2.1=5
SELECT day FROM visit WHERE day = 1AND day<>2|from 2 top 2 select 2.1 where 2.1=1 2.1<>2
SELECT day FROM visit WHERE day BETWEEN -1 AND +5 AND day = 5|from 2 top 2 select 2.1 where 2.1>=-1 2.1<=5 2.1=5
SELECT day FROM visit WHERE day < 1 AND day <= 2 AND doc > 3 AND id >= 4|from 2 top 2 select 2.1 where 2.1<1 2.1<=2 2.3>3 2.0>=4
SELECT day FROM visit WHERE purpose = 'it''s' AND purpose <> '' AND purpose > ''''|from 2 top 2 select 2.1 where 2.2='it's' 2.2<>'' 2.2>'''
SELECT age FROM patient WHERE name = 'abcdefg'''|from 1 top 1 select 1.1 where 1.2='abcdefg''
SELECT age FROM patient WHERE age = 000000000000000000000000000000000041|from 1 top 1 select 1.1 where 1.1=41
SELECT age FROM patient WHERE age <= 9223372036854775807 AND age >= -9223372036854775808|from 1 top 1 select 1.1 where 1.1<=9223372036854775807 1.1>=-9223372036854775808
SELECT age patient|the text breaks the grammar at byte 11
SELECT age FROM  |the text breaks the grammar at byte 17
SELECT a FROM t WHERE a = b.c.d|the text breaks the grammar at byte 29
SELECT aaaaaaaaaaaaaaaaaaaaaaaaaaaaaaaaa FROM nowhere|the text is beyond the limits of a query
SELECT * FROM doctor, doctor, doctor, doctor, visit, visit, visit, visit, visit|the text is beyond the limits of a query
SELECT * FROM doctor, doctor, doctor, doctor, visit, visit, visit, visit|a table stands twice, or a column stands for several
SELECT * FROM nowhere, visit, visit, visit, visit, visit, visit, visit|the text is beyond the limits of a query
SELECT * FROM nowhere, visit, visit, visit, visit, visit, visit|a table is unknown
SELECT x FROM nowhere|a table is unknown
SELECT x FROM visit, visit|a column is unknown
SELECT id FROM visit, doctor WHERE day = 'x'|a table stands twice, or a column stands for several
SELECT age FROM patient WHERE age = 9223372036854775808 AND name = 5|a literal is of another kind than its column
SELECT visit.id FROM visit, doctor WHERE day = 9223372036854775808|a literal does not fit its column
SELECT visit.id FROM visit, doctor|the tables are not linked by their foreign keys";

/// Twelve tables: `a` references five of them, and the last of these the other six.
const TWELVE: &str =
    "CREATE TABLE a (id INT PRIMARY KEY, ab INT REFERENCES b, ac INT REFERENCES c, ad INT REFERENCES d, ae INT REFERENCES e, af INT REFERENCES f);
CREATE TABLE b (id INT PRIMARY KEY); CREATE TABLE c (id INT PRIMARY KEY); CREATE TABLE d (id INT PRIMARY KEY); CREATE TABLE e (id INT PRIMARY KEY);
CREATE TABLE f (id INT PRIMARY KEY, fg INT REFERENCES g, fh INT REFERENCES h, fi INT REFERENCES i, fj INT REFERENCES j, fk INT REFERENCES k, fl INT REFERENCES l);
CREATE TABLE g (id INT PRIMARY KEY); CREATE TABLE h (id INT PRIMARY KEY); CREATE TABLE i (id INT PRIMARY KEY); CREATE TABLE j (id INT PRIMARY KEY);
CREATE TABLE k (id INT PRIMARY KEY); CREATE TABLE l (id INT PRIMARY KEY);
";

/// Texts over the twelve tables.
const CASES_OF_TWELVE: &str =
    "SELECT f.id FROM g, f WHERE fg = g.id|from 6 5 top 5 select 5.0 join 5.1=6.0
SELECT a.id FROM l, k, j, i, h, g, f, e, d, c, b, a WHERE ab = b.id AND ac = c.id AND ad = d.id AND ae = e.id AND af = f.id AND fg = g.id AND fh = h.id AND fi = i.id AND j.id = fj AND fk = k.id AND fl = l.id|from 11 10 9 8 7 6 5 4 3 2 1 0 top 0 select 0.0 join 5.6=11.0 5.5=10.0 5.4=9.0 5.3=8.0 5.2=7.0 5.1=6.0 0.5=5.0 0.4=4.0 0.3=3.0 0.2=2.0 0.1=1.0
SELECT a.id FROM a, b, c, d, e, f, g, h, i, j, k, l|the tables are not linked by their foreign keys
SELECT a.id FROM a, b, c, d, e, f, g, h, i, j, k, l, m|the text is beyond the limits of a query
SELECT a.id FROM a, g|the tables are not linked by their foreign keys
SELECT * FROM a, b, c, d, e, f, g, h, i, j, k, l WHERE fl = l.id AND fl = l.id AND ab = k.id|the tables are not linked by their foreign keys";

/// The sign of an operator.
fn sign_of(operator: Operator) -> &'static str {
    match operator {
        Operator::Equal => "=",
        Operator::Unequal => "<>",
        Operator::Less => "<",
        Operator::AtMost => "<=",
        Operator::More => ">",
        Operator::AtLeast => ">=",
    }
}

/// Writes a column by its places.
fn put_field(out: &mut String, field: &Field) -> Result<(), AllocError> {
    write!(out, " {}.{}", field.table, field.column)
}

/// Writes what is tested of a column.
fn put_test(out: &mut String, test: &Test) -> Result<(), AllocError> {
    match test {
        Test::Compared(operator, literal) => {
            write!(out, "{}", sign_of(*operator))?;
            put_value(out, literal)
        }
        Test::IsNull => write!(out, " is null"),
        Test::IsNotNull => write!(out, " is not null"),
    }
}

/// Writes the joins and the members of a query.
fn put_conditions(out: &mut String, query: &Query) -> Result<(), AllocError> {
    for (i, join) in query.joins().iter().enumerate() {
        write!(out, "{}", if i == 0 { " join" } else { "" })?;
        put_field(out, &join.key)?;
        write!(out, "={}.{}", join.identifier.table, join.identifier.column)?;
    }
    for (i, member) in query.members().iter().enumerate() {
        write!(out, "{}", if i == 0 { " where" } else { "" })?;
        put_field(out, &member.field)?;
        put_test(out, &member.test)?;
    }
    Ok(())
}

/// What comes of a text: the parts of its query, or its fault in words.
fn outcome(alloc: Global, schema: &Schema, text: &str) -> Result<String, AllocError> {
    let query = match read_query(schema, text.as_bytes()) {
        Ok(query) => query,
        Err(refusal) => return format!(in alloc; "{refusal}"),
    };
    let mut out = format!(in alloc; "from")?;
    for table in query.from() {
        write!(out, " {table}")?;
    }
    if let Some(top) = query.top(schema) {
        write!(out, " top {top} select")?;
    }
    for field in query.select() {
        put_field(&mut out, field)?;
    }
    put_conditions(&mut out, &query)?;
    Ok(out)
}

#[test]
fn each_text_means_its_query_or_has_its_fault(rt: HostRuntime) -> Result<(), Fail> {
    for (declared, cases) in [(SCHEMA, CASES), (TWELVE, CASES_OF_TWELVE)] {
        let schema = read_schema(declared.as_bytes())?;
        for case in cases.split('\n') {
            let (text, told) = case.split_once('|').unwrap_or((case, ""));
            let found = outcome(rt.alloc(), &schema, text)?;
            assert_eq!(rt; found.as_str(), told, "{text}");
        }
    }
    Ok(())
}

#[test]
fn a_script_is_cut_where_no_literal_is_open(rt: HostRuntime) {
    for (script, expected) in [
        ("", ""),
        (" \t\r\n ;;\n", ""),
        ("SELECT 'a;b'; \n; SELECT c;", "SELECT 'a;b'| SELECT c"),
        ("don't; stop", "don't; stop"),
        ("\x0B;SELECT day FROM visit", "\x0B|SELECT day FROM visit"),
        (
            "don't; can't; SELECT id FROM doctor;",
            "don't; can't| SELECT id FROM doctor",
        ),
        ("'x; y''z'; w", "'x; y''z'| w"),
    ] {
        let mut texts = Texts::new(script.as_bytes());
        let mut count = 0usize;
        for text in expected.split('|') {
            if !text.is_empty() {
                assert!(rt; texts.again().next() == Some(text.as_bytes()), "{script}");
                assert!(rt; texts.next() == Some(text.as_bytes()), "{script}");
                count = count.saturating_add(1);
            }
        }
        assert!(rt;
            texts.next().is_none() && text_count(script.as_bytes()) == count,
            "{script}"
        );
    }
}
