//! Plain answers over the clinic.

use crate::clinic::CATALOG;
use csv_split::read_tables;
use edge_traits::mem_sink::MemSink;
use key_lines::Printer;
use plain_eval::answer_plain;
use spj_parse::read_query;
use std::alloc::AllocError;
use tree_schema::read_catalog;

const FILES: [&str; 3] = [
    "id,specialty,country\n1,cardio,FR\n2,neuro,ES\n3,cardio,ES\n",
    "id,age,name\n1,30,Ann\n2,41,Bob\n",
    "id,day,purpose,doc,pat\n1,5,flu,1,1\n2,5,check,3,2\n3,9,flu,3,1\n4,2,flu,2,2\n",
];

/// Texts, each with the rows of its answer.
const ANSWERS: [(&str, &str); 4] = [
    (
        "SELECT visit.id, purpose FROM visit",
        "> 1\tflu\n> 2\tcheck\n> 3\tflu\n> 4\tflu\n",
    ),
    (
        "SELECT visit.id, name FROM visit, patient, doctor WHERE pat = patient.id AND visit.doc = doctor.id AND country = 'ES' AND day BETWEEN 5 AND 9",
        "> 2\tBob\n> 3\tAnn\n",
    ),
    (
        "SELECT day, name FROM patient, visit WHERE patient.id = pat AND purpose <> 'flu' AND patient.id = pat",
        "> 5\tBob\n",
    ),
    ("SELECT id, name FROM patient WHERE age > 41", ""),
];

#[test]
fn plain_answers_follow_the_foreign_keys(rt: HostRuntime) -> Result<(), AllocError> {
    let cat = read_catalog(CATALOG).expect(&rt, "the catalog");
    let mut files = Vec::new(rt.alloc());
    for file in FILES {
        files.push(Vec::from_slice(rt.alloc(), file.as_bytes())?)?;
    }
    assert!(rt; files.len() == cat.schema().tables());
    let tables = read_tables(rt.alloc(), cat.schema(), &files).expect(&rt, "the tables");
    for (text, lines) in ANSWERS {
        let query = read_query(cat.schema(), text.as_bytes()).expect(&rt, text);
        let rows = answer_plain(rt.alloc(), cat.schema(), &tables, &query)?;
        let mut out = MemSink::new(rt.alloc(), 99, 99, &[])?;
        let mut printer = Printer::new();
        for row in rows.iter() {
            printer.row(&mut out, row.as_slice());
        }
        assert!(rt; out.bytes() == lines.as_bytes(), "{text}");
    }
    Ok(())
}
