//! What is asked for the texts of a script over the clinic.

use crate::clinic::CATALOG;
use script_asks::scripts::ScriptAsks;
use spj_parse::text_count;
use tree_schema::read_catalog;

/// Of these six texts the second means nothing, and the fourth asks nothing.
const SCRIPT: &[u8] =
    b"SELECT specialty FROM doctor; SELECT height FROM doctor; SELECT name FROM patient WHERE age < 30;
SELECT name FROM patient; SELECT age, specialty, purpose FROM visit, doctor, patient
WHERE doc = doctor.id AND pat = patient.id AND day = 3; SELECT day FROM visit;";

/// The asks one after another, each by its text, its table, and the numbers of its columns and conditions.
const ASKS: [(u32, u8, usize, usize); 6] = [
    (1, 0, 1, 0),
    (3, 1, 0, 1),
    (5, 0, 1, 0),
    (5, 1, 1, 0),
    (5, 2, 0, 1),
    (6, 2, 1, 0),
];

#[test]
fn texts_are_asked_one_after_another(rt: HostRuntime) {
    let cat = read_catalog(CATALOG).expect(&rt, "the catalog");
    assert!(rt; text_count(SCRIPT) <= 64);
    let mut asks = ScriptAsks::new(cat.schema(), SCRIPT);
    for (text, table, columns, tests) in ASKS {
        let (number, ask) = asks.first().expect(&rt, "an ask");
        assert!(rt;
            number == text && ask.table == table,
            "table {table}, text {text}"
        );
        assert!(rt;
            ask.columns.len() == columns && ask.tests.len() == tests,
            "text {text}"
        );
        asks.leave_out();
    }
    assert!(rt; asks.first().is_none());
}
