//! Indexes of databases of several shapes.

use crate::device::{Loaded, load};
use crate::found::{Place, found};
use crate::ids::ids_between;
use crate::lines::{Line, put};
use std::alloc::Global;

/// What is looked for between two bounds, and what is found there.
type Case<'a> = (&'a str, &'a str, &'a str);

/// What an index has between two bounds: that of the identifiers where the column is the first one.
fn between(alloc: Global, loaded: &mut Loaded, place: Place, low: &str, high: &str) -> Line {
    if place.1 == 0 {
        ids_between(alloc, loaded, place.0, low, high)
    } else {
        found(alloc, loaded, place, low, high)
    }
}

/// The first case for which something else is found, and what that is.
fn other_in(alloc: Global, loaded: &mut Loaded, place: Place, cases: &[Case<'_>]) -> Line {
    for (low, high, wanted) in cases {
        let line = between(alloc, loaded, place, low, high);
        if line.as_str() != *wanted {
            let mut other = Line::new();
            put(&mut other, low);
            put(&mut other, high);
            put(&mut other, line.as_str());
            return other;
        }
    }
    Line::new()
}

/// That of the index of a column of the tables of some files.
fn other(alloc: Global, schema: &str, files: &[&str], place: Place, cases: &[Case<'_>]) -> Line {
    match load(alloc, schema, files) {
        Some(mut loaded) => other_in(alloc, &mut loaded, place, cases),
        None => {
            let mut line = Line::new();
            put(&mut line, "not loaded");
            line
        }
    }
}

/// One table.
const ONE: &str =
    "CREATE TABLE stone (id INTEGER PRIMARY KEY, mass INTEGER, age INTEGER HIDDEN);\n";

/// One table of long texts.
const LONG: &str =
    "CREATE TABLE note (id INTEGER PRIMARY KEY, size INTEGER, body CHAR(64) HIDDEN);\n";

/// A root, its child and its grandchild.
pub(crate) const THREE: &str =
    "CREATE TABLE land (id INTEGER PRIMARY KEY, size INTEGER, name CHAR(8) HIDDEN);\nCREATE TABLE city (id INTEGER PRIMARY KEY, size INTEGER, land INTEGER REFERENCES land(id) HIDDEN);\nCREATE TABLE trip (id INTEGER PRIMARY KEY, cost INTEGER, city INTEGER REFERENCES city(id) HIDDEN);\n";

/// Files of those three: their fourth land has no city.
pub(crate) const THREE_FILES: [&str; 3] = [
    "id,size,name\n1,1,A\n2,1,B\n3,1,A\n4,1,C\n",
    "id,size,land\n1,1,2\n2,1,1\n3,1,3\n4,1,1\n",
    "id,cost,city\n1,1,4\n2,1,3\n3,1,1\n4,1,4\n5,1,2\n",
];

#[test]
fn a_table_without_rows_has_no_entry(rt: HostRuntime) {
    let files = ["id,mass,age\n"];
    let cases = [("-", "-", ""), ("[1", "-", ""), ("-", "(1", "")];
    let line = other(rt.alloc(), ONE, &files, (0, 2), &cases);
    assert_eq!(rt; line.as_str(), "");
}

#[test]
fn equal_values_have_one_entry(rt: HostRuntime) {
    let files = ["id,mass,age\n1,1,7\n2,1,7\n3,1,7\n"];
    let cases = [
        ("-", "-", "#0/ 1 2 3"),
        ("[7", "[7", "#0/ 1 2 3"),
        ("-", "(7", ""),
        ("(7", "-", ""),
        ("[8", "-", ""),
    ];
    let line = other(rt.alloc(), ONE, &files, (0, 2), &cases);
    assert_eq!(rt; line.as_str(), "");
}

#[test]
fn distinct_values_stand_in_order(rt: HostRuntime) {
    let files = ["id,mass,age\n1,1,30\n2,1,-20\n3,1,10\n4,1,-40\n"];
    let cases = [
        ("-", "-", "#0/ 4#1/ 2#2/ 3#3/ 1"),
        ("[-20", "[10", "#1/ 2#2/ 3"),
        ("(-20", "(30", "#2/ 3"),
        ("-", "(10", "#0/ 4#1/ 2"),
        ("(10", "-", "#3/ 1"),
        ("-", "[-40", "#0/ 4"),
        ("[30", "-", "#3/ 1"),
        ("[-39", "[-21", ""),
        ("[10", "[-20", ""),
    ];
    let line = other(rt.alloc(), ONE, &files, (0, 2), &cases);
    assert_eq!(rt; line.as_str(), "");
}

#[test]
fn long_texts_of_one_beginning_are_told_apart(rt: HostRuntime) {
    let files = [
        "id,size,body\n1,1,aaaaaaaaaaaaaaaaaaaaaaaaaaaaaaaaaaaaaaaaaaaaaaaaaaaaaaaaaaaaaaab\n2,1,aaaaaaaaaaaaaaaaaaaaaaaaaaaaaaaaaaaaaaaaaaaaaaaaaaaaaaaaaaaaaaa\n3,1,aaaaaaaaaaaaaaaaaaaaaaaaaaaaaaaaaaaaaaaaaaaaaaaaaaaaaaaaaaaaaaaa\n4,1,aaaaaaaaaaaaaaaaaaaaaaaaaaaaaaaaaaaaaaaaaaaaaaaaaaaaaaaaaaaaaaab\n",
    ];
    let least = "[aaaaaaaaaaaaaaaaaaaaaaaaaaaaaaaaaaaaaaaaaaaaaaaaaaaaaaaaaaaaaaa";
    let middle = "(aaaaaaaaaaaaaaaaaaaaaaaaaaaaaaaaaaaaaaaaaaaaaaaaaaaaaaaaaaaaaaaa";
    let cases = [
        ("-", "-", "#0/ 2#1/ 3#2/ 1 4"),
        (least, least, "#0/ 2"),
        (least, middle, "#0/ 2"),
        (middle, "-", "#2/ 1 4"),
        ("[aaaaaaab", "-", ""),
    ];
    let line = other(rt.alloc(), LONG, &files, (0, 2), &cases);
    assert_eq!(rt; line.as_str(), "");
}

#[test]
fn values_but_one_are_two_groups(rt: HostRuntime) {
    let cases = [
        ("-", "-", "#0/ 1 3/ 2 3 4/ 1 2 4 5#1/ 2/ 1/ 3#2/ 4//"),
        ("-", "(B", "#0/ 1 3/ 2 3 4/ 1 2 4 5"),
        ("(B", "-", "#2/ 4//"),
        ("-", "(A", ""),
        ("(C", "-", ""),
        ("[AA", "[BB", "#1/ 2/ 1/ 3"),
    ];
    let line = other(rt.alloc(), THREE, &THREE_FILES, (0, 2), &cases);
    assert_eq!(rt; line.as_str(), "");
}

#[test]
fn identifiers_lead_to_the_rows_of_both_levels_above(rt: HostRuntime) {
    let cases = [
        ("-", "-", "#0/ 2 4/ 1 4 5#1/ 1/ 3#2/ 3/ 2#3//"),
        ("-", "(2", "#0/ 2 4/ 1 4 5"),
        ("(2", "[4", "#2/ 3/ 2#3//"),
        ("[-5", "[1", "#0/ 2 4/ 1 4 5"),
        ("(3", "[9", "#3//"),
        ("[5", "-", ""),
        ("[3", "(3", ""),
    ];
    let line = other(rt.alloc(), THREE, &THREE_FILES, (0, 0), &cases);
    assert_eq!(rt; line.as_str(), "");
}
