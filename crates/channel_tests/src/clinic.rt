//! The clinic of doctors, patients and visits, the frames of its sessions by their names, and rows in words.

use arrayvec::ArrayVec;
use itoa::Buffer;

/// The bytes of the catalog after a load.
pub(crate) const CATALOG: &[u8] =
    b"GHOSTDB\x02\0\0\0\x01\0\0\x01\x51CREATE TABLE doctor (id INTEGER PRIMARY KEY, specialty CHAR(8), country CHAR(2) HIDDEN);\nCREATE TABLE patient (id INTEGER PRIMARY KEY, age INTEGER, name CHAR(8) HIDDEN);\nCREATE TABLE visit (id INTEGER PRIMARY KEY, day INTEGER, purpose CHAR(8) HIDDEN, doc INTEGER REFERENCES doctor(id) HIDDEN, pat INTEGER REFERENCES patient(id) HIDDEN);\n\0\0\0\x03\0\0\0\x02\0\0\0\x04";

/// The visible cells of 3 doctors, 2 patients and 4 visits, which stand behind the catalog in the host's file.
pub(crate) const CELLS: &[u8] =
    b"cardio\0\0neuro\0\0\0cardio\0\0\x80\0\0\0\0\0\0\x1E\x80\0\0\0\0\0\0\x29\x80\0\0\0\0\0\0\x05\x80\0\0\0\0\0\0\x05\x80\0\0\0\0\0\0\x09\x80\0\0\0\0\0\0\x02";

/// Names of frames. HEAD is what comes before the catalog in a WELCOME frame, REST the catalog without its first byte. The first
/// ask is for the doctors of the heart, DAY_ASK for the days of visits from 2 on.
fn names() -> [(&'static str, &'static [u8]); 16] {
    let (_first, rest) = CATALOG.split_at(1);
    [
        ("HELLO", b"\x01\x02\0\x04\0\0\0\0\0\0\0\x01"),
        ("HEAD", b"\x11\x02\x01\x6E\0\0\0\0\x01"),
        ("CATALOG", CATALOG),
        ("REST", rest),
        ("BYE", b"\x04\x02\0\0\0\0\0\0"),
        (
            "ASK",
            b"\x02\x02\0\x0E\0\0\0\x01\0\x01\x01\x01\x01\x01cardio\0\0",
        ),
        (
            "ROWS",
            b"\x12\x02\0\x18\0\0\0\x01\0\0\0\x01cardio\0\0\0\0\0\x03cardio\0\0",
        ),
        ("MORE", b"\x03\x02\0\0\0\0\0\x01"),
        ("DONE", b"\x13\x02\0\x04\0\0\0\x01\0\0\0\x02"),
        ("SORRY", b"\x14\x02\0\x01\0\0\0\x01\x01"),
        ("ALL_ASK", b"\x02\x02\0\x04\0\0\0\x01\0\x01\x01\0"),
        (
            "AGE_ASK",
            b"\x02\x02\0\x0D\0\0\0\x02\x01\0\x01\x01\x01\x80\0\0\0\0\0\0\x1E",
        ),
        (
            "DAY_ASK",
            b"\x02\x02\0\x0E\0\0\0\x02\x02\x01\x01\x01\x01\x06\x80\0\0\0\0\0\0\x02",
        ),
        (
            "DAY_ROWS",
            b"\x12\x02\0\x30\0\0\0\x02\0\0\0\x01\x80\0\0\0\0\0\0\x05\0\0\0\x02\x80\0\0\0\0\0\0\x05\0\0\0\x03\x80\0\0\0\0\0\0\x09\0\0\0\x04\x80\0\0\0\0\0\0\x02",
        ),
        ("DAY_MORE", b"\x03\x02\0\0\0\0\0\x02"),
        ("DAY_DONE", b"\x13\x02\0\x04\0\0\0\x02\0\0\0\x04"),
    ]
}

/// Bytes that are put together.
pub(crate) type Bytes = ArrayVec<u8, 2048>;

/// Adds bytes to others.
pub(crate) fn add(bytes: &mut Bytes, more: &[u8]) {
    let _ = bytes.try_extend_from_slice(more);
}

/// Adds a mark and a number in digits.
pub(crate) fn add_number(bytes: &mut Bytes, mark: &[u8], number: u64) {
    add(bytes, mark);
    add(bytes, Buffer::new().format(number).as_bytes());
}

/// The name of a frame.
pub(crate) fn name_of(frame: &[u8]) -> &'static str {
    for (name, bytes) in names() {
        if bytes == frame {
            return name;
        }
    }
    "?"
}

/// Adds the bytes that a word names or gives in hexadecimal.
fn add_word(bytes: &mut Bytes, word: &str) {
    for (name, named) in names() {
        if name == word {
            add(bytes, named);
            return;
        }
    }
    let mut places = [0; 64];
    let size = (word.len() / 2).min(64);
    let place = &mut places[..size];
    let _ = hex::decode_to_slice(word, place);
    add(bytes, place);
}

/// The bytes of a row's words, one behind the other.
pub(crate) fn bytes_of(words: &str) -> Bytes {
    let mut bytes = Bytes::new();
    for word in words.split(' ') {
        add_word(&mut bytes, word);
    }
    bytes
}

/// A part of a row.
pub(crate) fn part(row: &str, place: usize) -> &str {
    row.split(": ").nth(place).unwrap_or("")
}
