//! The clinic: its catalog, and a device that has its hidden columns.

use edge_traits::flash::{AttachFault, Flash};
use edge_traits::mem_flash::MemFlash;
use std::alloc::Global;

/// The bytes of the catalog of three doctors, two patients and four visits.
pub(crate) const CATALOG: &[u8] =
    b"GHOSTDB\x02\0\0\0\x01\0\0\x01\x51CREATE TABLE doctor (id INTEGER PRIMARY KEY, specialty CHAR(8), country CHAR(2) HIDDEN);\nCREATE TABLE patient (id INTEGER PRIMARY KEY, age INTEGER, name CHAR(8) HIDDEN);\nCREATE TABLE visit (id INTEGER PRIMARY KEY, day INTEGER, purpose CHAR(8) HIDDEN, doc INTEGER REFERENCES doctor(id) HIDDEN, pat INTEGER REFERENCES patient(id) HIDDEN);\n\0\0\0\x03\0\0\0\x02\0\0\0\x04";

/// The pages of the hidden columns: doctor.country, patient.name, visit.purpose, visit.doc and visit.pat.
const COLUMNS: [(u32, &[u8]); 5] = [
    (256, b"FRESES"),
    (263, b"Ann\0\0\0\0\0Bob\0\0\0\0\0"),
    (270, b"flu\0\0\0\0\0check\0\0\0flu\0\0\0\0\0flu\0\0\0\0\0"),
    (
        271,
        b"\x80\0\0\0\0\0\0\x01\x80\0\0\0\0\0\0\x03\x80\0\0\0\0\0\0\x03\x80\0\0\0\0\0\0\x02",
    ),
    (
        272,
        b"\x80\0\0\0\0\0\0\x01\x80\0\0\0\0\0\0\x02\x80\0\0\0\0\0\0\x01\x80\0\0\0\0\0\0\x02",
    ),
];

/// A page that begins with these bytes.
fn page_of(front: &[u8]) -> [u8; 2048] {
    let mut page = [0xFF; 2048];
    for (place, byte) in page.iter_mut().zip(front) {
        *place = *byte;
    }
    page
}

/// A device of the clinic's hidden columns, whose making was one call.
pub(crate) fn device(alloc: Global) -> Result<MemFlash, AttachFault> {
    failing_device(alloc, &[])
}

/// One that fails at the calls numbered in `fails`, from 1.
pub(crate) fn failing_device(alloc: Global, fails: &[u64]) -> Result<MemFlash, AttachFault> {
    let mut flash = MemFlash::new(alloc, 21, fails)?;
    flash.make(alloc, "key", 21)?;
    for (page, front) in COLUMNS.as_slice() {
        flash.put_page(*page, &page_of(front));
    }
    Ok(flash)
}
