//! A clinic and the script over it, as bytes.

ghost use Rattle.std.specs.Prelude.{◌≡◌, ◌∷◌, [], IfOk};
ghost use Rattle.ghost_model.specs.core.Generated as drawn;

use crate::clinic::Generated;
use crate::{files, scripts};
use std::alloc::{AllocError, Global};

/// The text of a generated clinic's schema.
pub fn schema_text() -> &'static [u8]
    ensures text { result.now ≡ drawn.schema_text }
{
    b"CREATE TABLE doctor (id INTEGER PRIMARY KEY, specialty CHAR(8), country CHAR(2) HIDDEN);
CREATE TABLE patient (id INTEGER PRIMARY KEY, age INTEGER, name CHAR(8) HIDDEN);
CREATE TABLE visit (id INTEGER PRIMARY KEY, day INTEGER, purpose CHAR(8) HIDDEN, \
doc INTEGER REFERENCES doctor(id) HIDDEN, pat INTEGER REFERENCES patient(id) HIDDEN);
"
}

/// The clinic of so many visits that is drawn from a seed, and a script of so many texts over it. There is one doctor for
/// ten visits and one patient for five, and one of each more. An error is want of memory.
pub fn generated(alloc: Global, seed: u32, visits: u32, texts: u32) -> Result<Generated, AllocError>
    ensures files { IfOk result (λ made. made.doctors.items ∷ made.patients.items ∷ made.visits.items ∷ [] ≡ drawn.files seed visits) }
    ensures script { IfOk result (λ made. made.script.items ≡ drawn.script texts) }
{
    Ok(Generated {
        doctors: files::doctors(alloc, seed, visits)?,
        patients: files::patients(alloc, seed, visits)?,
        visits: files::visits(alloc, seed, visits)?,
        script: scripts::script(alloc, texts)?,
    })
}
