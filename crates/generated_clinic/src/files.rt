//! The files of doctors, patients and visits, row by row.

ghost use Rattle.std.specs.Prelude.{◌≡◌, ◌≤◌, ◌^◌, ◌++◌, OnOk, IfOk};
ghost use Rattle.csv.specs.Writing.{default_writer, row_text};
ghost use Rattle.ghost_model.specs.core.Generated as drawn;

use crate::lines::put;
use std::alloc::{AllocError, Global};

/// How many doctors there are for so many visits.
fn doctor_count(visits: u32) -> u32
    ensures count { result ≡ drawn.doctors visits }
{
    visits / 10 + 1
}

/// How many patients there are for so many visits.
fn patient_count(visits: u32) -> u32
    ensures count { result ≡ drawn.patients visits }
{
    visits / 5 + 1
}

/// Puts the row of the doctor with this identifier at the file's end.
fn put_doctor(file: &mut Vec<u8>, seed: u32, identifier: u64) -> Result<(), AllocError>
    requires small { identifier ≤ 2 ^ 32 }
    ensures row { OnOk result (file.new.items ≡ file.old.items ++ row_text default_writer (drawn.doctor_fields seed identifier)) }
{
    put(file, b"", identifier, b",")?;
    put(file, b"s", (identifier + seed as u64) % 5, b",")?;
    put(file, b"c", identifier % 3, b"\n")
}

/// Puts the row of the patient with this identifier at the file's end.
fn put_patient(file: &mut Vec<u8>, seed: u32, identifier: u64) -> Result<(), AllocError>
    requires small { identifier ≤ 2 ^ 32 }
    ensures row { OnOk result (file.new.items ≡ file.old.items ++ row_text default_writer (drawn.patient_fields seed identifier)) }
{
    put(file, b"", identifier, b",")?;
    put(file, b"", (37 * identifier + seed as u64) % 100, b",")?;
    put(file, b"n", identifier % 1000, b"\n")
}

/// Puts the row of the visit with this identifier, of so many visits, at the file's end.
fn put_visit(file: &mut Vec<u8>, seed: u32, visits: u32, identifier: u64) -> Result<(), AllocError>
    requires small { identifier ≤ 2 ^ 32 }
    ensures row { OnOk result (file.new.items ≡ file.old.items ++ row_text default_writer (drawn.visit_fields seed visits identifier)) }
{
    let doctors = doctor_count(visits);
    let patients = patient_count(visits);
    put(file, b"", identifier, b",")?;
    put(file, b"", (31 * identifier + seed as u64) % 365, b",")?;
    put(file, b"p", (7 * identifier + seed as u64) % 8, b",")?;
    put(
        file,
        b"",
        (identifier + seed as u64) % doctors as u64 + 1,
        b",",
    )?;
    put(
        file,
        b"",
        (3 * identifier + seed as u64) % patients as u64 + 1,
        b"\n",
    )
}

/// The file of the doctors for so many visits.
pub(crate) fn doctors(alloc: Global, seed: u32, visits: u32) -> Result<Vec<u8>, AllocError>
    ensures file { IfOk result (λ file. file.items ≡ drawn.file_of (drawn.doctor_records seed visits)) }
{
    let mut file = Vec::from_slice(alloc, b"id,specialty,country\n")?;
    for before in 0..doctor_count(visits) {
        put_doctor(&mut file, seed, before as u64 + 1)?;
    }
    Ok(file)
}

/// The file of the patients for so many visits.
pub(crate) fn patients(alloc: Global, seed: u32, visits: u32) -> Result<Vec<u8>, AllocError>
    ensures file { IfOk result (λ file. file.items ≡ drawn.file_of (drawn.patient_records seed visits)) }
{
    let mut file = Vec::from_slice(alloc, b"id,age,name\n")?;
    for before in 0..patient_count(visits) {
        put_patient(&mut file, seed, before as u64 + 1)?;
    }
    Ok(file)
}

/// The file of so many visits.
pub(crate) fn visits(alloc: Global, seed: u32, visits: u32) -> Result<Vec<u8>, AllocError>
    ensures file { IfOk result (λ file. file.items ≡ drawn.file_of (drawn.visit_records seed visits)) }
{
    let mut file = Vec::from_slice(alloc, b"id,day,purpose,doc,pat\n")?;
    for before in 0..visits {
        put_visit(&mut file, seed, visits, before as u64 + 1)?;
    }
    Ok(file)
}
