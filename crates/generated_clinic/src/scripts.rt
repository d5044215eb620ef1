//! The texts of a script, by their numbers.

ghost use Rattle.std.specs.Prelude.{◌≡◌, ◌≤◌, ◌^◌, ◌++◌, OnOk, IfOk};
ghost use Rattle.ghost_model.specs.core.Generated as drawn;

use crate::lines::put;
use std::alloc::{AllocError, Global};

/// Puts a text about doctors at the script's end.
fn put_doctors_elsewhere(script: &mut Vec<u8>, number: u64) -> Result<(), AllocError>
    ensures text { OnOk result (script.new.items ≡ script.old.items ++ drawn.doctors_elsewhere number) }
{
    put(
        script,
        b"SELECT doctor.id, country FROM doctor WHERE specialty <> 's",
        number % 5,
        b"';",
    )
}

/// Puts a text about visits alone at the script's end.
fn put_early_visits(script: &mut Vec<u8>, number: u64) -> Result<(), AllocError>
    requires small { number ≤ 2 ^ 32 }
    ensures text { OnOk result (script.new.items ≡ script.old.items ++ drawn.early_visits number) }
{
    put(
        script,
        b"SELECT visit.id, day FROM visit WHERE day < ",
        60 + 7 * number,
        b" AND purpose = 'p",
    )?;
    put(script, b"", (number + 6) % 8, b"';")
}

/// Puts a text about visits and their doctors at the script's end.
fn put_visits_to_specialists(script: &mut Vec<u8>, number: u64) -> Result<(), AllocError>
    requires small { number ≤ 2 ^ 32 }
    ensures text { OnOk result (script.new.items ≡ script.old.items ++ drawn.visits_to_specialists number) }
{
    put(
        script,
        b"SELECT visit.id, specialty FROM visit, doctor WHERE doc = doctor.id AND specialty = 's",
        number % 5,
        b"' AND purpose = 'p",
    )?;
    put(script, b"", (number + 6) % 8, b"';")
}

/// Puts a text about visits, their doctors and their patients at the script's end.
fn put_visits_of_the_old(script: &mut Vec<u8>, number: u64) -> Result<(), AllocError>
    requires small { number ≤ 2 ^ 32 }
    ensures text { OnOk result (script.new.items ≡ script.old.items ++ drawn.visits_of_the_old number) }
{
    put(
        script,
        b"SELECT visit.id, age, country FROM visit, doctor, patient WHERE doc = doctor.id AND pat = patient.id AND age >= ",
        2 * number,
        b" AND country = 'c",
    )?;
    put(script, b"", number % 3, b"';")
}

/// Puts the text with this number at the script's end.
fn put_text(script: &mut Vec<u8>, number: u64) -> Result<(), AllocError>
    requires small { number ≤ 2 ^ 32 }
    ensures text { OnOk result (script.new.items ≡ script.old.items ++ drawn.text number) }
{
    match number % 4 {
        1 => put_early_visits(script, number),
        2 => put_visits_to_specialists(script, number),
        3 => put_visits_of_the_old(script, number),
        _ => put_doctors_elsewhere(script, number),
    }
}

/// A script of so many texts, each on a line of its own.
pub(crate) fn script(alloc: Global, texts: u32) -> Result<Vec<u8>, AllocError>
    ensures script { IfOk result (λ script. script.items ≡ drawn.script texts) }
{
    let mut script = Vec::new(alloc);
    for before in 0..texts {
        put_text(&mut script, before as u64 + 1)?;
        script.extend_from_slice(b"\n")?;
    }
    Ok(script)
}
