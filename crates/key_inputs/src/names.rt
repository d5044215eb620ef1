//! The names of files.

ghost use Rattle.std.specs.Prelude.{◌≡◌, ◌++◌, true, IfOk, OnOk, string_bytes};
ghost use Rattle.std.specs.List.{list_all};
ghost use Rattle.ghost_model.specs.refusals.Tokens.{is_name_byte};
ghost use Rattle.key_inputs.specs.Openings as openings;

use std::alloc::{AllocError, Global};

/// The name of the file of a table's rows.
pub fn table_file(alloc: Global, folder: &str, table: &[u8]) -> Result<String, AllocError>
    requires named { list_all is_name_byte table.now ≡ true }
    ensures name { IfOk result (λ name. string_bytes name ≡ openings.table_file folder.now table.now) }
{
    let mut name = String::new(alloc);
    name.push_str(folder)?;
    name.push_str("/")?;
    push_name(&mut name, table)?;
    name.push_str(".csv")?;
    Ok(name)
}

/// Puts a name at the end of a text.
fn push_name(text: &mut String, name: &[u8]) -> Result<(), AllocError>
    requires named { list_all is_name_byte name.now ≡ true }
    ensures text { OnOk result (string_bytes text.new ≡ string_bytes text.old ++ name.now) }
{
    for byte in name {
        text.push(*byte as char)?;
    }
    Ok(())
}
