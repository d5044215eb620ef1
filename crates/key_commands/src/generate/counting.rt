//! The rows of plain answers.

ghost use Rattle.std.specs.Prelude.{◌≡◌, ◌≤◌, length, map};
ghost use Rattle.ghost_model.specs.core.Database.{IsDatabase};
ghost use Rattle.ghost_model.specs.core.Texts.{most_texts, texts_of};
ghost use Rattle.key_commands.specs.generate.Counting.{rows_of_text};

use arrayvec::ArrayVec;
use csv_split::Tables;
use key_inputs::Input;
use key_inputs::script::MAX_TEXTS;
use plain_eval::count_plain;
use spj_parse::{Texts, read_query};
use tree_schema::Schema;

/// A number of rows for each text of a script.
pub(crate) type RowCounts = ArrayVec<u32, MAX_TEXTS>;

/// How many rows the answer of a text has, none where it is refused.
fn rows_of(schema: &Schema, tables: &Tables, text: &[u8]) -> u32
    requires database { IsDatabase schema.now tables.now }
    ensures rows { result ≡ rows_of_text schema.now tables.now text.now }
{
    match read_query(schema, text) {
        Ok(query) => count_plain(schema, tables, &query),
        Err(_) => 0,
    }
}

/// How many rows the plain answer of each text of a script has. No memory is taken.
pub(crate) fn rows_of_texts(clinic: &Input, script: &[u8]) -> RowCounts
    requires database { IsDatabase clinic.now.schema clinic.now.tables }
    requires few { length (texts_of script.now) ≤ most_texts }
    ensures rows { result.items ≡ map (rows_of_text clinic.now.schema clinic.now.tables) (texts_of script.now) }
{
    let mut counts = RowCounts::new();
    let mut texts = Texts::new(script);
    for earlier in 0..MAX_TEXTS {
        let Some(text) = texts.next() else {
            return counts;
        };
        counts.push(rows_of(&clinic.schema, &clinic.tables, text));
    }
    counts
}
