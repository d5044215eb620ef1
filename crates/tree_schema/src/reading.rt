//! The schema that a text means, or why it means none.

ghost use Rattle.std.specs.Prelude.{◌≡◌, Ok, map};
ghost use Rattle.ghost_model.specs.readings.SchemaReading.{schema_judged, schema_reading};
ghost use Rattle.tree_schema.specs.Drafts.{table_of};
ghost use Rattle.tree_schema.specs.Faults.{reading_of, IsSpelled};

use crate::building::tables_of;
use crate::rules::check_texts;
use crate::syntax::{TableDraft, read_tables};
use crate::trees::check_tree;
use crate::{Schema, SchemaFault};

/// The schema of the tables that a text declares, or the first fault of the rules.
fn judge(drafts: &[TableDraft]) -> Result<Schema, SchemaFault>
    requires spelled { IsSpelled (map table_of drafts.now) }
    ensures reading { reading_of result ≡ schema_judged (Ok (map table_of drafts.now)) }
{
    check_texts(drafts)?;
    let tables = tables_of(drafts);
    check_tree(&tables)?;
    Ok(Schema::of(tables))
}

/// The schema that a text means. A text that means none gives the first rule that it breaks and of this rule the first
/// place, as the definition says. The text may be of any length, and no memory is taken.
pub fn read_schema(text: &[u8]) -> Result<Schema, SchemaFault>
    ensures reading { reading_of result ≡ schema_reading text.now }
{
    match read_tables(text) {
        Err(at) => Err(SchemaFault::Syntax { at }),
        Ok(None) => Err(SchemaFault::Limit),
        Ok(Some(drafts)) => judge(&drafts),
    }
}
