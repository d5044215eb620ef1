//! The lines of all refused texts of a script.

use crate::refused::{RefusedText, refused_lines};
use crate::tally::RefusedCount;
use key_lines::ToldText;
use spj_parse::text_count;
use std::alloc::{AllocError, Global};
use tree_schema::Schema;

/// A script, as it was read.
#[derive(Clone, Copy)]
pub struct ScriptRead<'a, 's> {
    /// The name of its file.
    pub file: &'a str,

    /// Its bytes.
    pub script: &'a [u8],

    /// The schema that its texts were read with, where it is at hand.
    pub schema: Option<&'s Schema>,
}

/// The lines, without the end of the last one, that tell of each refused text of a script what is wrong, where, and what to write,
/// and behind these how many were refused. `told` is what was told of the texts, from the first one on.
pub fn script_lines(
    alloc: Global,
    read: &ScriptRead<'_, '_>,
    told: &[ToldText],
) -> Result<String, AllocError> {
    let mut lines = String::new(alloc);
    let mut text: u32 = 0;
    let mut refused: usize = 0;
    for one in told {
        text = text.saturating_add(1);
        if let Some(refusal) = one.refusal {
            refused = refused.saturating_add(1);
            let of_one = RefusedText {
                file: read.file,
                script: read.script,
                schema: read.schema,
                text,
                refusal,
            };
            lines.push_str(refused_lines(alloc, &of_one)?.as_str())?;
            lines.push('\n')?;
        }
    }
    let texts = text_count(read.script);
    if 0 < refused && refused <= texts {
        let count = format!(in alloc; "{}", RefusedCount { refused, texts })?;
        lines.push_str(count.as_str())?;
    }
    Ok(lines)
}
