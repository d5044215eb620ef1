//! Whether a text is in the grammar.

ghost use Rattle.std.specs.Prelude.{◌≡◌, Err, OnOk, IfErr};
ghost use Rattle.ghost_model.specs.readings.QueryPlaces as places;
ghost use Rattle.spj_parse.specs.Walks.{HasTree};

use crate::spots::{Spot, Turn, follow};
use tree_schema::Cursor;

/// Whether a text is in the grammar; one that is not gives the offset of its fault. Nothing of the text is kept, so it may
/// be of any length.
pub(crate) fn check_syntax(text: &[u8]) -> Result<(), usize>
    ensures tree { OnOk result (HasTree text.now) }
    ensures fault { IfErr result (λ at. places.syntax_of text.now ≡ Err at) }
{
    let mut cursor = Cursor::of(text);
    let mut spot = Spot::Start;
    loop {
        let Some(token) = cursor.next() else {
            return match spot {
                Spot::Whole => Ok(()),
                _ => Err(0),
            };
        };
        match follow(spot, token) {
            Turn::Goes(next) => spot = next,
            Turn::Gives(_, next) => spot = next,
            Turn::Stops => return Err(token.at),
        }
    }
}
