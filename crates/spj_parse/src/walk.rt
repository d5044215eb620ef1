//! The things that a text names, one after another.

ghost use Rattle.std.specs.Prelude.{◌≡◌};
ghost use Rattle.spj_parse.specs.Items.{items_in};
ghost use Rattle.spj_parse.specs.Walks.{items_left};

use crate::drafts::Item;
use crate::spots::{Spot, Turn, follow};
use tree_schema::Cursor;

/// The things that a text names from a place on: all columns or the selected ones, then the tables, then the conditions.
/// Where the text leaves the grammar, they end.
#[derive(Drop)]
pub(crate) struct Walk<'a> {
    cursor: Cursor<'a>,
    spot: Spot<'a>,
}

impl<'a> Walk<'a> {
    /// All things that a text names.
    pub(crate) fn of(text: &'a [u8]) -> Self
        ensures items { items_left result ≡ items_in text.now }
    {
        Walk {
            cursor: Cursor::of(text),
            spot: Spot::Start,
        }
    }
}

impl<'a> Iterator for Walk<'a> {
    ghost use Rattle.std.specs.Iterator.{YieldsFirstBy, item_count};
    ghost use Rattle.spj_parse.specs.Drafts.{item_of};
    ghost use Rattle.spj_parse.specs.Walks.{items_left};

    type Item = Item<'a>;

    ghost next_gives = { YieldsFirstBy item_of items_left };

    ghost remaining = { item_count items_left };

    fn next(&mut self) -> Option<Item<'a>> {
        loop {
            let Some(token) = self.cursor.next() else {
                return None;
            };
            match follow(self.spot, token) {
                Turn::Goes(next) => self.spot = next,
                Turn::Gives(item, next) => {
                    self.spot = next;
                    return Some(item);
                }
                Turn::Stops => {
                    self.spot = Spot::Whole;
                    return None;
                }
            }
        }
    }
}
