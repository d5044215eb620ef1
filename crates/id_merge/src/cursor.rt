//! The cursors of a merge.

use flash_pages::cursor::RunCursor;
use ghost_base::Id;

/// What gives ascending identifiers.
#[derive(Drop)]
pub enum Cursor {
    /// The identifiers of a list. One that was given before still has the identifier that it gave last.
    List(RunCursor),
    /// The identifiers from `low` to `high`, both among them: none where `high` is lower. It takes no buffer.
    Range {
        /// The first identifier.
        low: Id,
        /// The last identifier.
        high: Id,
    },
}

impl Default for Cursor {
    ghost use Rattle.std.specs.Prelude.{◌≡◌};
    ghost use Rattle.id_merge.specs.Cursors.{nothing};

    ghost is_default = { λ cursor. cursor ≡ nothing };

    /// A range of no identifier.
    fn default() -> Cursor {
        Cursor::Range { low: 1, high: 0 }
    }
}
