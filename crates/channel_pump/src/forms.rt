//! What a pump needs to know of an ask.

ghost use Rattle.std.specs.Prelude.{◌≤◌, length, map, IsTrue};
ghost use Rattle.std.specs.List.{list_all};
ghost use Rattle.ghost_base.specs.Views.{kind_of};
ghost use Rattle.channel_pump.specs.Narrow.{is_narrow};

use channel_codec::ask::Ask;
use ghost_base::Kind;

/// An ask of a session, as the pump needs it.
#[derive(Clone, Copy)]
pub(crate) struct AskForm<'a> {
    /// The number of its text, at most 64.
    pub(crate) text: u32,
    pub(crate) ask: &'a Ask,
    /// The payload of its ASK frame, at most 2,040 bytes.
    pub(crate) payload: &'a [u8],
    /// The kinds of the asked columns in their order, at most 24 and each at most 65 bytes wide.
    pub(crate) kinds: &'a [Kind],
    /// The number of rows of its table.
    pub(crate) rows: u32,
    ghost in_script: { text ≤ 64 },
    ghost sendable: { length payload.now ≤ 2040 },
    ghost few: { length kinds.now ≤ 24 },
    ghost narrow: { IsTrue (list_all is_narrow (map kind_of kinds.now)) },
}
