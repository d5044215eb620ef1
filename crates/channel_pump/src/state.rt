//! Where a session of the key stands.

ghost use Rattle.std.specs.Prelude.{◌≡◌, ◌+◌, ◌^◌, ◌<◌, ◌≤◌, length};
ghost use Rattle.channel_pump.specs.declared.state.Phase.TheVariants.{Reply};

use crate::asks::Asks;
use crate::missing::Missing;

/// What the key sends.
#[derive(Clone, Copy)]
pub enum Outgoing {
    /// The greeting.
    Hello,
    /// The first of the asks that are left.
    Ask,
    /// The call for the next frame of a reply.
    More,
    /// The end.
    Bye,
}

/// What the key awaits: the catalog, the reply to an ask, or nothing more.
#[derive(Clone, Copy)]
pub enum Phase {
    /// WELCOME frames.
    Greeting,
    /// The reply to the first of the asks that are left.
    Reply,
    /// Nothing.
    Over,
}

/// Why a session ends.
#[derive(Clone, Copy)]
pub enum Cause {
    /// Every ask was ended, and BYE was sent.
    Finished,
    /// The link ended or failed.
    Link,
    /// A frame was invalid: its first byte, and the number of bytes taken before it.
    Protocol { kind: u8, at: u64 },
}

/// The move that is next.
#[derive(Clone, Copy)]
pub enum Stage {
    /// The dial.
    Dialling,
    /// A frame is sent.
    Sending(Outgoing),
    /// Bytes are taken.
    Taking,
    /// The close.
    Closing(Cause),
    /// None.
    Closed(Cause),
}

/// What the key does next.
#[derive(Clone, Copy)]
pub enum Want {
    /// It dials the host's address.
    Dial,
    /// It sends the frame that `frame` writes.
    Send,
    /// It takes at most so many bytes, which belong into the page at a place.
    Take { at: usize, most: usize },
    /// It closes.
    Close,
    /// It does nothing more.
    Closed,
}

/// What a piece of the stream led to.
#[derive(Clone, Copy)]
pub enum Event {
    /// The frame at hand is not whole.
    Part,
    /// A WELCOME frame.
    Welcome,
    /// A ROWS frame with so many rows, whose bytes stand in the page from byte 8 on.
    Rows(u32),
    /// A DONE frame.
    Done,
    /// A SORRY frame with its code.
    Sorry(u8),
    /// The frame at hand is invalid: its first byte, and the number of bytes taken before it.
    Invalid { kind: u8, at: u64 },
}

/// In what state the replies to a text's asks are.
#[derive(Clone, Copy)]
pub enum ReplyState {
    /// Each was ended by DONE.
    Done,
    /// One was refused by the host.
    Host,
    /// The link ended or failed before they were ended.
    Link,
    /// An invalid frame came before they were ended.
    Protocol,
    /// Some are awaited.
    Awaited,
}

/// The key's side of a session.
#[derive(Drop)]
pub struct Pump<'a> {
    /// The generation of the catalog.
    pub(crate) generation: u32,
    /// The bytes of the catalog that are still to be welcomed.
    pub(crate) missing: Missing<'a>,
    /// The asks that were not ended, that which was sent first.
    pub(crate) rest: Asks<'a>,
    pub(crate) phase: Phase,
    pub(crate) stage: Stage,
    /// The serial of the first of the asks that are left.
    pub(crate) serial: u32,
    /// How many rows came of its reply.
    pub(crate) count: u32,
    /// The identifier of the last of them, or 0.
    pub(crate) last: u32,
    /// How many bytes of the frame at hand came.
    pub(crate) have: usize,
    /// How many bytes its header or its payload lacks.
    pub(crate) lacks: usize,
    /// How many bytes were taken before it, which stays at the greatest number of 64 bits.
    pub(crate) before: u64,
    /// Of which texts, by their numbers, an ask was refused.
    pub(crate) refused: [bool; 65],
    ghost serials: { serial + length rest < 2 ^ 32 },
    ghost counted: { count ≤ last },
    ghost bounded: { have + lacks ≤ 2048 },
    ghost lacking: { 0 < lacks },
    ghost replying: { phase ≡ Reply → 0 < length rest },
}
