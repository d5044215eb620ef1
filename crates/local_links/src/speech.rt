//! What a host said and the key did not take yet.

ghost use Rattle.std.specs.Prelude.{◌≤◌};

use channel_codec::frame::FRAME_BYTES;

/// One frame that a host said, of which a front was taken.
#[derive(Drop)]
pub struct Speech {
    pub(crate) page: [u8; FRAME_BYTES],
    pub(crate) from: usize,
    pub(crate) to: usize,
    ghost order: { from ≤ to },
    ghost bounded: { to ≤ 2048 },
}
