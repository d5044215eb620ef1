//! What bytes amount to that begin with a frame.

ghost use Rattle.std.specs.Prelude.{◌≡◌, ◌≤◌, ◌<◌, true, length, slice_index};
ghost use Rattle.std.specs.Int.{from_be_bytes, w16, w32};
ghost use Rattle.ghost_model.specs.laws.ShortWords as short;
ghost use Rattle.ghost_model.specs.forms.Frames as frames;
ghost use Rattle.channel_codec.specs.Views.{frame_view, got_view};

use crate::frame::{Frame, HEADER_BYTES, PAYLOAD_BYTES, VERSION};

/// A frame, or why there is none.
#[derive(Clone, Copy)]
pub enum Got<'a> {
    /// The frame at the front of the bytes.
    Frame(Frame<'a>),
    /// So many bytes of the header, or of the payload that the header names, are missing.
    Short(u16),
    /// The whole header, or the whole payload, breaks a rule; the first byte.
    Bad(u8),
}

/// The kind that a header has.
pub fn kind_in(bytes: &[u8]) -> u8
    requires { 8 ≤ length bytes.now }
    ensures { result ≡ frames.kind_in bytes.now }
{
    bytes[0]
}

/// The version that a header has.
pub fn version_in(bytes: &[u8]) -> u8
    requires { 8 ≤ length bytes.now }
    ensures { result ≡ frames.version_in bytes.now }
{
    bytes[1]
}

/// The length that a header gives its payload.
pub fn size_in(bytes: &[u8]) -> u16
    requires { 8 ≤ length bytes.now }
    ensures { result ≡ frames.size_in bytes.now }
{
    u16::from_be_bytes([bytes[2], bytes[3]])
}

/// The serial that a header has.
pub fn serial_in(bytes: &[u8]) -> u32
    requires { 8 ≤ length bytes.now }
    ensures { result ≡ frames.serial_in bytes.now }
{
    u32::from_be_bytes([bytes[4], bytes[5], bytes[6], bytes[7]])
}

/// The number that the first four bytes spell.
pub fn number_in(bytes: &[u8]) -> u32
    requires { 4 ≤ length bytes.now }
    ensures { result ≡ short.payload_number bytes.now }
{
    u32::from_be_bytes([bytes[0], bytes[1], bytes[2], bytes[3]])
}

/// The first byte, or 0 where there is none.
fn first_of(bytes: &[u8]) -> u8
    ensures { result ≡ slice_index bytes.now 0 }
{
    if bytes.is_empty() { 0 } else { bytes[0] }
}

/// Whether a payload of this kind may have this length.
pub fn size_allowed(kind: u8, size: u16) -> bool
    ensures { result ≡ frames.size_allowed kind size }
{
    let most = PAYLOAD_BYTES as u16;
    match kind {
        1 | 19 => size == 4,
        3 | 4 => size == 0,
        20 => size == 1,
        17 => 2 <= size && size <= most,
        2 => 3 <= size && size <= most,
        18 => 4 <= size && size <= most,
        _ => false,
    }
}

/// Whether a frame of this kind may have this serial: 0 exactly where it belongs to no ask.
pub fn serial_allowed(kind: u8, serial: u32) -> bool
    ensures { result ≡ frames.serial_allowed kind serial }
{
    let has_no_serial = kind == 1 || kind == 4 || kind == 17;
    if has_no_serial {
        serial == 0
    } else {
        serial != 0
    }
}

/// Whether a whole header may begin a frame, apart from its place in a session.
pub fn header_allowed(bytes: &[u8]) -> bool
    requires { 8 ≤ length bytes.now }
    ensures { result ≡ frames.header_allowed bytes.now }
{
    let kind = kind_in(bytes);
    version_in(bytes) == VERSION
        && size_allowed(kind, size_in(bytes))
        && serial_allowed(kind, serial_in(bytes))
}

/// Whether a whole payload may follow a header of this kind, apart from its place in a session.
pub fn payload_allowed(kind: u8, payload: &[u8]) -> bool
    ensures { result ≡ frames.payload_allowed kind payload.now }
{
    match kind {
        17 => first_of(payload) <= 1,
        20 => first_of(payload) != 0,
        _ => true,
    }
}

/// The frame of a kind, a serial and a payload that may stand together.
pub fn frame_of_parts<'a>(kind: u8, serial: u32, payload: &'a [u8]) -> Frame<'a>
    requires { frames.size_allowed kind (length payload.now) ≡ true }
    ensures { frame_view result ≡ frames.frame_of_parts kind serial payload.now }
{
    match kind {
        1 => Frame::Hello {
            generation: number_in(payload),
        },
        2 => Frame::Ask { serial, payload },
        3 => Frame::More { serial },
        4 => Frame::Bye,
        17 => Frame::Welcome {
            last: first_of(payload),
            part: &payload[1..],
        },
        18 => Frame::Rows {
            serial,
            rows: payload,
        },
        19 => Frame::Done {
            serial,
            total: number_in(payload),
        },
        _ => Frame::Sorry {
            serial,
            code: first_of(payload),
        },
    }
}

/// What bytes amount to that begin with a frame: the frame, what it lacks, or that it breaks a rule. Bytes after the
/// frame are left alone.
pub fn frame_of<'a>(bytes: &'a [u8]) -> Got<'a>
    ensures { got_view result ≡ frames.got_of bytes.now }
{
    if bytes.len() < HEADER_BYTES {
        return Got::Short((HEADER_BYTES - bytes.len()) as u16);
    }
    let kind = kind_in(bytes);
    if !header_allowed(bytes) {
        return Got::Bad(kind);
    }
    let size = size_in(bytes) as usize;
    let (_header, after) = bytes.split_at(HEADER_BYTES);
    if after.len() < size {
        return Got::Short((size - after.len()) as u16);
    }
    let (payload, _rest) = after.split_at(size);
    if payload_allowed(kind, payload) {
        Got::Frame(frame_of_parts(kind, serial_in(bytes), payload))
    } else {
        Got::Bad(kind)
    }
}
