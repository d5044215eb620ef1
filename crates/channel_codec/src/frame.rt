//! Frames, and how each one is spelled.

ghost use Rattle.std.specs.Prelude.{◌≡◌, ◌≤◌, ◌+◌, ◌++◌, length, take, drop};
ghost use Rattle.ghost_model.specs.forms.Frames.{frame_bytes, payload_of, frame_kind, serial_of, header_bytes, most_payload};
ghost use Rattle.channel_codec.specs.Views.{frame_view};

/// The bytes of a header.
pub const HEADER_BYTES: usize = 8;

/// The bytes that a payload has at most.
pub const PAYLOAD_BYTES: usize = 2040;

/// The bytes that a frame has at most.
pub const FRAME_BYTES: usize = 2048;

/// The version of the frames.
pub const VERSION: u8 = 2;

/// A frame of the channel. `Hello` to `Bye` are the key's, `Welcome` to `Sorry` the host's; payloads stand as they are
/// sent.
#[derive(Clone, Copy)]
pub enum Frame<'a> {
    /// The key's greeting, with the generation of its catalog.
    Hello { generation: u32 },
    /// An ask: its table, columns and conditions.
    Ask { serial: u32, payload: &'a [u8] },
    /// The next frame of a reply is wanted.
    More { serial: u32 },
    /// The session is over.
    Bye,
    /// A part of the host's catalog; `last` is 1 where the part ends it and else 0.
    Welcome { last: u8, part: &'a [u8] },
    /// Rows of a reply, as many whole ones as there are.
    Rows { serial: u32, rows: &'a [u8] },
    /// The end of a reply, with its number of rows.
    Done { serial: u32, total: u32 },
    /// The end of a reply that cannot be given, with a code that is not 0.
    Sorry { serial: u32, code: u8 },
}

/// The first byte of a frame.
fn kind(frame: &Frame) -> u8
    ensures { result ≡ frame_kind (frame_view frame.now) }
{
    match frame {
        Frame::Hello { .. } => 1,
        Frame::Ask { .. } => 2,
        Frame::More { .. } => 3,
        Frame::Bye => 4,
        Frame::Welcome { .. } => 17,
        Frame::Rows { .. } => 18,
        Frame::Done { .. } => 19,
        Frame::Sorry { .. } => 20,
    }
}

/// The serial of a frame: that of its ask, or 0.
fn serial(frame: &Frame) -> u32
    ensures { result ≡ serial_of (frame_view frame.now) }
{
    match frame {
        Frame::Hello { .. } | Frame::Bye | Frame::Welcome { .. } => 0,
        Frame::Ask { serial, .. } => *serial,
        Frame::More { serial } => *serial,
        Frame::Rows { serial, .. } => *serial,
        Frame::Done { serial, .. } => *serial,
        Frame::Sorry { serial, .. } => *serial,
    }
}

/// Writes bytes over those at a place.
#[tactic(auto, using(crate::proofs::Writing::front_grows, crate::proofs::Writing::rest_stays))]
pub(crate) fn put_at(out: &mut [u8], at: usize, bytes: &[u8])
    requires { at + length bytes.now ≤ length out.old }
    ensures front { take (at + length bytes.now) out.new ≡ take at out.old ++ bytes.now }
    ensures rest { drop (at + length bytes.now) out.new ≡ drop (at + length bytes.now) out.old }
{
    let (_front, rest) = out.split_at_mut(at);
    let (place, _rest) = rest.split_at_mut(bytes.len());
    place.copy_from_slice(bytes);
}

/// Writes a frame whose payload is two parts one after the other, and answers how many bytes it has.
fn put_parts(kind: u8, serial: u32, first: &[u8], second: &[u8], out: &mut [u8]) -> usize
    requires payload { length first.now + length second.now ≤ most_payload }
    requires room { 2048 ≤ length out.old }
    ensures bytes { take result out.new ≡ header_bytes kind (length first.now + length second.now) serial ++ (first.now ++ second.now) }
    ensures count { result ≡ 8 + (length first.now + length second.now) }
    ensures rest { drop result out.new ≡ drop result out.old }
{
    let size = (first.len() + second.len()) as u16;
    put_at(out, 0, &[kind, VERSION]);
    put_at(out, 2, &size.to_be_bytes());
    put_at(out, 4, &serial.to_be_bytes());
    put_at(out, HEADER_BYTES, first);
    put_at(out, HEADER_BYTES + first.len(), second);
    HEADER_BYTES + first.len() + second.len()
}

/// Writes the spelling of a frame over the front of `out`, which has room for any frame, and answers how many bytes it
/// has. The bytes behind it stay.
pub fn put_frame(frame: &Frame, out: &mut [u8]) -> usize
    requires payload { length (payload_of (frame_view frame.now)) ≤ most_payload }
    requires room { 2048 ≤ length out.old }
    ensures bytes { take result out.new ≡ frame_bytes (frame_view frame.now) }
    ensures count { result ≡ length (frame_bytes (frame_view frame.now)) }
    ensures most { result ≤ 2048 }
    ensures rest { drop result out.new ≡ drop result out.old }
{
    let kind = kind(frame);
    let serial = serial(frame);
    match frame {
        Frame::Hello { generation } => put_parts(kind, serial, &generation.to_be_bytes(), &[], out),
        Frame::Ask { payload, .. } => put_parts(kind, serial, payload, &[], out),
        Frame::More { .. } | Frame::Bye => put_parts(kind, serial, &[], &[], out),
        Frame::Welcome { last, part } => put_parts(kind, serial, &[*last], part, out),
        Frame::Rows { rows, .. } => put_parts(kind, serial, rows, &[], out),
        Frame::Done { total, .. } => put_parts(kind, serial, &total.to_be_bytes(), &[], out),
        Frame::Sorry { code, .. } => put_parts(kind, serial, &[*code], &[], out),
    }
}
