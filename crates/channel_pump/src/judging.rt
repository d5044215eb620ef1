//! What the bytes of the frame at hand amount to.

ghost use Rattle.std.specs.Prelude.{◌≡◌, ◌+◌, ◌≤◌, ◌&&◌, ◌==◌, true, length, drop, is_some, IfSome, slice_index, IsTrue, map};
ghost use Rattle.ghost_model.specs.laws.ShortWords as short;
ghost use Rattle.ghost_model.specs.forms.Frames as frames;
ghost use Rattle.ghost_model.specs.core.NextMove as next;
ghost use Rattle.ghost_base.specs.Views.{kind_of};
ghost use Rattle.channel_pump.specs.Forms.{form_of};
ghost use Rattle.channel_pump.specs.Asked.{width_of};
ghost use Rattle.channel_pump.specs.Here.{nothing, header_at, payload_at, form_fits, form_rows, verdict_here, judged_view, IsJudged, IsTallyHere};
ghost use Rattle.channel_pump.specs.Rows.{IsTally};

use crate::forms::AskForm;
use crate::missing::Missing;
use crate::rows::{Tally, read_rows, row_width};
use crate::state::{Phase, Pump};
use channel_codec::frame::{HEADER_BYTES, PAYLOAD_BYTES, VERSION};
use channel_codec::reading::{kind_in, number_in, serial_in, size_in, version_in};

/// What bytes amount to.
pub(crate) enum Judged {
    /// So many bytes of the header, or of the payload, are missing.
    Short(usize),
    /// They are a whole frame that may stand there.
    Whole(Tally),
    /// The header or the payload breaks a rule.
    Invalid,
}

/// Whether a header may begin a frame that welcomes a part of these missing bytes.
fn greeting_header(missing: &Missing, header: &[u8]) -> bool
    requires { 8 ≤ length header.now }
    ensures { result ≡ next.header_fits nothing (next.AwaitsCatalog missing.now) header.now }
{
    let size = size_in(header) as usize;
    version_in(header) == VERSION
        && kind_in(header) == 17
        && serial_in(header) == 0
        && 2 <= size
        && size <= PAYLOAD_BYTES
        && size - 1 <= missing.len()
}

/// Whether a payload of a reply may have this length.
fn reply_size(width: usize, kind: u8, size: usize) -> bool
    requires { 4 ≤ width }
    ensures { result ≡ next.reply_size_fits width kind size }
{
    match kind {
        18 => 0 < size && size % width == 0 && size <= PAYLOAD_BYTES,
        19 => size == 4,
        20 => size == 1,
        _ => false,
    }
}

/// Whether a header may begin a frame of the reply to an ask.
fn reply_header(form: &AskForm, serial: u32, header: &[u8]) -> bool
    requires { 8 ≤ length header.now }
    ensures { result ≡ (frames.version_in header.now == frames.frame_version && frames.serial_in header.now == serial
        && next.reply_size_fits (width_of (map kind_of form.now.kinds.now)) (frames.kind_in header.now) (frames.size_in header.now)) }
{
    version_in(header) == VERSION
        && serial_in(header) == serial
        && reply_size(
            row_width(form.kinds),
            kind_in(header),
            size_in(header) as usize,
        )
}

/// Whether a payload welcomes a part of these missing bytes.
fn welcomes(missing: &Missing, payload: &[u8]) -> bool
    requires { 1 ≤ length payload.now }
    ensures { result ≡ short.welcome_fits missing.now (slice_index payload.now 0) (drop 1 payload.now) }
{
    let (_last, part) = payload.split_at(1);
    let last = if part.len() == missing.len() { 1 } else { 0 };
    missing.begins_with(part) && payload[0] == last
}

/// Counts the rows of a frame of a reply, if the frame may come after so many rows, the last with this identifier.
fn reply_payload(form: &AskForm, count: u32, last: u32, part: &[u8]) -> Option<Tally>
    requires whole { 8 + frames.size_in part.now ≤ length part.now }
    requires size { next.reply_size_fits (width_of (map kind_of form.now.kinds.now)) (frames.kind_in part.now) (frames.size_in part.now) ≡ true }
    ensures fits { is_some result ≡ form_fits (form_of form.now) count last (frames.frame_in part.now) }
    ensures tally { IfSome result (λ tally. IsTally last form.now.rows (form_rows (form_of form.now) (frames.frame_in part.now)) tally) }
{
    let (_header, after) = part.split_at(HEADER_BYTES);
    let (payload, _rest) = after.split_at(size_in(part) as usize);
    let none = Tally { rows: 0, last };
    match kind_in(part) {
        18 => read_rows(form, last, payload),
        19 => {
            if number_in(payload) == count {
                Some(none)
            } else {
                None
            }
        }
        _ => { if payload[0] != 0 { Some(none) } else { None } }
    }
}

impl<'a> Pump<'a> {
    /// Whether a header may stand here.
    fn header_fits(&self, header: &[u8]) -> bool
        requires { 8 ≤ length header.now }
        ensures fits { result ≡ header_at self.now.phase self.now header.now }
        ensures size { result ≡ true → frames.size_in header.now ≤ 2040 }
    {
        match self.phase {
            Phase::Greeting => greeting_header(&self.missing, header),
            Phase::Reply => match self.rest.first() {
                Some(form) => reply_header(&form, self.serial, header),
                None => unreachable!(),
            },
            Phase::Over => false,
        }
    }

    /// Counts the rows of a frame, if it may stand here.
    fn payload_fits(&self, part: &[u8]) -> Option<Tally>
        requires whole { 8 + frames.size_in part.now ≤ length part.now }
        requires header { header_at self.now.phase self.now part.now ≡ true }
        ensures fits { is_some result ≡ payload_at self.now.phase self.now (frames.frame_in part.now) }
        ensures tally { IfSome result (λ tally. IsTallyHere self.now part.now tally) }
    {
        match self.phase {
            Phase::Greeting => {
                let (_header, after) = part.split_at(HEADER_BYTES);
                let (payload, _rest) = after.split_at(size_in(part) as usize);
                let none = Tally {
                    rows: 0,
                    last: self.last,
                };
                if welcomes(&self.missing, payload) {
                    Some(none)
                } else {
                    None
                }
            }
            Phase::Reply => match self.rest.first() {
                Some(form) => reply_payload(&form, self.count, self.last, part),
                None => unreachable!(),
            },
            Phase::Over => None,
        }
    }

    /// What the bytes of the frame at hand amount to.
    pub(crate) fn judge(&self, part: &[u8]) -> Judged
        ensures verdict { judged_view result ≡ verdict_here self.now part.now }
        ensures judged { IsJudged self.now part.now result }
    {
        if part.len() < HEADER_BYTES {
            return Judged::Short(HEADER_BYTES - part.len());
        }
        if !self.header_fits(part) {
            return Judged::Invalid;
        }
        let whole = HEADER_BYTES + size_in(part) as usize;
        if part.len() < whole {
            return Judged::Short(whole - part.len());
        }
        match self.payload_fits(part) {
            Some(tally) => Judged::Whole(tally),
            None => Judged::Invalid,
        }
    }
}
