//! Where reading of a list's codes stands.

ghost use Rattle.std.specs.Prelude.{◌≡◌, ◌-◌, ◌/◌, ◌^◌, ◌<◌, IfSome, IfNone};
ghost use Rattle.ghost_model.specs.forms.Gaps.{past_filling};
ghost use Rattle.flash_pages.specs.Codes.{IsPast, StopsAt, TakesCode, TakesCodes};

use crate::codes::code_at;

/// Where reading of a list's codes stands.
#[derive(Clone, Copy)]
pub(crate) struct Stand {
    /// How many codes of the list were taken.
    pub(crate) at: u32,
    /// The byte of the run at which the next one begins.
    pub(crate) place: u32,
    /// The sum of those that were taken.
    pub(crate) last: u32,
}

/// The place of the next code behind one that ends before a place, in a run of `room` bytes: it is passed over filling, which
/// may stand in the last two bytes of a page with other pages of the run behind it.
#[inline]
fn past_filling(bytes: &[u8; 2048], room: u32, place: u32) -> u32
    requires inside { place < room }
    ensures past { result ≡ past_filling (λ _. bytes.now) 0 room place }
    ensures inside { result < room }
    ensures goes { IsPast place result }
{
    let slot = place % 2048;
    if slot > 2045 && bytes[slot as usize] == 0x80 && 2048 - slot < room - place {
        return place + (2048 - slot);
    }
    place
}

/// Takes the code at which reading stands, in a page with these bytes of a run of `room` bytes, if it is a whole one and brings the
/// sum to no more than a limit.
#[inline]
pub(crate) fn take_code(bytes: &[u8; 2048], room: u32, limit: u32, from: Stand) -> Option<Stand>
    requires inside { from.place < room }
    requires more { from.at < 2 ^ 32 - 1 }
    ensures takes { IfSome result (TakesCode bytes.now room limit from) }
    ensures stops { IfNone result (StopsAt bytes.now room limit from) }
{
    let code = code_at(bytes, from.place % 2048)?;
    if code.length >= room - from.place || code.number > limit.saturating_sub(from.last) {
        return None;
    }
    Some(Stand {
        at: from.at + 1,
        place: past_filling(bytes, room, from.place + code.length),
        last: from.last + code.number,
    })
}

/// Takes the codes of one byte that stand next in a page, of a list with `count` identifiers, as long as no filling may stand
/// behind them.
#[inline]
fn take_short_codes(bytes: &[u8; 2048], count: u32, room: u32, limit: u32, from: Stand) -> Stand
    requires inside { from.place < room }
    requires more { from.at < count }
    ensures takes { TakesCodes bytes.now count room limit from result }
    ensures same_page { result.place / 2048 ≡ from.place / 2048 }
{
    let slot = from.place % 2048;
    if bytes[slot as usize] >= 128 {
        return from;
    }
    let before_filling = 2045u32.saturating_sub(slot);
    let most = before_filling
        .min(room - 1 - from.place)
        .min(count - from.at);
    let mut left = limit.saturating_sub(from.last);
    let mut stand = from;
    for i in 0..most {
        let number = bytes[(slot + i) as usize] as u32;
        if number == 0 || number >= 128 || number > left {
            return stand;
        }
        left -= number;
        stand = Stand {
            at: stand.at + 1,
            place: stand.place + 1,
            last: stand.last + number,
        };
    }
    stand
}

/// Takes the codes of a page, of a list with `count` identifiers, up to the first that may not be taken.
pub(crate) fn take_codes(
    bytes: &[u8; 2048],
    count: u32,
    room: u32,
    limit: u32,
    from: Stand,
) -> Stand
    requires inside { from.place < room }
    requires more { from.at < count }
    ensures takes { TakesCodes bytes.now count room limit from result }
    ensures stops { result.at < count → result.place / 2048 ≡ from.place / 2048 → StopsAt bytes.now room limit result }
{
    let page = from.place / 2048;
    let mut stand = from;
    while stand.at < count && stand.place / 2048 == page {
        stand = take_short_codes(bytes, count, room, limit, stand);
        if stand.at >= count {
            return stand;
        }
        let Some(next) = take_code(bytes, room, limit, stand) else {
            return stand;
        };
        stand = next;
    }
    stand
}
