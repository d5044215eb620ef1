//! Sessions of the key in the clinic over the streams of a host, honest and not.

ghost use Rattle.std.specs.Prelude.{◌<◌};

use crate::clinic::{Bytes, CATALOG, add, add_number, bytes_of, name_of, part};
use channel_codec::bytes::front;
use channel_pump::state::{Cause, Event, Pump, ReplyState, Want};
use spj_parse::text_count;
use tree_schema::{Catalog, read_catalog};

/// Who visited a doctor of the heart with the flu, and the days of some visits.
const BOTH: &str =
    "SELECT visit.id, specialty FROM visit, doctor WHERE doc = doctor.id AND specialty = 'cardio' AND purpose = 'flu';
SELECT visit.id, day FROM visit WHERE day >= 2;";

const FIRST: &str =
    "SELECT visit.id, specialty FROM visit, doctor WHERE doc = doctor.id AND specialty = 'cardio' AND purpose = 'flu';";

/// A script, what the host says, and what the session comes to: each frame that is sent, behind the number of the text whose
/// ask is at hand, each event (a WELCOME frame, rows with their count, a DONE frame, a refusal with its code, and a broken frame
/// with its first byte and its place), the states of the replies of the first two texts, a letter each, and how it ends.
const SESSIONS: &str =
    "FIRST: HEAD CATALOG ROWS DONE: 0>HELLO welcome 1>ASK rows=2 1>MORE done 0>BYE dd finished
FIRST: HEAD CATALOG 1202001800000001 00000001 63617264696f0000 00000002 63617264696f0000 DONE: 0>HELLO welcome 1>ASK rows=2 1>MORE done 0>BYE dd finished
FIRST: 1102000200000000 00 47 1102016d00000000 01 REST 1202000c00000001 00000001 63617264696f0000 1202000c00000001 00000003 63617264696f0000 DONE: 0>HELLO welcome welcome 1>ASK rows=1 1>MORE rows=1 1>MORE done 0>BYE dd finished
: HEAD CATALOG: 0>HELLO welcome 0>BYE dd finished
SELECT name FROM patient WHERE name = 'Ann';: HEAD CATALOG: 0>HELLO welcome 0>BYE dd finished
BOTH: HEAD CATALOG SORRY DAY_ROWS DAY_DONE: 0>HELLO welcome 1>ASK sorry=1 2>DAY_ASK rows=4 2>DAY_MORE done 0>BYE hd finished
BOTH: HEAD CATALOG 1202001800: 0>HELLO welcome 1>ASK ll link
SELECT specialty FROM doctor; SELECT name FROM patient WHERE age = 30;: HEAD CATALOG ROWS DONE 140200010000000207: 0>HELLO welcome 1>ALL_ASK rows=2 1>MORE done 2>AGE_ASK sorry=7 0>BYE dh finished
FIRST: 1202001800000001: 0>HELLO broken=18@0 pd protocol=18@0
FIRST: 1102016f00000000: 0>HELLO broken=17@0 pd protocol=17@0
FIRST: 1101016e00000000 01 CATALOG: 0>HELLO broken=17@0 pd protocol=17@0
FIRST: 1102016e00000000 00 CATALOG: 0>HELLO broken=17@0 pd protocol=17@0
FIRST: 1102000200000000 00 58: 0>HELLO broken=17@0 pd protocol=17@0
FIRST: HEAD CATALOG 1202001700000001: 0>HELLO welcome 1>ASK broken=18@374 pd protocol=18@374
FIRST: HEAD CATALOG 1202000000000001: 0>HELLO welcome 1>ASK broken=18@374 pd protocol=18@374
FIRST: HEAD CATALOG 1202080400000001: 0>HELLO welcome 1>ASK broken=18@374 pd protocol=18@374
FIRST: HEAD CATALOG 1202001800000002: 0>HELLO welcome 1>ASK broken=18@374 pd protocol=18@374
FIRST: HEAD CATALOG 1201001800000001: 0>HELLO welcome 1>ASK broken=18@374 pd protocol=18@374
FIRST: HEAD CATALOG 1301000400000001: 0>HELLO welcome 1>ASK broken=19@374 pd protocol=19@374
FIRST: HEAD CATALOG 0102000400000000: 0>HELLO welcome 1>ASK broken=1@374 pd protocol=1@374
FIRST: HEAD CATALOG 1202000c00000001 00000001 6300720000000000: 0>HELLO welcome 1>ASK broken=18@374 pd protocol=18@374
FIRST: HEAD CATALOG 1202000c00000001 00000004 63617264696f0000: 0>HELLO welcome 1>ASK broken=18@374 pd protocol=18@374
FIRST: HEAD CATALOG 1202000c00000001 00000000 63617264696f0000: 0>HELLO welcome 1>ASK broken=18@374 pd protocol=18@374
FIRST: HEAD CATALOG 1202000d00000001 00000001 63617264696f0000 00: 0>HELLO welcome 1>ASK broken=18@374 pd protocol=18@374
FIRST: HEAD CATALOG 1302000400000001 00000001: 0>HELLO welcome 1>ASK broken=19@374 pd protocol=19@374
FIRST: HEAD CATALOG 1402000100000001 00: 0>HELLO welcome 1>ASK broken=20@374 pd protocol=20@374
FIRST: HEAD CATALOG ROWS 1302000400000001 00000001: 0>HELLO welcome 1>ASK rows=2 1>MORE broken=19@406 pd protocol=19@406
FIRST: HEAD CATALOG 1202000c00000001 00000001 63617264696f0000 1202000c00000001 00000001 63617264696f0000: 0>HELLO welcome 1>ASK rows=1 1>MORE broken=18@394 pd protocol=18@394";

/// A linear congruential generator.
#[derive(Drop)]
struct Chance {
    state: u64,
}

impl Chance {
    /// The next number below a limit.
    fn below(&mut self, limit: usize) -> usize
        requires { 0 < limit }
        ensures { result < limit }
    {
        self.state = self
            .state
            .wrapping_mul(6_364_136_223_846_793_005)
            .wrapping_add(1_442_695_040_888_963_407);
        let [one, two, three, four, ..] = self.state.to_be_bytes();
        u32::from_be_bytes([one, two, three, four]) as usize % limit
    }

    /// How many bytes a take that asks for so many is answered by: all of them where `cuts` is 0, and else at most so many.
    fn piece(&mut self, cuts: usize, most: usize) -> usize {
        if cuts == 0 {
            most
        } else {
            self.below(cuts).saturating_add(1)
        }
    }
}

/// Adds what a piece of the stream led to.
fn tell_event(log: &mut Bytes, event: Event) {
    match event {
        Event::Part => return,
        Event::Welcome => add(log, b"welcome"),
        Event::Rows(count) => add_number(log, b"rows=", count as u64),
        Event::Done => add(log, b"done"),
        Event::Sorry(code) => add_number(log, b"sorry=", code as u64),
        Event::Invalid { kind, at } => {
            add_number(log, b"broken=", kind as u64);
            add_number(log, b"@", at);
        }
    }
    add(log, b" ");
}

/// The letter of a reply's state.
fn letter(state: ReplyState) -> &'static [u8] {
    match state {
        ReplyState::Done => b"d",
        ReplyState::Host => b"h",
        ReplyState::Link => b"l",
        ReplyState::Protocol => b"p",
        ReplyState::Awaited => b"a",
    }
}

/// Adds how a session ends.
fn tell_end(log: &mut Bytes, cause: Cause) {
    match cause {
        Cause::Finished => add(log, b" finished"),
        Cause::Link => add(log, b" link"),
        Cause::Protocol { kind, at } => {
            add_number(log, b" protocol=", kind as u64);
            add_number(log, b"@", at);
        }
    }
}

/// Adds the states of the replies of the first two texts, and how the session ends.
fn tell_states(log: &mut Bytes, pump: &Pump) {
    add(log, letter(pump.reply_state(1)));
    add(log, letter(pump.reply_state(2)));
    if let Some(cause) = pump.cause() {
        tell_end(log, cause);
    }
}

/// What a session comes to with a host that says this, where a take is answered by pieces of at most `cuts` bytes, and by all
/// that it asks for where this is 0. Nothing where it goes on for very long.
fn log_of(mut pump: Pump, host: &[u8], chance: &mut Chance, cuts: usize) -> Bytes {
    let mut log = Bytes::new();
    let mut page = [0; 2048];
    let mut rest = host;
    for _ in 0..3_000 {
        match pump.want() {
            Want::Dial | Want::Close => pump.made(),
            Want::Send => {
                let text = pump.asked().map_or(0, |asked| asked.0);
                let count = pump.frame(&mut page);
                add_number(&mut log, b"", text as u64);
                add(&mut log, b">");
                add(&mut log, name_of(&page[..count]).as_bytes());
                add(&mut log, b" ");
                pump.made();
            }
            Want::Take { at, most } => {
                let size = chance.piece(cuts, most).min(most).min(rest.len());
                if size == 0 {
                    pump.ended();
                    continue;
                }
                let (piece, later) = rest.split_at(size);
                page[at..at + size].copy_from_slice(piece);
                rest = later;
                tell_event(&mut log, pump.took(&page, size));
            }
            Want::Closed => {
                tell_states(&mut log, &pump);
                return log;
            }
        }
    }
    Bytes::new()
}

/// What the session of a row comes to with a host that says this.
fn session_of(
    row: &str,
    catalog: &Catalog,
    host: &[u8],
    chance: &mut Chance,
    cuts: usize,
) -> Bytes {
    let script = match part(row, 0) {
        "FIRST" => FIRST,
        "BOTH" => BOTH,
        other => other,
    };
    if text_count(script.as_bytes()) > 64 {
        return Bytes::new();
    }
    log_of(Pump::begin(catalog, script.as_bytes()), host, chance, cuts)
}

#[test]
fn a_session_comes_to_the_same_however_the_stream_is_cut(rt: HostRuntime) {
    let Some(catalog) = read_catalog(CATALOG) else {
        assert!(rt; false);
        return;
    };
    let mut chance = Chance { state: 1 };
    for row in SESSIONS.split('\n') {
        for cuts in [0, 5, 1] {
            let log = session_of(row, &catalog, &bytes_of(part(row, 1)), &mut chance, cuts);
            assert!(rt; log.as_slice() == part(row, 2).as_bytes(), "{row}");
        }
    }
}

/// Whether the session of a row comes to the same once in whole pieces and once cut, where some byte of what the host says is
/// another, or the stream ends there.
fn is_the_same(row: &str, catalog: &Catalog, chance: &mut Chance) -> bool {
    let mut bytes = bytes_of(part(row, 1));
    let host = bytes.as_mut_slice();
    let place = [chance.below(500), chance.below(130).saturating_add(370)][chance.below(2)];
    let mut size = host.len();
    if place < size {
        host[place] = chance.below(256) as u8;
        size = [size, size, size, place][chance.below(4)];
    }
    let host = front(host, size);
    let cuts = [2, 10, 20, 40, 100, 400][chance.below(6)];
    let whole = session_of(row, catalog, host, chance, 0);
    let cut = session_of(row, catalog, host, chance, cuts);
    !whole.is_empty() && whole.as_slice() == cut.as_slice()
}

#[test]
fn random_sessions_do_not_depend_on_the_cutting(rt: HostRuntime) {
    let Some(catalog) = read_catalog(CATALOG) else {
        assert!(rt; false);
        return;
    };
    let mut chance = Chance { state: 3 };
    for _ in 0..67 {
        for row in SESSIONS.split('\n') {
            assert!(rt; is_the_same(row, &catalog, &mut chance), "{row}");
        }
    }
}
