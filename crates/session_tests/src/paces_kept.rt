//! When a session moves on its link and when it prints, at the least and the greatest pace.

use crate::clinic::{CATALOG, device};
use edge_traits::Failed;
use edge_traits::flash::{AttachFault, Flash};
use edge_traits::link::Link;
use edge_traits::mem_link::{MemLink, Room};
use edge_traits::mem_sink::MemSink;
use edge_traits::peer::PeerScript;
use edge_traits::sink::Sink;
use flash_layout::need;
use key_session::{Options, SessionStatus, run_session};
use leakless_plan::Plan;
use page_pool::PagePool;
use spj_parse::text_count;
use std::cell::Cell;
use tree_schema::read_catalog;

/// Who visited a doctor of the heart with the flu, and the days of visits.
const SCRIPT: &[u8] =
    b"SELECT visit.id, specialty FROM visit, doctor WHERE doc = doctor.id AND specialty = 'cardio' AND purpose = 'flu';SELECT visit.id, day FROM visit WHERE day >= 2;";

/// The lines of the two texts.
const LINES: &[u8] = b"> 1\tcardio\n> 3\tcardio\n= 1 2\n> 1\t5\n> 2\t5\n> 3\t9\n> 4\t2\n= 2 4\n";

/// What the host says: the catalog, the reply of the first text, and that of the second, one row a frame.
const SAID: [&[u8]; 9] = [
    b"\x11\x02\x01\x6e\0\0\0\0\x01",
    CATALOG,
    b"\x12\x02\0\x18\0\0\0\x01\0\0\0\x01cardio\0\0\0\0\0\x03cardio\0\0",
    b"\x13\x02\0\x04\0\0\0\x01\0\0\0\x02",
    b"\x12\x02\0\x0c\0\0\0\x02\0\0\0\x01\x80\0\0\0\0\0\0\x05",
    b"\x12\x02\0\x0c\0\0\0\x02\0\0\0\x02\x80\0\0\0\0\0\0\x05",
    b"\x12\x02\0\x0c\0\0\0\x02\0\0\0\x03\x80\0\0\0\0\0\0\x09",
    b"\x12\x02\0\x0c\0\0\0\x02\0\0\0\x04\x80\0\0\0\0\0\0\x02",
    b"\x13\x02\0\x04\0\0\0\x02\0\0\0\x04",
];

/// The next number of a count that link and output share.
fn next(count: &Cell<u64>) -> u64 {
    let number = count.get().saturating_add(1);
    count.set(number);
    number
}

/// A link that notes the number of its last take.
#[derive(Drop)]
struct NumberedLink<'a, L> {
    link: L,
    count: &'a Cell<u64>,
    last_take: u64,
}

impl<'a, L: Link> Link for NumberedLink<'a, L> {
    ghost went = { λ old moves new. L.went old.link moves new.link };

    ghost faults = { λ numbered. L.faults numbered.link };

    ghost stays = { λ numbered. L.stays numbered.link };

    ghost joins = { λ old between new. L.joins old.link between.link new.link };

    fn dial(&mut self, at: &str) -> Result<(), Failed> {
        self.link.dial(at)
    }

    fn listen(&mut self, at: &str) -> Result<u16, Failed> {
        self.link.listen(at)
    }

    fn accept(&mut self) -> Result<(), Failed> {
        self.link.accept()
    }

    fn send(&mut self, bytes: &[u8]) -> Result<(), Failed> {
        self.link.send(bytes)
    }

    fn take(&mut self, buf: &mut [u8]) -> Result<usize, Failed> {
        self.last_take = next(self.count);
        self.link.take(buf)
    }

    fn close(&mut self) {
        self.link.close();
    }
}

/// An output that notes the number of its first write, and of that of the first text's last line.
#[derive(Drop)]
struct NumberedSink<'a, O> {
    sink: O,
    count: &'a Cell<u64>,
    first_line: u64,
    total: u64,
}

impl<'a, O: Sink> Sink for NumberedSink<'a, O> {
    ghost written = { λ numbered. O.written numbered.sink };

    ghost faults = { λ numbered. O.faults numbered.sink };

    fn write(&mut self, bytes: &[u8]) -> Result<usize, Failed> {
        let number = next(self.count);
        if self.first_line == 0 {
            self.first_line = number;
        }
        if bytes == b"= 1 2\n".as_slice() {
            self.total = number;
        }
        self.sink.write(bytes)
    }
}

/// At pace 0 the second text's reply is whole before the first line is printed; at pace 1000 all lines of the first text are
/// printed before that.
#[test]
fn pace_is_kept(rt: HostRuntime) -> Result<(), AttachFault> {
    let cat = read_catalog(CATALOG).expect(&rt, "the catalog");
    assert!(rt; cat.is_current());
    assert!(rt; text_count(SCRIPT) <= 64);
    let mut said = Vec::new(rt.alloc());
    for piece in SAID.as_slice() {
        said.extend_from_slice(piece)?;
    }
    for number in [0u16, 1000] {
        let pace = [number];
        let options = Options {
            at: "h",
            plan: Plan::Scan,
            pace: &pace,
        };
        let peer = PeerScript {
            bytes: &said,
            pieces: &[],
            ports: &[],
        };
        let room = Room {
            moves: 600,
            bytes: 2_000,
        };
        let count = Cell::new(0);
        let mut link = NumberedLink {
            link: MemLink::new(rt.alloc(), room, &peer, &[])?,
            count: &count,
            last_take: 0,
        };
        let mut out = NumberedSink {
            sink: MemSink::new(rt.alloc(), 200, 99, &[])?,
            count: &count,
            first_line: 0,
            total: 0,
        };
        let mut flash = device(rt.alloc())?;
        let mut pool = PagePool::new(rt.alloc(), 8)?;
        assert!(rt; need(&cat) <= flash.pages());
        let tally = run_session(
            &cat, SCRIPT, &options, &mut pool, &mut flash, &mut link, &mut out,
        );
        assert!(rt; matches!(&tally.status, SessionStatus::Ok));
        assert!(rt; out.sink.bytes() == LINES);
        assert!(rt; number != 0 || link.last_take < out.first_line);
        assert!(rt; number == 0 || (out.total != 0 && out.total < link.last_take));
    }
    Ok(())
}
