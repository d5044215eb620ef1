//! A session over the clinic's flash, with a link, a device and an output in memory.

use crate::clinic::{CATALOG, device, failing_device};
use edge_traits::flash::{AttachFault, Flash};
use edge_traits::mem_link::{MemLink, Room};
use edge_traits::mem_sink::MemSink;
use edge_traits::peer::PeerScript;
use flash_layout::need;
use key_session::{Options, SessionStatus, run_session};
use leakless_plan::Plan;
use page_pool::PagePool;
use spj_parse::text_count;
use std::alloc::{AllocError, Global};
use tree_schema::read_catalog;

/// Who visited a doctor of the heart with the flu, the days of visits, the names of patients, and a table that is not there.
const SCRIPT: &[u8] =
    b"SELECT visit.id, specialty FROM visit, doctor WHERE doc = doctor.id AND specialty = 'cardio' AND purpose = 'flu';SELECT visit.id, day FROM visit WHERE day >= 2;SELECT name FROM patient;SELECT id FROM nurse";

/// The address, and then all that goes either way, each with whether the host says it.
const WIRE: [(bool, &[u8]); 13] = [
    (false, b"h"),
    (false, b"\x01\x02\0\x04\0\0\0\0\0\0\0\x01"),
    (true, b"\x11\x02\x01\x6e\0\0\0\0\x01"),
    (true, CATALOG),
    (
        false,
        b"\x02\x02\0\x0e\0\0\0\x01\0\x01\x01\x01\x01\x01cardio\0\0",
    ),
    (
        true,
        b"\x12\x02\0\x18\0\0\0\x01\0\0\0\x01cardio\0\0\0\0\0\x03cardio\0\0",
    ),
    (false, b"\x03\x02\0\0\0\0\0\x01"),
    (true, b"\x13\x02\0\x04\0\0\0\x01\0\0\0\x02"),
    (
        false,
        b"\x02\x02\0\x0e\0\0\0\x02\x02\x01\x01\x01\x01\x06\x80\0\0\0\0\0\0\x02",
    ),
    (
        true,
        b"\x12\x02\0\x30\0\0\0\x02\0\0\0\x01\x80\0\0\0\0\0\0\x05\0\0\0\x02\x80\0\0\0\0\0\0\x05\0\0\0\x03\x80\0\0\0\0\0\0\x09\0\0\0\x04\x80\0\0\0\0\0\0\x02",
    ),
    (false, b"\x03\x02\0\0\0\0\0\x02"),
    (true, b"\x13\x02\0\x04\0\0\0\x02\0\0\0\x04"),
    (false, b"\x04\x02\0\0\0\0\0\0"),
];

/// The pieces in which the stream comes: each as long as the key asks, some, or byte by byte.
const CUTS: [&[usize]; 3] = [&[], &[3, 1, 7, 2, 100], &[1; 500]];

const LINES: &str =
    "> 1\tcardio\n> 3\tcardio\n= 1 2\n> 1\t5\n> 2\t5\n> 3\t9\n> 4\t2\n= 2 4\n> Ann\n> Bob\n= 3 2\n! 4 table\n";

/// What goes over the wire: all of it, or what the host says alone.
fn wire(alloc: Global, all: bool) -> Result<Vec<u8>, AllocError> {
    let mut bytes = Vec::new(alloc);
    for (by_host, piece) in WIRE.as_slice() {
        if all || *by_host {
            bytes.extend_from_slice(piece)?;
        }
    }
    Ok(bytes)
}

#[test]
fn a_session_is_told_alike_however_its_stream_is_cut(rt: HostRuntime) -> Result<(), AttachFault> {
    let cat = read_catalog(CATALOG).expect(&rt, "the catalog");
    assert!(rt; cat.is_current());
    let mut flash = device(rt.alloc())?;
    assert!(rt; text_count(SCRIPT) <= 64);
    let said = wire(rt.alloc(), false)?;
    let moved = wire(rt.alloc(), true)?;
    let pace = [0u16];
    let options = Options {
        at: "h",
        plan: Plan::Scan,
        pace: &pace,
    };
    for pieces in CUTS {
        let peer = PeerScript {
            bytes: &said,
            pieces,
            ports: &[],
        };
        let room = Room {
            moves: 600,
            bytes: 2_000,
        };
        let mut link = MemLink::new(rt.alloc(), room, &peer, &[])?;
        let mut out = MemSink::new(rt.alloc(), 200, 99, &[])?;
        let mut pool = PagePool::new(rt.alloc(), 8)?;
        assert!(rt; need(&cat) <= flash.pages());
        let tally = run_session(
            &cat, SCRIPT, &options, &mut pool, &mut flash, &mut link, &mut out,
        );
        assert!(rt; tally.texts == 4 && tally.refused == 1 && tally.faulted == 0);
        assert!(rt; matches!(&tally.status, SessionStatus::Ok));
        assert!(rt; out.bytes() == LINES.as_bytes());
        let journal = link.journal().expect(&rt, "the moves");
        assert!(rt; journal.bytes == moved.as_slice());
    }
    Ok(())
}

/// A call on the device, whether it writes a row of a reply or reads one or a column, fails in one text at most.
#[test]
fn each_call_that_fails_is_told(rt: HostRuntime) -> Result<(), AttachFault> {
    let cat = read_catalog(CATALOG).expect(&rt, "the catalog");
    assert!(rt; cat.is_current());
    assert!(rt; text_count(SCRIPT) <= 64);
    let said = wire(rt.alloc(), false)?;
    let pace = [0u16];
    let options = Options {
        at: "h",
        plan: Plan::Scan,
        pace: &pace,
    };
    for call in 2..60u64 {
        let mut flash = failing_device(rt.alloc(), &[call])?;
        assert!(rt; need(&cat) <= flash.pages());
        let peer = PeerScript {
            bytes: &said,
            pieces: &[],
            ports: &[],
        };
        let room = Room {
            moves: 600,
            bytes: 2_000,
        };
        let mut link = MemLink::new(rt.alloc(), room, &peer, &[])?;
        let mut out = MemSink::new(rt.alloc(), 200, 99, &[])?;
        let mut pool = PagePool::new(rt.alloc(), 8)?;
        let tally = run_session(
            &cat, SCRIPT, &options, &mut pool, &mut flash, &mut link, &mut out,
        );
        let fails = call <= flash.script.calls;
        assert!(rt;
            matches!(&tally.status, SessionStatus::Flash) == fails,
            "{call}"
        );
        assert!(rt;
            matches!(&tally.status, SessionStatus::Ok) != fails,
            "{call}"
        );
        assert!(rt;
            tally.texts == 4 && tally.refused == 1 && (tally.faulted == 1) == fails,
            "{call}"
        );
        for _ in 0..8u32 {
            assert!(rt; pool.lease().is_some(), "{call}");
        }
    }
    Ok(())
}
