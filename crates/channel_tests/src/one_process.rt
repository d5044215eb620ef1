//! A session of a key with the host of the clinic in its own process, its journal, and what is counted of it.

use crate::clinic::{Bytes, CATALOG, add, bytes_of};
use crate::host_sessions::depot_of;
use edge_traits::Failed;
use edge_traits::link::Link;
use edge_traits::mem_depot::{MemDepot, Room};
use edge_traits::mem_link::{MemLink, Room as LinkRoom};
use edge_traits::peer::PeerScript;
use host_exec::{BeginFault, Host};
use local_links::{Counted, HostLink, Journaled};
use std::alloc::Global;

/// The moves of a session: each frame is sent, and then bytes are taken twice, at most so many.
fn talk<L: Link>(link: &mut L) -> Result<(), Failed> {
    link.dial("host:1")?;
    let mut page = [0; 2048];
    for (frame, first, second) in [
        ("HELLO", 8, 366),
        ("ASK", 2048, 8),
        ("MORE", 1, 11),
        ("BYE", 8, 8),
    ] {
        link.send(&bytes_of(frame))?;
        link.take(&mut page[..first])?;
        link.take(&mut page[..second])?;
    }
    link.close();
    Ok(())
}

/// The journal of a session in a depot that fails at these calls, where one is named, behind whether it failed.
fn journal_of(alloc: Global, fails: &[u64], name: Option<&str>) -> Result<Bytes, BeginFault> {
    let mut files = depot_of(alloc, &[])?;
    let host = Host::begin(alloc, &mut files, "c")?;
    let mut link = HostLink::new(host, files);
    let room = Room {
        files: 1,
        name_bytes: 1,
        file_bytes: 2_000,
    };
    let mut depot = MemDepot::new(alloc, room, fails)?;
    let mut journaled = Journaled::new(&mut link, &mut depot, name);
    let went = talk(&mut journaled);
    let failed = journaled.failed();
    let mut told = Bytes::new();
    if went.is_ok() {
        add(&mut told, if failed { b"failed\n" } else { b"kept\n" });
        add(&mut told, depot.file("j").unwrap_or(b""));
    }
    Ok(told)
}

#[test]
fn a_session_in_one_process_is_written_down(rt: HostRuntime) -> Result<(), BeginFault> {
    let mut catalog = [0; 730];
    let _ = hex::encode_to_slice(CATALOG, &mut catalog);
    let mut wanted = Bytes::new();
    for piece in [
        b"kept\ndial ok\nsend 010200040000000000000001 ok\ntake 8 1102016e00000000\ntake 366 01".as_slice(),
        &catalog,
        b"\nsend 0202000e0000000100010101010163617264696f0000 ok\ntake 2048 12020018000000010000000163617264696f00000000000363617264696f0000\ntake 8 end\n",
        b"send 0302000000000001 ok\ntake 1 13\ntake 11 0200040000000100000002\nsend 0402000000000000 ok\ntake 8 end\ntake 8 end\nclose\n",
    ] {
        add(&mut wanted, piece);
    }
    let rows: [(&[u64], Option<&str>, &[u8]); 3] = [
        (&[], Some("j"), &wanted),
        (&[2], Some("j"), b"failed\ndial ok\n"),
        (&[], None, b"kept\n"),
    ];
    for (fails, name, wanted) in rows {
        let told = journal_of(rt.alloc(), fails, name)?;
        assert!(rt; told.as_slice() == wanted);
    }
    Ok(())
}

/// Whether a session went well on a link, behind how many moves, sent bytes and taken bytes were counted.
fn counted_on<L: Link>(link: &mut L) -> ([u64; 3], bool) {
    let mut counted = Counted::new(link);
    let went = talk(&mut counted).is_ok();
    let counts = counted.counts();
    ([counts.moves, counts.sent, counts.taken], went)
}

#[test]
fn moves_and_bytes_are_counted(rt: HostRuntime) -> Result<(), BeginFault> {
    let mut files = depot_of(rt.alloc(), &[])?;
    let host = Host::begin(rt.alloc(), &mut files, "c")?;
    let mut link = HostLink::new(host, files);
    let (counts, went) = counted_on(&mut link);
    assert!(rt; counts == [14, 50, 418] && went);
    let room = LinkRoom {
        moves: 8,
        bytes: 100,
    };
    let peer = PeerScript {
        bytes: b"abc",
        pieces: &[2],
        ports: &[],
    };
    for (fails, wanted) in [(2, [2, 12, 0]), (3, [3, 12, 0]), (4, [4, 12, 2])] {
        let mut failing = MemLink::new(rt.alloc(), room, &peer, &[fails])?;
        let (counts, went) = counted_on(&mut failing);
        assert!(rt; counts == wanted && !went);
    }
    Ok(())
}
