//! The host of the clinic over a depot and a link in memory.

use crate::clinic::{Bytes, CATALOG, CELLS, add, add_number, bytes_of, part};
use edge_traits::mem_depot::{self, MemDepot};
use edge_traits::mem_link::{self, MemLink};
use edge_traits::peer::PeerScript;
use edge_traits::told::Told;
use host_exec::{BeginFault, Host, Served};
use std::alloc::{AllocError, Global};

/// A depot whose file `c` is the host's file, which fails at these calls.
pub(crate) fn depot_of(alloc: Global, fails: &[u64]) -> Result<MemDepot, AllocError> {
    let room = mem_depot::Room {
        files: 1,
        name_bytes: 1,
        file_bytes: 500,
    };
    let mut image = Bytes::new();
    add(&mut image, CATALOG);
    add(&mut image, CELLS);
    let mut depot = MemDepot::new(alloc, room, fails)?;
    let _put = depot.put("c", &image);
    Ok(depot)
}

/// Adds how a session ended, with the first byte of a frame out of its place, and the place.
fn tell_end(bytes: &mut Bytes, served: Served) {
    match served {
        Served::Bye => add(bytes, b"bye"),
        Served::Depot => add(bytes, b"depot"),
        Served::Link => add(bytes, b"link"),
        Served::BadRequest { kind, at } => {
            add_number(bytes, b"!", kind as u64);
            add_number(bytes, b"@", at);
        }
    }
}

/// All bytes that went over the link in a session and how it ended, where the key says this in these pieces.
fn serve(
    alloc: Global,
    key: &[u8],
    pieces: &[usize],
    depot_fails: &[u64],
) -> Result<Bytes, BeginFault> {
    let mut depot = depot_of(alloc, depot_fails)?;
    let mut host = Host::begin(alloc, &mut depot, "c")?;
    let room = mem_link::Room {
        moves: 100,
        bytes: 2_000,
    };
    let peer = PeerScript {
        bytes: key,
        pieces,
        ports: &[],
    };
    let mut link = MemLink::new(alloc, room, &peer, &[])?;
    let served = host.serve(&mut link, &mut depot);
    let mut went = Bytes::new();
    if let Some(journal) = link.journal() {
        add(&mut went, journal.bytes);
        if let Some(Told::Close) = journal.moves.last() {
            tell_end(&mut went, served);
        }
    }
    Ok(went)
}

/// Whether the depot is well or its first reading behind the beginning fails; what the key says; all that goes over the link;
/// and how the session ends.
const SESSIONS: &str = "well: HELLO ASK MORE BYE: HELLO HEAD CATALOG ASK ROWS MORE DONE BYE: bye
well: HELLO ASK: HELLO HEAD CATALOG ASK ROWS: link
well: HELLO ASK BYE: HELLO HEAD CATALOG ASK ROWS BYE: !4@34
well: HELLO HELLO: HELLO HEAD CATALOG HELLO: !1@12
well: ASK: ASK: !2@0
well: HELLO MORE: HELLO HEAD CATALOG MORE: !3@12
well: HELLO 0202000300000001 03 00 00: HELLO HEAD CATALOG 0202000300000001 03 00 00: !2@12
well: HELLO ASK DAY_ASK: HELLO HEAD CATALOG ASK ROWS DAY_ASK: !2@34
well: HELLO ASK DAY_MORE: HELLO HEAD CATALOG ASK ROWS DAY_MORE: !3@34
well: 474554202f204854: 474554202f204854: !71@0
well: 0101000400000000 00000001: 0101000400000000: !1@0
well: HELLO 0201000e00000001: HELLO HEAD CATALOG 0201000e00000001: !2@12
well: HELLO 0202001700000001 02 00 02 01818000000000000002 01018000000000000009 MORE BYE: HELLO HEAD CATALOG 0202001700000001 02 00 02 01818000000000000002 01018000000000000009 1202000800000001 00000003 00000004 MORE DONE BYE: bye
well: HELLO 0202000500000001 02 00 01 0107 0202000500000002 02 00 01 0108 DAY_MORE BYE: HELLO HEAD CATALOG 0202000500000001 02 00 01 0107 1302000400000001 00000000 0202000500000002 02 00 01 0108 1202001000000002 00000001 00000002 00000003 00000004 DAY_MORE 1302000400000002 00000004 BYE: bye
well: HELLO 0202000f00000001 00 00 02 01817800000000000000 0108 MORE 0202002400000002 02 0101 04 01818000000000000002 01018000000000000005 01828000000000000002 0107 DAY_MORE BYE: HELLO HEAD CATALOG 0202000f00000001 00 00 02 01817800000000000000 0108 1202000c00000001 00000001 00000002 00000003 MORE 1302000400000001 00000003 0202002400000002 02 0101 04 01818000000000000002 01018000000000000005 01828000000000000002 0107 1202001800000002 000000018000000000000005 000000028000000000000005 DAY_MORE 1302000400000002 00000002 BYE: bye
well: HELLO 0202002300000001 02 00 10 0108010801080108010801080108010801080108010801080108010801080108 MORE BYE: HELLO HEAD CATALOG 0202002300000001 02 00 10 0108010801080108010801080108010801080108010801080108010801080108 1202001000000001 00000001 00000002 00000003 00000004 MORE 1302000400000001 00000004 BYE: bye
well: HELLO 0202000d00000001 02 00 01 01008000000000000002: HELLO HEAD CATALOG 0202000d00000001 02 00 01 01008000000000000002: !2@12
well: HELLO 0202000d00000001 02 00 01 01098000000000000002: HELLO HEAD CATALOG 0202000d00000001 02 00 01 01098000000000000002: !2@12
well: HELLO 0202001700000001 02 00 02 01808000000000000002 01018000000000000009: HELLO HEAD CATALOG 0202001700000001 02 00 02 01808000000000000002 01018000000000000009: !2@12
well: HELLO 0202001700000001 02 00 02 01898000000000000002 01018000000000000009: HELLO HEAD CATALOG 0202001700000001 02 00 02 01898000000000000002 01018000000000000009: !2@12
well: HELLO 0202002500000001 02 00 11 01080108010801080108010801080108010801080108010801080108010801080108: HELLO HEAD CATALOG 0202002500000001 02 00 11 01080108010801080108010801080108010801080108010801080108010801080108: !2@12
well: HELLO 0202000500000001 02 00 01 0101: HELLO HEAD CATALOG 0202000500000001 02 00 01 0101: !2@12
well: HELLO 0202000d00000001 02 00 01 01818000000000000002: HELLO HEAD CATALOG 0202000d00000001 02 00 01 01818000000000000002: !2@12
well: HELLO 0202000500000001 02 00 01 0187: HELLO HEAD CATALOG 0202000500000001 02 00 01 0187: !2@12
well: HELLO 0202000d00000001 02 00 01 01078000000000000002: HELLO HEAD CATALOG 0202000d00000001 02 00 01 01078000000000000002: !2@12
fails: HELLO ASK DAY_ASK DAY_MORE BYE: HELLO HEAD CATALOG ASK SORRY DAY_ASK DAY_ROWS DAY_MORE DAY_DONE BYE: depot
fails: HELLO ASK MORE: HELLO HEAD CATALOG ASK SORRY MORE: !3@34";

#[test]
fn a_key_is_served_however_its_frames_are_cut(rt: HostRuntime) -> Result<(), BeginFault> {
    for row in SESSIONS.split('\n') {
        let depot_fails: &[u64] = if part(row, 0) == "fails" { &[8] } else { &[] };
        let mut wanted = bytes_of(part(row, 2));
        add(&mut wanted, part(row, 3).as_bytes());
        for pieces in [&[], [0; 80].as_slice()] {
            let went = serve(rt.alloc(), &bytes_of(part(row, 1)), pieces, depot_fails)?;
            assert!(rt; went.as_slice() == wanted.as_slice(), "{row}");
        }
    }
    Ok(())
}
