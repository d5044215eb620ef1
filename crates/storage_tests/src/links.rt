//! Links, in memory and over TCP.

use edge_real::tcp_link::TcpLink;
use edge_traits::link::Link;
use edge_traits::mem_link::{MemLink, Room};
use edge_traits::peer::PeerScript;
use edge_traits::taking::fill;
use std::alloc::AllocError;

/// Another end with ten bytes, of which the first takes get three and one, and one port.
const PEER: PeerScript = PeerScript {
    bytes: b"0123456789",
    pieces: &[3, 0],
    ports: &[7_000],
};

/// The bytes of all moves: two addresses, what is sent, and what is taken.
const MOVED: &[u8; 22] = b"herethereabc0123456789";

#[test]
fn a_link_in_memory_tells_its_moves_within_its_room(rt: HostRuntime) -> Result<(), AllocError> {
    for (moves, bytes, told) in [(8usize, 22usize, true), (7, 22, false), (8, 21, false)] {
        let mut link = MemLink::new(rt.alloc(), Room { moves, bytes }, &PEER, &[])?;
        let mut buf = [b'?'; 12];
        let heard = link.listen("here").unwrap_or(0) == 7_000 && link.accept().is_ok();
        let sent = link.dial("there").is_ok() && link.send(b"abc").is_ok();
        let count = fill(&mut link, &mut buf).unwrap_or(0);
        assert!(rt; heard && sent && (count == 10) == told);
        let kept = match link.journal() {
            Some(journal) => journal.moves.len() == 8 && journal.bytes == MOVED.as_slice(),
            None => false,
        };
        assert!(rt; kept == told);
        assert!(rt; !told || &buf == b"0123456789??");
    }
    Ok(())
}

/// Whether bytes that one end sends come to the other.
fn carries<F: Link, T: Link>(from: &mut F, to: &mut T, text: &str) -> bool {
    let mut buf = [0; 16];
    from.send(text.as_bytes()).is_ok()
        && match to.take(&mut buf) {
            Ok(count) => &buf[..count] == text.as_bytes(),
            Err(_) => false,
        }
}

#[test]
fn bytes_go_both_ways_over_tcp(rt: HostRuntime) -> Result<(), AllocError> {
    let mut host = TcpLink::new(&rt);
    let mut key = TcpLink::new(&rt);
    let unheard = host.accept().is_err();
    let port = host.listen("127.0.0.1:0").unwrap_or(0);
    let at = format!(in rt.alloc(); "127.0.0.1:{port}")?;
    assert!(rt; unheard && key.dial(&at).is_ok() && host.accept().is_ok());
    assert!(rt; carries(&mut key, &mut host, "an ask"));
    assert!(rt; carries(&mut host, &mut key, "a reply"));
    key.close();
    assert!(rt; matches!(host.take(&mut [0]), Ok(0)));
    assert!(rt; key.send(b"more").is_err() && key.take(&mut [0]).is_err());
    host.close();
    assert!(rt; key.dial(&at).is_err());
    Ok(())
}
