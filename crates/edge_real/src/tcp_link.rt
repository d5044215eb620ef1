//! A TCP connection as a link.

ghost use Rattle.std.specs.Prelude.{◌≡◌, ◌+◌, ◌≤◌, min, length, IfOk};
ghost use Rattle.ghost_model.specs.core.Causes.{Rose, last_count};
ghost use Rattle.edge_traits.specs.Links.{faults_after, Steps, steps_stay, steps_join};

use edge_traits::Failed;
use edge_traits::link::Link;
use std::fmt::{Display, Error as FormatError, Formatter, Write as FormatWrite};
use std::io;
use std::io::{Eprint, Read, Write};
use std::net::{Net, OpenListener, OpenStream, TcpListener, TcpStream};
use std::time::Duration;

/// One end of a TCP connection. An address is a host's name or IP address, a colon and a port.
///
/// It holds no bytes back: each send is one write, as far as the system takes it whole, and each take one read. Of its moves
/// it tells only which of them failed.
///
/// It may tell on standard error that an answer is awaited, once a second went by. A take then goes on: it waits as long as the other
/// end takes.
#[derive(Drop)]
pub struct TcpLink<R: Net> {
    net: R,
    tells: bool,
    listener: Option<R::Listener>,
    stream: Option<R::Stream>,
    first: Option<Cause>,
    faults: u64,
}

/// Why a move failed.
#[derive(Clone, Copy, Drop)]
pub enum Cause {
    /// Nobody listens there.
    Refused,

    /// The other end broke off.
    BrokenOff,

    /// The address is listened at already.
    InUse,

    /// The address is none of this machine.
    NotHere,

    /// The address is none, or cannot be reached.
    NoAddress,

    /// The system does not allow it.
    NotAllowed,

    /// Another cause.
    Other,
}

impl Cause {
    /// The cause that an error of this kind has. A name that leads to no address has an error of no kind.
    fn of(kind: io::ErrorKind) -> Cause {
        match kind {
            io::ErrorKind::ConnectionRefused => Cause::Refused,
            io::ErrorKind::ConnectionReset
            | io::ErrorKind::ConnectionAborted
            | io::ErrorKind::BrokenPipe => Cause::BrokenOff,
            io::ErrorKind::AddrInUse => Cause::InUse,
            io::ErrorKind::AddrNotAvailable => Cause::NotHere,
            io::ErrorKind::InvalidInput
            | io::ErrorKind::HostUnreachable
            | io::ErrorKind::NetworkUnreachable
            | io::ErrorKind::TimedOut
            | io::ErrorKind::Uncategorized => Cause::NoAddress,
            io::ErrorKind::PermissionDenied => Cause::NotAllowed,
            _ => Cause::Other,
        }
    }

    /// Whether it lies in the address alone, so that there was no connection.
    pub fn is_of_the_address(&self) -> bool {
        matches!(
            self,
            Cause::InUse | Cause::NotHere | Cause::NoAddress | Cause::NotAllowed
        )
    }
}

impl Display for Cause {
    fn fmt<W: FormatWrite>(&self, f: &mut Formatter<W>) -> Result<(), FormatError> {
        f.write_str(match self {
            Cause::Refused =>
                "the connection was refused: host_program is not running there, or serves another key; start it again",
            Cause::BrokenOff => "the other end broke off: see what it said",
            Cause::InUse => "the address is in use: give another port, or 0 for a free one",
            Cause::NotHere => "the address is none of this machine: give one of it, as 127.0.0.1:0",
            Cause::NoAddress =>
                "the address is none, or cannot be reached: give one with its port, as 127.0.0.1:4711",
            Cause::NotAllowed => "the system does not allow it: give a port from 1024 on",
            Cause::Other => "the network failed: see that this machine has one, and ask again",
        })
    }
}

impl<R: Net + Drop> TcpLink<R> {
    /// A link that is not connected, over the network that `net` reaches.
    pub fn new(net: R) -> TcpLink<R>
        ensures faults { result.faults ≡ 0 }
    {
        TcpLink::telling(net, false)
    }

    /// A link that is not connected, over the network that `net` reaches, which may tell there that an answer is awaited.
    pub fn telling(net: R, tells: bool) -> TcpLink<R>
        ensures faults { result.faults ≡ 0 }
    {
        TcpLink {
            net,
            tells,
            listener: None,
            stream: None,
            first: None,
            faults: 0,
        }
    }

    /// Takes a connection in place of an older one, which is closed, or only closes that one.
    fn hold(&mut self, stream: Option<R::Stream>)
        ensures faults { self.new.faults ≡ self.old.faults }
    {
        self.stream = stream;
    }

    /// Listens there in place of an older place, or no longer.
    fn hear(&mut self, listener: Option<R::Listener>)
        ensures faults { self.new.faults ≡ self.old.faults }
    {
        self.listener = listener;
    }

    /// Why the first move failed that did.
    pub fn first_cause(&self) -> Option<Cause> {
        self.first
    }

    /// Keeps why a move failed, where it is the first.
    fn note(&mut self, error: &io::Error)
        ensures faults { self.new.faults ≡ self.old.faults }
    {
        if self.first.is_none() {
            self.first = Some(Cause::of(error.kind()));
        }
    }

    /// Counts a fault.
    fn fault(&mut self, error: &io::Error) -> Failed
        ensures count { self.new.faults ≡ min (self.old.faults + 1) last_count }
        ensures rose { Rose self.old.faults self.new.faults }
        ensures never_falls { self.old.faults ≤ self.new.faults }
    {
        self.note(error);
        self.faults = self.faults.saturating_add(1);
        Failed
    }
}

/// Connects to an address. What is sent leaves at once. A read ends after a second where that is told.
fn connect<R: Net>(net: &R, at: &str, tells: bool) -> io::Result<R::Stream> {
    let stream = TcpStream::connect(net, at)?;
    stream.set_nodelay(true)?;
    if tells {
        stream.set_read_timeout(Some(Duration::from_secs(1)))?;
    }
    Ok(stream)
}

/// Listens at an address, and answers the port too, which is a free one where the address says 0.
fn bind<R: Net>(net: &R, at: &str) -> io::Result<(R::Listener, u16)> {
    let listener = TcpListener::bind(net, at)?;
    let port = listener.local_addr()?.port();
    Ok((listener, port))
}

/// Waits for one connection. What is sent leaves at once.
fn accept_one<R: Net>(listener: Option<R::Listener>) -> io::Result<R::Stream> {
    let Some(listener) = listener else {
        return Err(io::Error::from(io::ErrorKind::NotConnected));
    };
    let (stream, _from) = listener.accept()?;
    stream.set_nodelay(true)?;
    Ok(stream)
}

/// Writes all bytes.
fn write_whole<S: Write>(stream: &mut Option<S>, bytes: &[u8]) -> io::Result<()> {
    match stream {
        Some(stream) => stream.write_all(bytes),
        None => Err(io::Error::from(io::ErrorKind::NotConnected)),
    }
}

/// Reads the next bytes. A read that ended after a second is made again, and the first of these is told on `to`.
fn read_patiently<R: Eprint, S: Read>(
    to: &R,
    stream: &mut Option<S>,
    buf: &mut [u8],
) -> io::Result<usize>
    ensures within { IfOk result (λ count. count ≤ length buf.old) }
{
    let mut is_first = true;
    for _ in 0..u64::MAX {
        match read_some(stream, buf) {
            Err(error) if is_pause(&error) => {
                if is_first {
                    let _told = eprintln!(to; "connected, and waiting for an answer");
                }
                is_first = false;
            }
            read => return read,
        }
    }
    Err(io::Error::from(io::ErrorKind::TimedOut))
}

/// Whether a read ended because nothing came within a second.
fn is_pause(error: &io::Error) -> bool {
    matches!(error.kind(), io::ErrorKind::WouldBlock)
}

/// Reads the next bytes.
fn read_some<S: Read>(stream: &mut Option<S>, buf: &mut [u8]) -> io::Result<usize>
    ensures within { IfOk result (λ count. count ≤ length buf.old) }
{
    match stream {
        Some(stream) => stream.read(buf),
        None => Err(io::Error::from(io::ErrorKind::NotConnected)),
    }
}

impl<R: Net + Eprint + Drop> Link for TcpLink<R> {
    ghost went = { Steps (λ old made new. new.faults ≡ faults_after made.answer old.faults) };

    ghost faults = { λ link. link.faults };

    ghost stays = { steps_stay (λ old made new. new.faults ≡ faults_after made.answer old.faults) };

    ghost joins = { steps_join (λ old made new. new.faults ≡ faults_after made.answer old.faults) };

    fn dial(&mut self, at: &str) -> Result<(), Failed> {
        match connect(&self.net, at, self.tells) {
            Ok(stream) => {
                self.hold(Some(stream));
                Ok(())
            }
            Err(error) => Err(self.fault(&error)),
        }
    }

    fn listen(&mut self, at: &str) -> Result<u16, Failed> {
        match bind(&self.net, at) {
            Ok((listener, port)) => {
                self.hear(Some(listener));
                Ok(port)
            }
            Err(error) => Err(self.fault(&error)),
        }
    }

    /// Waits for one other end, and listens no longer.
    fn accept(&mut self) -> Result<(), Failed> {
        match accept_one::<R>(self.listener.take()) {
            Ok(stream) => {
                self.hold(Some(stream));
                Ok(())
            }
            Err(error) => Err(self.fault(&error)),
        }
    }

    fn send(&mut self, bytes: &[u8]) -> Result<(), Failed> {
        match write_whole(&mut self.stream, bytes) {
            Ok(()) => Ok(()),
            Err(error) => Err(self.fault(&error)),
        }
    }

    fn take(&mut self, buf: &mut [u8]) -> Result<usize, Failed> {
        match read_patiently(&self.net, &mut self.stream, buf) {
            Ok(count) => Ok(count),
            Err(error) => Err(self.fault(&error)),
        }
    }

    fn close(&mut self) {
        self.hold(None);
        self.hear(None);
    }
}
