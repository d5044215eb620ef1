//! The line that tells the port.

ghost use Rattle.std.specs.Prelude.{◌≡◌, OnOk, OnErr};
ghost use Rattle.ghost_model.specs.core.Causes.{HasCause};
ghost use Rattle.edge_traits.specs.Written.{grown, GrowsByFront};
ghost use Rattle.host_commands.specs.Hosting.{port_line};

use arrayvec::ArrayVec;
use edge_traits::Failed;
use edge_traits::sink::Sink;
use edge_traits::writing::write_all;
use itoa::Buffer;

/// The most bytes of the line: the word, a number and the line's end.
const MAX_LINE: usize = 46;

/// The line of a port.
fn port_line(port: u16) -> ArrayVec<u8, MAX_LINE>
    ensures line { result.items ≡ port_line port }
{
    let mut line: ArrayVec<u8, MAX_LINE> = ArrayVec::new();
    let mut digits = Buffer::new();
    let _word = line.try_extend_from_slice(b"port ");
    let _number = line.try_extend_from_slice(digits.format(port).as_bytes());
    let _end = line.try_extend_from_slice(b"\n");
    line
}

/// Prints the line of a port.
pub fn print_port<O: Sink>(out: &mut O, port: u16) -> Result<(), Failed>
    ensures cause { HasCause (O.faults out.old) (O.faults out.new) result }
    ensures whole { OnOk result (O.written out.new ≡ grown (O.written out.old) (port_line port)) }
    ensures failed { OnErr result (GrowsByFront (O.written out.old) (port_line port) (O.written out.new)) }
{
    let line = port_line(port);
    write_all(out, line.as_slice())
}
