//! Bytes of a file from a place on.

ghost use Rattle.std.specs.Prelude.{◌≡◌, ◌≤◌, ◌<◌, ◌+◌, ◌-◌, ◌++◌, ◌^◌, ℕ, List, Some, length, replicate, take, drop, OnOk, IfOk, is_ok, true};
ghost use Rattle.ghost_model.specs.core.Causes.{HasCause};
ghost use Rattle.edge_traits.specs.Files.{file_of, ReadsAt};
ghost use Rattle.host_exec.specs.RowBytes.{window};

use edge_traits::Failed;
use edge_traits::depot::Depot;

/// Reads on into the part of a buffer from a place on.
fn read_on<D: Depot>(
    depot: &mut D,
    name: &str,
    at: u64,
    have: usize,
    buf: &mut [u8],
) -> Result<usize, Failed>
    requires { have ≤ length buf.old }
    ensures cause { HasCause (D.faults depot.old) (D.faults depot.new) result }
    ensures appends { D.append_faults depot.new ≡ D.append_faults depot.old }
    ensures same { D.contents depot.new ≡ D.contents depot.old }
    ensures goes_well { D.sure depot.old name.now → is_ok result ≡ true }
    ensures stays_sure { D.sure depot.old name.now → D.sure depot.new name.now }
    ensures within { IfOk result (λ count. have + count ≤ length buf.old) }
    ensures front { take have buf.new ≡ take have buf.old }
    ensures bytes { IfOk result (λ count. ReadsAt (D.contents depot.old) name.now at (drop have buf.old) count (drop have buf.new)) }
{
    let (_front, rest) = buf.split_at_mut(have);
    depot.read_at(name, at, rest)
}

/// Makes every byte from a place on 0.
fn clear_from(have: usize, buf: &mut [u8])
    requires { have ≤ length buf.old }
    ensures { buf.new ≡ take have buf.old ++ replicate (length buf.old - have) 0 }
{
    let (_front, rest) = buf.split_at_mut(have);
    rest.fill(0);
}

/// Fills a buffer with the bytes of a file from a place on; a byte that is not there counts as 0.
pub fn fill<D: Depot>(depot: &mut D, name: &str, at: u64, buf: &mut [u8]) -> Result<(), Failed>
    requires { at + length buf.old < 2 ^ 64 }
    ensures cause { HasCause (D.faults depot.old) (D.faults depot.new) result }
    ensures appends { D.append_faults depot.new ≡ D.append_faults depot.old }
    ensures same { D.contents depot.new ≡ D.contents depot.old }
    ensures goes_well { D.sure depot.old name.now → is_ok result ≡ true }
    ensures stays_sure { D.sure depot.old name.now → D.sure depot.new name.now }
    ensures filled { OnOk result ((file : List ℕ) → file_of (D.contents depot.old) name.now ≡ Some file → buf.new ≡ window file at (length buf.old)) }
{
    let mut have = 0;
    'bytes: while have < buf.len() {
        let count = read_on(depot, name, at + have as u64, have, buf)?;
        if count == 0 {
            clear_from(have, buf);
            have = buf.len();
        } else {
            have += count;
        }
    }
    Ok(())
}
