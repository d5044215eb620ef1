//! A run that is written whole.

ghost use Rattle.std.specs.Prelude.{◌≡◌, ◌<◌, ◌≤◌, ◌+◌, ◌^◌, [], true, ℕ, List, length, map, get_or, IfOk, OnOk, OnErr};
ghost use Rattle.ghost_model.specs.core.Causes.{HasCause};
ghost use Rattle.ghost_model.specs.forms.Runs.{Stores, pages_of, number_cell};
ghost use Rattle.edge_traits.specs.Devices.{Counts, ChangesOnly};
ghost use Rattle.flash_pages.specs.Filling.{CanFill};
ghost use Rattle.ghost_base.specs.Runs.{run_of};

use crate::filler::RunFiller;
use edge_traits::Failed;
use edge_traits::flash::Flash;
use ghost_base::runs::Run;

/// Records by their numbers, as a run is written from them.
pub trait Records {
    /// The records.
    ghost records: { Self → List (List ℕ) };

    /// How many records there are.
    fn count(&self) -> u32
        ensures { result ≡ length (records self.now) };

    /// A record by its number, counted from 0. It may be made in `room`.
    fn record<'a>(&'a self, i: u32, room: &'a mut [u8; 256]) -> &'a [u8]
        requires { i < length (records self.now) }
        ensures { result.now ≡ get_or (records self.now) i [] };
}

/// Writes all records of a source, each of `width` bytes, 1 to 256, as a run from page `first` on, whose pages are blank.
///
/// It makes one write for each page, and none after a failed one.
pub fn write_run<F: Flash, C: Records>(
    flash: &mut F,
    buf: &mut [u8; 2048],
    source: &C,
    first: u32,
    width: u32,
) -> Result<Run, Failed>
    requires some { 0 < width }
    requires fits { width ≤ 256 }
    requires widths { (i : ℕ) → i < length (C.records source.now) → length (get_or (C.records source.now) i []) ≡ width }
    requires can { CanFill (F.state flash.old) first (pages_of (length (C.records source.now)) width) }
    ensures run { IfOk result (λ run. (run.first ≡ first) × (run.count ≡ length (C.records source.now)) × (run.width ≡ width)) }
    ensures stores { IfOk result (λ run. F.told ≡ true → Stores (F.state flash.new).page (run_of run) (C.records source.now)) }
    ensures others { ChangesOnly first (first + pages_of (length (C.records source.now)) width) (F.state flash.old) (F.state flash.new) }
    ensures exact { OnOk result (Counts (pages_of (length (C.records source.now)) width) (F.state flash.old).calls (F.state flash.new).calls) }
    ensures at_most { (F.state flash.new).calls ≤ (F.state flash.old).calls + pages_of (length (C.records source.now)) width }
    ensures deep_reads { (F.state flash.new).deep_reads ≡ (F.state flash.old).deep_reads }
    ensures cause { HasCause (F.state flash.old).faults (F.state flash.new).faults result }
    ensures last { OnErr result ((F.state flash.new).since_fault ≡ 0) }
{
    let mut writer = RunFiller::begin(first, width, false);
    let mut room = [0; 256];
    for i in 0..source.count() {
        writer.put(flash, buf, source.record(i, &mut room))?;
    }
    writer.finish(flash, buf)
}

/// Numbers, each a record of four bytes, most significant first.
#[derive(Drop)]
pub struct Numbers<'n> {
    numbers: &'n [u32],
    ghost few: { length numbers.now < 2 ^ 32 },
}

impl<'n> Records for Numbers<'n> {
    ghost records = { λ source. map number_cell source.numbers.now };

    fn count(&self) -> u32 {
        self.numbers.len() as u32
    }

    fn record<'a>(&'a self, i: u32, room: &'a mut [u8; 256]) -> &'a [u8] {
        room[..4].copy_from_slice(&self.numbers[i as usize].to_be_bytes());
        &room[..4]
    }
}

/// Writes numbers, such as the identifiers of a list, as a run of records of four bytes from page `first` on, whose pages are
/// blank. It makes one write for each page, and none after a failed one.
pub fn write_numbers<F: Flash>(
    flash: &mut F,
    buf: &mut [u8; 2048],
    numbers: &[u32],
    first: u32,
) -> Result<Run, Failed>
    requires few { length numbers.now < 2 ^ 32 }
    requires can { CanFill (F.state flash.old) first (pages_of (length numbers.now) 4) }
    ensures run { IfOk result (λ run. (run.first ≡ first) × (run.count ≡ length numbers.now) × (run.width ≡ 4)) }
    ensures stores { IfOk result (λ run. F.told ≡ true → Stores (F.state flash.new).page (run_of run) (map number_cell numbers.now)) }
    ensures others { ChangesOnly first (first + pages_of (length numbers.now) 4) (F.state flash.old) (F.state flash.new) }
    ensures exact { OnOk result (Counts (pages_of (length numbers.now) 4) (F.state flash.old).calls (F.state flash.new).calls) }
    ensures at_most { (F.state flash.new).calls ≤ (F.state flash.old).calls + pages_of (length numbers.now) 4 }
    ensures deep_reads { (F.state flash.new).deep_reads ≡ (F.state flash.old).deep_reads }
    ensures cause { HasCause (F.state flash.old).faults (F.state flash.new).faults result }
    ensures last { OnErr result ((F.state flash.new).since_fault ≡ 0) }
{
    write_run(flash, buf, &Numbers { numbers }, first, 4)
}
