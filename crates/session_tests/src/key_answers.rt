//! The key's answer of a query over the hidden columns of the clinic.

ghost use Rattle.std.specs.Prelude.{◌≡◌};
ghost use Rattle.ghost_model.specs.forms.Catalog.{current_version};
ghost use Rattle.flash_layout.specs.Ranges.{Suffices};
ghost use Rattle.page_pool.specs.Pools.{IsIdle};

use crate::clinic::{CATALOG, device, failing_device};
use channel_pump::state::ReplyState;
use edge_traits::flash::{AttachFault, Flash};
use edge_traits::mem_sink::MemSink;
use edge_traits::sink::Sink;
use flash_layout::need;
use key_exec::{Telling, Told};
use key_lines::Printer;
use leakless_plan::Plan;
use page_pool::PagePool;
use tree_schema::{Catalog, read_catalog};
use visible_spool::Half;
use visible_spool::laws::no_replies_are_a_half;

/// The visits with doctors of one country.
const VISITS: &[u8] =
    b"SELECT visit.id, name FROM visit, patient, doctor WHERE pat = patient.id AND visit.doc = doctor.id AND country = 'ES'";

const LINES: &[u8] = b"> 2\tBob\n> 3\tAnn\n> 4\tBob\n= 1 3\n";

const FAILED: &[u8] = b"! 1 flash\n";

/// Tells the text that has number 1 to its end, which asks for nothing.
fn tell<F: Flash, O: Sink>(
    printer: &mut Printer,
    out: &mut O,
    cat: &Catalog,
    text: &[u8],
    pool: &mut PagePool,
    flash: &mut F,
) -> Told
    requires version { cat.now.version ≡ current_version }
    requires suffices { Suffices cat.now (F.state flash.old) }
    requires idle { IsIdle pool.old }
    ensures idle { IsIdle pool.new }
{
    no_replies_are_a_half();
    let half = Half::none();
    let mut telling = Telling::begin(cat, Plan::Scan, 1, text, ReplyState::Done, half, false);
    'steps: loop {
        match telling.step(printer, out, pool, flash) {
            Some(told) => return told,
            None => {}
        }
    }
}

#[test]
fn an_answer_is_printed_through_eight_buffers(rt: HostRuntime) -> Result<(), AttachFault> {
    let cat = read_catalog(CATALOG).expect(&rt, "the catalog");
    assert!(rt; cat.is_current());
    let mut flash = device(rt.alloc())?;
    assert!(rt; need(&cat) <= flash.pages());
    let mut out = MemSink::new(rt.alloc(), 99, 99, &[])?;
    let mut printer = Printer::new();
    let mut pool = PagePool::new(rt.alloc(), 8)?;
    let told = tell(&mut printer, &mut out, &cat, VISITS, &mut pool, &mut flash);
    assert!(rt; matches!(told, Told::Answered));
    assert!(rt; out.bytes() == LINES);
    assert!(rt; flash.script.calls == 5);
    for _ in 0..8u32 {
        assert!(rt; pool.lease().is_some());
    }
    assert!(rt; pool.lease().is_none());
    Ok(())
}

#[test]
fn each_call_that_fails_gives_all_buffers_back(rt: HostRuntime) -> Result<(), AttachFault> {
    let cat = read_catalog(CATALOG).expect(&rt, "the catalog");
    assert!(rt; cat.is_current());
    for call in 2..6u64 {
        let mut flash = failing_device(rt.alloc(), &[call])?;
        assert!(rt; need(&cat) <= flash.pages());
        let mut out = MemSink::new(rt.alloc(), 99, 99, &[])?;
        let mut printer = Printer::new();
        let mut pool = PagePool::new(rt.alloc(), 8)?;
        let told = tell(&mut printer, &mut out, &cat, VISITS, &mut pool, &mut flash);
        assert!(rt; matches!(told, Told::Flash), "{call}");
        assert!(rt;
            flash.script.calls == call && out.bytes() == FAILED,
            "{call}"
        );
        for _ in 0..8u32 {
            assert!(rt; pool.lease().is_some(), "{call}");
        }
    }
    Ok(())
}
