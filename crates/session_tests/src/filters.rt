//! `local` where the rows of a lower table are linked by a filter whose bits are all set.

use crate::large_tables::{calls_of, files_of, leaves, put_lines};
use leakless_plan::{Form, Plan};
use std::alloc::{AllocError, Global};
use std::fmt::Write;

const FILTER: Plan = Plan::Linked(Some(Form::Post));

/// The tops with one of the 40,000 leaves in the reply, which are half of them.
const SATURATED: &str = "SELECT top.id FROM top, leaf WHERE lf = leaf.id AND tag = 0;";

/// The file of 100 tops, each with the leaf 39,950 behind it.
fn far_tops(alloc: Global) -> Result<String, AllocError> {
    let mut lines = String::from_str(alloc, "id,num,val,lf\n")?;
    for row in 1..=100u32 {
        let leaf = row + 39_950;
        write!(lines, "{row},{row},0,{leaf}\n")?;
    }
    Ok(lines)
}

/// With 8 buffers all bits are set: each top is kept, and the last look-up drops those whose leaf is not in the reply, by a
/// read for each. With 64 few are kept beside those of the answer.
#[test]
fn the_last_look_up_decides_where_all_bits_are_set(rt: HostRuntime) -> Result<(), AllocError> {
    let mut lines = String::new(rt.alloc());
    put_lines(&mut lines, 1, (1, 50, 1))?;
    let mut depot = files_of(
        rt.alloc(),
        leaves(rt.alloc())?.as_str(),
        far_tops(rt.alloc())?.as_str(),
        SATURATED,
    )?;
    let scan = calls_of(rt.alloc(), &mut depot, Plan::Scan, 8, lines.as_str())?;
    let full = calls_of(rt.alloc(), &mut depot, FILTER, 8, lines.as_str())?;
    let sifting = calls_of(rt.alloc(), &mut depot, FILTER, 64, lines.as_str())?;
    let full = full.expect(&rt, "the lines by a full filter");
    let sifting = sifting.expect(&rt, "the lines by a filter that sifts");
    assert!(rt; scan.is_some());
    assert!(rt; sifting < full, "{sifting} {full}");
    Ok(())
}
