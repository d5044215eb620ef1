//! `local` over the remainders by each plan, and the form that is chosen by the rows replied.

use crate::large_tables::{PLANS, calls_of, files_of};
use leakless_plan::{Form, Plan};
use std::alloc::{AllocError, Global};
use std::fmt::Write;

/// Texts about the tops of some of the 50 leaves: the form that is chosen, one that takes other calls, and the answer: the first
/// and the last leaf, and how many tops have one of these. 5 leaves are a tenth, and 6 are more; a condition on a hidden column
/// of the leaves makes the form a cross one.
const CHOSEN: [(&str, Form, Form, (u32, u32, u32)); 3] = [
    (
        "SELECT top.id FROM top, leaf WHERE lf = leaf.id AND tag <= 5;",
        Form::Pre,
        Form::Post,
        (1, 5, 1200),
    ),
    (
        "SELECT top.id FROM top, leaf WHERE lf = leaf.id AND tag <= 6;",
        Form::Post,
        Form::Pre,
        (1, 6, 1440),
    ),
    (
        "SELECT top.id FROM top, leaf WHERE lf = leaf.id AND tag <= 5 AND mark = 3;",
        Form::CrossPre,
        Form::Pre,
        (3, 3, 240),
    ),
];

/// The file of 50 leaves, each with its own number as tag and as mark.
fn fifty_leaves(alloc: Global) -> Result<String, AllocError> {
    let mut lines = String::from_str(alloc, "id,tag,mark\n")?;
    for row in 1..=50u32 {
        write!(lines, "{row},{row},{row}\n")?;
    }
    Ok(lines)
}

/// The file of 12,000 tops: as val what is left of the number by 400, and the leaves one after another, again and again.
fn many_tops(alloc: Global) -> Result<String, AllocError> {
    let mut lines = String::from_str(alloc, "id,num,val,lf\n")?;
    for row in 1..=12_000u32 {
        let val = row % 400;
        let leaf = (row - 1) % 50 + 1;
        write!(lines, "{row},{row},{val},{leaf}\n")?;
    }
    Ok(lines)
}

/// Adds the lines of the text with a number, whose answer is the tops with leaves from a first to a last one.
fn put_answer(lines: &mut String, text: u32, answer: (u32, u32, u32)) -> Result<(), AllocError> {
    let (first, last, count) = answer;
    for row in 1..=12_000u32 {
        let leaf = (row - 1) % 50 + 1;
        if first <= leaf && leaf <= last {
            write!(lines, "> {row}\n")?;
        }
    }
    write!(lines, "= {text} {count}\n")?;
    Ok(())
}

#[test]
fn each_plan_prints_the_same(rt: HostRuntime) -> Result<(), AllocError> {
    let mut script = String::new(rt.alloc());
    let mut lines = String::new(rt.alloc());
    let mut number = 0u32;
    for (text, _, _, answer) in CHOSEN {
        number = number.saturating_add(1);
        write!(script, "{text}")?;
        put_answer(&mut lines, number, answer)?;
    }
    let mut depot = files_of(
        rt.alloc(),
        fifty_leaves(rt.alloc())?.as_str(),
        many_tops(rt.alloc())?.as_str(),
        script.as_str(),
    )?;
    for plan in PLANS {
        let calls = calls_of(rt.alloc(), &mut depot, plan, 8, lines.as_str())?;
        assert!(rt; calls.is_some());
    }
    Ok(())
}

/// Where no form is forced, as many calls are made as by the form that is to be chosen.
#[test]
fn the_form_is_chosen_by_the_rows_replied(rt: HostRuntime) -> Result<(), AllocError> {
    let leaves = fifty_leaves(rt.alloc())?;
    let tops = many_tops(rt.alloc())?;
    for (text, same, other, answer) in CHOSEN {
        let mut lines = String::new(rt.alloc());
        put_answer(&mut lines, 1, answer)?;
        let mut depot = files_of(rt.alloc(), leaves.as_str(), tops.as_str(), text)?;
        let plan = Plan::Linked(None);
        let calls = calls_of(rt.alloc(), &mut depot, plan, 8, lines.as_str())?;
        let plan = Plan::Linked(Some(same));
        let same = calls_of(rt.alloc(), &mut depot, plan, 8, lines.as_str())?;
        let plan = Plan::Linked(Some(other));
        let other = calls_of(rt.alloc(), &mut depot, plan, 8, lines.as_str())?;
        let calls = calls.expect(&rt, text);
        let same = same.expect(&rt, text);
        let other = other.expect(&rt, text);
        assert!(rt;
            calls == same && calls != other,
            "{text} {calls} {same} {other}"
        );
    }
    Ok(())
}
