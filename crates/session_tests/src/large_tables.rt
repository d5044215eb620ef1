//! `local` by each plan, and `plain`, over tables whose columns and replies take many pages.

ghost use Rattle.key_words.specs.Blocks.{AreBuffers};

use arrayvec::ArrayVec;
use edge_traits::mem_depot::{MemDepot, Room};
use edge_traits::mem_flash::MemFlash;
use edge_traits::mem_sink::MemSink;
use key_commands::local::{LocalEnd, LocalRun, local};
use key_lines::ToldTexts;
use key_plain::plain;
use key_words::{LocalWords, PlainWords};
use leakless_plan::{Form, Plan};
use std::alloc::{AllocError, Global};
use std::fmt::Write;

/// The two tables, each row of `top` with a row of `leaf`.
const SCHEMA: &str =
    "CREATE TABLE leaf (id INTEGER PRIMARY KEY, tag INTEGER, mark INTEGER HIDDEN);\nCREATE TABLE top (id INTEGER PRIMARY KEY, num INTEGER, val INTEGER HIDDEN, lf INTEGER REFERENCES leaf(id) HIDDEN);\n";

/// A condition on a hidden and on a visible column; visible values alone; a join; and hidden values far behind.
const SCRIPT: &str =
    "SELECT num FROM top WHERE val = 7 AND num > 6000; SELECT num FROM top WHERE num <= 11000; SELECT top.id FROM top, leaf WHERE lf = leaf.id AND tag = 0 AND mark >= 30000; SELECT mark FROM leaf WHERE mark BETWEEN 40990 AND 99999;";

/// All six plans.
pub const PLANS: [Plan; 6] = [
    Plan::Linked(None),
    Plan::Scan,
    Plan::Linked(Some(Form::Pre)),
    Plan::Linked(Some(Form::Post)),
    Plan::Linked(Some(Form::CrossPre)),
    Plan::Linked(Some(Form::CrossPost)),
];

const PLAIN_WORDS: PlainWords<'static> = PlainWords {
    schema: "schema",
    tables: "tables",
    script: "script",
};

/// The words of `local`, with a plan, a pace of one number and so many page buffers.
fn local_words(plan: Plan, buffers: u32) -> LocalWords<'static>
    requires buffers { AreBuffers buffers }
{
    let mut pace = ArrayVec::new();
    pace.push(1);
    LocalWords {
        schema: "schema",
        tables: "tables",
        flash: "flash",
        script: "script",
        journal: None,
        plan,
        pace,
        buffers,
    }
}

/// The files of the two tables and of a script.
pub fn files_of(
    alloc: Global,
    leaves: &str,
    tops: &str,
    script: &str,
) -> Result<MemDepot, AllocError> {
    let room = Room {
        files: 4,
        name_bytes: 32,
        file_bytes: 800_000,
    };
    let mut depot = MemDepot::new(alloc, room, &[])?;
    depot.put("schema", SCHEMA.as_bytes());
    depot.put("tables/leaf.csv", leaves.as_bytes());
    depot.put("tables/top.csv", tops.as_bytes());
    depot.put("script", script.as_bytes());
    Ok(depot)
}

/// How many calls of the flash `local` makes by a plan with so many page buffers, if it ends well and prints these lines.
pub fn calls_of(
    alloc: Global,
    depot: &mut MemDepot,
    plan: Plan,
    buffers: u32,
    lines: &str,
) -> Result<Option<u64>, AllocError>
    requires buffers { AreBuffers buffers }
{
    let mut flash = MemFlash::new(alloc, 60, &[])?;
    let mut out = MemSink::new(alloc, 300_000, 300_000, &[])?;
    let words = local_words(plan, buffers);
    match local(alloc, &words, depot, &mut flash, &mut out) {
        Ok(
            LocalRun {
                end: LocalEnd::Ok,
                ..
            },
        ) if out.bytes() == lines.as_bytes() => Ok(Some(flash.script.calls)),
        _ => Ok(None),
    }
}

/// The file of the leaves: each has its own number as its mark, and tag 0 up to row 40,000 and then 1.
pub fn leaves(alloc: Global) -> Result<String, AllocError> {
    let mut lines = String::from_str(alloc, "id,tag,mark\n")?;
    for row in 1..=41_000u32 {
        let tag = row / 40_001;
        write!(lines, "{row},{tag},{row}\n")?;
    }
    Ok(lines)
}

/// The file of the tops: each has its own number as num, as val what is left of it by 400, and the leaf 29,000 behind it.
fn tops(alloc: Global) -> Result<String, AllocError> {
    let mut lines = String::from_str(alloc, "id,num,val,lf\n")?;
    for row in 1..=12_000u32 {
        let val = row % 400;
        let leaf = row + 29_000;
        write!(lines, "{row},{row},{val},{leaf}\n")?;
    }
    Ok(lines)
}

/// The lines of a text: every so many numbers from one to another.
pub fn put_lines(
    lines: &mut String,
    text: u32,
    numbers: (u32, u32, u32),
) -> Result<(), AllocError> {
    let (first, last, step) = numbers;
    let mut count = 0u32;
    for number in first..=last {
        if step != 0 && number % step == first % step {
            count = count.saturating_add(1);
            write!(lines, "> {number}\n")?;
        }
    }
    write!(lines, "= {text} {count}\n")?;
    Ok(())
}

#[test]
fn columns_and_replies_of_many_pages_are_answered_in_order(
    rt: HostRuntime,
) -> Result<(), AllocError> {
    let mut lines = String::new(rt.alloc());
    put_lines(&mut lines, 1, (6_007, 11_607, 400))?;
    put_lines(&mut lines, 2, (1, 11_000, 1))?;
    put_lines(&mut lines, 3, (1_000, 11_000, 1))?;
    put_lines(&mut lines, 4, (40_990, 41_000, 1))?;
    let mut depot = files_of(
        rt.alloc(),
        leaves(rt.alloc())?.as_str(),
        tops(rt.alloc())?.as_str(),
        SCRIPT,
    )?;
    for plan in PLANS {
        let calls = calls_of(rt.alloc(), &mut depot, plan, 8, lines.as_str())?;
        assert!(rt; calls.is_some());
    }
    let mut out = MemSink::new(rt.alloc(), 300_000, 300_000, &[])?;
    let mut told = ToldTexts::none();
    assert!(rt; plain(rt.alloc(), &PLAIN_WORDS, &mut depot, &mut out, &mut told).is_ok());
    assert!(rt; out.bytes() == lines.as_bytes());
    Ok(())
}
