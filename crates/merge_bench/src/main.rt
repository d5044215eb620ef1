//! Merges and reductions of drawn lists over a flash in memory: what came, and how many calls it took.
//!
//! The words `merge UNIONS LISTS IDS` intersect so many unions of so many lists each, at most 64 lists; `codes UNIONS LISTS IDS` does
//! so where the lists are codes of one to three bytes, the more of them the fewer identifiers a list has; `reduce ROOM LISTS IDS`
//! reduces so many lists to one with that room, 6 to 62; `draw BLOCKS LISTS IDS` only draws the lists and writes them to a flash
//! with so many blocks behind them, and `encode BLOCKS LISTS IDS` writes them as codes, so that what this takes can be told from the
//! rest. The lists have about so many identifiers in all. It prints a line for each of these:
//!
//! - how many lists there are, how many identifiers they have, and how many came;
//! - how many pages the lists fill, and for `reduce` the one list;
//! - how many calls the flash got, and how many of them read a page; the others write a page or erase a block;
//! - how many calls there are for a page that is filled.
#![tactic(auto)]

mod coded;
mod drawing;
mod lists;
mod merging;
mod reducing;

use edge_traits::flash::AttachFault;
use std::alloc::Global;
use std::process::ExitCode;
use std::{env, io};

/// What was counted.
#[derive(Clone, Copy)]
struct Figures {
    /// The lists.
    lists: u32,
    /// Their identifiers.
    ids: u64,
    /// The identifiers that came.
    came: u64,
    /// The pages that the identifiers fill, those of the one list too.
    pages: u64,
    /// The calls of the flash.
    calls: u64,
    /// Those that read.
    reads: u64,
}

/// Does what the words say, if they say it right and it goes well.
fn count(alloc: Global, words: &[String]) -> Result<Option<Figures>, AttachFault> {
    let [_, what, one, lists, ids] = words else {
        return Ok(None);
    };
    let (Ok(one), Ok(lists), Ok(ids)) = (
        one.parse::<u32>(),
        lists.parse::<u32>(),
        ids.parse::<u32>(),
    ) else {
        return Ok(None);
    };
    match what.as_str() {
        "codes" => coded::figures(alloc, one, lists, ids),
        "encode" => coded::written(alloc, one, lists, ids),
        "draw" => drawing::figures(alloc, one, lists, ids),
        "merge" => merging::figures(alloc, one, lists, ids),
        "reduce" => reducing::figures(alloc, one, lists, ids),
        _ => Ok(None),
    }
}

/// Ends with 0 where there are figures.
fn main(rt: HostRuntime) -> ExitCode {
    match run(&rt) {
        Ok(true) => ExitCode::from(0),
        _ => ExitCode::from(1),
    }
}

/// Prints the figures, and answers whether there were any.
fn run(rt: &HostRuntime) -> io::Result<bool> {
    let mut words = Vec::new(rt.alloc());
    for word in env::args(rt)? {
        words.push(word)?;
    }
    let Ok(Some(figures)) = count(rt.alloc(), &words) else {
        return Ok(false);
    };
    let Figures {
        lists,
        ids,
        came,
        pages,
        calls,
        reads,
    } = figures;
    println!(rt; "lists {lists}\nidentifiers {ids}\ncame {came}")?;
    println!(rt; "pages {pages}\ncalls {calls}\nreads {reads}")?;
    println!(rt; "writes and erases {}", calls.saturating_sub(reads))?;
    let hundredths = calls.saturating_mul(100) / pages.max(1);
    println!(rt;
        "calls over pages {}.{:02}",
        hundredths / 100,
        hundredths % 100
    )?;
    Ok(true)
}
