//! What is told where no case brings it about: of ends of the key's program, of words, and of files that are too long.

use csv_split::Place;
use key_commands::Ended;
use key_commands::local::{LocalEnd, LocalFailure, LocalRun};
use key_exec::Damage;
use key_inputs::{BrokenTable, RecordNamed, Shown};
use key_lines::ToldTexts;
use key_messages::{line_of, usage_lines};
use key_words::UsageFault;
use std::alloc::AllocError;

const LOCAL: &str =
    "key local --schema schema --data tables --flash flash --script script --journal journal";

const NO_MEMORY: &str = "out of memory: free some, or give smaller files";

const DAMAGED: &str =
    "flash is damaged, and the texts that met it have the word damaged: slot 1 of page 271 begins with 4; ask again over a device of another name";

#[test]
fn want_of_memory_and_damage_of_local_are_told(rt: HostRuntime) -> Result<(), AllocError> {
    let mut words = Vec::new(rt.alloc());
    for word in LOCAL.split(' ') {
        words.push(String::from_str(rt.alloc(), word)?)?;
    }
    let told = ToldTexts::none();
    let end = LocalEnd::Damaged(Damage {
        page: 271,
        slot: 1,
        found: 4,
    });
    let cases = [
        (Ended::NoMemory, 3u8, NO_MEMORY),
        (Ended::Local(Err(LocalFailure::NoMemory)), 3, NO_MEMORY),
        (Ended::Local(Ok(LocalRun { end, told })), 13, DAMAGED),
    ];
    for (ended, code, line) in cases.iter() {
        let told = line_of(rt.alloc(), &words, ended, None)?;
        assert!(rt; told.as_str() == *line, "{line}");
        assert!(rt; ended.exit_code() == *code, "{line}");
    }
    Ok(())
}

#[test]
fn words_that_no_case_can_have_are_told(rt: HostRuntime) -> Result<(), AllocError> {
    let cases = [
        (UsageFault::NotUtf8, "a word is not UTF-8"),
        (UsageFault::Words, "these are not the words of a command"),
    ];
    for (fault, line) in cases.iter() {
        let told = format!(in rt.alloc(); "{fault}")?;
        assert!(rt; told.as_str() == *line, "{line}");
    }
    Ok(())
}

/// What is told of a whole file, and of the row after the last.
#[test]
fn limits_of_a_file_are_told(rt: HostRuntime) -> Result<(), AllocError> {
    let named = |rec: u32, line: Option<u32>| RecordNamed {
        at: Place {
            table: 2,
            rec,
            column: 0,
        },
        table: Shown::of(b"visit"),
        line,
    };
    let cases = [
        (
            BrokenTable::FileLimit(named(0, None)),
            "visit.csv: the file has more than 67108864 bytes",
        ),
        (
            BrokenTable::RowLimit(named(1_000_002, Some(1_000_003))),
            "visit.csv, line 1000003: the table has more than 1000000 rows",
        ),
    ];
    for (broken, line) in cases.iter() {
        let told = format!(in rt.alloc(); "{broken}")?;
        assert!(rt; told.as_str() == *line, "{line}");
    }
    Ok(())
}

/// A line of refused words, and the usage.
const USAGE: &str = "--help is no option here
usage: key_program query
    --flash FILE       the key's device, as load made it
    [--plan PLAN]      how they are answered: auto, scan, pre, post, cross-pre or cross-post; else auto";

/// The usage as it is told.
const USAGE_TOLD: &str = "usage: key_program query
    --flash FILE       the key's device, as load made it
    [--plan PLAN]      how they are answered: auto, scan, pre, post, cross-pre
                       or cross-post; else auto";

#[test]
fn the_usage_has_short_lines_and_help_is_no_fault(rt: HostRuntime) -> Result<(), AllocError> {
    let mut words = Vec::new(rt.alloc());
    for word in ["key_program", "query", "--help"] {
        words.push(String::from_str(rt.alloc(), word)?)?;
    }
    assert_eq!(rt;
        usage_lines(rt.alloc(), &words, USAGE)?.as_str(),
        USAGE_TOLD
    );
    let told = usage_lines(rt.alloc(), words.get(..2).unwrap_or(&[]), USAGE)?;
    assert!(rt; told.starts_with("--help is no option here\nusage: key_program query\n"));
    Ok(())
}
