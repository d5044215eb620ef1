//! What is told of refused words: what is wrong, and the words of the command.

use key_words::UsageFault;
use std::alloc::{AllocError, Global};

/// The commands of the program.
const USAGE: &str = "\
usage: key_program COMMAND OPTIONS, COMMAND being
    load    makes a key's device and a host's file of tables, in place of files of those names
    query   asks a host and a loaded device
    local   does both in one process, over a device that it makes in place of a file of that name
    plain   answers from the tables alone
    audit   says whether a recorded channel is one that a key leaves
    gen     makes tables and queries from a number, and asks as local does
    migrate makes a new device and a new host's file of older ones, which stay
key_program COMMAND shows the options of one";

/// The words of `load`.
const LOAD_USAGE: &str = "\
usage: key_program load
    --schema FILE      the schema
    --data FOLDER      the folder of the tables' CSV files
    --flash FILE       the key's device, made in place of a file of that name
    --visible FILE     the host's file, made in place of a file of that name
    [--blocks NUMBER]  the device's blocks, 1 to 60000000; else as many as the tables need";

/// The words of `query`.
const QUERY_USAGE: &str = "\
usage: key_program query
    --flash FILE       the key's device, as load made it
    --to ADDRESS:PORT  the host's address, as 127.0.0.1:4711, with the port that host_program printed
    --script FILE      the queries, with ; between them
    [--plan PLAN]      how they are answered: auto, scan, pre, post, cross-pre or cross-post; else auto
    [--pace NUMBERS]   slices of work behind each frame of rows, 0 to 1000, or up to 16 such with commas; else 1
    [--buffers NUMBER] the key's page buffers, 8 to 64; else 32";

/// The words of `local`.
const LOCAL_USAGE: &str = "\
usage: key_program local
    --schema FILE      the schema
    --data FOLDER      the folder of the tables' CSV files
    --flash FILE       a device, made in place of a file of that name
    --script FILE      the queries, with ; between them
    [--journal FILE]   what went between key and host, in place of a file of that name
    [--plan PLAN]      how they are answered: auto, scan, pre, post, cross-pre or cross-post; else auto
    [--pace NUMBERS]   slices of work behind each frame of rows, 0 to 1000, or up to 16 such with commas; else 1
    [--buffers NUMBER] the key's page buffers, 8 to 64; else 32";

/// The words of `plain`.
const PLAIN_USAGE: &str = "\
usage: key_program plain
    --schema FILE      the schema
    --data FOLDER      the folder of the tables' CSV files
    --script FILE      the queries, with ; between them";

/// The words of `audit`.
const AUDIT_USAGE: &str = "\
usage: key_program audit
    --visible FILE     the host's file, as load made it; its catalog alone is read
    --script FILE      the queries, with ; between them
    --journal FILE     what went between key and host, as local wrote it, or a recorder on the line";

/// The words of `gen`.
const GEN_USAGE: &str = "\
usage: key_program gen
    --seed NUMBER      the number that the tables are drawn from, of 1 to 9 digits
    --rows NUMBER      how many visits the clinic has, 1 to 1000000
    --flash FILE       a device, made in place of a file of that name
    [--texts NUMBER]   the queries that are asked, 1 to 40; else 40
    [--plan PLAN]      how they are answered: auto, scan, pre, post, cross-pre or cross-post; else auto
    [--pace NUMBERS]   slices of work behind each frame of rows, 0 to 1000, or up to 16 such with commas; else 1
    [--buffers NUMBER] the key's page buffers, 8 to 64; else 32";

/// The words of `migrate`.
const MIGRATE_USAGE: &str = "\
usage: key_program migrate
    --flash FILE       the key's device, as load made it, in this version or an earlier one; it stays
    --visible FILE     the host's file that was made with it; it stays
    --to-flash FILE    the new device, made in place of a file of that name
    --to-visible FILE  the new host's file, made in place of a file of that name
    [--null COLUMNS]   columns that may be NULL from now on: 1 to 32 as table.column, with commas between them
    [--blocks NUMBER]  the new device's blocks, 1 to 60000000; else as many as the tables need";

/// What is told of refused words: what is wrong, what to do, and the words of the command.
pub(crate) fn refusing_lines(
    alloc: Global,
    args: &[String],
    fault: &UsageFault,
) -> Result<String, AllocError> {
    let usage = usage_of(args);
    match remedy(fault) {
        Some(remedy) => format!(in alloc; "{fault}: {remedy}\n{usage}"),
        None => format!(in alloc; "{fault}\n{usage}"),
    }
}

/// What to do about a value that an option does not take.
fn remedy(fault: &UsageFault) -> Option<&'static str> {
    match fault {
        UsageFault::Plan => Some("give one of these, or leave it out for auto"),
        UsageFault::Pace => Some("give such numbers, or leave it out for 1"),
        UsageFault::Buffers => Some("give such a number, or leave it out for 32"),
        UsageFault::Blocks => Some("give such a number, or leave it out for as many as are needed"),
        UsageFault::Seed | UsageFault::Rows => Some("give such a number"),
        UsageFault::Texts => Some("give such a number, or leave it out for 40"),
        UsageFault::Twice(_) => Some("give it once"),
        UsageFault::ToFlash | UsageFault::ToVisible => {
            Some("give another name, since the older file stays")
        }
        UsageFault::Null => Some("give such items, or leave it out"),
        _ => None,
    }
}

/// The words of the command that is given, or the commands where none of them is.
fn usage_of(args: &[String]) -> &'static str {
    match args.get(1) {
        Some(command) => usage_by(command.as_str()),
        None => USAGE,
    }
}

/// The words of the command of this name, or the commands where it is none.
fn usage_by(command: &str) -> &'static str {
    match command {
        "load" => LOAD_USAGE,
        "query" => QUERY_USAGE,
        "local" => LOCAL_USAGE,
        "plain" => PLAIN_USAGE,
        "audit" => AUDIT_USAGE,
        "gen" => GEN_USAGE,
        "migrate" => MIGRATE_USAGE,
        _ => USAGE,
    }
}
