//! The reading of the words.

ghost use Rattle.std.specs.Prelude.{◌≡◌, ◌≢◌, ◌≤◌, true, false, Some, None, Err, IfOk, IfErr, OnErr, map, option_map, string_bytes, codes};
ghost use Rattle.clap.specs.Words.{first_of, found_of, rows_of};
ghost use Rattle.clap.specs.Simple.{subcommand_rows_of};
ghost use Rattle.clap.specs.Values.{kind_of};
ghost use Rattle.key_words.specs.Refusals.{BreaksRule, BreaksRuleIn, HasCause, is_told, told_kind};
ghost use Rattle.key_words.specs.Blocks.{AreBuffers, IsFew, most_seed, most_rows, most_texts};
ghost use Rattle.key_words.specs.Words.{reading, said};
ghost use Rattle.key_words.specs.Words as words;
ghost use Rattle.key_words.specs.Views.{words_view};

use crate::app::program;
use crate::refusing::refusal;
use crate::values::{
    read_blocks, read_buffers, read_items, read_pace, read_plan, read_rows, read_seed, read_texts,
};
use crate::words::{
    AuditWords, GenWords, KeyWords, LoadWords, LocalWords, MAX_ITEMS, MAX_NUMBERS, MigrateWords,
    PlainWords, QueryWords, UsageFault, WordsFault,
};
use arrayvec::ArrayVec;
use clap::error::ErrorKind;
use clap::{ArgMatches, Error};
use leakless_plan::Plan;
use std::alloc::Global;

/// Reads the words, of which the first is the program's name.
pub fn read_words<'a>(alloc: Global, words: &'a [String]) -> Result<KeyWords<'a>, WordsFault>
    ensures read { IfOk result (λ command. reading (map string_bytes words.now) ≡ Some (words_view command)) }
    ensures usage { (fault : UsageFault) → result ≡ Err (WordsFault.Usage fault) → reading (map string_bytes words.now) ≡ None }
    ensures cause { (fault : UsageFault) → result ≡ Err (WordsFault.Usage fault) → HasCause (map string_bytes words.now) fault (told_kind fault) }
{
    let Ok(command) = program(alloc) else {
        return Err(WordsFault::NoMemory);
    };
    match command.try_get_matches_from(words) {
        Ok(matches) => command_of(&matches),
        Err(error) => Err(told_fault(alloc, &error)),
    }
}

/// What an error of `clap` tells of the words.
fn told_fault(alloc: Global, error: &Error) -> WordsFault
    ensures memory { (fault : UsageFault) → result ≡ WordsFault.Usage fault → kind_of error.now ≢ ErrorKind.OutOfMemory }
    ensures told { (fault : UsageFault) → result ≡ WordsFault.Usage fault → is_told (kind_of error.now) ≡ true → told_kind fault ≡ Some (kind_of error.now) }
    ensures other { (fault : UsageFault) → result ≡ WordsFault.Usage fault → is_told (kind_of error.now) ≡ false → fault ≡ UsageFault.Words }
{
    if error.kind() == ErrorKind::OutOfMemory {
        return WordsFault::NoMemory;
    }
    match format!(in alloc; "{error}") {
        Ok(message) => WordsFault::Usage(refusal(error.kind(), message.as_str())),
        Err(_) => WordsFault::NoMemory,
    }
}

/// The command that was read.
fn command_of<'a>(matches: &ArgMatches<'a>) -> Result<KeyWords<'a>, WordsFault>
    ensures read { IfOk result (λ command. said (subcommand_rows_of matches.now) ≡ Some (words_view command)) }
    ensures usage { (fault : UsageFault) → result ≡ Err (WordsFault.Usage fault) → said (subcommand_rows_of matches.now) ≡ None }
    ensures rule { (fault : UsageFault) → result ≡ Err (WordsFault.Usage fault) → BreaksRuleIn (subcommand_rows_of matches.now) fault }
    ensures value { (fault : UsageFault) → result ≡ Err (WordsFault.Usage fault) → told_kind fault ≡ None }
    ensures memory { result ≡ Err WordsFault.NoMemory → ⊥ }
{
    let Some((name, options)) = matches.subcommand() else {
        return Err(WordsFault::Usage(UsageFault::Words));
    };
    match named_command(name, options) {
        Ok(command) => Ok(command),
        Err(fault) => Err(WordsFault::Usage(fault)),
    }
}

/// The command with a name.
fn named_command<'a>(name: &str, options: &ArgMatches<'a>) -> Result<KeyWords<'a>, UsageFault>
    ensures read { IfOk result (λ command. words.command_of name.now (rows_of (found_of options.now)) ≡ Some (words_view command)) }
    ensures usage { (fault : UsageFault) → result ≡ Err fault → words.command_of name.now (rows_of (found_of options.now)) ≡ None }
    ensures rule { (fault : UsageFault) → result ≡ Err fault → BreaksRule fault (rows_of (found_of options.now)) }
    ensures value { (fault : UsageFault) → result ≡ Err fault → told_kind fault ≡ None }
{
    if name.as_bytes() == "local".as_bytes() {
        return local_of(options);
    }
    if name.as_bytes() == "plain".as_bytes() {
        return plain_of(options);
    }
    if name.as_bytes() == "load".as_bytes() {
        return load_of(options);
    }
    if name.as_bytes() == "query".as_bytes() {
        return query_of(options);
    }
    if name.as_bytes() == "audit".as_bytes() {
        return audit_of(options);
    }
    if name.as_bytes() == "gen".as_bytes() {
        return gen_of(options);
    }
    if name.as_bytes() == "migrate".as_bytes() {
        return migrate_of(options);
    }
    Err(UsageFault::Words)
}

/// The value of an option.
fn value_of<'a>(options: &ArgMatches<'a>, name: &str) -> Option<&'a str>
    ensures value { option_map (λ value. value.now) result ≡ first_of name.now (rows_of (found_of options.now)) }
{
    options.get_str(name)
}

/// The plan of the session.
fn plan_of(options: &ArgMatches<'_>) -> Result<Plan, UsageFault>
    ensures read { IfOk result (λ plan. words.plan_said (first_of (codes "plan") (rows_of (found_of options.now))) ≡ Some plan) }
    ensures usage { OnErr result (words.plan_said (first_of (codes "plan") (rows_of (found_of options.now))) ≡ None) }
    ensures fault { IfErr result (λ fault. fault ≡ UsageFault.Plan) }
{
    match read_plan(value_of(options, "plan")) {
        Some(plan) => Ok(plan),
        None => Err(UsageFault::Plan),
    }
}

/// The pace of the session.
fn pace_of(options: &ArgMatches<'_>) -> Result<ArrayVec<u16, MAX_NUMBERS>, UsageFault>
    ensures read { IfOk result (λ pace. words.pace_said (first_of (codes "pace") (rows_of (found_of options.now))) ≡ Some pace.items) }
    ensures usage { OnErr result (words.pace_said (first_of (codes "pace") (rows_of (found_of options.now))) ≡ None) }
    ensures fault { IfErr result (λ fault. fault ≡ UsageFault.Pace) }
{
    match read_pace(value_of(options, "pace")) {
        Some(pace) => Ok(pace),
        None => Err(UsageFault::Pace),
    }
}

/// The number of page buffers of the key.
fn buffers_of(options: &ArgMatches<'_>) -> Result<u32, UsageFault>
    ensures read { IfOk result (λ buffers. words.buffers_said (first_of (codes "buffers") (rows_of (found_of options.now))) ≡ Some buffers) }
    ensures usage { OnErr result (words.buffers_said (first_of (codes "buffers") (rows_of (found_of options.now))) ≡ None) }
    ensures some { IfOk result AreBuffers }
    ensures fault { IfErr result (λ fault. fault ≡ UsageFault.Buffers) }
{
    match read_buffers(value_of(options, "buffers")) {
        Some(buffers) => Ok(buffers),
        None => Err(UsageFault::Buffers),
    }
}

/// The seed of a generated clinic.
fn seed_of(options: &ArgMatches<'_>) -> Result<u32, UsageFault>
    ensures read { IfOk result (λ seed. words.seed_said (first_of (codes "seed") (rows_of (found_of options.now))) ≡ Some seed) }
    ensures usage { OnErr result (words.seed_said (first_of (codes "seed") (rows_of (found_of options.now))) ≡ None) }
    ensures short { IfOk result (λ seed. seed ≤ most_seed) }
    ensures fault { IfErr result (λ fault. fault ≡ UsageFault.Seed) }
{
    match read_seed(value_of(options, "seed")) {
        Some(seed) => Ok(seed),
        None => Err(UsageFault::Seed),
    }
}

/// The number of visits of a generated clinic.
fn visits_of(options: &ArgMatches<'_>) -> Result<u32, UsageFault>
    ensures read { IfOk result (λ visits. words.rows_said (first_of (codes "rows") (rows_of (found_of options.now))) ≡ Some visits) }
    ensures usage { OnErr result (words.rows_said (first_of (codes "rows") (rows_of (found_of options.now))) ≡ None) }
    ensures some { IfOk result (λ visits. 1 ≤ visits) }
    ensures few { IfOk result (λ visits. visits ≤ most_rows) }
    ensures fault { IfErr result (λ fault. fault ≡ UsageFault.Rows) }
{
    match read_rows(value_of(options, "rows")) {
        Some(visits) => Ok(visits),
        None => Err(UsageFault::Rows),
    }
}

/// The number of texts of a generated script.
fn texts_of(options: &ArgMatches<'_>) -> Result<u32, UsageFault>
    ensures read { IfOk result (λ texts. words.texts_said (first_of (codes "texts") (rows_of (found_of options.now))) ≡ Some texts) }
    ensures usage { OnErr result (words.texts_said (first_of (codes "texts") (rows_of (found_of options.now))) ≡ None) }
    ensures some { IfOk result (λ texts. 1 ≤ texts) }
    ensures few { IfOk result (λ texts. texts ≤ most_texts) }
    ensures fault { IfErr result (λ fault. fault ≡ UsageFault.Texts) }
{
    match read_texts(value_of(options, "texts")) {
        Some(texts) => Ok(texts),
        None => Err(UsageFault::Texts),
    }
}

/// The items of `--null`.
fn items_of<'a>(options: &ArgMatches<'a>) -> Result<ArrayVec<&'a str, MAX_ITEMS>, UsageFault>
    ensures read { IfOk result (λ items. words.items_said (first_of (codes "null") (rows_of (found_of options.now))) ≡ Some (map (λ item. item.now) items.items)) }
    ensures usage { OnErr result (words.items_said (first_of (codes "null") (rows_of (found_of options.now))) ≡ None) }
    ensures fault { IfErr result (λ fault. fault ≡ UsageFault.Null) }
{
    match read_items(value_of(options, "null")) {
        Some(items) => Ok(items),
        None => Err(UsageFault::Null),
    }
}

/// The number of blocks of a new flash.
fn blocks_of(options: &ArgMatches<'_>) -> Result<Option<u32>, UsageFault>
    ensures read { IfOk result (λ blocks. words.blocks_said (first_of (codes "blocks") (rows_of (found_of options.now))) ≡ Some blocks) }
    ensures usage { OnErr result (words.blocks_said (first_of (codes "blocks") (rows_of (found_of options.now))) ≡ None) }
    ensures few { IfOk result IsFew }
    ensures fault { IfErr result (λ fault. fault ≡ UsageFault.Blocks) }
{
    match read_blocks(value_of(options, "blocks")) {
        Some(blocks) => Ok(blocks),
        None => Err(UsageFault::Blocks),
    }
}

/// The words of `plain`.
fn plain_of<'a>(options: &ArgMatches<'a>) -> Result<KeyWords<'a>, UsageFault>
    ensures read { IfOk result (λ command. words.plain_of (rows_of (found_of options.now)) ≡ Some (words_view command)) }
    ensures usage { (fault : UsageFault) → result ≡ Err fault → words.plain_of (rows_of (found_of options.now)) ≡ None }
    ensures rule { (fault : UsageFault) → result ≡ Err fault → BreaksRule fault (rows_of (found_of options.now)) }
    ensures value { (fault : UsageFault) → result ≡ Err fault → told_kind fault ≡ None }
{
    let Some(schema) = value_of(options, "schema") else {
        return Err(UsageFault::Words);
    };
    let Some(tables) = value_of(options, "data") else {
        return Err(UsageFault::Words);
    };
    let Some(script) = value_of(options, "script") else {
        return Err(UsageFault::Words);
    };
    Ok(KeyWords::Plain(PlainWords {
        schema,
        tables,
        script,
    }))
}

/// The words of `load`.
fn load_of<'a>(options: &ArgMatches<'a>) -> Result<KeyWords<'a>, UsageFault>
    ensures read { IfOk result (λ command. words.load_of (rows_of (found_of options.now)) ≡ Some (words_view command)) }
    ensures usage { (fault : UsageFault) → result ≡ Err fault → words.load_of (rows_of (found_of options.now)) ≡ None }
    ensures rule { (fault : UsageFault) → result ≡ Err fault → BreaksRule fault (rows_of (found_of options.now)) }
    ensures value { (fault : UsageFault) → result ≡ Err fault → told_kind fault ≡ None }
{
    let Some(schema) = value_of(options, "schema") else {
        return Err(UsageFault::Words);
    };
    let Some(tables) = value_of(options, "data") else {
        return Err(UsageFault::Words);
    };
    let Some(flash) = value_of(options, "flash") else {
        return Err(UsageFault::Words);
    };
    let Some(visible) = value_of(options, "visible") else {
        return Err(UsageFault::Words);
    };
    let blocks = blocks_of(options)?;
    Ok(KeyWords::Load(LoadWords {
        schema,
        tables,
        flash,
        visible,
        blocks,
    }))
}

/// The words of `query`.
fn query_of<'a>(options: &ArgMatches<'a>) -> Result<KeyWords<'a>, UsageFault>
    ensures read { IfOk result (λ command. words.query_of (rows_of (found_of options.now)) ≡ Some (words_view command)) }
    ensures usage { (fault : UsageFault) → result ≡ Err fault → words.query_of (rows_of (found_of options.now)) ≡ None }
    ensures rule { (fault : UsageFault) → result ≡ Err fault → BreaksRule fault (rows_of (found_of options.now)) }
    ensures value { (fault : UsageFault) → result ≡ Err fault → told_kind fault ≡ None }
{
    let Some(flash) = value_of(options, "flash") else {
        return Err(UsageFault::Words);
    };
    let Some(to) = value_of(options, "to") else {
        return Err(UsageFault::Words);
    };
    let Some(script) = value_of(options, "script") else {
        return Err(UsageFault::Words);
    };
    let plan = plan_of(options)?;
    let pace = pace_of(options)?;
    let buffers = buffers_of(options)?;
    Ok(KeyWords::Query(QueryWords {
        flash,
        to,
        script,
        plan,
        pace,
        buffers,
    }))
}

/// The words of `local`.
fn local_of<'a>(options: &ArgMatches<'a>) -> Result<KeyWords<'a>, UsageFault>
    ensures read { IfOk result (λ command. words.local_of (rows_of (found_of options.now)) ≡ Some (words_view command)) }
    ensures usage { (fault : UsageFault) → result ≡ Err fault → words.local_of (rows_of (found_of options.now)) ≡ None }
    ensures rule { (fault : UsageFault) → result ≡ Err fault → BreaksRule fault (rows_of (found_of options.now)) }
    ensures value { (fault : UsageFault) → result ≡ Err fault → told_kind fault ≡ None }
{
    let Some(schema) = value_of(options, "schema") else {
        return Err(UsageFault::Words);
    };
    let Some(tables) = value_of(options, "data") else {
        return Err(UsageFault::Words);
    };
    let Some(flash) = value_of(options, "flash") else {
        return Err(UsageFault::Words);
    };
    let Some(script) = value_of(options, "script") else {
        return Err(UsageFault::Words);
    };
    let plan = plan_of(options)?;
    let pace = pace_of(options)?;
    let buffers = buffers_of(options)?;
    Ok(KeyWords::Local(LocalWords {
        schema,
        tables,
        flash,
        script,
        journal: value_of(options, "journal"),
        plan,
        pace,
        buffers,
    }))
}

/// The words of `audit`.
fn audit_of<'a>(options: &ArgMatches<'a>) -> Result<KeyWords<'a>, UsageFault>
    ensures read { IfOk result (λ command. words.audit_of (rows_of (found_of options.now)) ≡ Some (words_view command)) }
    ensures usage { (fault : UsageFault) → result ≡ Err fault → words.audit_of (rows_of (found_of options.now)) ≡ None }
    ensures rule { (fault : UsageFault) → result ≡ Err fault → BreaksRule fault (rows_of (found_of options.now)) }
    ensures value { (fault : UsageFault) → result ≡ Err fault → told_kind fault ≡ None }
{
    let Some(visible) = value_of(options, "visible") else {
        return Err(UsageFault::Words);
    };
    let Some(script) = value_of(options, "script") else {
        return Err(UsageFault::Words);
    };
    let Some(journal) = value_of(options, "journal") else {
        return Err(UsageFault::Words);
    };
    Ok(KeyWords::Audit(AuditWords {
        visible,
        script,
        journal,
    }))
}

/// The words of `gen`.
fn gen_of<'a>(options: &ArgMatches<'a>) -> Result<KeyWords<'a>, UsageFault>
    ensures read { IfOk result (λ command. words.gen_of (rows_of (found_of options.now)) ≡ Some (words_view command)) }
    ensures usage { (fault : UsageFault) → result ≡ Err fault → words.gen_of (rows_of (found_of options.now)) ≡ None }
    ensures rule { (fault : UsageFault) → result ≡ Err fault → BreaksRule fault (rows_of (found_of options.now)) }
    ensures value { (fault : UsageFault) → result ≡ Err fault → told_kind fault ≡ None }
{
    let Some(flash) = value_of(options, "flash") else {
        return Err(UsageFault::Words);
    };
    let seed = seed_of(options)?;
    let rows = visits_of(options)?;
    let texts = texts_of(options)?;
    let plan = plan_of(options)?;
    let pace = pace_of(options)?;
    let buffers = buffers_of(options)?;
    Ok(KeyWords::Gen(GenWords {
        flash,
        seed,
        rows,
        texts,
        plan,
        pace,
        buffers,
    }))
}

/// The words of `migrate`.
fn migrate_of<'a>(options: &ArgMatches<'a>) -> Result<KeyWords<'a>, UsageFault>
    ensures read { IfOk result (λ command. words.migrate_of (rows_of (found_of options.now)) ≡ Some (words_view command)) }
    ensures usage { (fault : UsageFault) → result ≡ Err fault → words.migrate_of (rows_of (found_of options.now)) ≡ None }
    ensures rule { (fault : UsageFault) → result ≡ Err fault → BreaksRule fault (rows_of (found_of options.now)) }
    ensures value { (fault : UsageFault) → result ≡ Err fault → told_kind fault ≡ None }
{
    let Some(flash) = value_of(options, "flash") else {
        return Err(UsageFault::Words);
    };
    let Some(visible) = value_of(options, "visible") else {
        return Err(UsageFault::Words);
    };
    let Some(to_flash) = value_of(options, "to-flash") else {
        return Err(UsageFault::Words);
    };
    let Some(to_visible) = value_of(options, "to-visible") else {
        return Err(UsageFault::Words);
    };
    if flash.as_bytes() == to_flash.as_bytes() {
        return Err(UsageFault::ToFlash);
    }
    if visible.as_bytes() == to_visible.as_bytes() {
        return Err(UsageFault::ToVisible);
    }
    let null = items_of(options)?;
    let blocks = blocks_of(options)?;
    Ok(KeyWords::Migrate(MigrateWords {
        flash,
        visible,
        to_flash,
        to_visible,
        null,
        blocks,
    }))
}
