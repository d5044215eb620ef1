//! The program as `clap` knows it. A step takes what was made before it, and gives an error on as it is.

ghost use Rattle.std.specs.Prelude.{◌≡◌, false, IfOk};
ghost use Rattle.clap.specs.Words.{App, app_of, new_app, with_rule, with_subcommand};
ghost use Rattle.clap.specs.declared.builder.command.Command.TheViews.{out-Command};
ghost use Rattle.key_words.specs.KeyApp as app;

use clap::{Arg, Command};
use std::alloc::{AllocError, Global};

/// Adds an option that is to be given.
fn with_needed<'a>(
    alloc: Global,
    command: Result<Command<'a>, AllocError>,
    name: &'a str,
) -> Result<Command<'a>, AllocError>
    ensures made { (before : App) → app.IsMade before command.entry → app.IsMade (with_rule before (app.needed name.entry.now)) result }
{
    let Ok(command) = command else {
        return Err(AllocError);
    };
    command.arg(Arg::new(alloc, name).long(name).required(true))
}

/// Adds an option that may be left out.
fn with_optional<'a>(
    alloc: Global,
    command: Result<Command<'a>, AllocError>,
    name: &'a str,
) -> Result<Command<'a>, AllocError>
    ensures made { (before : App) → app.IsMade before command.entry → app.IsMade (with_rule before (app.optional name.entry.now)) result }
{
    let Ok(command) = command else {
        return Err(AllocError);
    };
    command.arg(Arg::new(alloc, name).long(name))
}

/// A command that reads a schema and the files of its tables.
fn reading_inputs<'a>(alloc: Global, name: &'a str) -> Result<Command<'a>, AllocError>
    ensures made { app.IsMade (app.with_inputs (new_app name.entry.now)) result }
{
    let command = with_needed(alloc, Ok(Command::new(alloc, name)), "schema");
    with_needed(alloc, command, "data")
}

/// The command `plain`.
fn plain_command<'a>(alloc: Global) -> Result<Command<'a>, AllocError>
    ensures made { app.IsMade app.plain_app result }
{
    let command = reading_inputs(alloc, "plain");
    with_needed(alloc, command, "script")
}

/// The command `local`.
fn local_command<'a>(alloc: Global) -> Result<Command<'a>, AllocError>
    ensures made { app.IsMade app.local_app result }
{
    let command = reading_inputs(alloc, "local");
    let command = with_needed(alloc, command, "flash");
    let command = with_needed(alloc, command, "script");
    let command = with_optional(alloc, command, "journal");
    let command = with_optional(alloc, command, "plan");
    let command = with_optional(alloc, command, "pace");
    with_optional(alloc, command, "buffers")
}

/// The command `load`.
fn load_command<'a>(alloc: Global) -> Result<Command<'a>, AllocError>
    ensures made { app.IsMade app.load_app result }
{
    let command = reading_inputs(alloc, "load");
    let command = with_needed(alloc, command, "flash");
    let command = with_needed(alloc, command, "visible");
    with_optional(alloc, command, "blocks")
}

/// The command `query`.
fn query_command<'a>(alloc: Global) -> Result<Command<'a>, AllocError>
    ensures made { app.IsMade app.query_app result }
{
    let command = with_needed(alloc, Ok(Command::new(alloc, "query")), "flash");
    let command = with_needed(alloc, command, "to");
    let command = with_needed(alloc, command, "script");
    let command = with_optional(alloc, command, "plan");
    let command = with_optional(alloc, command, "pace");
    with_optional(alloc, command, "buffers")
}

/// The command `audit`.
fn audit_command<'a>(alloc: Global) -> Result<Command<'a>, AllocError>
    ensures made { app.IsMade app.audit_app result }
{
    let command = with_needed(alloc, Ok(Command::new(alloc, "audit")), "visible");
    let command = with_needed(alloc, command, "script");
    with_needed(alloc, command, "journal")
}

/// The command `gen`.
fn gen_command<'a>(alloc: Global) -> Result<Command<'a>, AllocError>
    ensures made { app.IsMade app.gen_app result }
{
    let command = with_needed(alloc, Ok(Command::new(alloc, "gen")), "seed");
    let command = with_needed(alloc, command, "rows");
    let command = with_needed(alloc, command, "flash");
    let command = with_optional(alloc, command, "texts");
    let command = with_optional(alloc, command, "plan");
    let command = with_optional(alloc, command, "pace");
    with_optional(alloc, command, "buffers")
}

/// The command `migrate`.
fn migrate_command<'a>(alloc: Global) -> Result<Command<'a>, AllocError>
    ensures made { app.IsMade app.migrate_app result }
{
    let command = with_needed(alloc, Ok(Command::new(alloc, "migrate")), "flash");
    let command = with_needed(alloc, command, "visible");
    let command = with_needed(alloc, command, "to-flash");
    let command = with_needed(alloc, command, "to-visible");
    let command = with_optional(alloc, command, "null");
    with_optional(alloc, command, "blocks")
}

/// The program without its commands.
fn bare_program<'a>(alloc: Global) -> Command<'a>
    ensures app { app_of result ≡ app.bare_app }
    ensures global { (out-Command result).has_globals ≡ false }
{
    Command::new(alloc, "key_program")
        .disable_help_flag(true)
        .disable_help_subcommand(true)
        .subcommand_required(true)
}

/// Adds a command.
fn with_command<'a>(
    program: Result<Command<'a>, AllocError>,
    command: Result<Command<'a>, AllocError>,
) -> Result<Command<'a>, AllocError>
    ensures made { (above one : App) → app.IsMade above program.entry → app.IsMade one command.entry → app.IsMade (with_subcommand above one.top) result }
{
    let (Ok(program), Ok(command)) = (program, command) else {
        return Err(AllocError);
    };
    program.subcommand(command)
}

/// The program.
pub fn program<'a>(alloc: Global) -> Result<Command<'a>, AllocError>
    ensures app { IfOk result (λ c. app_of c ≡ app.key_app) }
    ensures global { IfOk result (λ c. (out-Command c).has_globals ≡ false) }
{
    let program = with_command(Ok(bare_program(alloc)), local_command(alloc));
    let program = with_command(program, plain_command(alloc));
    let program = with_command(program, load_command(alloc));
    let program = with_command(program, query_command(alloc));
    let program = with_command(program, audit_command(alloc));
    let program = with_command(program, gen_command(alloc));
    with_command(program, migrate_command(alloc))
}
