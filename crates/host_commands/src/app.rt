//! The program as `clap` knows it.

ghost use Rattle.std.specs.Prelude.{◌≡◌, false, IfOk};
ghost use Rattle.clap.specs.Words.{app_of, with_rule};
ghost use Rattle.clap.specs.declared.builder.command.Command.TheViews.{out-Command};
ghost use Rattle.host_commands.specs.HostApp as app;

use clap::{Arg, Command};
use std::alloc::{AllocError, Global};

/// Adds an option that is to be given.
fn with_needed<'a>(
    alloc: Global,
    command: Command<'a>,
    name: &'a str,
) -> Result<Command<'a>, AllocError>
    ensures app { IfOk result (λ c. app_of c ≡ with_rule (app_of command.entry) (app.needed name.entry.now)) }
    ensures global { (out-Command command.entry).has_globals ≡ false → IfOk result (λ c. (out-Command c).has_globals ≡ false) }
{
    command.arg(Arg::new(alloc, name).long(name).required(true))
}

/// The program without its options.
fn bare_program<'a>(alloc: Global) -> Command<'a>
    ensures app { app_of result ≡ app.bare_app }
    ensures global { (out-Command result).has_globals ≡ false }
{
    Command::new(alloc, "host_program").disable_help_flag(true)
}

/// The program.
pub(crate) fn program<'a>(alloc: Global) -> Result<Command<'a>, AllocError>
    ensures app { IfOk result (λ c. app_of c ≡ app.host_app) }
    ensures global { IfOk result (λ c. (out-Command c).has_globals ≡ false) }
{
    let command = with_needed(alloc, bare_program(alloc), "visible")?;
    with_needed(alloc, command, "at")
}
