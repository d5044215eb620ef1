//! The words of the program, and their reading.

ghost use Rattle.std.specs.Prelude.{◌≡◌, ◌≢◌, Some, None, Err, IfOk, OnErr, map, option_map, string_bytes};
ghost use Rattle.clap.specs.Words.{first_of, found_of, rows_of};
ghost use Rattle.clap.specs.Values.{kind_of};
ghost use Rattle.host_commands.specs.Words.{names_in, names_of, reading};

use crate::app::program;
use clap::error::ErrorKind;
use clap::{ArgMatches, Error};
use std::alloc::Global;

/// What the words of the program say.
#[derive(Clone, Copy)]
pub struct HostWords<'a> {
    /// The visible file.
    pub visible: &'a str,

    /// The address to listen at, with its port; port 0 for a free one.
    pub at: &'a str,
}

/// Why no words were read.
#[derive(Clone, Copy)]
pub enum WordsFault {
    /// There was no memory.
    NoMemory,

    /// The words are refused.
    Usage,
}

/// Reads the words, of which the first is the program's name.
pub fn read_words<'a>(alloc: Global, words: &'a [String]) -> Result<HostWords<'a>, WordsFault>
    ensures read { IfOk result (λ said. reading (map string_bytes words.now) ≡ Some (names_of said)) }
    ensures usage { result ≡ Err WordsFault.Usage → reading (map string_bytes words.now) ≡ None }
{
    let Ok(command) = program(alloc) else {
        return Err(WordsFault::NoMemory);
    };
    match command.try_get_matches_from(words) {
        Ok(matches) => said_by(&matches),
        Err(error) => Err(told_fault(&error)),
    }
}

/// What an error of `clap` tells of the words.
fn told_fault(error: &Error) -> WordsFault
    ensures memory { result ≡ WordsFault.NoMemory → kind_of error.now ≡ ErrorKind.OutOfMemory }
    ensures usage { result ≡ WordsFault.Usage → kind_of error.now ≢ ErrorKind.OutOfMemory }
{
    if error.kind() == ErrorKind::OutOfMemory {
        return WordsFault::NoMemory;
    }
    WordsFault::Usage
}

/// The words by the values of their options.
fn said_by<'a>(options: &ArgMatches<'a>) -> Result<HostWords<'a>, WordsFault>
    ensures read { IfOk result (λ said. names_in (rows_of (found_of options.now)) ≡ Some (names_of said)) }
    ensures none { OnErr result (names_in (rows_of (found_of options.now)) ≡ None) }
    ensures memory { result ≡ Err WordsFault.NoMemory → ⊥ }
{
    let Some(visible) = value_of(options, "visible") else {
        return Err(WordsFault::Usage);
    };
    let Some(at) = value_of(options, "at") else {
        return Err(WordsFault::Usage);
    };
    Ok(HostWords { visible, at })
}

/// The value of an option.
fn value_of<'a>(options: &ArgMatches<'a>, name: &str) -> Option<&'a str>
    ensures value { option_map (λ value. value.now) result ≡ first_of name.now (rows_of (found_of options.now)) }
{
    options.get_str(name)
}
