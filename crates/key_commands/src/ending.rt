//! How a call ended.

ghost use Rattle.std.specs.Prelude.{◌≡◌};
ghost use Rattle.key_lines.specs.Told.{told_in};
ghost use Rattle.key_commands.specs.Endings as endings;
ghost use Rattle.key_commands.specs.Renaming.{ended_by};

use crate::generate::{GenEnd, GenFailure, GenRun};
use crate::local::{LocalEnd, LocalFailure, LocalRun};
use crate::query::QueryFailure;
use key_audit::{AuditFailure, Audited};
use key_lines::ToldTexts;
use key_load::LoadFailure;
use key_migrate::MigrateFailure;
use key_plain::PlainFault;
use key_session::{SessionStatus, Tally};
use key_words::{UsageFault, WordsFault};

/// How `plain` ended, and what was told of its texts.
#[derive(Clone, Copy, Drop)]
pub struct PlainRun {
    /// How it ended.
    pub outcome: Result<(), PlainFault>,

    /// Of each text the rule by which it is refused, and the rows that were given; after a failed write some texts from the front.
    pub told: ToldTexts,
}

/// How a command ended, or why none was begun.
#[derive(Clone, Copy, Drop)]
pub enum Ended {
    /// The words are not those of a command.
    Usage(UsageFault),

    /// There was no memory to read the words.
    NoMemory,

    /// `plain` ended so.
    Plain(PlainRun),

    /// `load` ended so.
    Load(Result<(), LoadFailure>),

    /// `local` ended so.
    Local(Result<LocalRun, LocalFailure>),

    /// `query` ended so.
    Query(Result<Tally, QueryFailure>),

    /// `audit` ended so.
    Audit(Result<Audited, AuditFailure>),

    /// `gen` ended so.
    Gen(Result<GenRun, GenFailure>),

    /// `migrate` ended so.
    Migrate(Result<(), MigrateFailure>),
}

/// How a call ended whose words were not read: for want of memory where that is what was wanted alone.
pub(crate) fn not_read(fault: WordsFault) -> Ended
    ensures { result ≡ ended_by fault }
{
    match fault {
        WordsFault::NoMemory => Ended::NoMemory,
        WordsFault::Usage(fault) => Ended::Usage(fault),
    }
}

impl Ended {
    /// What was told of each text of a script: nothing where none was begun.
    pub fn told(&self) -> ToldTexts
        ensures told { told_in result ≡ endings.told_of self.now }
    {
        match self {
            Ended::Plain(run) => run.told,
            Ended::Local(Ok(run)) => run.told,
            Ended::Query(Ok(tally)) => tally.told,
            Ended::Gen(Ok(run)) => run.told,
            _ => ToldTexts::none(),
        }
    }

    /// The exit code of the program.
    pub fn exit_code(&self) -> u8
        ensures code { result ≡ endings.exit_code self.now }
    {
        match self {
            Ended::Usage(_) => 2,
            Ended::NoMemory => 3,
            Ended::Plain(run) => plain_code(&run.outcome),
            Ended::Load(outcome) => load_code(outcome),
            Ended::Local(outcome) => local_code(outcome),
            Ended::Query(outcome) => query_code(outcome),
            Ended::Audit(outcome) => audit_code(outcome),
            Ended::Gen(outcome) => gen_code(outcome),
            Ended::Migrate(outcome) => migrate_code(outcome),
        }
    }
}

/// The exit code of `plain`.
fn plain_code(outcome: &Result<(), PlainFault>) -> u8
    ensures code { result ≡ endings.plain_code outcome.now }
{
    match outcome {
        Ok(()) => 0,
        Err(PlainFault::NoMemory) => 3,
        Err(PlainFault::Input(_)) => 4,
        Err(PlainFault::Depot) => 5,
        Err(PlainFault::Sink) => 9,
    }
}

/// The exit code of `load`.
fn load_code(outcome: &Result<(), LoadFailure>) -> u8
    ensures code { result ≡ endings.load_code outcome.now }
{
    match outcome {
        Ok(()) => 0,
        Err(LoadFailure::NoMemory) => 3,
        Err(LoadFailure::Input(_)) => 4,
        Err(LoadFailure::Depot) => 5,
        Err(LoadFailure::Flash) => 6,
        Err(LoadFailure::Sink) => 9,
        Err(LoadFailure::TooSmall { .. }) => 10,
    }
}

/// The exit code of a session of `local` that was held.
fn end_code(end: &LocalEnd) -> u8
    ensures code { result ≡ endings.end_code end.now }
{
    match end {
        LocalEnd::Ok => 0,
        LocalEnd::Sink => 9,
        LocalEnd::Depot => 5,
        LocalEnd::Flash => 6,
        LocalEnd::Damaged(_) => 13,
    }
}

/// The exit code of `local`.
fn local_code(outcome: &Result<LocalRun, LocalFailure>) -> u8
    ensures code { result ≡ endings.local_code outcome.now }
{
    match outcome {
        Ok(run) => end_code(&run.end),
        Err(LocalFailure::NoMemory) => 3,
        Err(LocalFailure::Input(_)) => 4,
        Err(LocalFailure::Depot) => 5,
        Err(LocalFailure::Flash) => 6,
    }
}

/// The exit code of a session that was begun.
fn status_code(status: &SessionStatus) -> u8
    ensures code { result ≡ endings.status_code status.now }
{
    match status {
        SessionStatus::Ok => 0,
        SessionStatus::Sink => 9,
        SessionStatus::Link => 7,
        SessionStatus::Protocol { .. } => 8,
        SessionStatus::Host { .. } => 12,
        SessionStatus::Flash => 6,
        SessionStatus::Damaged(_) => 13,
    }
}

/// The exit code of `query`.
fn query_code(outcome: &Result<Tally, QueryFailure>) -> u8
    ensures code { result ≡ endings.query_code outcome.now }
{
    match outcome {
        Ok(tally) => status_code(&tally.status),
        Err(QueryFailure::NoMemory) => 3,
        Err(QueryFailure::Input(_)) => 4,
        Err(QueryFailure::Depot) => 5,
        Err(QueryFailure::Flash) => 6,
        Err(QueryFailure::TooSmall { .. }) => 10,
        Err(QueryFailure::NotAKey) => 11,
    }
}

/// The exit code of `audit`.
fn audit_code(outcome: &Result<Audited, AuditFailure>) -> u8
    ensures code { result ≡ endings.audit_code outcome.now }
{
    match outcome {
        Ok(_) => 0,
        Err(AuditFailure::NoMemory) => 3,
        Err(AuditFailure::Input(_)) => 4,
        Err(AuditFailure::Depot) => 5,
        Err(AuditFailure::Sink) => 9,
        Err(AuditFailure::NotTheFile) => 16,
        Err(AuditFailure::Wrong { .. }) => 18,
        Err(AuditFailure::BadJournal { .. }) => 19,
    }
}

/// The exit code of a session over a drawn clinic that was held.
fn gen_end_code(end: &GenEnd) -> u8
    ensures code { result ≡ endings.gen_end_code end.now }
{
    match end {
        GenEnd::Ok => 0,
        GenEnd::Sink => 9,
        GenEnd::Flash => 6,
        GenEnd::Damaged(_) => 13,
    }
}

/// The exit code of `gen`.
fn gen_code(outcome: &Result<GenRun, GenFailure>) -> u8
    ensures code { result ≡ endings.gen_code outcome.now }
{
    match outcome {
        Ok(run) => gen_end_code(&run.end),
        Err(GenFailure::NoMemory) => 3,
        Err(GenFailure::Flash) => 6,
    }
}

/// The exit code of `migrate`.
fn migrate_code(outcome: &Result<(), MigrateFailure>) -> u8
    ensures code { result ≡ endings.migrate_code outcome.now }
{
    match outcome {
        Ok(()) => 0,
        Err(MigrateFailure::NoMemory) => 3,
        Err(MigrateFailure::NullName { .. }) => 4,
        Err(MigrateFailure::Depot) => 5,
        Err(MigrateFailure::Flash) => 6,
        Err(MigrateFailure::Sink) => 9,
        Err(MigrateFailure::OldTooSmall { .. }) => 10,
        Err(MigrateFailure::TooSmall { .. }) => 10,
        Err(MigrateFailure::NotAKey) => 11,
        Err(MigrateFailure::Damaged { .. }) => 13,
        Err(MigrateFailure::NotTheFile) => 16,
    }
}
