//! What the words of the program say.

ghost use Rattle.std.proofs.Props.{props};
ghost use Rattle.key_words.specs.Blocks.{IsFew, AreApart, AreBuffers, IsDrawn};

use crate::shown::ShownWord;
use arrayvec::ArrayVec;
use leakless_plan::Plan;
use thiserror::Error;

/// The most numbers of a pace.
pub const MAX_NUMBERS: usize = 16;

/// The most items of `--null`.
pub const MAX_ITEMS: usize = 32;

/// The words of `plain`.
#[derive(Clone, Copy)]
pub struct PlainWords<'a> {
    /// The file of the schema.
    pub schema: &'a str,

    /// The folder of the tables' files.
    pub tables: &'a str,

    /// The file of the script.
    pub script: &'a str,
}

/// The words of `load`.
#[derive(Clone, Copy)]
pub struct LoadWords<'a> {
    /// The file of the schema.
    pub schema: &'a str,

    /// The folder of the tables' files.
    pub tables: &'a str,

    /// The file of the flash.
    pub flash: &'a str,

    /// The host's file.
    pub visible: &'a str,

    /// How many blocks the flash is to have, from 1 to 60,000,000; where this is left out, as many as are needed.
    pub blocks: Option<u32>,
    pub ghost few: { IsFew blocks } by { Prim.hlevel props },
}

/// The words of `query`.
#[derive(Drop)]
pub struct QueryWords<'a> {
    /// The file of the flash.
    pub flash: &'a str,

    /// The address of the host.
    pub to: &'a str,

    /// The file of the script.
    pub script: &'a str,

    /// The plan by which each text is answered.
    pub plan: Plan,

    /// How many slices of work may come behind each frame of rows: numbers of 0 to 1000, taken round and round.
    pub pace: ArrayVec<u16, MAX_NUMBERS>,

    /// How many page buffers the key has, from 8 to 64.
    pub buffers: u32,
    pub ghost some_buffers: { AreBuffers buffers } by { Prim.hlevel props },
}

/// The words of `local`.
#[derive(Drop)]
pub struct LocalWords<'a> {
    /// The file of the schema.
    pub schema: &'a str,

    /// The folder of the tables' files.
    pub tables: &'a str,

    /// The file of the flash.
    pub flash: &'a str,

    /// The file of the script.
    pub script: &'a str,

    /// The file of the journal, where one is to be kept.
    pub journal: Option<&'a str>,

    /// The plan by which each text is answered.
    pub plan: Plan,

    /// How many slices of work may come behind each frame of rows: numbers of 0 to 1000, taken round and round.
    pub pace: ArrayVec<u16, MAX_NUMBERS>,

    /// How many page buffers the key has, from 8 to 64.
    pub buffers: u32,
    pub ghost some_buffers: { AreBuffers buffers } by { Prim.hlevel props },
}

/// The words of `audit`.
#[derive(Clone, Copy)]
pub struct AuditWords<'a> {
    /// The host's file, which begins with the catalog.
    pub visible: &'a str,

    /// The file of the script.
    pub script: &'a str,

    /// The file of the journal.
    pub journal: &'a str,
}

/// The words of `gen`.
#[derive(Drop)]
pub struct GenWords<'a> {
    /// The file of the flash.
    pub flash: &'a str,

    /// The number that the clinic is drawn from, below a thousand million.
    pub seed: u32,

    /// How many visits the clinic has, from 1 to 1,000,000.
    pub rows: u32,

    /// How many texts the script has, from 1 to 40.
    pub texts: u32,
    pub ghost drawn: { IsDrawn seed rows texts } by { Prim.hlevel props },

    /// The plan by which each text is answered.
    pub plan: Plan,

    /// How many slices of work may come behind each frame of rows: numbers of 0 to 1000, taken round and round.
    pub pace: ArrayVec<u16, MAX_NUMBERS>,

    /// How many page buffers the key has, from 8 to 64.
    pub buffers: u32,
    pub ghost some_buffers: { AreBuffers buffers } by { Prim.hlevel props },
}

/// The words of `migrate`.
#[derive(Drop)]
pub struct MigrateWords<'a> {
    /// The file of the flash that is read.
    pub flash: &'a str,

    /// The host's file that is read.
    pub visible: &'a str,

    /// The file of the new flash, which has another name.
    pub to_flash: &'a str,

    /// The new host's file, which has another name.
    pub to_visible: &'a str,
    pub ghost apart: { AreApart flash.now visible.now to_flash.now to_visible.now } by { Prim.hlevel props },

    /// The columns that may be NULL from now on, each as `table.column`: any texts, at most 32. None where they are left out.
    pub null: ArrayVec<&'a str, MAX_ITEMS>,

    /// How many blocks the new flash is to have, from 1 to 60,000,000; where this is left out, as many as are needed.
    pub blocks: Option<u32>,
    pub ghost few: { IsFew blocks } by { Prim.hlevel props },
}

/// A command with its words.
#[derive(Drop)]
pub enum KeyWords<'a> {
    /// Both ends in one process.
    Local(LocalWords<'a>),

    /// The plain answer, with no key and no channel.
    Plain(PlainWords<'a>),

    /// The making of both ends' files.
    Load(LoadWords<'a>),

    /// A session with a host.
    Query(QueryWords<'a>),

    /// The reading of a recorded channel.
    Audit(AuditWords<'a>),

    /// A session over a clinic that is drawn from a number.
    Gen(GenWords<'a>),

    /// The making of a new device and a new host's file from old ones.
    Migrate(MigrateWords<'a>),
}

/// What is wrong with the words.
#[derive(Clone, Copy, Debug, Drop, Error)]
pub enum UsageFault {
    /// They are not those of a command.
    #[error("these are not the words of a command")]
    Words,

    /// There is no command.
    #[error("no command is given")]
    NoCommand,

    /// This word stands where a command is to stand.
    #[error("{0} is no command")]
    NotACommand(ShownWord),

    /// This word is no option of the command, nor the value of one.
    #[error("{0} is no option here")]
    NotAnOption(ShownWord),

    /// The command needs this option.
    #[error("{0} is missing")]
    Missing(ShownWord),

    /// This option stands more than once.
    #[error("{0} is given twice")]
    Twice(ShownWord),

    /// This option has no value.
    #[error("{0} has no value")]
    NoValue(ShownWord),

    /// A word is not UTF-8.
    #[error("a word is not UTF-8")]
    NotUtf8,

    /// `--plan` has a value that it does not take.
    #[error("--plan takes auto, scan, pre, post, cross-pre or cross-post")]
    Plan,

    /// `--pace` has a value that it does not take.
    #[error("--pace takes 1 to 16 numbers from 0 to 1000, with commas between them")]
    Pace,

    /// `--buffers` has a value that it does not take.
    #[error("--buffers takes a number from 8 to 64")]
    Buffers,

    /// `--blocks` has a value that it does not take.
    #[error("--blocks takes a number from 1 to 60000000, of at most 9 digits")]
    Blocks,

    /// `--seed` has a value that it does not take.
    #[error("--seed takes a number of 1 to 9 digits")]
    Seed,

    /// `--rows` has a value that it does not take.
    #[error("--rows takes a number from 1 to 1000000, of at most 9 digits")]
    Rows,

    /// `--texts` has a value that it does not take.
    #[error("--texts takes a number from 1 to 40, of at most 9 digits")]
    Texts,

    /// `--to-flash` has the name that `--flash` has.
    #[error("--to-flash takes another name than --flash has")]
    ToFlash,

    /// `--to-visible` has the name that `--visible` has.
    #[error("--to-visible takes another name than --visible has")]
    ToVisible,

    /// `--null` has more items than it takes.
    #[error("--null takes 1 to 32 items table.column, with commas between them")]
    Null,
}

/// Why no command was read.
#[derive(Clone, Copy, Debug, Drop, Error)]
pub enum WordsFault {
    /// There was no memory.
    #[error("out of memory")]
    NoMemory,

    /// The words are refused.
    #[error("{0}")]
    Usage(UsageFault),
}
