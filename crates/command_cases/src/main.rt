//! Cases of both programs as data: it reads directives on standard input, makes the programs' calls over objects in memory,
//! and prints what came of them.
//!
//! A directive is one line. A text has the escapes \n \t \r \\ \xHH, and words are cut at single spaces.
//!
//! | Line | What it does |
//! |---|---|
//! | `# TEXT` | a heading, printed as it is |
//! | `set NAME` | begins a named group of lines, up to a line `end`, which are not done now |
//! | `with NAME` | does the lines of a group |
//! | `each FIRST LAST NAME` | does the lines of a group once for each number from one to another, with the number for `{}` and as in `rows`; prints `-- FIRST to LAST` for the numbers in a row that came to the same, and what they came to |
//! | `case NAME` | begins anew: no file, a blank flash with room for 21 blocks, a host that says nothing; prints `== NAME` |
//! | `file NAME` | the file of the lines below that begin with a bar, without it |
//! | `bytes NAME TEXT` | the file of these bytes |
//! | `repeat NAME N TEXT` | puts a text so many times behind what a file has |
//! | `rows NAME FIRST LAST TEXT` | puts a line for each of these numbers behind what a file has; in it `{}` stands for the number, and `{A%M+B}` for the remainder of the number and A by M, and B more |
//! | `blocks N` | a blank flash with room for so many blocks |
//! | `room N` | each flash may be made with so many blocks from now on; those that were made stay |
//! | `open NAME` | the flash of that name is at hand, by no call that is counted |
//! | `page N TEXT` | a page of these bytes, and then bytes 0xFF; a flash that was not made is made with all its room |
//! | `slot PAGE N TEXT` | puts bytes into the slot of this number, from 0, of a page whose slots are so wide; its others stay |
//! | `fail OBJECT N N ..` | counts the calls of the depot, flash, link or out anew, and lets these fail, from 1 |
//! | `say TEXT` | the other end of the link says these bytes more |
//! | `say-file NAME` | the other end of the link says the bytes of a file more |
//! | `cut N N ..` | its bytes come in pieces of these sizes |
//! | `drip` | all its bytes come one at a time |
//! | `port N` | the port that a listening gets |
//! | `also WORDS` | puts these words behind those of each further `key query` of the case |
//! | `again` | begins anew, but leaves files and flash |
//! | `do WORDS` | makes the call of `key` or `host`; prints the words, what was printed, the exit code, and what is told of it |
//! | `do-quiet WORDS` | the same, but leaves out what was printed |
//! | `do-brief WORDS` | the same, but leaves out the middle of each long run of rows |
//! | `calls` | prints how many calls of each object were made, and how many reads of the flash were deep |
//! | `show NAME`, `size NAME` | prints a file, or how many bytes it has |
//! | `same NAME NAME` | prints whether two files are there and have the same bytes |
//! | `beside NAME OTHER` | prints how many of the first lines of the other file are those of the one, and its lines behind these |
//! | `pages` | prints how many pages the flash has, and those that are not blank, up to their last byte that is not 0xFF |
//! | `pages-to NAME` | the file of the lines of `pages` |
//! | `moves`, `moves-count` | prints the moves of the link, or how many they are |
//! | `order` | prints how many moves and writes of the last call of `key` came after one another |
//! | `moves-to NAME` | the file of the moves of the link |
//! | `lines-to NAME` | the file of what was printed by the last call |
//! | `taken-to NAME JOURNAL` | the file of all bytes that were taken by the moves of a journal |
//!
//! An empty line is passed over; any other is printed behind a `?`.
#![tactic(auto)]

mod bench;
mod cases;
mod groups;
mod moves;
mod order;
mod pages;
mod rows;
mod texts;
mod turns;
mod words;

use cases::Cases;
use groups::Groups;
use std::io::{self, BufRead, BufReader, Write};

/// Reads the directives to the end of the input.
fn main(rt: HostRuntime) -> io::Result<()> {
    let mut groups = Groups::new(rt.alloc());
    let mut cases = Cases::new(rt.alloc())?;
    for line in BufReader::new(rt.alloc(), rt.reader())?.lines(rt.alloc()) {
        let line = line?;
        if !groups.keep(&line)? {
            groups.each(&line, &mut cases)?;
        }
        io::writer(&rt).write_all(cases.printed())?;
        cases.forget();
    }
    Ok(())
}
