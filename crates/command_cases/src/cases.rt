//! The directives, one by one.

use crate::bench::Bench;
use crate::moves::{put_count, put_moves, taken_in};
use crate::order::put_order;
use crate::pages::put_pages;
use crate::rows::{put_brief, rows_of};
use crate::texts::{behind_common, bytes_of, number_of, put, put_lines, put_raw};
use crate::words::{Directive, directive_of, first_of};
use std::alloc::{AllocError, Global};

/// The objects, the file whose lines come, the words behind those of each query, and what is to be printed.
#[derive(Drop)]
pub struct Cases {
    alloc: Global,
    bench: Bench,
    file: String,
    also: String,
    page: Vec<u8>,
}

impl Cases {
    /// Before the first line.
    pub fn new(alloc: Global) -> Result<Cases, AllocError> {
        Ok(Cases {
            alloc,
            bench: Bench::new(alloc)?,
            file: String::new(alloc),
            also: String::new(alloc),
            page: Vec::new(alloc),
        })
    }

    /// What is to be printed.
    pub fn printed(&self) -> &[u8] {
        &self.page
    }

    /// Forgets what was printed.
    pub fn forget(&mut self) {
        self.page.clear();
    }

    /// Tells what came of a turn, behind a line of its own.
    pub fn tell_turn(&mut self, line: &str, came: &[u8]) -> Result<(), AllocError> {
        put(&mut self.page, line)?;
        self.page.extend_from_slice(came)
    }

    /// Does what a line says.
    pub fn read(&mut self, line: &str) -> Result<(), AllocError> {
        if line.is_empty() {
            return Ok(());
        }
        let known = match line.strip_prefix("|") {
            Some(text) => self.add_line(text)?,
            None => self.direct(line)?,
        };
        if known {
            return Ok(());
        }
        put(&mut self.page, "? ")?;
        self.put_line(line)
    }

    /// Adds a line to what is to be printed.
    fn put_line(&mut self, line: &str) -> Result<(), AllocError> {
        put(&mut self.page, line)?;
        put(&mut self.page, "\n")
    }

    /// Does what a line with a first word says; answers whether it says anything.
    fn direct(&mut self, line: &str) -> Result<bool, AllocError> {
        let (word, rest) = first_of(line);
        let Some(directive) = directive_of(word) else {
            return Ok(false);
        };
        match directive {
            Directive::Heading => {
                self.put_line(line)?;
                Ok(true)
            }
            Directive::Case => self.begin(rest),
            Directive::Also => {
                self.also = format!(in self.alloc; " {rest}")?;
                Ok(true)
            }
            Directive::Again => {
                self.bench.again()?;
                Ok(true)
            }
            Directive::Do | Directive::DoQuiet | Directive::DoBrief => self.call(directive, rest),
            Directive::File | Directive::Bytes => self.put_file(directive, rest),
            Directive::Repeat | Directive::Rows => self.add_rows(directive, rest),
            Directive::Blocks
            | Directive::Room
            | Directive::Open
            | Directive::Page
            | Directive::Slot
            | Directive::Fail => self.arrange(directive, rest),
            Directive::Say
            | Directive::SayFile
            | Directive::Cut
            | Directive::Drip
            | Directive::Port => self.speak(directive, rest),
            Directive::MovesTo => self.put_told(rest),
            Directive::PagesTo => self.keep_pages(rest),
            Directive::LinesTo => Ok(self.bench.depot.put(rest, self.bench.out.bytes())),
            Directive::TakenTo => self.put_taken(rest),
            _ => self.tell(directive, rest),
        }
    }

    /// Begins anew.
    fn begin(&mut self, name: &str) -> Result<bool, AllocError> {
        self.bench = Bench::new(self.alloc)?;
        self.also = String::new(self.alloc);
        put(&mut self.page, "== ")?;
        self.put_line(name)?;
        Ok(true)
    }

    /// Adds a line to the file that was named last.
    fn add_line(&mut self, text: &str) -> Result<bool, AllocError> {
        let line = format!(in self.alloc; "{text}\n")?;
        self.bench.add(&self.file, 1, line.as_bytes())
    }

    /// Puts a file: with no bytes yet, or with these.
    fn put_file(&mut self, directive: Directive, rest: &str) -> Result<bool, AllocError> {
        let (name, text) = first_of(rest);
        match directive {
            Directive::File => {
                self.file = String::from_str(self.alloc, name)?;
                Ok(self.bench.depot.put(name, b""))
            }
            _ => {
                let bytes = bytes_of(self.alloc, text)?;
                Ok(self.bench.depot.put(name, &bytes))
            }
        }
    }

    /// Adds to a file: a text so many times, or a row for each number from one to another.
    fn add_rows(&mut self, directive: Directive, rest: &str) -> Result<bool, AllocError> {
        let (name, rest) = first_of(rest);
        let (number, text) = first_of(rest);
        let number = number_of(number);
        match directive {
            Directive::Repeat => {
                let bytes = bytes_of(self.alloc, text)?;
                self.bench.add(name, number, &bytes)
            }
            _ => {
                let (last, text) = first_of(text);
                let rows = rows_of(self.alloc, (number, number_of(last)), text)?;
                self.bench.add(name, 1, &rows)
            }
        }
    }

    /// Arranges the flash, or the calls that fail.
    fn arrange(&mut self, directive: Directive, rest: &str) -> Result<bool, AllocError> {
        let (word, text) = first_of(rest);
        match directive {
            Directive::Blocks => self.bench.blocks(number_of(word)),
            Directive::Room => Ok(self.bench.room(number_of(word))),
            Directive::Open => self.bench.open(word),
            Directive::Page => {
                let bytes = bytes_of(self.alloc, text)?;
                Ok(self.bench.page(number_of(word), &bytes))
            }
            Directive::Slot => {
                let (slot, text) = first_of(text);
                let bytes = bytes_of(self.alloc, text)?;
                Ok(self.bench.slot(number_of(word), number_of(slot), &bytes))
            }
            _ => self.bench.fail(word, text),
        }
    }

    /// Arranges the other end of the link.
    fn speak(&mut self, directive: Directive, rest: &str) -> Result<bool, AllocError> {
        match directive {
            Directive::Say => self.bench.say(rest)?,
            Directive::SayFile => return self.bench.say_file(rest),
            Directive::Cut => self.bench.cut(rest)?,
            Directive::Drip => self.bench.drip()?,
            _ => return self.bench.port(number_of(rest)),
        }
        Ok(true)
    }

    /// The words of a call, with those that stand behind each query.
    fn words_of(&self, line: &str) -> Result<String, AllocError> {
        if line.strip_prefix("key query ").is_none() {
            return String::from_str(self.alloc, line);
        }
        let also = self.also.as_str();
        format!(in self.alloc; "{line}{also}")
    }

    /// Makes a call, and tells what came of it.
    fn call(&mut self, directive: Directive, line: &str) -> Result<bool, AllocError> {
        let line = self.words_of(line)?;
        let Some(came) = self.bench.call(&line)? else {
            return Ok(false);
        };
        put(&mut self.page, "$ ")?;
        self.put_line(&line)?;
        match directive {
            Directive::Do => put_raw(&mut self.page, self.bench.out.bytes())?,
            Directive::DoBrief => put_brief(self.alloc, &mut self.page, self.bench.out.bytes())?,
            _ => {}
        }
        let code = came.code;
        put(&mut self.page, &format!(in self.alloc; "status {code}\n")?)?;
        if code != 0 {
            put(&mut self.page, "told ")?;
            self.put_line(&came.line)?;
        }
        Ok(true)
    }

    /// Tells of the objects.
    fn tell(&mut self, directive: Directive, rest: &str) -> Result<bool, AllocError> {
        match directive {
            Directive::Calls => self.put_calls()?,
            Directive::Show => self.show(rest)?,
            Directive::Size => self.put_size(rest)?,
            Directive::Same => self.compare(rest)?,
            Directive::Beside => self.set_beside(rest)?,
            Directive::Order => {
                let (before, writes) = &self.bench.order;
                put_order(self.alloc, &mut self.page, before, *writes)?;
            }
            Directive::Pages => put_pages(self.alloc, &mut self.page, &self.bench.flash)?,
            _ => match self.bench.link.journal() {
                None => put(&mut self.page, "? moves\n")?,
                Some(journal) => match directive {
                    Directive::Moves => put_moves(self.alloc, &mut self.page, &journal)?,
                    _ => put_count(self.alloc, &mut self.page, &journal)?,
                },
            },
        }
        Ok(true)
    }

    /// Puts the file of the moves of the link; answers whether they are told and there was room.
    fn put_told(&mut self, name: &str) -> Result<bool, AllocError> {
        let Some(journal) = self.bench.link.journal() else {
            return Ok(false);
        };
        let mut lines = Vec::new(self.alloc);
        put_moves(self.alloc, &mut lines, &journal)?;
        Ok(self.bench.depot.put(name, &lines))
    }

    /// Puts the file of the lines of the pages of the flash; answers whether there was room.
    fn keep_pages(&mut self, name: &str) -> Result<bool, AllocError> {
        let mut lines = Vec::new(self.alloc);
        put_pages(self.alloc, &mut lines, &self.bench.flash)?;
        Ok(self.bench.depot.put(name, &lines))
    }

    /// Puts the file of all bytes that were taken by the moves of a journal; answers whether there is one, and was room.
    fn put_taken(&mut self, names: &str) -> Result<bool, AllocError> {
        let (name, journal) = first_of(names);
        let Some(lines) = self.bench.depot.file(journal) else {
            return Ok(false);
        };
        let taken = taken_in(self.alloc, lines)?;
        Ok(self.bench.depot.put(name, &taken))
    }

    /// Tells how many calls of each object were made.
    fn put_calls(&mut self) -> Result<(), AllocError> {
        let depot = self.bench.depot.script.calls;
        let flash = self.bench.flash.script.calls;
        let link = self.bench.link.script.calls;
        let out = self.bench.out.script.calls;
        let deep = self.bench.deep_reads();
        let line = format!(in self.alloc;
            "calls depot {depot} flash {flash} link {link} out {out} deep {deep}\n"
        )?;
        put(&mut self.page, &line)
    }

    /// Shows a file.
    fn show(&mut self, name: &str) -> Result<(), AllocError> {
        put(&mut self.page, name)?;
        match self.bench.depot.file(name) {
            None => put(&mut self.page, ": none\n"),
            Some(bytes) => {
                put(&mut self.page, ":\n")?;
                put_lines(&mut self.page, bytes)
            }
        }
    }

    /// Tells how many bytes a file has.
    fn put_size(&mut self, name: &str) -> Result<(), AllocError> {
        let line = match self.bench.depot.file(name) {
            None => format!(in self.alloc; "{name}: none\n")?,
            Some(bytes) => {
                let count = bytes.len();
                format!(in self.alloc; "{name} has {count} bytes\n")?
            }
        };
        put(&mut self.page, &line)
    }

    /// Tells how many of the first lines of a file are those of another, and its lines behind these.
    fn set_beside(&mut self, names: &str) -> Result<(), AllocError> {
        let (one, other) = first_of(names);
        match (self.bench.depot.file(one), self.bench.depot.file(other)) {
            (Some(first), Some(second)) => {
                let (count, rest) = behind_common(first, second);
                let line = format!(in self.alloc; "{other}: {count} lines as in {one}\n")?;
                put(&mut self.page, &line)?;
                put_lines(&mut self.page, rest)
            }
            _ => put(&mut self.page, "? beside\n"),
        }
    }

    /// Tells whether two files are there and have the same bytes.
    fn compare(&mut self, names: &str) -> Result<(), AllocError> {
        let (one, other) = first_of(names);
        let equal = match (self.bench.depot.file(one), self.bench.depot.file(other)) {
            (Some(first), Some(second)) => first == second,
            _ => false,
        };
        let word = if equal { "are the same" } else { "differ" };
        put(
            &mut self.page,
            &format!(in self.alloc; "{one} and {other} {word}\n")?,
        )
    }
}
