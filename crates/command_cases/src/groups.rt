//! Named groups of lines.

use crate::cases::Cases;
use crate::texts::number_of;
use crate::turns::do_each;
use crate::words::first_of;
use std::alloc::{AllocError, Global};

/// A named group.
#[derive(Drop)]
struct Group {
    name: String,
    lines: Vec<String>,
}

/// The groups so far. A group has no line `with`: the lines of the other group stand in its place.
#[derive(Drop)]
pub struct Groups {
    alloc: Global,
    groups: Vec<Group>,
    is_open: bool,
}

/// The lines of the last group with that name.
fn lines_of<'a>(groups: &'a [Group], name: &str) -> Option<&'a [String]> {
    let mut found = None;
    for group in groups {
        if group.name.as_str() == name {
            found = Some(group.lines.as_slice());
        }
    }
    found
}

/// The lines that a line stands for: those of a group, or itself.
fn meant(alloc: Global, groups: &[Group], line: &str) -> Result<Vec<String>, AllocError> {
    let mut lines = Vec::new(alloc);
    let known = match first_of(line) {
        ("with", name) => lines_of(groups, name),
        _ => None,
    };
    match known {
        Some(known) => {
            for line in known {
                lines.push(String::from_str(alloc, line.as_str())?)?;
            }
        }
        None => lines.push(String::from_str(alloc, line)?)?,
    }
    Ok(lines)
}

impl Groups {
    /// No group.
    pub fn new(alloc: Global) -> Groups {
        Groups {
            alloc,
            groups: Vec::new(alloc),
            is_open: false,
        }
    }

    /// Begins a group, ends it, or keeps a line in one; answers whether the line was one of these.
    pub fn keep(&mut self, line: &str) -> Result<bool, AllocError> {
        if self.is_open {
            if line == "end" {
                self.is_open = false;
            } else {
                self.add(line)?;
            }
            return Ok(true);
        }
        match first_of(line) {
            ("set", name) => self.begin(name)?,
            _ => return Ok(false),
        }
        Ok(true)
    }

    /// Begins a group.
    fn begin(&mut self, name: &str) -> Result<(), AllocError> {
        let group = Group {
            name: String::from_str(self.alloc, name)?,
            lines: Vec::new(self.alloc),
        };
        self.groups.push(group)?;
        self.is_open = true;
        Ok(())
    }

    /// Adds what a line stands for to the last group.
    fn add(&mut self, line: &str) -> Result<(), AllocError> {
        let lines = meant(self.alloc, &self.groups, line)?;
        if let Some(group) = self.groups.last_mut() {
            for line in lines {
                group.lines.push(line)?;
            }
        }
        Ok(())
    }

    /// Does the lines of a group once for each number from one to another; answers whether there is such a group.
    fn turns(&self, words: &str, cases: &mut Cases) -> Result<bool, AllocError> {
        let (first, rest) = first_of(words);
        let (last, name) = first_of(rest);
        match lines_of(&self.groups, name) {
            None => Ok(false),
            Some(lines) => {
                do_each(
                    self.alloc,
                    lines,
                    (number_of(first), number_of(last)),
                    cases,
                )?;
                Ok(true)
            }
        }
    }

    /// Does each line that a line stands for.
    pub fn each(&self, line: &str, cases: &mut Cases) -> Result<(), AllocError> {
        if let ("each", words) = first_of(line) {
            if self.turns(words, cases)? {
                return Ok(());
            }
        }
        let lines = meant(self.alloc, &self.groups, line)?;
        for line in &lines {
            cases.read(line.as_str())?;
        }
        Ok(())
    }
}
