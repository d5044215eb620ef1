//! Sinks and depots, in memory and as they are.

use edge_real::dir_depot::DirDepot;
use edge_real::replaced::{NONE_REPLACED, Replaced};
use edge_real::std_sink::StdSink;
use edge_traits::depot::Depot;
use edge_traits::mem_depot::{MemDepot, Room};
use edge_traits::mem_sink::MemSink;
use edge_traits::reading::read_file;
use edge_traits::sink::Sink;
use edge_traits::writing::write_all;
use std::alloc::AllocError;
use std::cell::{Cell, RefCell};
use std::fmt::Display;
use std::fs::Permissions;
use std::io::{Error, ErrorKind};
use std::os::unix::fs::{PermissionsExt, symlink};
use std::{fs, io};

#[test]
fn a_sink_in_memory_takes_a_piece_within_its_room(rt: HostRuntime) -> Result<(), AllocError> {
    for (piece, most, fails, taken) in [
        ("abcdefgh", 3usize, 0u64, "abcdefgh"),
        ("abcdefghi", 3, 0, "abcdef"),
        ("abcdefgh", 3, 2, "abc"),
        ("abcdefgh", 0, 0, ""),
    ] {
        let mut sink = MemSink::new(rt.alloc(), 8, most, &[fails])?;
        let whole = write_all(&mut sink, piece.as_bytes()).is_ok();
        let kept = sink.bytes() == taken.as_bytes();
        assert!(rt; kept && whole == (piece == taken), "{taken}");
    }
    Ok(())
}

/// The room of a depot in memory.
const ROOM: Room = Room {
    files: 2,
    name_bytes: 4,
    file_bytes: 7,
};

#[test]
fn a_depot_in_memory_holds_files_within_its_room(rt: HostRuntime) -> Result<(), AllocError> {
    let mut depot = MemDepot::new(rt.alloc(), ROOM, &[])?;
    for (name, bytes, done, file) in [
        ("note", "12345678", false, ""),
        ("notes", "1", false, ""),
        ("note", "1234", true, "1234"),
        ("note", "5678", false, "1234"),
        ("note", "567", true, "1234567"),
        ("b", "1", true, "1"),
        ("c", "1", false, ""),
    ] {
        let appended = depot.append(name, bytes.as_bytes()).is_ok();
        let held = depot.file(name).unwrap_or(b"");
        assert!(rt; appended == done && held == file.as_bytes(), "{bytes}");
    }
    assert!(rt; depot.put("b", b"1234567"));
    for (name, limit, well) in [("b", 7usize, true), ("b", 6, false), ("c", 7, false)] {
        let whole = match read_file(rt.alloc(), &mut depot, name, limit) {
            Ok(bytes) => bytes.as_slice() == b"1234567".as_slice(),
            Err(_fault) => false,
        };
        assert!(rt; whole == well, "{name} {limit}");
    }
    Ok(())
}

/// Whether a file has that text from a place on, of which two bytes are read at most.
fn reads<D: Depot>(depot: &mut D, name: &str, at: u64, text: &str) -> bool {
    let mut buf = [0; 2];
    match depot.read_at(name, at, &mut buf) {
        Ok(count) => &buf[..count] == text.as_bytes(),
        Err(_) => false,
    }
}

/// Whether a file that is made and added to reads as it should, within it and at its end.
fn keeps_files<D: Depot>(depot: &mut D) -> bool {
    let replaced = depot.replace("note", b"12345").is_ok();
    let appended = depot.append("note", b"67").is_ok();
    let mut well = replaced && appended && !reads(depot, "none", 0, "");
    for (at, text) in [(0u64, "12"), (4, "56"), (6, "7"), (7, ""), (1_000_000, "")] {
        well = reads(depot, "note", at, text) && well;
    }
    well
}

#[test]
fn files_keep_what_they_are_given(rt: HostRuntime) -> Result<(), AllocError> {
    let mut depot = MemDepot::new(rt.alloc(), ROOM, &[])?;
    assert!(rt; keeps_files(&mut depot));
    let mut depot = DirDepot::new(rt.alloc(), &rt);
    assert!(rt; keeps_files(&mut depot));
    assert!(rt; depot.append("none/note", b"8").is_err());
    Ok(())
}

/// Whether a file has these bytes, and nothing stands beside it.
fn holds(rt: &HostRuntime, name: &str, bytes: &[u8]) -> bool {
    match fs::read(rt, name) {
        Ok(read) => read.as_slice() == bytes && !fs::exists(rt, "note.part").unwrap_or(true),
        Err(_) => false,
    }
}

#[test]
fn a_file_is_replaced_as_a_whole(rt: HostRuntime) {
    let mut depot = DirDepot::new(rt.alloc(), &rt);
    assert!(rt; depot.replace("note", b"12345").is_ok());
    assert!(rt; fs::set_permissions(&rt, "note", Permissions::from_mode(0o640)).is_ok());
    let mut reader = DirDepot::new(rt.alloc(), &rt);
    assert!(rt; reads(&mut reader, "note", 0, "12"));
    for link in ["link", "far"] {
        let to = if link == "link" { "note" } else { "new" };
        assert!(rt; symlink(&rt, to, link).is_ok());
        assert!(rt; depot.replace(link, b"6789").is_ok());
        assert!(rt; holds(&rt, to, b"6789"));
        match fs::symlink_metadata(&rt, link) {
            Ok(known) => assert!(rt; known.is_symlink()),
            Err(_) => assert!(rt; false),
        }
    }
    match fs::metadata(&rt, "note") {
        Ok(known) => assert!(rt; known.permissions().mode() & 0o777 == 0o640),
        Err(_) => assert!(rt; false),
    }
    assert!(rt; reads(&mut reader, "note", 2, "34"));
    assert!(rt; depot.replace("/dev/null", b"1").is_ok());
}

/// Whether this is told of reading `note` where a command is to replace these files, nothing where it is read; it stays in any case.
fn tells(rt: &HostRuntime, replaced: Replaced<'_>, line: &str) -> Result<bool, AllocError> {
    let mut depot = DirDepot::replacing(rt.alloc(), rt, replaced);
    let is_read = reads(&mut depot, "note", 0, "1");
    let is_told = match depot.first_fault() {
        Some(fault) => format!(in rt.alloc(); "{fault}")?.as_str() == line,
        None => line.is_empty(),
    };
    let stays = !fs::exists(rt, "new").unwrap_or(true) && holds(rt, "note", b"1");
    Ok(is_told && is_read == line.is_empty() && stays)
}

#[test]
fn no_file_is_read_that_is_to_be_replaced(rt: HostRuntime) -> Result<(), AllocError> {
    let _gone = fs::remove_file(&rt, "new");
    let mut depot = DirDepot::new(rt.alloc(), &rt);
    assert!(rt; depot.replace("note", b"1").is_ok());
    for (flash, visible, line) in [
        ("key", "new", ""),
        (
            "note",
            "new",
            "note would be written over by --flash: it stays; give --flash another name",
        ),
        (
            "key",
            "./note",
            "note would be written over by --visible: it stays; give --visible another name",
        ),
        (
            "new",
            "./new",
            "new would be written over by --visible: it stays; give --visible another name",
        ),
        (
            "new.part",
            "new",
            "new.part would be written over by --visible: it stays; give --visible another name",
        ),
        (
            "key",
            "none/new",
            "could not write none/new: its folder is not there",
        ),
        ("key", ".", "could not write .: it is a folder"),
    ] {
        let replaced = Replaced {
            flash,
            visible,
            ..NONE_REPLACED
        };
        assert!(rt; tells(&rt, replaced, line)?, "{line}");
    }
    Ok(())
}

#[test]
fn an_older_device_and_its_file_are_not_replaced(rt: HostRuntime) -> Result<(), AllocError> {
    let _gone = fs::remove_file(&rt, "new");
    let mut depot = DirDepot::new(rt.alloc(), &rt);
    assert!(rt; depot.replace("note", b"1").is_ok() && depot.replace("old", b"2").is_ok());
    for (to, link) in [("old", "to-old"), ("note", "to-note"), ("new", "to-new")] {
        assert!(rt; symlink(&rt, to, link).is_ok());
    }
    for (old_flash, flash, visible, line) in [
        ("old", "key", "new", ""),
        (
            "old",
            "to-old",
            "new",
            "old would be written over by --to-flash: it stays; give --to-flash another name",
        ),
        (
            "to-old",
            "key",
            "./old",
            "to-old would be written over by --to-visible: it stays; give --to-visible another name",
        ),
        (
            "old",
            "to-note",
            "new",
            "note would be written over by --to-flash: it stays; give --to-flash another name",
        ),
        (
            "old",
            "key",
            "to-note",
            "note would be written over by --to-visible: it stays; give --to-visible another name",
        ),
        (
            "old",
            "to-new",
            "new",
            "to-new would be written over by --to-visible: it stays; give --to-visible another name",
        ),
        (
            "old",
            "to-new",
            "./to-new",
            "to-new would be written over by --to-visible: it stays; give --to-visible another name",
        ),
        (
            "to-note",
            "key",
            "new",
            "could not read note: it is the device that --flash names; give --visible the host's file",
        ),
    ] {
        let replaced = Replaced {
            flash,
            visible,
            old_flash,
            ..NONE_REPLACED
        };
        assert!(rt; tells(&rt, replaced, line)?, "{line}");
        assert!(rt; holds(&rt, "old", b"2"), "{line}");
    }
    Ok(())
}

/// Keeps what is printed on it, a few bytes a call, and fails at one call.
#[derive(Drop)]
struct Paper {
    text: RefCell<Vec<u8>>,
    calls: Cell<u64>,
    fails: u64,
}

impl Print for Paper {
    fn print<D: Display + Drop>(&self, _value: D) -> io::Result<()> {
        Err(Error::from(ErrorKind::Unsupported))
    }

    fn println<D: Display + Drop>(&self, _value: D) -> io::Result<()> {
        Err(Error::from(ErrorKind::Unsupported))
    }

    fn write_all(&self, _bytes: &[u8]) -> io::Result<()> {
        Err(Error::from(ErrorKind::Unsupported))
    }

    fn write_some(&self, bytes: &[u8]) -> io::Result<usize> {
        self.calls.set(self.calls.get().saturating_add(1));
        if self.calls.get() == self.fails {
            return Err(Error::from(ErrorKind::BrokenPipe));
        }
        let count = bytes.len().min(4);
        match self.text.try_borrow_mut() {
            Ok(mut text) => match text.extend_from_slice(&bytes[..count]) {
                Ok(()) => Ok(count),
                Err(_) => Err(Error::from(ErrorKind::OutOfMemory)),
            },
            Err(_) => Err(Error::from(ErrorKind::Other)),
        }
    }
}

#[test]
fn rows_are_printed_with_the_next_other_line(rt: HostRuntime) -> Result<(), AllocError> {
    for (fails, well, printed) in [(9u64, true, "> 1\n= 1 1\n"), (2, false, "> 1\n")] {
        let paper = Paper {
            text: RefCell::new(Vec::new(rt.alloc())),
            calls: Cell::new(0),
            fails,
        };
        let mut sink = StdSink::new(rt.alloc(), &paper)?;
        let gathered = sink.write(b"> 1\n").is_ok() && paper.calls.get() == 0;
        assert!(rt; gathered && sink.write(b"= 1 1\n").is_ok() == well);
        match paper.text.try_borrow() {
            Ok(text) => assert!(rt; text.as_slice() == printed.as_bytes()),
            Err(_) => assert!(rt; false),
        }
    }
    Ok(())
}
