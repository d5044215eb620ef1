//! Flash devices, in memory and in a file.

use crate::no_writes::NoWrites;
use edge_real::dir_depot::DirDepot;
use edge_real::file_fault::FileFault;
use edge_real::file_flash::FileFlash;
use edge_traits::depot::Depot;
use edge_traits::flash::{AttachFault, Flash};
use edge_traits::mem_flash::MemFlash;
use std::alloc::{AllocError, Global};
use std::fs;
use std::io::ErrorKind;

/// Makes a device of two blocks, writes three pages of it and erases the second of them.
fn write<F: Flash>(alloc: Global, flash: &mut F) -> Result<(), AttachFault> {
    flash.make(alloc, "key", 2)?;
    flash.write_page(64, &[7; 2048])?;
    flash.write_page(0, &[8; 2048])?;
    flash.erase_block(1)?;
    flash.write_page(127, &[9; 2048])?;
    Ok(())
}

/// Whether a device attached has what was so written.
fn has_what_was_written<F: Flash>(alloc: Global, flash: &mut F) -> Result<bool, AttachFault> {
    let pages = flash.attach(alloc, "key")?;
    let mut well = pages == 128;
    let mut page = [0; 2048];
    for (number, byte) in [(0u32, 8u8), (1, 0xFF), (64, 0xFF), (127, 9)] {
        if number < flash.pages() {
            flash.read_page(number, &mut page)?;
        }
        well = well && page.iter().all(|b| *b == byte);
    }
    Ok(well)
}

#[test]
fn a_device_keeps_its_pages(rt: HostRuntime) -> Result<(), AttachFault> {
    let _gone = fs::remove_file(&rt, "key");
    let mut flash = MemFlash::new(rt.alloc(), 2, &[])?;
    write(rt.alloc(), &mut flash)?;
    assert!(rt; has_what_was_written(rt.alloc(), &mut flash)?);
    let mut flash = FileFlash::new(rt.alloc(), &rt);
    write(rt.alloc(), &mut flash)?;
    drop(flash);
    let mut other = FileFlash::new(rt.alloc(), &rt);
    assert!(rt; has_what_was_written(rt.alloc(), &mut other)?);
    Ok(())
}

/// Whether a device that was made, and written on, has no page of another name's, and that one stays as it was.
fn has_others_apart<F: Flash>(alloc: Global, flash: &mut F) -> Result<bool, AttachFault> {
    write(alloc, flash)?;
    flash.make(alloc, "other", 1)?;
    flash.write_page(63, &[5; 2048])?;
    if !has_what_was_written(alloc, flash)? {
        return Ok(false);
    }
    let pages = flash.attach(alloc, "other")?;
    let mut page = [0; 2048];
    let mut well = pages == 64;
    for (number, byte) in [(0u32, 0xFFu8), (63, 5)] {
        if number < flash.pages() {
            flash.read_page(number, &mut page)?;
        }
        well = well && page.iter().all(|b| *b == byte);
    }
    Ok(well)
}

#[test]
fn devices_are_told_apart_by_their_names(rt: HostRuntime) -> Result<(), AttachFault> {
    for name in ["key", "other"] {
        let _gone = fs::remove_file(&rt, name);
    }
    let mut flash = MemFlash::new(rt.alloc(), 2, &[])?;
    assert!(rt; has_others_apart(rt.alloc(), &mut flash)?);
    assert!(rt; flash.attach(rt.alloc(), "none")? == 0);
    assert!(rt; has_what_was_written(rt.alloc(), &mut flash)?);
    flash.make(rt.alloc(), "other", 2)?;
    assert!(rt; flash.pages() == 128 && has_what_was_written(rt.alloc(), &mut flash)?);
    let mut flash = FileFlash::new(rt.alloc(), &rt);
    assert!(rt; has_others_apart(rt.alloc(), &mut flash)?);
    Ok(())
}

#[test]
fn reads_are_deep_from_page_256_on(rt: HostRuntime) -> Result<(), AttachFault> {
    let mut flash = MemFlash::new(rt.alloc(), 5, &[])?;
    flash.make(rt.alloc(), "key", 5)?;
    let mut page = [0; 2048];
    for (number, deep) in [(0u32, 0u64), (64, 0), (255, 0), (256, 1), (319, 2)] {
        if number < flash.pages() {
            flash.read_page(number, &mut page)?;
        }
        assert!(rt; flash.deep_reads() == deep, "{number}");
    }
    Ok(())
}

/// Whether this is what is told of the first call that failed.
fn tells(alloc: Global, fault: Option<FileFault>, line: &str) -> Result<bool, AllocError> {
    match fault {
        Some(fault) => Ok(format!(in alloc; "{fault}")?.as_str() == line),
        None => Ok(false),
    }
}

#[test]
fn a_device_in_use_is_refused_and_stays(rt: HostRuntime) -> Result<(), AttachFault> {
    let mut flash = FileFlash::new(rt.alloc(), &rt);
    write(rt.alloc(), &mut flash)?;
    let mut other = FileFlash::new(rt.alloc(), &rt);
    assert!(rt; other.attach(rt.alloc(), "key").is_err());
    assert!(rt; other.make(rt.alloc(), "key", 1).is_err());
    let line =
        "key is in use by another key_program: nothing was read or written; wait until that has ended";
    assert!(rt; tells(rt.alloc(), other.first_fault(), line)?);
    assert!(rt; flash.make(rt.alloc(), "another", 1).is_ok());
    assert!(rt; has_what_was_written(rt.alloc(), &mut other)?);
    Ok(())
}

/// What stands in a file where a device is to be made: these bytes, so many of them 0xFF behind them, and these.
#[derive(Drop)]
struct Standing<'a> {
    front: &'a [u8],
    blank: usize,
    back: &'a [u8],
}

/// Puts that into a file.
fn put(rt: &HostRuntime, name: &str, standing: &Standing<'_>) -> Result<bool, AllocError> {
    let mut bytes = standing.front.to_vec(rt.alloc())?;
    for _ in 0..standing.blank {
        bytes.push(0xFF)?;
    }
    bytes.extend_from_slice(standing.back)?;
    Ok(DirDepot::new(rt.alloc(), rt).replace(name, &bytes).is_ok())
}

#[test]
fn a_file_that_is_no_device_is_not_made_one(rt: HostRuntime) -> Result<(), AttachFault> {
    for (front, blank, back, made) in [
        (b"".as_slice(), 0usize, b"".as_slice(), true),
        (b"", 300, b"", true),
        (b"", 2048, b"1", true),
        (b"GHOSTDB", 131_065, b"", true),
        (b"GHOSTDB", 131_066, b"", false),
        (b"GHOSTDB", 0, b"", false),
        (b"", 300, b"1", false),
        (b"CREATE TABLE", 131_060, b"", false),
    ] {
        let len = front.len() as u64 + blank as u64 + back.len() as u64;
        let standing = Standing { front, blank, back };
        assert!(rt; put(&rt, "key", &standing)?);
        let mut flash = FileFlash::new(rt.alloc(), &rt);
        assert!(rt; flash.make(rt.alloc(), "key", 2).is_ok() == made, "{len}");
        let left = match fs::metadata(&rt, "key") {
            Ok(known) => known.len(),
            Err(_) => 0,
        };
        assert!(rt; left == if made { 262_144 } else { len }, "{len} {left}");
    }
    Ok(())
}

#[test]
fn what_fails_on_a_device_has_its_line(rt: HostRuntime) -> Result<(), AllocError> {
    assert!(rt;
        put(
            &rt,
            "list",
            &Standing {
                front: b"1,2",
                blank: 0,
                back: b""
            }
        )?
    );
    for (name, makes, line) in [
        (
            "list",
            true,
            "could not make list: a file of 3 bytes stands there that is no device, and stays; remove it, or give another name",
        ),
        (
            "list",
            false,
            "could not open list: it has 3 bytes, and is no device of whole blocks; give the name that key_program load was given",
        ),
        ("none", false, "could not open none: it is not there"),
        (
            "none/key",
            true,
            "could not make none/key: its folder is not there",
        ),
        (".", true, "could not make .: it is a folder"),
        (".", false, "could not open .: it is a folder"),
        (
            "/dev/null",
            true,
            "could not make /dev/null: what stands there is a pipe or a device of the system, and no file; give another name",
        ),
    ] {
        let mut flash = FileFlash::new(rt.alloc(), &rt);
        let well = if makes {
            flash.make(rt.alloc(), name, 1).is_ok()
        } else {
            flash.attach(rt.alloc(), name).is_ok()
        };
        assert!(rt;
            !well && tells(rt.alloc(), flash.first_fault(), line)?,
            "{line}"
        );
    }
    Ok(())
}

#[test]
fn a_missing_right_and_a_full_disk_have_their_lines(rt: HostRuntime) -> Result<(), AllocError> {
    let _gone = fs::remove_file(&rt, "key");
    assert!(rt;
        put(
            &rt,
            "list",
            &Standing {
                front: b"",
                blank: 1,
                back: b""
            }
        )?
    );
    for (kind, name, makes, line) in [
        (
            ErrorKind::PermissionDenied,
            "list",
            false,
            "could not open list: it may be read and not written, and a session writes in it; give the right to write it",
        ),
        (
            ErrorKind::PermissionDenied,
            "list",
            true,
            "could not make list: it may not be written; give the right to write it, or another name",
        ),
        (
            ErrorKind::PermissionDenied,
            "key",
            true,
            "could not make key: its folder may not be written in; give the right to, or another name",
        ),
        (
            ErrorKind::StorageFull,
            "key",
            true,
            "could not make key: there is no room; make some, or give a name in another file system",
        ),
        (
            ErrorKind::ReadOnlyFilesystem,
            "key",
            true,
            "could not make key: its file system can only be read; give a name in another",
        ),
    ] {
        let mut flash = FileFlash::new(rt.alloc(), NoWrites { files: &rt, kind });
        let well = if makes {
            flash.make(rt.alloc(), name, 1).is_ok()
        } else {
            flash.attach(rt.alloc(), name).is_ok()
        };
        assert!(rt;
            !well && tells(rt.alloc(), flash.first_fault(), line)?,
            "{line}"
        );
    }
    Ok(())
}

#[test]
fn a_file_that_is_missing_or_no_whole_blocks_is_no_device(rt: HostRuntime) {
    let mut depot = DirDepot::new(rt.alloc(), &rt);
    assert!(rt; depot.replace("key", b"1").is_ok());
    for name in ["key", "none"] {
        let mut flash = FileFlash::new(rt.alloc(), &rt);
        assert!(rt; flash.attach(rt.alloc(), name).is_err(), "{name}");
    }
}

#[test]
fn a_device_in_memory_fails_past_its_room_and_writes_half_a_page(
    rt: HostRuntime,
) -> Result<(), AttachFault> {
    let mut flash = MemFlash::new(rt.alloc(), 1, &[3])?;
    assert!(rt; flash.make(rt.alloc(), "key", 2).is_err());
    flash.make(rt.alloc(), "key", 1)?;
    assert!(rt; flash.write_page(3, &[7; 2048]).is_err());
    match flash.page(3) {
        Some(page) => assert!(rt; page[1023] == 7 && page[1024] == 0xFF),
        None => assert!(rt; false),
    }
    Ok(())
}
