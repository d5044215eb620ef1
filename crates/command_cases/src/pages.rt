//! The pages of a flash as lines.

use crate::texts::{put, put_text};
use edge_traits::mem_flash::MemFlash;
use std::alloc::{AllocError, Global};

/// A page that is blank.
const BLANK: [u8; 2048] = [0xFF; 2048];

/// How many pages a flash has.
fn count_of(flash: &MemFlash) -> u32 {
    let most = flash.room.saturating_mul(64);
    for page in 0..most {
        if flash.page(page).is_none() {
            return page;
        }
    }
    most
}

/// A page up to its last byte that is not 0xFF.
fn front_of(page: &[u8; 2048]) -> &[u8] {
    if *page == BLANK {
        return &[];
    }
    match page.iter().rposition(|byte| *byte != 0xFF) {
        Some(last) => &page[..last + 1],
        None => &[],
    }
}

/// Adds how many pages there are, and each that is not blank.
pub fn put_pages(alloc: Global, page: &mut Vec<u8>, flash: &MemFlash) -> Result<(), AllocError> {
    let count = count_of(flash);
    put(page, &format!(in alloc; "flash has {count} pages\n")?)?;
    for number in 0..count {
        let front = match flash.page(number) {
            Some(bytes) => front_of(bytes),
            None => &[],
        };
        if !front.is_empty() {
            put(page, &format!(in alloc; "page {number} ")?)?;
            put_text(page, front)?;
            put(page, "\n")?;
        }
    }
    Ok(())
}
