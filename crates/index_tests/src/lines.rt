//! What was read, as text.

use arrayvec::ArrayString;
use flash_pages::fault::PageFault;
use itoa::Buffer;

/// A line of what was read.
pub(crate) type Line = ArrayString<600>;

/// Puts a word behind others, where there is room.
pub(crate) fn put(line: &mut Line, word: &str) {
    let _ = line.try_push_str(word);
}

/// Puts a number there.
pub(crate) fn put_number(line: &mut Line, number: u64) {
    let mut buffer = Buffer::new();
    put(line, buffer.format(number));
}

/// Puts the page and the slot of a fault there, and what stands in it.
pub(crate) fn put_fault(line: &mut Line, fault: PageFault) {
    match fault {
        PageFault::Flash => put(line, "flash"),
        PageFault::Damaged { page, slot, found } => {
            put(line, "!");
            put_number(line, u64::from(page));
            put(line, ".");
            put_number(line, u64::from(slot));
            put(line, "=");
            put_number(line, found);
        }
    }
}
