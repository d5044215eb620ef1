//! Numbers between other bytes, behind what a file has already.

ghost use Rattle.std.specs.Prelude.{◌≡◌, ◌++◌, decimal, OnOk};

use itoa::Buffer;
use std::alloc::AllocError;

/// Puts a number in decimal at a file's end, with bytes before it and behind it.
pub(crate) fn put(
    file: &mut Vec<u8>,
    before: &[u8],
    number: u64,
    behind: &[u8],
) -> Result<(), AllocError>
    ensures text { OnOk result (file.new.items ≡ file.old.items ++ (before.now ++ (decimal number ++ behind.now))) }
{
    let mut digits = Buffer::new();
    file.extend_from_slice(before)?;
    file.extend_from_slice(digits.format(number).as_bytes())?;
    file.extend_from_slice(behind)
}
