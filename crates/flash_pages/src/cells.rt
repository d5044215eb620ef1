//! Records in a page, and numbers in a record.

ghost use Rattle.std.specs.Prelude.{◌≡◌, ◌<◌, ◌≤◌, ◌+◌, ◌*◌, ◌/◌, ◌^◌, drop, length};
ghost use Rattle.ghost_model.specs.forms.Runs.{cell_in, number_in, found_in};

/// The record in a slot of a page.
pub fn cell_of(bytes: &[u8; 2048], width: u32, slot: u32) -> &[u8]
    requires { slot * width + width ≤ 2048 }
    ensures cell { result.now ≡ cell_in bytes.now width slot }
    ensures width { length result.now ≡ width }
{
    let at = (slot * width) as usize;
    &bytes[at..at + width as usize]
}

/// The number in four bytes at an offset, most significant first.
pub fn number_at(bytes: &[u8], at: usize) -> u32
    requires { at + 4 ≤ length bytes.now }
    ensures { result ≡ number_in bytes.now at }
{
    let mut number = [0; 4];
    number.copy_from_slice(&bytes[at..at + 4]);
    u32::from_be_bytes(number)
}

/// The first eight bytes of a record as a number, most significant first, with bytes 0 after a shorter one.
pub fn found_of(cell: &[u8]) -> u64
    ensures found { result ≡ found_in cell.now }
    ensures begins { 4 ≤ length cell.now → result / 2 ^ 32 ≡ number_in cell.now 0 }
{
    let count = cell.len().min(8);
    let mut bytes = [0; 8];
    bytes[..count].copy_from_slice(&cell[..count]);
    u64::from_be_bytes(bytes)
}

/// The same of the bytes of a page from an offset on.
pub fn found_from(bytes: &[u8; 2048], slot: u32) -> u64
    requires inside { slot ≤ 2048 }
    ensures { result ≡ found_in (drop slot bytes.now) }
{
    found_of(&bytes[slot as usize..])
}
