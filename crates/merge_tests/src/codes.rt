//! Lists of identifiers as codes.
//!
//! The codes are made by a plain encoder of these tests, beside that of the product, and written as numbers of four bytes each.

ghost use Rattle.std.specs.Prelude.{◌≡◌, ◌≤◌};
ghost use Rattle.ghost_base.specs.Runs.{run_of};
ghost use Rattle.edge_traits.specs.Devices.{Device};
ghost use Rattle.flash_pages.specs.Runs.{HasRun};

use ghost_base::runs::Run;
use std::alloc::{AllocError, Global};

/// The bytes of a page.
const PAGE: usize = 2048;

/// Lists as codes, one behind another.
#[derive(Drop)]
pub struct Codes {
    /// The bytes of all lists.
    bytes: Vec<u8>,
}

/// The code of a number, in as many of three bytes as are told.
fn code_of(number: u32) -> ([u8; 3], usize)
    ensures short { result.1 ≤ 3 }
{
    let low = (number % 128) as u8;
    let middle = (number / 128 % 128) as u8;
    let high = (number / 16384 % 128) as u8;
    if number < 128 {
        ([low, 0, 0], 1)
    } else if number < 16384 {
        ([middle | 128, low, 0], 2)
    } else {
        ([high | 128, middle | 128, low], 3)
    }
}

impl Codes {
    /// No list.
    pub fn none(alloc: Global) -> Codes {
        Codes {
            bytes: Vec::new(alloc),
        }
    }

    /// Adds a byte.
    fn put(&mut self, byte: u8) -> Result<(), AllocError> {
        match self.bytes.push(byte) {
            Ok(()) => Ok(()),
            Err(_) => Err(AllocError),
        }
    }

    /// Adds a code, behind filling where the rest of the page is too short for it, and answers where it begins.
    fn put_code(&mut self, number: u32) -> Result<u32, AllocError> {
        let (code, size) = code_of(number);
        let left = PAGE - self.bytes.len() % PAGE;
        if left < size {
            for _at in 0..left {
                self.put(0x80)?;
            }
        }
        let place = u32::try_from(self.bytes.len()).unwrap_or(0);
        for byte in &code[..size] {
            self.put(*byte)?;
        }
        Ok(place)
    }

    /// Adds a list, and answers where it begins.
    pub fn put_list(&mut self, ids: &[u32]) -> Result<u32, AllocError> {
        let mut place = u32::try_from(self.bytes.len()).unwrap_or(0);
        let mut before = 0u32;
        for (i, id) in ids.iter().enumerate() {
            let at = self.put_code(id.saturating_sub(before))?;
            if i == 0 {
                place = at;
            }
            before = *id;
        }
        Ok(place)
    }

    /// The bytes as numbers, with 0xFF behind them to the end of the last page, and one byte at least, so that no code ends there.
    pub fn numbers(mut self, alloc: Global) -> Result<Vec<u32>, AllocError> {
        let left = PAGE - self.bytes.len() % PAGE;
        for _at in 0..left {
            self.put(0xff)?;
        }
        let mut numbers = Vec::new(alloc);
        for four in self.bytes.chunks_exact(4) {
            let number = u32::from_be_bytes([four[0], four[1], four[2], four[3]]);
            let Ok(()) = numbers.push(number) else {
                return Err(AllocError);
            };
        }
        Ok(numbers)
    }
}

/// The run of the bytes of numbers that stand in a run, four a number.
pub fn bytes_of(numbers: &Run) -> Run
    requires width { numbers.now.width ≡ 4 }
    requires few { numbers.now.count ≤ 2000000 }
    ensures run { (device : Device) → HasRun device (run_of numbers.now) → HasRun device (run_of result) }
    ensures width { result.width ≡ 1 }
{
    Run {
        first: numbers.first,
        count: 4 * numbers.count,
        width: 1,
    }
}
