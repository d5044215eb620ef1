//! A run of codes, written through a buffer that is lent.

ghost use Rattle.std.specs.Prelude.{◌≡◌, ◌<◌, ◌≤◌, ◌+◌, ◌/◌, ◌^◌, ◌++◌, [], true, false, Bool, List, ℕ, length, take, IfOk, OnOk};
ghost use Rattle.ghost_model.specs.forms.Runs.{Run, pages_of};
ghost use Rattle.ghost_model.specs.forms.Gaps.{StoresBytes, code_of, filling, with_code};

use crate::filler::RunFiller;
use edge_traits::Failed;
use edge_traits::flash::Flash;

/// The bytes of a page.
const PAGE_BYTES: usize = 2048;

/// Writes numbers as codes from a page on, whose pages are blank, through a buffer that each call is lent.
///
/// A code has one to three bytes and lies in one page: one for which the rest of a page is too short begins the next page, and the
/// bytes left are 0x80. The bytes of a page are gathered in the buffer, which is written when it is full, or by `finish` with 0xFF
/// behind the last code. Nothing else may write to it between the calls.
#[derive(Drop)]
pub struct CodeFiller {
    /// The bytes, as records of one byte.
    pub filler: RunFiller,
    ghost bytes: { filler.width ≡ 1 },
    ghost plain: { filler.erase ≡ false },
}

/// The code of a number: three bytes, and how many of them the code has.
fn code_of(number: u32) -> ([u8; 3], usize)
    requires small { number < 2097152 }
    ensures code { take result.1 result.0 ≡ code_of number }
    ensures size { result.1 ≡ length (code_of number) }
{
    if number < 128 {
        return ([number as u8, 0, 0], 1);
    }
    let low = (number % 128) as u8;
    if number < 16384 {
        return ([(128 + number / 128) as u8, low, 0], 2);
    }
    let high = (128 + number / 16384) as u8;
    ([high, (128 + number / 128 % 128) as u8, low], 3)
}

impl CodeFiller {
    ghost use Rattle.flash_pages.specs.CodeWriters.{CanPut, HasCodes, IsFileOf, WritesUpTo, code_begin, code_end};

    /// From the beginning of page `first` on, without a code.
    pub fn begin(first: u32) -> CodeFiller
        ensures first { result.filler.first ≡ first }
        ensures end { result.filler.count ≡ 0 }
        ensures none { (told : Bool) → (page : ℕ → List ℕ) → (bytes : List ℕ) → HasCodes told page bytes result [] }
    {
        CodeFiller {
            filler: RunFiller::begin(first, 1, false),
        }
    }

    /// How many bytes there are so far: behind the last code.
    pub fn end(&self) -> u32
        ensures end { result ≡ self.now.filler.count }
    {
        self.filler.count
    }

    /// Adds the code of a number, writes the page that it or the bytes before it fill, and answers the place of its first byte.
    ///
    /// After a failure nothing may be put any more.
    pub fn put<F: Flash>(
        &mut self,
        flash: &mut F,
        buf: &mut [u8; 2048],
        number: u32,
    ) -> Result<u32, Failed>
        requires small { number < 2097152 }
        requires can { CanPut (F.state flash.old) self.old (code_end self.old.filler.count number) }
        requires room { code_end self.old.filler.count number < 2 ^ 32 }
        ensures place { IfOk result (λ place. place ≡ code_begin self.old.filler.count number) }
        ensures end { OnOk result (self.new.filler.count ≡ code_end self.old.filler.count number) }
        ensures put { OnOk result ((bytes : List ℕ) → HasCodes F.told (F.state flash.old).page buf.old self.old bytes → HasCodes F.told (F.state flash.new).page buf.new self.new (with_code bytes (code_of number))) }
        ensures same { self.new.filler.first ≡ self.old.filler.first }
        ensures writes { WritesUpTo (F.state flash.old) (F.state flash.new) self.old (code_end self.old.filler.count number / 2048) result }
    {
        let (code, size) = code_of(number);
        let code = &code[..size];
        self.put_filling(flash, buf, code)?;
        let place = self.end();
        self.put_bytes(flash, buf, code)?;
        Ok(place)
    }

    /// Fills the page where its rest is too short for a code.
    fn put_filling<F: Flash>(
        &mut self,
        flash: &mut F,
        buf: &mut [u8; 2048],
        code: &[u8],
    ) -> Result<(), Failed>
        requires short { length code.now ≤ 3 }
        requires can { CanPut (F.state flash.old) self.old (self.old.filler.count + length (filling self.old.filler.count code.now)) }
        requires room { self.old.filler.count + length (filling self.old.filler.count code.now) < 2 ^ 32 }
        ensures end { OnOk result (self.new.filler.count ≡ self.old.filler.count + length (filling self.old.filler.count code.now)) }
        ensures put { OnOk result ((bytes : List ℕ) → HasCodes F.told (F.state flash.old).page buf.old self.old bytes → HasCodes F.told (F.state flash.new).page buf.new self.new (bytes ++ filling self.old.filler.count code.now)) }
        ensures same { self.new.filler.first ≡ self.old.filler.first }
        ensures writes { WritesUpTo (F.state flash.old) (F.state flash.new) self.old ((self.old.filler.count + length (filling self.old.filler.count code.now)) / 2048) result }
    {
        let left = PAGE_BYTES - self.filler.held as usize;
        if left >= code.len() {
            return Ok(());
        }
        self.put_bytes(flash, buf, &[0x80; 2][..left])
    }

    /// Adds some bytes, and writes each page that they fill.
    fn put_bytes<F: Flash>(
        &mut self,
        flash: &mut F,
        buf: &mut [u8; 2048],
        bytes: &[u8],
    ) -> Result<(), Failed>
        requires can { CanPut (F.state flash.old) self.old (self.old.filler.count + length bytes.now) }
        requires room { self.old.filler.count + length bytes.now < 2 ^ 32 }
        ensures end { OnOk result (self.new.filler.count ≡ self.old.filler.count + length bytes.now) }
        ensures put { OnOk result ((before : List ℕ) → HasCodes F.told (F.state flash.old).page buf.old self.old before → HasCodes F.told (F.state flash.new).page buf.new self.new (before ++ bytes.now)) }
        ensures same { self.new.filler.first ≡ self.old.filler.first }
        ensures writes { WritesUpTo (F.state flash.old) (F.state flash.new) self.old ((self.old.filler.count + length bytes.now) / 2048) result }
    {
        for i in 0..bytes.len() {
            self.filler.put(flash, buf, &bytes[i..i + 1])?;
        }
        Ok(())
    }

    /// Writes the last page, if bytes wait for it. Nothing may be put after it.
    pub fn finish<F: Flash>(&mut self, flash: &mut F, buf: &[u8; 2048]) -> Result<(), Failed>
        requires can { CanPut (F.state flash.old) self.old self.old.filler.count }
        ensures stores { OnOk result (F.told ≡ true → (bytes : List ℕ) → HasCodes F.told (F.state flash.old).page buf.now self.old bytes → (run : Run) → IsFileOf self.old run → StoresBytes (F.state flash.new).page run bytes) }
        ensures same { self.new ≡ self.old }
        ensures writes { WritesUpTo (F.state flash.old) (F.state flash.new) self.old (pages_of self.old.filler.count 1) result }
    {
        self.filler.finish(flash, buf)?;
        Ok(())
    }
}
