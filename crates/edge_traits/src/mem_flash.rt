//! A flash device in memory.

ghost use Rattle.std.specs.Prelude.{◌≡◌, ◌≤◌, ◌<◌, ◌*◌, ◌+◌, ◌++◌, ℕ, List, true, false, None, take, drop, IfOk, OnOk, IsTrue, ◌↔◌, MatchOption, [], slice_set, length, replicate, vec_len};
ghost use Rattle.ghost_model.specs.core.Causes.{HasCause, Rose};
ghost use Rattle.edge_traits.specs.Devices.{next, since_call, pages_under, ChangesOnly};
ghost use Rattle.edge_traits.specs.Scripts.{IsFresh};
ghost use Rattle.edge_traits.specs.Pages.{page_at};
ghost use Rattle.edge_traits.specs.MemDevices.{named_pages};

use crate::flash::{AttachFault, FIRST_DEEP_PAGE, Flash};
use crate::named_pages::NamedPages;
use crate::script::Script;
use crate::{Failed, aside, counting, marks};
use std::alloc::{AllocError, Global};
use std::mem;

/// A device of each name, whose pages lie in memory. The one last made or attached is at hand, and the others keep their pages.
///
/// A device is empty until it is made. To make one with more blocks than there is room for is a fault, and so is each call that
/// the script names. A failed read leaves the buffer as it was. After a failed write the page has the first half of what was to
/// be written; its other half, and all pages of a block after a failed erase, are as they were.
#[derive(Drop)]
pub struct MemFlash {
    /// Which calls fail.
    pub script: Script,
    /// The most blocks that a device may be made with.
    pub room: u32,
    deep_reads: u64,
    since_fault: u64,
    is_open: bool,
    last: NamedPages,
    others: Vec<NamedPages>,
}

impl MemFlash {
    /// Devices with room for `room` blocks each that fail at the calls numbered in `fails`, from 1. They are empty, and none is
    /// open.
    #[tactic(auto, using(crate::proofs::PutAside::nothing_under))]
    pub fn new(alloc: Global, room: u32, fails: &[u64]) -> Result<MemFlash, AllocError>
        ensures script { IfOk result (λ flash. IsFresh fails.now flash.script) }
        ensures room { IfOk result (λ flash. flash.room ≡ room) }
        ensures closed { IfOk result (λ flash. (⟦<MemFlash as Flash>⟧.state flash).name ≡ None) }
        ensures no_page { IfOk result (λ flash. (⟦<MemFlash as Flash>⟧.state flash).page_count ≡ 0) }
        ensures empty { IfOk result (λ flash. (page : ℕ) → (⟦<MemFlash as Flash>⟧.state flash).page page ≡ []) }
        ensures no_other { IfOk result (λ flash. (name : List ℕ) (page : ℕ) → pages_under (⟦<MemFlash as Flash>⟧.state flash) name page ≡ []) }
        ensures no_deep_read { IfOk result (λ flash. (⟦<MemFlash as Flash>⟧.state flash).deep_reads ≡ 0) }
        ensures no_call { IfOk result (λ flash. (⟦<MemFlash as Flash>⟧.state flash).since_fault ≡ 0) }
    {
        Ok(MemFlash {
            script: Script::new(alloc, fails)?,
            room,
            deep_reads: 0,
            since_fault: 0,
            is_open: false,
            last: NamedPages::none(alloc, Vec::new(alloc)),
            others: Vec::new(alloc),
        })
    }

    /// The bytes of a page of the device last made or attached, whether it is open or not, with no call that is counted.
    pub fn page(&self, page: u32) -> Option<&[u8; 2048]>
        ensures { MatchOption result ((⟦<MemFlash as Flash>⟧.state self.now).page page ≡ []) (λ bytes. (⟦<MemFlash as Flash>⟧.state self.now).page page ≡ bytes.now) }
    {
        self.last.pages.get(page as usize)
    }

    /// Puts other bytes into a page of the device that is open, blank or not, with no call that is counted, and answers whether
    /// there is such a page.
    pub fn put_page(&mut self, page: u32, bytes: &[u8; 2048]) -> bool
        ensures there { page < (⟦<MemFlash as Flash>⟧.state self.old).page_count → IsTrue result }
        ensures put { IsTrue result → (⟦<MemFlash as Flash>⟧.state self.new).page page ≡ bytes.now }
        ensures others { ChangesOnly page (page + 1) (⟦<MemFlash as Flash>⟧.state self.old) (⟦<MemFlash as Flash>⟧.state self.new) }
        ensures blank { (⟦<MemFlash as Flash>⟧.state self.new).blank ≡ (⟦<MemFlash as Flash>⟧.state self.old).blank }
        ensures script { self.new.script ≡ self.old.script }
        ensures room { self.new.room ≡ self.old.room }
        ensures deep_reads { (⟦<MemFlash as Flash>⟧.state self.new).deep_reads ≡ (⟦<MemFlash as Flash>⟧.state self.old).deep_reads }
        ensures since_fault { (⟦<MemFlash as Flash>⟧.state self.new).since_fault ≡ (⟦<MemFlash as Flash>⟧.state self.old).since_fault }
    {
        if self.is_open && (page as usize) < self.last.pages.len() {
            self.last.pages[page as usize] = *bytes;
            return true;
        }
        false
    }

    /// How many reads of deep pages there were.
    pub fn deep_reads(&self) -> u64
        ensures { result ≡ (⟦<MemFlash as Flash>⟧.state self.now).deep_reads }
    {
        self.deep_reads
    }

    /// Begins a call, which fails where the script names its number.
    fn begin(&mut self) -> Result<(), Failed>
        ensures cause { HasCause self.old.script.faults self.new.script.faults result }
        ensures one_fault { self.new.script.faults ≤ self.old.script.faults + 1 }
        ensures calls { self.new.script.calls ≡ next self.old.script.calls }
        ensures calls_rise { self.old.script.calls ≤ self.new.script.calls }
        ensures since_fault { self.new.since_fault ≡ since_call self.old.since_fault result }
        ensures last { self.new.last ≡ self.old.last }
        ensures others { self.new.others ≡ self.old.others }
        ensures open { self.new.is_open ≡ self.old.is_open }
        ensures room { self.new.room ≡ self.old.room }
        ensures deep_reads { self.new.deep_reads ≡ self.old.deep_reads }
    {
        match self.script.begin() {
            Ok(()) => {
                self.since_fault = counting::one_more(self.since_fault);
                Ok(())
            }
            Err(failed) => {
                self.since_fault = 0;
                Err(failed)
            }
        }
    }

    /// Counts a fault of the call that began.
    fn fault(&mut self) -> Failed
        ensures rose { Rose self.old.script.faults self.new.script.faults }
        ensures never_falls { self.old.script.faults ≤ self.new.script.faults }
        ensures one_fault { self.new.script.faults ≤ self.old.script.faults + 1 }
        ensures calls { self.new.script.calls ≡ self.old.script.calls }
        ensures since_fault { self.new.since_fault ≡ 0 }
        ensures last { self.new.last ≡ self.old.last }
        ensures others { self.new.others ≡ self.old.others }
        ensures open { self.new.is_open ≡ self.old.is_open }
        ensures deep_reads { self.new.deep_reads ≡ self.old.deep_reads }
    {
        self.since_fault = 0;
        self.script.fault()
    }

    /// Puts the device last made or attached aside, and has that of this name at hand in its place, which has no page where it
    /// was not made. For want of memory nothing changes.
    fn turn_to(&mut self, alloc: Global, name: &str) -> Result<(), AllocError>
        ensures name { OnOk result (self.new.last.name.items ≡ name.now) }
        ensures pages { (other : List ℕ) → named_pages self.new.last self.new.others.items other ≡ named_pages self.old.last self.old.others.items other }
        ensures script { self.new.script ≡ self.old.script }
        ensures room { self.new.room ≡ self.old.room }
        ensures deep_reads { self.new.deep_reads ≡ self.old.deep_reads }
        ensures since_fault { self.new.since_fault ≡ self.old.since_fault }
        ensures open { self.new.is_open ≡ self.old.is_open }
    {
        if self.last.name.as_slice() == name.as_bytes() {
            return Ok(());
        }
        let none = NamedPages::none(alloc, name.as_bytes().to_vec(alloc)?);
        self.others.reserve(1)?;
        let next = aside::take(&mut self.others, none);
        let last = mem::replace(&mut self.last, next);
        aside::put(&mut self.others, last);
        Ok(())
    }
}

/// So many blocks of pages, all of them bytes 0xFF.
fn blank_pages(alloc: Global, blocks: u32) -> Result<Vec<[u8; 2048]>, AllocError>
    requires { blocks ≤ 60000000 }
    ensures pages { IfOk result (λ pages. vec_len pages ≡ 64 * blocks) }
    ensures blank { IfOk result (λ pages. (page : ℕ) → page < 64 * blocks → page_at pages.items page ≡ replicate 2048 255) }
{
    let mut pages = Vec::new(alloc);
    for _ in 0..64 * blocks {
        pages.push([0xFF; 2048])?;
    }
    Ok(pages)
}

/// Makes the pages of a block bytes 0xFF.
fn erase_pages(pages: &mut [[u8; 2048]], first: usize)
    requires { first + 64 ≤ length pages.old }
    ensures erased { (page : ℕ) → first ≤ page → page < first + 64 → page_at pages.new page ≡ replicate 2048 255 }
    ensures below { (page : ℕ) → page < first → page_at pages.new page ≡ page_at pages.old page }
    ensures above { (page : ℕ) → first + 64 ≤ page → page_at pages.new page ≡ page_at pages.old page }
{
    for page in first..first + 64 {
        pages[page] = [0xFF; 2048];
    }
}

/// Writes the first half of a page.
fn write_half(page: &mut [u8; 2048], bytes: &[u8; 2048])
    ensures { page.new ≡ take 1024 bytes.now ++ drop 1024 page.old }
{
    page[..1024].copy_from_slice(&bytes[..1024]);
}

impl Flash for MemFlash {
    ghost use Rattle.edge_traits.specs.MemDevices.{device_of};
    ghost use Rattle.edge_traits.specs.Devices.{made_before};

    ghost told = { true };

    ghost state = { device_of };

    ghost made = { λ flash at page bytes. made_before flash.script.calls at };

    fn make(&mut self, alloc: Global, name: &str, blocks: u32) -> Result<(), AttachFault> {
        self.is_open = false;
        self.begin()?;
        if blocks > self.room {
            return Err(AttachFault::from(self.fault()));
        }
        let pages = blank_pages(alloc, blocks)?;
        let marks = marks::all_set(alloc, blocks)?;
        self.turn_to(alloc, name)?;
        self.last.renew(pages, marks);
        self.is_open = true;
        Ok(())
    }

    fn attach(&mut self, alloc: Global, name: &str) -> Result<u32, AttachFault> {
        self.is_open = false;
        self.begin()?;
        self.turn_to(alloc, name)?;
        marks::clear_all(&mut self.last.marks);
        self.is_open = true;
        Ok(self.last.pages.len() as u32)
    }

    fn read_page(&mut self, page: u32, buf: &mut [u8; 2048]) -> Result<(), Failed> {
        self.deep_reads = counting::one_more_if(page >= FIRST_DEEP_PAGE, self.deep_reads);
        self.begin()?;
        *buf = self.last.pages[page as usize];
        Ok(())
    }

    fn write_page(&mut self, page: u32, bytes: &[u8; 2048]) -> Result<(), Failed> {
        marks::clear(&mut self.last.marks, page);
        match self.begin() {
            Ok(()) => {
                self.last.pages[page as usize] = *bytes;
                Ok(())
            }
            Err(failed) => {
                write_half(&mut self.last.pages[page as usize], bytes);
                Err(failed)
            }
        }
    }

    fn erase_block(&mut self, block: u32) -> Result<(), Failed> {
        if let Err(failed) = self.begin() {
            marks::clear_block(&mut self.last.marks, block);
            return Err(failed);
        }
        erase_pages(&mut self.last.pages, block as usize * 64);
        marks::set_block(&mut self.last.marks, block);
        Ok(())
    }

    fn pages(&self) -> u32 {
        if self.is_open {
            self.last.pages.len() as u32
        } else {
            0
        }
    }
}
