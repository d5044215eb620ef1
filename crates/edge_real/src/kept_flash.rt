//! A device that keeps what was read of its first pages, on which its catalog lies.

ghost use Rattle.std.specs.Prelude.{◌≡◌};

use edge_traits::Failed;
use edge_traits::flash::{AttachFault, Flash, PAGE_BYTES};
use std::alloc::Global;

/// The most pages that are kept: those on which a catalog may lie.
const MOST_KEPT: u32 = 64;

/// A device, and what was read of its first pages.
#[derive(Drop)]
pub struct KeptFlash<F> {
    /// The device.
    pub flash: F,

    /// The bytes of the first pages, as far as they were read one after another.
    pages: Vec<u8>,
}

impl<F: Flash + Drop> KeptFlash<F> {
    /// This device, of which nothing was read.
    pub fn new(alloc: Global, flash: F) -> KeptFlash<F>
        ensures flash { result.flash ≡ flash }
    {
        KeptFlash {
            flash,
            pages: Vec::new(alloc),
        }
    }

    /// The bytes of the first pages, as far as they were read one after another.
    pub fn front(&self) -> &[u8] {
        &self.pages
    }

    /// Keeps a page, where it is the next one. For want of memory nothing is kept.
    fn keep(&mut self, page: u32, bytes: &[u8; 2048])
        ensures flash { self.new.flash ≡ self.old.flash }
    {
        if page < MOST_KEPT && self.pages.len() == page as usize * PAGE_BYTES {
            let _kept = self.pages.extend_from_slice(bytes);
        }
    }
}

impl<F: Flash + Drop> Flash for KeptFlash<F> {
    ghost told = { F.told };

    ghost state = { λ kept. F.state kept.flash };

    ghost made = { λ kept. F.made kept.flash };

    fn make(&mut self, alloc: Global, name: &str, blocks: u32) -> Result<(), AttachFault> {
        self.flash.make(alloc, name, blocks)
    }

    fn attach(&mut self, alloc: Global, name: &str) -> Result<u32, AttachFault> {
        self.flash.attach(alloc, name)
    }

    fn read_page(&mut self, page: u32, buf: &mut [u8; 2048]) -> Result<(), Failed> {
        self.flash.read_page(page, buf)?;
        self.keep(page, buf);
        Ok(())
    }

    fn write_page(&mut self, page: u32, bytes: &[u8; 2048]) -> Result<(), Failed> {
        self.flash.write_page(page, bytes)
    }

    fn erase_block(&mut self, block: u32) -> Result<(), Failed> {
        self.flash.erase_block(block)
    }

    fn pages(&self) -> u32 {
        self.flash.pages()
    }
}
