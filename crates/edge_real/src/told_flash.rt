//! A flash device that tells how far it is made.

ghost use Rattle.std.specs.Prelude.{◌≡◌};

use crate::progress::{Tenths, tell_file, tell_tenths};
use edge_traits::Failed;
use edge_traits::flash::{AttachFault, Flash};
use std::alloc::Global;
use std::io::Eprint;

/// A device, and a terminal, where there is one, on which a line tells that it is made or opened, and while it is made each tenth of
/// its pages that is written. Its first page is written last, and no line tells of pages behind that.
#[derive(Drop)]
pub struct ToldFlash<F, E> {
    /// The device.
    pub flash: F,

    to: Option<E>,
    written: Tenths,
    making: bool,
}

impl<F: Flash + Drop, E: Eprint + Drop> ToldFlash<F, E> {
    /// This device, told of on `to`.
    pub fn new(flash: F, to: Option<E>) -> ToldFlash<F, E>
        ensures flash { result.flash ≡ flash }
    {
        ToldFlash {
            flash,
            to,
            written: Tenths::none(),
            making: false,
        }
    }

    /// It is made from now on, or was made.
    fn set_making(&mut self, making: bool)
        ensures flash { self.new.flash ≡ self.old.flash }
    {
        self.making = making;
    }

    /// Tells that a page is to be written of a device that is made, where that completes a tenth.
    fn tell_written(&mut self, page: u32)
        ensures flash { self.new.flash ≡ self.old.flash }
    {
        if self.to.is_none() || !self.making {
            return;
        }
        if page == 0 {
            self.making = false;
        }
        if let Some(tenths) = self.written.next(page, self.flash.pages()) {
            tell_tenths(&self.to, tenths);
        }
    }
}

impl<F: Flash + Drop, E: Eprint + Drop> Flash for ToldFlash<F, E> {
    ghost told = { F.told };

    ghost state = { λ told. F.state told.flash };

    ghost made = { λ told. F.made told.flash };

    fn make(&mut self, alloc: Global, name: &str, blocks: u32) -> Result<(), AttachFault> {
        tell_file(&self.to, "making", name);
        self.set_making(true);
        self.flash.make(alloc, name, blocks)
    }

    fn attach(&mut self, alloc: Global, name: &str) -> Result<u32, AttachFault> {
        tell_file(&self.to, "opening", name);
        self.flash.attach(alloc, name)
    }

    fn read_page(&mut self, page: u32, buf: &mut [u8; 2048]) -> Result<(), Failed> {
        self.flash.read_page(page, buf)
    }

    fn write_page(&mut self, page: u32, bytes: &[u8; 2048]) -> Result<(), Failed> {
        self.tell_written(page);
        self.flash.write_page(page, bytes)
    }

    fn erase_block(&mut self, block: u32) -> Result<(), Failed> {
        self.flash.erase_block(block)
    }

    fn pages(&self) -> u32 {
        self.flash.pages()
    }
}
