//! A flash device of pages and blocks.

ghost use Rattle.std.specs.Prelude.{◌≡◌, ℕ, List, bytes_eq, ◌<◌, ◌≤◌, ◌+◌, ◌*◌, ◌%◌, Bool, true, false, Some, None, IfOk, OnOk, OnErr, nat_le};
ghost use Rattle.ghost_model.specs.core.Causes.{HasCause};
ghost use Rattle.edge_traits.specs.Devices.{Device, first_deep_page, pages_under, next, next_if, since_call, since_attach, AttachCause, KeepsPages, ChangesOnly, IsErased, NotBlank};
ghost use Rattle.edge_traits.specs.declared.flash.AttachFault.TheVariants.{Failed as call_failed, NoMemory as no_memory};

use crate::Failed;
use std::alloc::{AllocError, Global};

/// The pages of a block.
pub const BLOCK_PAGES: u32 = 64;

/// The first deep page: with version 2 of the format all public pages lie before it.
pub const FIRST_DEEP_PAGE: u32 = 256;

/// The bytes of a page.
pub const PAGE_BYTES: usize = 2048;

/// Why a device was not made or attached.
#[derive(Clone, Copy, Debug)]
pub enum AttachFault {
    /// The device failed, and counted it as a fault.
    Failed,
    /// There was no memory for what is known of its pages.
    NoMemory,
}

impl From<Failed> for AttachFault {
    ghost from_gives = { λ _ fault. fault ≡ call_failed };

    fn from(_failed: Failed) -> AttachFault {
        AttachFault::Failed
    }
}

impl From<AllocError> for AttachFault {
    ghost from_gives = { λ _ fault. fault ≡ no_memory };

    fn from(_error: AllocError) -> AttachFault {
        AttachFault::NoMemory
    }
}

/// A device of whole blocks of 64 pages, each of 2,048 bytes.
///
/// A page is written whole, and only when it is blank; a block is erased whole, and its pages are then blank. A blank page
/// reads as bytes 0xFF. Which pages are blank is always told. What they hold is told by a device in memory alone.
pub trait Flash {
    /// Whether the contents of the pages are told.
    ghost told: { Bool };

    /// The device as it stands.
    ghost state: { Self → Device };

    /// Makes a device of `blocks` blocks, all of whose pages are blank, in place of an older one of that name. The devices of other
    /// names stay as they are.
    ///
    /// After an error the device is not open, and has no page.
    fn make(&mut self, alloc: Global, name: &str, blocks: u32) -> Result<(), AttachFault>
        requires { blocks ≤ 60000000 }
        ensures open { OnOk result ((state self.new).name ≡ Some name.now) }
        ensures closed { OnErr result ((state self.new).name ≡ None) }
        ensures pages { OnOk result ((state self.new).page_count ≡ 64 * blocks) }
        ensures erased { OnOk result (IsErased told 0 (64 * blocks) (state self.new)) }
        ensures none { OnErr result ((state self.new).page_count ≡ 0) }
        ensures others { told ≡ true → (other : List ℕ) → bytes_eq name.now other ≡ false → pages_under (state self.new) other ≡ pages_under (state self.old) other }
        ensures calls { (state self.new).calls ≡ next (state self.old).calls }
        ensures deep_reads { (state self.new).deep_reads ≡ (state self.old).deep_reads }
        ensures cause { AttachCause (state self.old).faults (state self.new).faults result }
        ensures one_fault { (state self.new).faults ≤ (state self.old).faults + 1 }
        ensures since_fault { (state self.new).since_fault ≡ since_attach (state self.old).since_fault result };

    /// Opens a device, and answers how many pages it has: whole blocks of them, perhaps none. None of them counts as blank.
    ///
    /// After an error the device is not open, and has no page. A device that is not there, or not of whole blocks, is a fault.
    fn attach(&mut self, alloc: Global, name: &str) -> Result<u32, AttachFault>
        ensures open { OnOk result ((state self.new).name ≡ Some name.now) }
        ensures closed { OnErr result ((state self.new).name ≡ None) }
        ensures pages { IfOk result (λ pages. (state self.new).page_count ≡ pages) }
        ensures whole_blocks { IfOk result (λ pages. pages % 64 ≡ 0) }
        ensures not_blank { IfOk result (λ pages. NotBlank 0 pages (state self.new)) }
        ensures none { OnErr result ((state self.new).page_count ≡ 0) }
        ensures kept { told ≡ true → (other : List ℕ) → pages_under (state self.new) other ≡ pages_under (state self.old) other }
        ensures calls { (state self.new).calls ≡ next (state self.old).calls }
        ensures deep_reads { (state self.new).deep_reads ≡ (state self.old).deep_reads }
        ensures cause { AttachCause (state self.old).faults (state self.new).faults result }
        ensures one_fault { (state self.new).faults ≤ (state self.old).faults + 1 }
        ensures since_fault { (state self.new).since_fault ≡ since_attach (state self.old).since_fault result };

    /// Reads a page into `buf`, which after a failure holds anything.
    fn read_page(&mut self, page: u32, buf: &mut [u8; 2048]) -> Result<(), Failed>
        requires { page < (state self.old).page_count }
        ensures bytes { OnOk result (told ≡ true → buf.new ≡ (state self.old).page page) }
        ensures gave { OnOk result ((state self.new).gave (state self.old).calls page buf.new ≡ true) }
        ensures kept { KeepsPages (state self.old) (state self.new) }
        ensures calls { (state self.new).calls ≡ next (state self.old).calls }
        ensures deep_reads { (state self.new).deep_reads ≡ next_if (nat_le first_deep_page page) (state self.old).deep_reads }
        ensures cause { HasCause (state self.old).faults (state self.new).faults result }
        ensures one_fault { (state self.new).faults ≤ (state self.old).faults + 1 }
        ensures since_fault { (state self.new).since_fault ≡ since_call (state self.old).since_fault result };

    /// Writes a blank page. After a failure it holds anything, and is not blank either.
    fn write_page(&mut self, page: u32, bytes: &[u8; 2048]) -> Result<(), Failed>
        requires in_range { page < (state self.old).page_count }
        requires blank { (state self.old).blank page ≡ true }
        ensures written { OnOk result (told ≡ true → (state self.new).page page ≡ bytes.now) }
        ensures not_blank { (state self.new).blank page ≡ false }
        ensures others { ChangesOnly page (page + 1) (state self.old) (state self.new) }
        ensures calls { (state self.new).calls ≡ next (state self.old).calls }
        ensures deep_reads { (state self.new).deep_reads ≡ (state self.old).deep_reads }
        ensures cause { HasCause (state self.old).faults (state self.new).faults result }
        ensures one_fault { (state self.new).faults ≤ (state self.old).faults + 1 }
        ensures since_fault { (state self.new).since_fault ≡ since_call (state self.old).since_fault result };

    /// Makes the pages of a block blank. After a failure they hold anything, and none of them is blank.
    fn erase_block(&mut self, block: u32) -> Result<(), Failed>
        requires { 64 * block < (state self.old).page_count }
        ensures erased { OnOk result (IsErased told (64 * block) (64 * block + 64) (state self.new)) }
        ensures not_blank { OnErr result (NotBlank (64 * block) (64 * block + 64) (state self.new)) }
        ensures others { ChangesOnly (64 * block) (64 * block + 64) (state self.old) (state self.new) }
        ensures calls { (state self.new).calls ≡ next (state self.old).calls }
        ensures deep_reads { (state self.new).deep_reads ≡ (state self.old).deep_reads }
        ensures cause { HasCause (state self.old).faults (state self.new).faults result }
        ensures one_fault { (state self.new).faults ≤ (state self.old).faults + 1 }
        ensures since_fault { (state self.new).since_fault ≡ since_call (state self.old).since_fault result };

    /// How many pages the device has: none before it was made or attached.
    fn pages(&self) -> u32
        ensures { result ≡ (state self.now).page_count };

    /// What a read gave it gave by a call that was counted.
    ghost made: { (flash : Self) (at page : ℕ) (bytes : List ℕ) → (state flash).gave at page bytes ≡ true → next at ≤ (state flash).calls };
}
