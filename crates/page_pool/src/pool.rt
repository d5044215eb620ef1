//! The pool and its leases.

ghost use Rattle.std.specs.Prelude.{◌≡◌, ◌+◌, ◌<◌, ◌≤◌, Some, None, true, false, IfSome, IfNone, IfOk, length, get_or, count_by, not};
ghost use Rattle.std.specs.Borrow.{sem};
ghost use Rattle.page_pool.specs.Pools.{Pool, IsOut, IsFree, IsNew, IsIdle, leased, given, noted, bytes_at, page_at, free_count};
ghost use Rattle.page_pool.specs.Lending.{LendsPage};

use std::alloc::{AllocError, Global};
use std::marker::Model;

/// The fewest buffers of a pool.
pub const MIN_BUFFERS: u32 = 8;

/// The most buffers of a pool.
pub const MAX_BUFFERS: u32 = 64;

/// The leave to use one buffer of a pool, until it is given back. In a clause it is the buffer's number.
#[derive(Drop)]
pub struct Lease {
    slot: usize,
}

impl Model for Lease {
    ghost use Rattle.std.specs.Prelude.{ℕ};

    ghost Value = { ℕ };

    ghost view = { λ lease. lease.slot };
}

/// The lease of no buffer, for the unused places of a list of leases: its number is above that of every pool's buffers.
impl Default for Lease {
    ghost use Rattle.std.specs.Prelude.{◌≡◌};

    ghost is_default = { λ lease. lease ≡ 64 };

    fn default() -> Self {
        Lease {
            slot: MAX_BUFFERS as usize,
        }
    }
}

/// Page buffers of 2,048 bytes each, of which some are out under leases.
#[derive(Drop)]
pub struct PagePool {
    pages: Vec<[u8; 2048]>,
    out: Vec<bool>,
    filled: Vec<Option<u32>>,
}

impl Model for PagePool {
    ghost use Rattle.std.specs.Prelude.{◌≡◌, ◌≤◌, vec_len};
    ghost use Rattle.page_pool.specs.Pools.{Pool};

    ghost Value = { Pool };

    ghost view = { λ pool. record { pages = pool.pages.items; out = pool.out.items; filled = pool.filled.items } };

    // There is one mark and one note a buffer, and there are 8 to 64 buffers.
    ghost invariant = { λ pool. (vec_len pool.out ≡ vec_len pool.pages) × (vec_len pool.filled ≡ vec_len pool.pages) × (8 ≤ vec_len pool.pages) × (vec_len pool.pages ≤ 64) };
}

/// The first buffer that is not out.
fn first_free(out: &[bool]) -> Option<usize>
    ensures some { IfSome result (λ slot. slot < length out.now) }
    ensures free { IfSome result (λ slot. get_or out.now slot true ≡ false) }
    ensures none { IfNone result (count_by not out.now ≡ 0) }
{
    for (slot, is_out) in out.iter().enumerate() {
        if !*is_out {
            return Some(slot);
        }
    }
    None
}

impl PagePool {
    /// A pool of so many buffers, none of which is out. It takes all the memory that it will ever have.
    pub fn new(alloc: Global, buffers: u32) -> Result<PagePool, AllocError>
        requires enough { 8 ≤ buffers }
        requires few { buffers ≤ 64 }
        ensures made { IfOk result (IsNew buffers) }
        ensures idle { IfOk result IsIdle }
    {
        let buffers = buffers as usize;
        Ok(PagePool {
            pages: vec![in alloc; [0; 2048]; buffers]?,
            out: vec![in alloc; false; buffers]?,
            filled: vec![in alloc; None; buffers]?,
        })
    }

    /// The number of buffers, which is 8 to 64.
    pub fn size(&self) -> u32
        ensures size { result ≡ length self.now.pages }
        ensures least { 8 ≤ result }
        ensures most { result ≤ 64 }
    {
        self.pages.len() as u32
    }

    /// A buffer that is not out, if there is one: none exactly where all are out.
    #[tactic(auto, using(crate::proofs::Marks::given_back))]
    pub fn lease(&mut self) -> Option<Lease>
        ensures leased { IfSome result (λ lease. self.new ≡ leased self.old lease) }
        ensures is_out { IfSome result (IsOut self.new) }
        ensures was_free { IfSome result (IsFree self.old) }
        ensures back { IfSome result (λ lease. (given self.new lease).out ≡ self.old.out) }
        ensures counted { IfSome result (λ _. free_count self.new + 1 ≡ free_count self.old) }
        ensures none { IfNone result (self.new ≡ self.old) }
        ensures none_free { IfNone result (free_count self.old ≡ 0) }
    {
        let slot = first_free(&self.out)?;
        self.out[slot] = true;
        self.filled[slot] = None;
        Some(Lease { slot })
    }

    /// Gives a buffer back.
    pub fn give(&mut self, lease: Lease)
        requires out { IsOut self.old lease }
        ensures given { self.new ≡ given self.old lease }
        ensures counted { free_count self.new ≡ free_count self.old + 1 }
    {
        self.out[lease.slot] = false;
    }

    /// The bytes of a buffer.
    pub fn page(&self, lease: &Lease) -> &[u8; 2048]
        requires out { IsOut self.now lease.now }
        ensures bytes { result.now ≡ bytes_at self.now lease.now }
    {
        &self.pages[lease.slot]
    }

    /// The bytes of a buffer, to be written: from then on no page of the flash is known to lie there.
    pub fn page_mut(&mut self, lease: &Lease) -> &mut [u8; 2048]
        requires out { IsOut self.old lease.now }
        ensures* writes_back { sem 𝓛 (LendsPage self.entry lease.now result) }
        ensures bytes { result.now ≡ bytes_at self.old lease.now }
    {
        self.filled[lease.slot] = None;
        &mut self.pages[lease.slot]
    }

    /// The page of the flash that a buffer was filled from, where nothing was written into it since.
    pub fn filled_from(&self, lease: &Lease) -> Option<u32>
        requires out { IsOut self.now lease.now }
        ensures page { result ≡ page_at self.now lease.now }
    {
        self.filled[lease.slot]
    }

    /// Notes that a buffer was filled from a page of the flash.
    pub fn note(&mut self, lease: &Lease, page: u32)
        requires out { IsOut self.old lease.now }
        ensures noted { self.new ≡ noted self.old lease.now page }
        ensures page { page_at self.new lease.now ≡ Some page }
    {
        self.filled[lease.slot] = Some(page);
    }
}
