//! Page buffers under leases: a key has a stated number of them, made once, and whoever reads or writes a page of its flash
//! has leased the buffer that the page lies in.
//!
//! A pool of b buffers never has more than b leases out, since a lease is a buffer's number. Beside each buffer stands the
//! page of the flash that it was filled from, for as long as nothing was written into it since, so that a page which lies
//! there is not read again.
#![tactic(auto)]

pub mod pool;

pub use pool::{Lease, MAX_BUFFERS, MIN_BUFFERS, PagePool};
