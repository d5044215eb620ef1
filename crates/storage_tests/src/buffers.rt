//! Page buffers: a pool has as many as it was asked for.

use page_pool::PagePool;
use std::alloc::AllocError;

#[test]
fn a_pool_of_eight_buffers_is_made(rt: HostRuntime) -> Result<(), AllocError> {
    let mut pool = PagePool::new(rt.alloc(), 8)?;
    assert_eq!(rt; pool.size(), 8);
    let first = pool.lease();
    assert!(rt; first.is_some());
    Ok(())
}
