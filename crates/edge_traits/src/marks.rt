//! Marks of pages, one bit each, as both devices keep them.

ghost use Rattle.std.specs.Prelude.{◌≡◌, ◌≢◌, ℕ, ◌+◌, ◌*◌, ◌/◌, ◌<◌, ◌≤◌, true, false, length, vec_len, IfOk};
ghost use Rattle.edge_traits.specs.Marks.{is_marked};

use std::alloc::{AllocError, Global};

/// Whether a page is marked.
pub fn is_set(marks: &[u64], page: u32) -> bool
    requires { page / 64 < length marks.now }
    ensures { result ≡ is_marked marks.now page }
{
    (marks[(page / 64) as usize] >> (page % 64)) & 1 == 1
}

/// Takes the mark of a page away.
pub fn clear(marks: &mut [u64], page: u32)
    requires { page / 64 < length marks.old }
    ensures cleared { is_marked marks.new page ≡ false }
    ensures others { (other : ℕ) → other ≢ page → is_marked marks.new other ≡ is_marked marks.old other }
{
    let block = (page / 64) as usize;
    marks[block] = marks[block] & !(1 << (page % 64));
}

/// Marks all pages of a block.
pub fn set_block(marks: &mut [u64], block: u32)
    requires { block < length marks.old }
    ensures marked { (page : ℕ) → 64 * block ≤ page → page < 64 * block + 64 → is_marked marks.new page ≡ true }
    ensures below { (page : ℕ) → page < 64 * block → is_marked marks.new page ≡ is_marked marks.old page }
    ensures above { (page : ℕ) → 64 * block + 64 ≤ page → is_marked marks.new page ≡ is_marked marks.old page }
{
    marks[block as usize] = u64::MAX;
}

/// Takes the marks of all pages of a block away.
pub fn clear_block(marks: &mut [u64], block: u32)
    requires { block < length marks.old }
    ensures cleared { (page : ℕ) → 64 * block ≤ page → page < 64 * block + 64 → is_marked marks.new page ≡ false }
    ensures below { (page : ℕ) → page < 64 * block → is_marked marks.new page ≡ is_marked marks.old page }
    ensures above { (page : ℕ) → 64 * block + 64 ≤ page → is_marked marks.new page ≡ is_marked marks.old page }
{
    marks[block as usize] = 0;
}

/// Marks with which every page of so many blocks is marked.
pub fn all_set(alloc: Global, blocks: u32) -> Result<Vec<u64>, AllocError>
    ensures blocks { IfOk result (λ marks. vec_len marks ≡ blocks) }
    ensures marked { IfOk result (λ marks. (page : ℕ) → page < 64 * blocks → is_marked marks.items page ≡ true) }
{
    let marks = vec![in alloc; u64::MAX; blocks as usize]?;
    Ok(marks)
}

/// Marks with which no page is marked, and none of so many blocks.
pub fn all_clear(alloc: Global, blocks: u32) -> Result<Vec<u64>, AllocError>
    ensures blocks { IfOk result (λ marks. vec_len marks ≡ blocks) }
    ensures cleared { IfOk result (λ marks. (page : ℕ) → is_marked marks.items page ≡ false) }
{
    let marks = vec![in alloc; 0u64; blocks as usize]?;
    Ok(marks)
}

/// Takes all marks away.
pub fn clear_all(marks: &mut [u64])
    ensures { (page : ℕ) → is_marked marks.new page ≡ false }
{
    marks.fill(0);
}
