//! The bits of an identifier, and those of a page.

ghost use Rattle.std.specs.Prelude.{◌≡◌, ℕ, ◌<◌, ◌||◌, nat_eq};
ghost use Rattle.bloom_post.specs.Places.{spread, is_bit};

/// How many bits a page has.
pub(crate) const PAGE_BITS: u32 = 16_384;

/// What an identifier is multiplied by for its second bit.
pub(crate) const SECOND_FACTOR: u32 = 2_654_435_761;

/// What an identifier is multiplied by for its third bit.
pub(crate) const THIRD_FACTOR: u32 = 2_246_822_519;

/// The highest 20 of the low 32 bits of an identifier times a factor.
pub(crate) fn spread(id: u32, factor: u32) -> u32
    ensures { result ≡ spread factor id }
{
    id.wrapping_mul(factor) >> 12
}

/// Whether a bit of a page is set.
pub(crate) fn is_bit(page: &[u8; 2048], place: u32) -> bool
    requires { place < 16384 }
    ensures { result ≡ is_bit page.now place }
{
    (page[(place / 8) as usize] >> (place % 8)) & 1 == 1
}

/// Sets a bit of a page.
pub(crate) fn set_bit(page: &mut [u8; 2048], place: u32)
    requires { place < 16384 }
    ensures { (other : ℕ) → is_bit page.new other ≡ (nat_eq other place || is_bit page.old other) }
{
    let byte = (place / 8) as usize;
    page[byte] = page[byte] | (1 << (place % 8));
}
