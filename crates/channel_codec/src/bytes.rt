//! Parts of some bytes, also where there are fewer.

ghost use Rattle.std.specs.Prelude.{◌≡◌, take, drop, slice_index};

/// The byte at a place, or 0 where there is none.
pub fn byte_at(bytes: &[u8], at: usize) -> u8
    ensures { result ≡ slice_index bytes.now at }
{
    if at < bytes.len() { bytes[at] } else { 0 }
}

/// The front of some bytes: so many, or all where there are fewer.
pub fn front(bytes: &[u8], count: usize) -> &[u8]
    ensures { result.now ≡ take count bytes.now }
{
    if bytes.len() <= count {
        return bytes;
    }
    let (front, _rest) = bytes.split_at(count);
    front
}

/// What comes after so many bytes, nothing where there are fewer.
pub fn behind(bytes: &[u8], count: usize) -> &[u8]
    ensures { result.now ≡ drop count bytes.now }
{
    if bytes.len() <= count {
        return &[];
    }
    let (_front, rest) = bytes.split_at(count);
    rest
}
