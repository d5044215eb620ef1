//! Bytes put into room that was reserved before.

ghost use Rattle.std.specs.Prelude.{◌≡◌, ◌↔◌, IsTrue, ◌+◌, ◌≤◌, ◌++◌, length, vec_len, vec_capacity};

/// Whether so many more bytes have room.
pub fn has_room(bytes: &Vec<u8>, count: usize) -> bool
    ensures { IsTrue result ↔ vec_len bytes.now + count ≤ vec_capacity bytes.now }
{
    bytes.len() <= bytes.capacity() && count <= bytes.capacity() - bytes.len()
}

/// Adds a piece at the end of bytes that have room for it. It takes no memory, and the room stays as it is.
pub fn add(bytes: &mut Vec<u8>, piece: &[u8])
    requires { vec_len bytes.old + length piece.now ≤ vec_capacity bytes.old }
    ensures items { bytes.new.items ≡ bytes.old.items ++ piece.now }
    ensures room { vec_capacity bytes.new ≡ vec_capacity bytes.old }
{
    for byte in piece {
        bytes.push_reserved(*byte);
    }
}
