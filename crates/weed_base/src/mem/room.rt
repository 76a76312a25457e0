ghost use Rattle.std.specs.Prelude.{◌≡◌, length, take, min};

/// Copies first bytes to the front of the room, as many as there are and fit, and answers how many.
pub(crate) fn fill_front(bytes: &[u8], room: &mut [u8]) -> usize
    ensures count { result ≡ min (length room.new) (length bytes.now) }
    ensures bytes { take result room.new ≡ take result bytes.now }
{
    let count = bytes.len().min(room.len());
    room[..count].copy_from_slice(&bytes[..count]);
    count
}
