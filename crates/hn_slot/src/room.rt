ghost use Rattle.std.specs.Prelude.{◌≡◌, ◌↔◌, ◌≤◌, IsTrue, false, length};
ghost use Rattle.hn_slot.specs.Room.{FillsRoom, OverflowsRoom};

/// Writes bytes at the front of a room that has place for them, says whether it has, and counts them. Never allocates.
pub fn write(bytes: &[u8], count: &mut usize, room: &mut [u8]) -> bool
    ensures fits { IsTrue result ↔ (length bytes.now ≤ length room.old) }
    ensures written { IsTrue result → FillsRoom bytes.now count.new room.old room.new }
    ensures no_room { result ≡ false → OverflowsRoom bytes.now count.new room.old }
    ensures as_before { result ≡ false → room.new ≡ room.old }
{
    *count = bytes.len();
    if room.len() < bytes.len() {
        return false;
    }
    room[..bytes.len()].copy_from_slice(bytes);
    true
}
