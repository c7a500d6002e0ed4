// Bytes laid over a buffer from a place on: how many it has there. What lays them is the caller's; specs/ has what it must come to.
#![tactic(auto)]

ghost use Rattle.std.specs.Prelude.{◌≡◌};
ghost use Rattle.splice.specs.Splice.{room_at};

// The bytes from a place on, counted without a sum that could wrap.
pub fn count_room(buffer: &[u8], at: usize) -> usize
    ensures { result ≡ room_at buffer.now at }
{
    buffer.len().saturating_sub(at)
}
