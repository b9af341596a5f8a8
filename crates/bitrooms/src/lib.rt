// Rooms of packed points: a block joined with what stands at any point of a room, eight points at once.
#![tactic(auto)]

ghost use Rattle.std.specs.Prelude.{◌≡◌, ◌+◌, ◌/◌, ◌≤◌, length};
ghost use Rattle.windows.specs.Steps.Places.{place_joined};

// A block joined with the points of b from p points past the place i on.
pub fn join_place(
    grows: bool,
    c: [u8; blocks::BLOCK],
    b: &[u8],
    i: usize,
    p: usize,
) -> [u8; blocks::BLOCK]
    requires { i + p / 8 + 65 ≤ length b.now }
    ensures { result ≡ place_joined grows c b.now i p }
{
    let d = (p % 8) as u32;
    if d == 0 {
        return blocks::join_block(grows, c, b, i + p / 8);
    }
    blocks::join_bits(grows, c, b, i + p / 8, d)
}
