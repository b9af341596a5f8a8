// Two bytes joined at either depth, and a block of them: eight packed points at once, or one value.
#![tactic(auto)]

ghost use Rattle.std.specs.Prelude.{◌≡◌, ◌+◌, ◌≤◌, length};
ghost use Rattle.joins.specs.Steps.Joins.{join_at, joined_at};

pub fn join(packed: bool, grows: bool, a: u8, b: u8) -> u8
    ensures { result ≡ join_at packed grows a b }
{
    if packed {
        if grows {
            return a | b;
        }
        return a & b;
    }
    if grows {
        return basics::greater_byte(a, b);
    }
    basics::lesser_byte(a, b)
}

// A block joined with the bytes of b from the place `at` on.
pub fn join_block(
    packed: bool,
    grows: bool,
    a: [u8; blocks::BLOCK],
    b: &[u8],
    at: usize,
) -> [u8; blocks::BLOCK]
    requires { at + 64 ≤ length b.now }
    ensures { result ≡ joined_at packed grows a b.now at }
{
    let mut c = a;
    for i in 0..blocks::BLOCK {
        c[i] = join(packed, grows, c[i], b[at + i]);
    }
    c
}
