// Bytes put at a place of a buffer, one after another; each gives the next place.
#![tactic(auto)]

ghost use Rattle.std.specs.Prelude.{◌≡◌, [], ◌∷◌, ◌+◌, ◌≤◌, ◌<◌, length};
ghost use Rattle.digits.specs.Put.{put};

// One byte.
pub fn put_byte(t: &mut [u8], at: usize, b: u8) -> usize
    requires { at < length t.old }
    ensures value { result ≡ at + 1 }
    ensures t_after { t.new ≡ put at (b ∷ []) t.old }
{
    t[at] = b;
    at + 1
}

// Bytes.
pub fn put_bytes(t: &mut [u8], at: usize, s: &[u8]) -> usize
    requires { at + length s.now ≤ length t.old }
    ensures value { result ≡ at + length s.now }
    ensures t_after { t.new ≡ put at s.now t.old }
{
    at + basics::copy(s, &mut t[at..])
}
