// The lesser and the greater of two numbers;
// and the definitions and laws on lists, bits and tests that every other crate is written with.
#![tactic(auto)]

ghost use Rattle.std.specs.Prelude.{◌≡◌, ◌≤◌, ◌++◌, length, take, drop, min, max};

pub fn lesser(a: usize, b: usize) -> usize
    ensures { result ≡ min a b }
{
    usize::min(a, b)
}

pub fn greater(a: usize, b: usize) -> usize
    ensures { result ≡ max a b }
{
    usize::max(a, b)
}

// The same of bytes, as loops over rows want it.
pub fn lesser_byte(a: u8, b: u8) -> u8
    ensures { result ≡ min a b }
{
    u8::min(a, b)
}

pub fn greater_byte(a: u8, b: u8) -> u8
    ensures { result ≡ max a b }
{
    u8::max(a, b)
}

// The bytes of s to the start of t; it gives how many they are.
pub fn copy(s: &[u8], t: &mut [u8]) -> usize
    requires { length s.now ≤ length t.old }
    ensures value { result ≡ length s.now }
    ensures bytes { t.new ≡ take (length s.now) s.now ++ drop (length s.now) t.old }
{
    let n = s.len();
    t[..n].copy_from_slice(s);
    n
}
