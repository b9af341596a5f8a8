// Numbers in decimal put at a place of a buffer, by themselves or after bytes; each gives the next place.
#![tactic(auto)]

ghost use Rattle.std.specs.Prelude.{◌≡◌, ◌++◌, ◌+◌, ◌≤◌, length};
ghost use Rattle.digits.specs.Put.{put};
ghost use Rattle.digits.specs.Decimal.{digit, decimal};

fn digit_of(n: usize) -> u8
    ensures { result ≡ digit n }
{
    b'0' + (n % 10) as u8
}

// How many digits a number below 10,000 has.
#[tactic(auto, using(crate::proofs::Lengths::lengths))]
pub fn decimal_len(n: usize) -> usize
    ensures { (result ≡ length (decimal n)) × (result ≤ 4) }
{
    match n {
        0..=9 => 1,
        10..=99 => 2,
        100..=999 => 3,
        _ => 4,
    }
}

// A number in decimal: of its four digits the last ones, as many as it has.
pub fn put_decimal(t: &mut [u8], at: usize, n: usize) -> usize
    requires { at + length (decimal n) ≤ length t.old }
    ensures value { result ≡ at + length (decimal n) }
    ensures t_after { t.new ≡ put at (decimal n) t.old }
{
    let zeros = 4 - decimal_len(n);
    let digits = [
        digit_of(n / 1000),
        digit_of(n / 100),
        digit_of(n / 10),
        digit_of(n),
    ];
    digits::put_bytes(t, at, &digits[zeros..])
}

// Bytes, and a number after them.
pub fn put_labelled(t: &mut [u8], at: usize, s: &[u8], n: usize) -> usize
    requires { at + length (s.now ++ decimal n) ≤ length t.old }
    ensures value { result ≡ at + length (s.now ++ decimal n) }
    ensures t_after { t.new ≡ put at (s.now ++ decimal n) t.old }
{
    let next = digits::put_bytes(t, at, s);
    put_decimal(t, next, n)
}
