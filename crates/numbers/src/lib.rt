// Numbers of a line of jobs, and where a line ends.
#![tactic(auto)]

ghost use Rattle.std.specs.Prelude.{◌≡◌, ◌<◌, ◌≤◌, length};
ghost use Rattle.numbers.specs.Numbers.{more, number_at, line_end};

// The least byte that is read as a digit: those below it end a number.
const FIRST_DIGIT: u8 = b'0';

// The byte that ends a line.
const LINE_FEED: u8 = b'\n';

// A number of a line, and where the next one is.
#[derive(Clone, Copy)]
pub struct Found {
    pub value: usize,
    pub next: usize,
}

// A number with one more digit.
fn with_digit(v: usize, digit: u8) -> usize
    ensures { result ≡ more v digit }
{
    std::num::wrapping_add_usize(v % 1844674407370955162 * 10, usize::from(digit % 16))
}

// The number at a place: its digits, and the byte below them that ends it. 0 where the line has ended.
pub fn number_at(line: &[u8], at: usize) -> Found
    ensures { result ≡ number_at line.now at }
{
    let mut v = 0;
    for i in at..line.len() {
        let b = line[i];
        if b < FIRST_DIGIT {
            return Found {
                value: v,
                next: i + 1,
            };
        }
        v = with_digit(v, b);
    }
    Found {
        value: v,
        next: at.max(line.len()),
    }
}

// Where a line ends: after its line feed, or with the input.
pub fn line_end(input: &[u8], at: usize) -> usize
    requires { at < length input.now }
    ensures value { result ≡ line_end input.now at }
    ensures lower_bound { (at < result) × (result ≤ length input.now) }
{
    for i in at..input.len() {
        if input[i] == LINE_FEED {
            return i + 1;
        }
    }
    input.len()
}
