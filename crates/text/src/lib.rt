// How long a text of echtext can be, and what it prints of a refusal.
#![tactic(auto)]

ghost use Rattle.std.specs.Prelude.{◌≡◌, ◌++◌, ◌+◌, ◌*◌, ◌≤◌, length, drop};
ghost use Rattle.picture.specs.Frame.{most_pings, most_bins};
ghost use Rattle.text.specs.Text.{most_line, most_text, refused_line};

use picture::Depth;

// The longest that a line of w points can be, its line feed with it.
fn most_line(depth: Depth, w: usize) -> usize
    requires { w ≤ most_pings }
    ensures { (result ≡ most_line depth w) × (result ≤ 4096) }
{
    match depth {
        Depth::OneBit => w + 1,
        Depth::EightBit => 4 * w,
    }
}

// The longest that the text of a picture can be, by its size and kind alone.
pub fn most_len(depth: Depth, w: usize, h: usize, kind: usize) -> usize
    requires { (w ≤ most_pings) × (h ≤ most_bins) }
    ensures { result ≡ most_text depth w h kind }
{
    let n = h * most_line(depth, w);
    12 + decimals::decimal_len(w) + decimals::decimal_len(h) + decimals::decimal_len(kind) + n
}

// The line of a refusal at the start of t; the further bytes stay.
pub fn put_refused(t: &mut [u8], number: usize) -> usize
    requires { length (refused_line number) ≤ length t.old }
    ensures value { result ≡ length (refused_line number) }
    ensures t_after { t.new
        ≡ refused_line number ++ drop (length (refused_line number)) t.old }
{
    let a = decimals::put_labelled(t, 0, b"refused ", number);
    digits::put_byte(t, a, b'\n')
}
