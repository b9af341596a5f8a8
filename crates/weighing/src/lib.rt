// A row of bytes joined with another, each of its bytes weighed first by a cell's height.
#![tactic(auto)]

ghost use Rattle.std.specs.Prelude.{◌≡◌, ◌≤◌, length};
ghost use Rattle.basics.specs.Zip.{zip_in};
ghost use Rattle.morphology.specs.Weighted.{held_less, held_more, lower, raise};
ghost use Rattle.rows.specs.Steps.Ways.{weigh_by};
ghost use Rattle.rows.specs.Steps.Fold.{join_by};

fn join(grows: bool, a: u8, b: u8) -> u8
    ensures { result ≡ join_by grows a b }
{
    if grows {
        return a.max(b);
    }
    a.min(b)
}

// Each byte of t joined with the one beside it,
// by an unconditional store, which is compiled to vector instructions.
fn join_row(grows: bool, t: &mut [u8], by: &[u8])
    requires { length by.now ≤ length t.old }
    ensures { t.new ≡ zip_in (join_by grows) t.old by.now }
{
    for i in 0..by.len() {
        t[i] = join(grows, t[i], by[i]);
    }
}

// A value with a height added, and with one taken away, held to 0..255.
// A height is a byte: 0 to 127 are themselves, 129 to 255 stand for -127 to -1.
fn held_more(g: u8, v: u8) -> u8
    ensures { result ≡ held_more g v }
{
    if g < element::SIGN_BIT {
        v.saturating_add(g)
    } else {
        v.saturating_sub(255 - g + 1)
    }
}

fn held_less(g: u8, v: u8) -> u8
    ensures { result ≡ held_less g v }
{
    if g < element::SIGN_BIT {
        v.saturating_sub(g)
    } else {
        v.saturating_add(255 - g + 1)
    }
}

// What a value contributes to a dilation, and to an erosion: at the end itself, at any height.
// These two and the sums above are the only functions that know the weighted rule.
fn raised(g: u8, v: u8) -> u8
    ensures { result ≡ raise g v }
{
    if v == 0 { 0 } else { held_more(g, v) }
}

fn lowered(g: u8, v: u8) -> u8
    ensures { result ≡ lower g v }
{
    if v == 255 { 255 } else { held_less(g, v) }
}

// What a cell of height g makes of a value.
fn weighed(grows: bool, g: u8, v: u8) -> u8
    ensures { result ≡ weigh_by grows g v }
{
    if grows {
        return raised(g, v);
    }
    lowered(g, v)
}

// As `join_row`, each byte beside being weighed first.
fn join_weighed(grows: bool, g: u8, t: &mut [u8], by: &[u8])
    requires { length by.now ≤ length t.old }
    ensures { t.new
        ≡ zip_in (λ u v. join_by grows u (weigh_by grows g v)) t.old by.now }
{
    for i in 0..by.len() {
        t[i] = join(grows, t[i], weighed(grows, g, by[i]));
    }
}

// The same; at height 0, a flat element's, a value stays as it is, and the plain loop does.
pub fn join_cell(grows: bool, g: u8, t: &mut [u8], by: &[u8])
    requires { length by.now ≤ length t.old }
    ensures { t.new
        ≡ zip_in (λ u v. join_by grows u (weigh_by grows g v)) t.old by.now }
{
    if g == 0 {
        join_row(grows, t, by);
        return;
    }
    join_weighed(grows, g, t, by);
}
