// The rows that two rows of a result see by the rows of a rectangle, joined down the columns.
#![tactic(auto)]

ghost use Rattle.std.specs.Prelude.{◌≡◌, ◌-◌, length};
ghost use Rattle.basics.specs.Lists.{firsts};
ghost use Rattle.boxseen.specs.Steps.Seen.{upper_at, lower_at, LeadFit};

// In `one` the rows that row y sees, joined, and in `other` those that row z sees; o is the origin's row, of
// `high`. The rows that both see are joined once.
pub fn lead(
    packed: bool,
    grows: bool,
    s: &[u8],
    one: &mut [u8],
    other: &mut [u8],
    h: usize,
    o: usize,
    high: usize,
    y: usize,
    z: usize,
)
    requires { LeadFit (length s.now) (length one.old) (length other.old) h o high y z }
    ensures first { one.new
        ≡ firsts (upper_at packed grows s.now (length one.old) h o high y z)
        (length one.old) }
    ensures second { other.new
        ≡ firsts (lower_at packed grows s.now (length one.old) h o high y z)
        (length one.old) }
{
    let above = boxrow::before(grows, o, high);
    let lo = z.saturating_sub(above);
    let end = basics::lesser(y + high - above, h);
    let last = basics::lesser(z + high - above - 1, h - 1);
    let n = one.len();
    columns::pair(
        packed,
        grows,
        &s[..h * n],
        one,
        other,
        y.saturating_sub(above),
        lo,
        end - lo,
        last,
    );
}
