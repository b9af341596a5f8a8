// An operation and an element's outline in one number, the plan: handed on it takes one register, and
// nothing of it stands on the stack.
#![tactic(auto)]

ghost use Rattle.std.specs.Prelude.{◌≡◌, cond, ◌≤◌};
ghost use Rattle.plan.specs.Steps.Plan.{Small, plan_of, outline_by, grows_by};

use element::Outline;
use picture::{Bin, Ping, Point};

// Each number of an outline is less than this; a plan that grows has one more digit.
const EACH: usize = 128;

const GROWS: usize = EACH * EACH * EACH * EACH;

// What stands above the fourth digit.
fn above(grows: bool) -> usize
    ensures { (result ≡ cond grows 128 0) × (result ≤ 128) }
{
    if grows { EACH } else { 0 }
}

// The plan of an operation, by the outline of an element within its limits.
pub fn plan_of(grows: bool, o: Outline) -> usize
    requires { Small o }
    ensures { result ≡ plan_of grows o }
{
    let origin = o.origin;
    let column = origin.ping;
    let row = origin.bin;
    let more = above(grows);
    (((more + row.0 as usize) * EACH + column.0 as usize) * EACH + o.h) * EACH + o.w
}

// The outline in a plan.
pub fn outline_of(plan: usize) -> Outline
    ensures { result ≡ outline_by plan }
{
    let ping = Ping((plan / (EACH * EACH) % EACH) as u16);
    let bin = Bin((plan / (EACH * EACH * EACH) % EACH) as u16);
    Outline {
        w: plan % EACH,
        h: plan / EACH % EACH,
        origin: Point { ping, bin },
    }
}

// Whether the operation grows.
pub fn grows_of(plan: usize) -> bool
    ensures { result ≡ grows_by plan }
{
    GROWS <= plan
}
