// echtext: a job from standard input, its text to standard output. All of the work is crate job's.
#![tactic(auto)]

ghost use Rattle.std.specs.Prelude.{◌≡◌};
ghost use Rattle.answer.specs.Answer.{told, plain};

use std::io;
use work::Outcome;

// One byte more than a job may have, so that a longer one is seen.
const INPUT: usize = job::MOST_JOB + 1;

// How many bytes are printed. ROOM would print none, so that the buffers must be long enough for every job.
fn printed(done: Outcome) -> usize
    requires { told done.answer ≡ plain 8 → ⊥ }
    ensures { result ≡ done.printed }
{
    done.printed
}

fn main(rt: HostRuntime) -> io::Result<()> {
    let mut input = [0u8; INPUT];
    let mut picture = [0u8; job::MOST_JOB];
    let mut result = [0u8; job::MOST_JOB];
    let mut scratch = [0u8; job::MOST_JOB];
    let mut text = [0u8; job::TEXT_ROOM];
    let n = lines::read_full(&mut rt.reader(), &mut input)?;
    let done = job::run_job(
        &input[..n],
        &mut picture,
        &mut result,
        &mut scratch,
        &mut text,
    );
    let k = printed(done);
    rt.write_all(&text[..k])
}
