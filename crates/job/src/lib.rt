// A job of echtext: its bytes in, the bytes of its text out.
// Which job it is, is read here; crate work does the rest.
#![tactic(auto)]

ghost use Rattle.std.specs.Prelude.{◌≡◌, length};
ghost use Rattle.answer.specs.Answer.{told};
ghost use Rattle.work.specs.Prints.{over, Carried};
ghost use Rattle.job.specs.Job.{default_element, trailing_element, element_by, file_by, job_answer};
ghost use Rattle.job.specs.Job.{job_printed, job_picture, job_result, job_scratch};
ghost use Rattle.job.specs.Steps.Decided.{asked_of, flag_answer};

use answer::Refusal;
use work::{Operation, Outcome};

// The most bytes of a job, which its picture's bytes never exceed;
// and room for the text of any job (proofs/Room.antt: with both, ROOM is never answered).
pub const MOST_JOB: usize = 32768;

pub const TEXT_ROOM: usize = 262400;

// What a letter asks for, where there is such a letter: the job is refused where there is none.
fn asked_of(letter: u8) -> Option<Operation>
    ensures { result ≡ asked_of letter }
{
    match letter {
        b'e' => Some(Operation::Erode),
        b'd' => Some(Operation::Dilate),
        b'o' => Some(Operation::Open),
        b'c' => Some(Operation::Close),
        _ => None,
    }
}

// 31 cells, dx from 0 to 30, dy 0.
#[tactic(auto, unfolding(crate::specs::Job::default_element))]
fn default_element() -> [u8; 8]
    ensures { result ≡ default_element }
{
    [31, 1, 0, 0, 255, 255, 255, 254]
}

// The default that was: 31 cells, dx from -30 to 0, dy 0.
#[tactic(auto, unfolding(crate::specs::Job::trailing_element))]
fn trailing_element() -> [u8; 8]
    ensures { result ≡ trailing_element }
{
    [31, 1, 30, 0, 255, 255, 255, 254]
}

// By the flag: the default element, a descriptor that ends where its own w and h say,
// or the trailing default. Another is refused.
fn by_flag(
    op: Operation,
    flag: u8,
    rest: &[u8],
    source: &mut [u8],
    res: &mut [u8],
    scratch: &mut [u8],
    text: &mut [u8],
) -> Outcome
    ensures { Carried
        (flag_answer flag rest.now source.old
        res.old scratch.old text.old)
        op (element_by flag rest.now) (file_by flag rest.now) source.old
        res.old scratch.old
        text.old result source.new res.new
        scratch.new text.new }
{
    match flag {
        0 => {
            let descriptor = default_element();
            work::carry_out(op, &descriptor, rest, source, res, scratch, text)
        }
        1 => {
            let n = element::descriptor_len(rest);
            work::carry_out(op, &rest[..n], &rest[n..], source, res, scratch, text)
        }
        2 => {
            let descriptor = trailing_element();
            work::carry_out(op, &descriptor, rest, source, res, scratch, text)
        }
        _ => work::refused(Err(Refusal::Job), text),
    }
}

// A job's bytes into the text's.
// The work buffers take the file's picture, the result and, of opening and closing, the middle picture.
pub fn run_job(
    job: &[u8],
    picture: &mut [u8],
    res: &mut [u8],
    scratch: &mut [u8],
    text: &mut [u8],
) -> Outcome
    ensures answer { told result.answer
        ≡ job_answer job.now picture.old
        res.old scratch.old text.old }
    ensures length { result.printed
        ≡ length
        (job_printed job.now picture.old
        res.old scratch.old text.old) }
    ensures picture { picture.new
        ≡ job_picture job.now picture.old
        res.old scratch.old text.old }
    ensures res { res.new
        ≡ job_result job.now picture.old
        res.old scratch.old text.old }
    ensures scratch { scratch.new
        ≡ job_scratch job.now picture.old
        res.old scratch.old text.old }
    ensures text { text.new
        ≡ over
        (job_printed job.now picture.old
        res.old scratch.old text.old)
        text.old }
{
    if job.len() < 2 {
        return work::refused(Err(Refusal::Job), text);
    }
    if MOST_JOB < job.len() {
        return work::refused(Err(Refusal::Job), text);
    }
    match asked_of(job[0]) {
        Some(op) => by_flag(op, job[1], &job[2..], picture, res, scratch, text),
        None => work::refused(Err(Refusal::Job), text),
    }
}
