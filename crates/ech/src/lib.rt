// The ECH file, version 1, read.
#![tactic(auto)]

ghost use Rattle.std.specs.Prelude.{◌≡◌, length};
ghost use Rattle.ech.specs.File.{two_bytes, known_kind, depth_of, face_of, reported};
ghost use Rattle.ech.specs.File.{reported_kind, formed, pings_of, bins_of};
ghost use Rattle.ech.specs.ReadWrite.{GivenBack, read_answer, read_target};
ghost use Rattle.ech.specs.Steps.Body.{body_answer};

use answer::Refusal;
use judge::Padding;
use picture::{Depth, Face};

// The bytes before the body.
pub const HEAD: usize = 10;

// What a file that was read says of its picture.
#[derive(Clone, Copy, Debug, PartialEq, Eq)]
pub struct Header {
    pub kind: usize,
    pub w: usize,
    pub h: usize,
}

// Two bytes, low byte first.
fn two(low: u8, high: u8) -> usize
    ensures { result ≡ two_bytes low high }
{
    usize::from(u16::from_le_bytes([low, high]))
}

// A kind stays a number: `is_known` and `depth_of` answer for any, and no enum of three kinds holds those.
pub fn is_known(kind: usize) -> bool
    ensures { result ≡ known_kind kind }
{
    matches!(kind, 1..=3)
}

// A picture of kind 2 is 8-bit, of any other one-bit.
pub fn depth_of(kind: usize) -> Depth
    ensures { result ≡ depth_of kind }
{
    match kind {
        2 => Depth::EightBit,
        _ => Depth::OneBit,
    }
}

fn face_of(kind: usize) -> Face
    ensures { result ≡ face_of kind }
{
    match kind {
        3 => Face::TurnedOver,
        _ => Face::AsIs,
    }
}

// Kind 3 is retired: its picture is reported as one of kind 1.
fn reported_kind(kind: usize) -> usize
    ensures { result ≡ reported kind }
{
    match kind {
        3 => 1,
        _ => kind,
    }
}

// At least ten bytes, the three letters, version 1 and a kind that there is.
#[tactic(auto, using(crate::proofs::Judging::marked_is), unfolding(crate::specs::File::formed))]
fn is_formed(f: &[u8]) -> bool
    ensures { result ≡ formed f.now }
{
    f.len() >= HEAD && f.starts_with(b"ECH") && two(f[3], f[4]) == 1 && is_known(usize::from(f[5]))
}

// What a read of a body answers, for a file of a known kind and a target of `room` bytes.
fn judge_body(kind: usize, w: usize, h: usize, body: &[u8], room: usize) -> Result<Header, Refusal>
    ensures { GivenBack (body_answer kind w h body.now room) (reported kind) w h result }
{
    judge::refusal(Padding::Judged, depth_of(kind), w, h, body, Ok(()), 0, room)?;
    Ok(Header {
        kind: reported_kind(kind),
        w,
        h,
    })
}

// What a read of the file answers, for a target of `room` bytes: nothing is written.
pub fn judge_ech(file: &[u8], room: usize) -> Result<Header, Refusal>
    ensures { GivenBack (read_answer file.now room) (reported_kind file.now)
        (pings_of file.now) (bins_of file.now) result }
{
    if !is_formed(file) {
        return Err(Refusal::Form);
    }
    let kind = usize::from(file[5]);
    let w = two(file[6], file[7]);
    let h = two(file[8], file[9]);
    judge_body(kind, w, h, &file[HEAD..], room)
}

// Reads a file's picture into the target; a refusal writes nothing.
// The file's own byte says whether its body is turned over: the kind that is reported no longer does.
pub fn read_ech(file: &[u8], target: &mut [u8]) -> Result<Header, Refusal>
    ensures given_back { GivenBack (read_answer file.now (length target.old))
        (reported_kind file.now) (pings_of file.now) (bins_of file.now) result }
    ensures target_after { target.new ≡ read_target file.now target.old }
{
    let head = judge_ech(file, target.len())?;
    let depth = depth_of(head.kind);
    let face = face_of(usize::from(file[5]));
    copies::copy_picture(depth, face, &file[HEAD..], target, head.w, head.h);
    Ok(head)
}
