// The ECH file, version 1, written.
#![tactic(auto)]

ghost use Rattle.std.specs.Prelude.{◌≡◌, true, ◌++◌, ◌+◌, ◌≤◌, length, drop};
ghost use Rattle.answer.specs.Answer.{told, plain};
ghost use Rattle.answer.specs.Refuse.{refuse};
ghost use Rattle.picture.specs.Frame.{most_pings, most_bins, picture_bytes};
ghost use Rattle.judge.specs.Tests.{Admitted};
ghost use Rattle.ech.specs.File.{head_bytes, known_kind, depth_of, head_of, file_of};
ghost use Rattle.ech.specs.ReadWrite.{retired_tests, write_answer, write_target};

use answer::{Answer, Refusal};
use ech::HEAD;
use judge::Padding;
use picture::Face;

// The ten bytes before the body: the mark, version 1, the kind, W and H, low bytes first.
#[tactic(auto, unfolding(ech::specs::File::head_of))]
fn head_of(kind: usize, w: usize, h: usize) -> [u8; HEAD]
    requires { (kind ≤ 3) × ((w ≤ most_pings) × (h ≤ most_bins)) }
    ensures { result ≡ head_of kind w h }
{
    let [low_w, high_w] = (w as u16).to_le_bytes();
    let [low_h, high_h] = (h as u16).to_le_bytes();
    [
        b'E', b'C', b'H', 1, 0, kind as u8, low_w, high_w, low_h, high_h,
    ]
}

// Writes head and body.
fn put_file(kind: usize, w: usize, h: usize, source: &[u8], target: &mut [u8])
    requires kind_value { known_kind kind ≡ true }
    requires admitted { Admitted Padding.Free (depth_of kind) w h source.now head_bytes (length target.old) }
    ensures { target.new
        ≡ file_of kind w h source.now
        ++ drop (head_bytes + picture_bytes (depth_of kind) w h) target.old }
{
    let depth = ech::depth_of(kind);
    let head = head_of(kind, w, h);
    basics::copy(&head, target);
    copies::copy_picture(depth, Face::AsIs, source, &mut target[HEAD..], w, h);
}

// What is found of the kind between the picture and its room: kind 3 is no longer made.
fn retired(kind: usize) -> Answer
    ensures { told result ≡ refuse (retired_tests kind) (plain 0) }
{
    match kind {
        3 => Err(Refusal::Retired),
        _ => Ok(()),
    }
}

// Writes a picture as a file of the kind.
pub fn write_ech(kind: usize, w: usize, h: usize, source: &[u8], target: &mut [u8]) -> Answer
    ensures result_value { told result ≡ write_answer kind w h source.now target.old }
    ensures target_after { target.new ≡ write_target kind w h source.now target.old }
{
    if !ech::is_known(kind) {
        return Err(Refusal::Form);
    }
    let depth = ech::depth_of(kind);
    let room = target.len();
    judge::refusal(
        Padding::Free,
        depth,
        w,
        h,
        source,
        retired(kind),
        HEAD,
        room,
    )?;
    put_file(kind, w, h, source, target);
    Ok(())
}
