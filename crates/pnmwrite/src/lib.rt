// Raw PBM and raw PGM files, written: one writer over the depth, and two for users.
#![tactic(auto)]

ghost use Rattle.std.specs.Prelude.{◌≡◌, ◌++◌, ◌≤◌, length, drop};
ghost use Rattle.answer.specs.Answer.{told};
ghost use Rattle.digits.specs.Put.{put};
ghost use Rattle.judge.specs.Tests.{Admitted};
ghost use Rattle.netpbm.specs.File.{tail_of, head_of, file_of};
ghost use Rattle.netpbm.specs.ReadWrite.{write_answer, write_target};

use answer::Answer;
use judge::Padding;
use picture::{Depth, Face};

// How many bytes of the line feed, 255 and the line feed end the header: PBM has no maximum.
fn tail_len(depth: Depth) -> usize
    ensures { (result ≡ length (tail_of depth)) × (result ≤ 5) }
{
    match depth {
        Depth::OneBit => 1,
        Depth::EightBit => 5,
    }
}

// The bytes before the body.
fn head_len(depth: Depth, w: usize, h: usize) -> usize
    ensures { result ≡ length (head_of depth w h) }
{
    4 + decimals::decimal_len(w) + decimals::decimal_len(h) + tail_len(depth)
}

// The magic, W and H, of PGM the maximum, at the start of t; the place that follows.
fn put_head(depth: Depth, t: &mut [u8], w: usize, h: usize) -> usize
    requires { length (head_of depth w h) ≤ length t.old }
    ensures value { result ≡ length (head_of depth w h) }
    ensures t_after { t.new ≡ put 0 (head_of depth w h) t.old }
{
    let magic = [b'P', pnmheader::magic_digit(depth), b'\n'];
    let a = decimals::put_labelled(t, 0, &magic, w);
    let b = decimals::put_labelled(t, a, b" ", h);
    let tail = [b'\n', b'2', b'5', b'5', b'\n'];
    let n = tail_len(depth);
    digits::put_bytes(t, b, &tail[..n])
}

// Writes head and body.
fn put_file(depth: Depth, w: usize, h: usize, source: &[u8], target: &mut [u8])
    requires { Admitted Padding.Free depth w h source.now (length (head_of depth w h))
        (length target.old) }
    ensures { target.new
        ≡ file_of depth w h source.now
        ++ drop (length (file_of depth w h source.now)) target.old }
{
    let at = put_head(depth, target, w, h);
    copies::copy_picture(depth, Face::AsIs, source, &mut target[at..], w, h);
}

// Writes a picture as a file of the depth's own magic.
fn write_file(depth: Depth, w: usize, h: usize, source: &[u8], target: &mut [u8]) -> Answer
    ensures result_value { told result ≡ write_answer depth w h source.now target.old }
    ensures target_after { target.new
        ≡ write_target depth w h source.now target.old }
{
    let before = head_len(depth, w, h);
    let room = target.len();
    judge::refusal(Padding::Free, depth, w, h, source, Ok(()), before, room)?;
    put_file(depth, w, h, source, target);
    Ok(())
}

// Writes a one-bit picture as a raw PBM file: an echo is 1, which is black.
pub fn write_pbm(w: usize, h: usize, source: &[u8], target: &mut [u8]) -> Answer
    ensures result_value { told result ≡ write_answer Depth.OneBit w h source.now target.old }
    ensures target_after { target.new
        ≡ write_target Depth.OneBit w h source.now target.old }
{
    write_file(Depth::OneBit, w, h, source, target)
}

// Writes an 8-bit picture as a raw PGM file.
pub fn write_pgm(w: usize, h: usize, source: &[u8], target: &mut [u8]) -> Answer
    ensures result_value { told result ≡ write_answer Depth.EightBit w h source.now target.old }
    ensures target_after { target.new
        ≡ write_target Depth.EightBit w h source.now target.old }
{
    write_file(Depth::EightBit, w, h, source, target)
}
