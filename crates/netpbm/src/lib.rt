// Raw PBM and raw PGM files, read: one reader over the depth, and two for users.
#![tactic(auto)]

ghost use Rattle.std.specs.Prelude.{◌≡◌, length};
ghost use Rattle.netpbm.specs.File.{maximum_right, pings_of, bins_of};
ghost use Rattle.netpbm.specs.ReadWrite.{GivenBack, read_answer, read_target};
ghost use Rattle.netpbm.specs.Steps.Raster.{raster_answer};

use answer::Refusal;
use judge::Padding;
use picture::{Depth, Face};

// What a file that was read says of its picture.
#[derive(Clone, Copy, Debug, PartialEq, Eq)]
pub struct Header {
    pub w: usize,
    pub h: usize,
}

// A PGM maximum is 255; PBM has none.
fn is_right(depth: Depth, most: usize) -> bool
    ensures { result ≡ maximum_right depth most }
{
    match depth {
        Depth::OneBit => true,
        Depth::EightBit => most == 255,
    }
}

// What a read of a raster answers, for a target of `room` bytes: its padding is free.
fn judge_raster(
    depth: Depth,
    w: usize,
    h: usize,
    raster: &[u8],
    room: usize,
) -> Result<Header, Refusal>
    ensures { GivenBack (raster_answer depth w h raster.now room) w h result }
{
    judge::refusal(Padding::Free, depth, w, h, raster, Ok(()), 0, room)?;
    Ok(Header { w, h })
}

// Reads a file of the depth's own magic into the target; a refusal writes nothing.
fn read_file(depth: Depth, file: &[u8], target: &mut [u8]) -> Result<Header, Refusal>
    ensures given_back { GivenBack (read_answer depth file.now (length target.old))
        (pings_of depth file.now) (bins_of depth file.now) result }
    ensures target_after { target.new ≡ read_target depth file.now target.old }
{
    let Some(found) = pnmheader::read_header(depth, file) else {
        return Err(Refusal::Netpbm);
    };
    if !is_right(depth, found.most) {
        return Err(Refusal::Netpbm);
    }
    let raster = &file[found.at..];
    let head = judge_raster(depth, found.w, found.h, raster, target.len())?;
    copies::copy_picture(depth, Face::AsIs, raster, target, head.w, head.h);
    Ok(head)
}

// Reads a raw PBM file (P4): 1, which is black, is an echo.
pub fn read_pbm(file: &[u8], target: &mut [u8]) -> Result<Header, Refusal>
    ensures given_back { GivenBack (read_answer Depth.OneBit file.now (length target.old))
        (pings_of Depth.OneBit file.now) (bins_of Depth.OneBit file.now) result }
    ensures target_after { target.new
        ≡ read_target Depth.OneBit file.now target.old }
{
    read_file(Depth::OneBit, file, target)
}

// Reads a raw PGM file (P5) whose maximum is 255.
pub fn read_pgm(file: &[u8], target: &mut [u8]) -> Result<Header, Refusal>
    ensures given_back { GivenBack (read_answer Depth.EightBit file.now (length target.old))
        (pings_of Depth.EightBit file.now) (bins_of Depth.EightBit file.now) result }
    ensures target_after { target.new
        ≡ read_target Depth.EightBit file.now target.old }
{
    read_file(Depth::EightBit, file, target)
}
