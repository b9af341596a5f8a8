// What a host program in C calls of reconstruction.
// Nothing is asked of the host but that the buffers it lends do not overlap.
// The promises are those of the library's own function, with the answer packed.
#![tactic(auto)]

ghost use Rattle.std.specs.Prelude.{◌≡◌, length};
ghost use Rattle.answer.specs.Packed.{packed};
ghost use Rattle.grown.specs.declared.Neighbours.TheVariants as kind;
ghost use Rattle.reconstruct.specs.Reconstruct.{reconstruct_answer, reconstruct_left};

use grown::Neighbours;

// Over the neighbours: W and H of 64 bits in, and one number out.
fn reconstruct(
    neighbours: Neighbours,
    w: u64,
    h: u64,
    marker: &[u8],
    mask: &[u8],
    target: &mut [u8],
) -> u32
    ensures number { result ≡ packed (reconstruct_answer w h marker.now
        mask.now (length target.old)) }
    ensures bytes { target.new
        ≡ reconstruct_left neighbours w h marker.now mask.now target.old }
{
    answer::pack(reconstruct::reconstruct(neighbours, w as usize, h as usize, marker, mask, target))
}

#[unsafe(no_mangle)]
pub extern "C" fn qik_reconstruct_cross(
    w: u64,
    h: u64,
    marker: &[u8],
    mask: &[u8],
    target: &mut [u8],
) -> u32
    ensures number { result ≡ packed (reconstruct_answer w h marker.now
        mask.now (length target.old)) }
    ensures bytes { target.new
        ≡ reconstruct_left kind.Cross w h marker.now mask.now target.old }
{
    reconstruct(Neighbours::Cross, w, h, marker, mask, target)
}

#[unsafe(no_mangle)]
pub extern "C" fn qik_reconstruct_square(
    w: u64,
    h: u64,
    marker: &[u8],
    mask: &[u8],
    target: &mut [u8],
) -> u32
    ensures number { result ≡ packed (reconstruct_answer w h marker.now
        mask.now (length target.old)) }
    ensures bytes { target.new
        ≡ reconstruct_left kind.Square w h marker.now mask.now target.old }
{
    reconstruct(Neighbours::Square, w, h, marker, mask, target)
}
