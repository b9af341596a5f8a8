// What a host program in C calls of the size spectrum.
// Nothing is asked of the host but that the buffers it lends do not overlap.
// The promises are those of the library's own function, with the answer packed.
#![tactic(auto)]

ghost use Rattle.std.specs.Prelude.{◌≡◌, length};
ghost use Rattle.answer.specs.Packed.{packed};
ghost use Rattle.spectrum.specs.Calls.{spectrum_answer, counts_left, scratch_left};

#[unsafe(no_mangle)]
pub extern "C" fn qik_size_spectrum(
    w: u64,
    h: u64,
    source: &[u8],
    counts: &mut [u32],
    scratch: &mut [u8],
) -> u32
    ensures number { result ≡ packed (spectrum_answer w h source.now
        (length counts.old) (length scratch.old)) }
    ensures counts { counts.new
        ≡ counts_left w h source.now (length scratch.old) counts.old }
    ensures scratch { scratch.new
        ≡ scratch_left w h source.now (length counts.old) scratch.old }
{
    answer::pack(spectrum::spectrum(w as usize, h as usize, source, counts, scratch))
}
