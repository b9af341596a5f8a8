// What a host program in C calls of the nesting of regions.
// Nothing is asked of the host but that the buffers it lends do not overlap.
// The promises are those of the library's own function, with the answer packed.
#![tactic(auto)]

ghost use Rattle.std.specs.Prelude.{◌≡◌, ◌+◌, ◌*◌, ◌^◌, length};
ghost use Rattle.nesting.specs.Nesting.{nest_left, OfRegions};
ghost use Rattle.hostnest.specs.Nest.{nest_number};

// The answer, with the number of regions.
fn pack_nested(number: u32, regions: u32) -> u64
    ensures { result ≡ number + regions * 2 ^ 16 }
{
    (number as u64) + (regions as u64) * 0x10000
}

#[unsafe(no_mangle)]
pub extern "C" fn qik_nesting(w: u64, h: u64, source: &[u8], list: &mut [u32]) -> u64
    ensures number { OfRegions source.now w h (λ R.
        result ≡ nest_number R w h (length source.now) (length list.old)) }
    ensures numbers { OfRegions source.now w h (λ R.
        list.new ≡ nest_left R w h (length source.now) list.old) }
{
    match nesting::nest(w as usize, h as usize, source, list) {
        Ok(regions) => pack_nested(answer::pack(Ok(())), regions),
        Err(refusal) => pack_nested(answer::pack(Err(refusal)), 0),
    }
}
