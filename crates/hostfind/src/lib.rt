// What a host program in C calls to have a chain found for an element.
// Nothing is asked of the host but that the buffers it lends do not overlap.
// The promises are those of the library's own function, with the answer packed.
#![tactic(auto)]

ghost use Rattle.std.specs.Prelude.{◌≡◌, ◌+◌, ◌*◌, ◌^◌, ◌<◌, length};
ghost use Rattle.chainfor.specs.Find.{chain_left};
ghost use Rattle.hostfind.specs.Find.{find_number};

use answer::Refusal;
use chainfor::Unfound;

// The number of an answer, with what comes with it: the links, or why there are none; and the bytes.
fn pack_chain(number: u32, links: usize, bytes: usize) -> u64
    requires { (links < 2 ^ 16) × (bytes < 2 ^ 16) }
    ensures { result ≡ number + links * 2 ^ 16 + bytes * 4294967296 }
{
    (number as u64) + (links as u64) * 0x10000 + (bytes as u64) * 0x100000000
}

#[unsafe(no_mangle)]
pub extern "C" fn qik_find_chain(element: &[u8], chain: &mut [u8]) -> u64
    ensures number { result ≡ find_number element.now (length chain.old) }
    ensures bytes { chain.new ≡ chain_left element.now chain.old }
{
    match chainfor::find_chain(element, chain) {
        Ok(found) => pack_chain(answer::pack(Ok(())), found.links, found.bytes),
        Err(Unfound::Refused(r)) => pack_chain(answer::pack(Err(r)), 0, 0),
        Err(Unfound::GaveUp) => pack_chain(answer::pack(Err(Refusal::NoChain)), 1, 0),
    }
}
