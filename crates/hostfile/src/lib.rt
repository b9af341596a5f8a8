// What a host program in C calls of files: ECH, PBM and PGM, read and written.
// Nothing is asked of the host but that the buffers it lends do not overlap.
// The promises are those of the library's own functions, with the answer packed.
#![tactic(auto)]

ghost use Rattle.std.specs.Prelude.{◌≡◌, ◌+◌, ◌*◌, ◌^◌, ◌≤◌};
ghost use Rattle.answer.specs.Packed.{packed};
ghost use Rattle.picture.specs.Frame.{most_pings, most_bins};
ghost use Rattle.ech.specs.ReadWrite.{read_target, write_answer, write_target};
ghost use Rattle.netpbm.specs.ReadWrite as files;
ghost use Rattle.hostfile.specs.Read.{read_number, pnm_number};

use picture::Depth;

// The answer of a read, with the kind and the size of the picture: 0 for each where it is refused.
fn pack_read(number: u32, kind: usize, w: usize, h: usize) -> u64
    requires { (kind ≤ 3) × ((w ≤ most_pings) × (h ≤ most_bins)) }
    ensures { result ≡ number + kind * 2 ^ 8 + w * 2 ^ 16 + h * 4294967296 }
{
    u64::from(number) + (kind as u64) * 0x100 + (w as u64) * 0x10000 + (h as u64) * 0x100000000
}

#[unsafe(no_mangle)]
pub extern "C" fn qik_ech_read(file: &[u8], target: &mut [u8]) -> u64
    ensures number { result ≡ read_number file.now target.old }
    ensures bytes { target.new ≡ read_target file.now target.old }
{
    match ech::read_ech(file, target) {
        Ok(head) => pack_read(0, head.kind, head.w, head.h),
        Err(why) => pack_read(answer::pack(Err(why)), 0, 0, 0),
    }
}

#[unsafe(no_mangle)]
pub extern "C" fn qik_ech_write(kind: u64, w: u64, h: u64, source: &[u8], target: &mut [u8]) -> u32
    ensures number { result ≡ packed (write_answer kind w h source.now target.old) }
    ensures bytes { target.new
        ≡ write_target kind w h source.now target.old }
{
    answer::pack(echwrite::write_ech(kind as usize, w as usize, h as usize, source, target))
}

#[unsafe(no_mangle)]
pub extern "C" fn qik_pbm_read(file: &[u8], target: &mut [u8]) -> u64
    ensures number { result ≡ pnm_number Depth.OneBit file.now target.old }
    ensures bytes { target.new
        ≡ files.read_target Depth.OneBit file.now target.old }
{
    match netpbm::read_pbm(file, target) {
        Ok(head) => pack_read(0, 0, head.w, head.h),
        Err(why) => pack_read(answer::pack(Err(why)), 0, 0, 0),
    }
}

#[unsafe(no_mangle)]
pub extern "C" fn qik_pbm_write(w: u64, h: u64, source: &[u8], target: &mut [u8]) -> u32
    ensures number { result
        ≡ packed (files.write_answer Depth.OneBit w h source.now target.old) }
    ensures bytes { target.new
        ≡ files.write_target Depth.OneBit w h source.now target.old }
{
    answer::pack(pnmwrite::write_pbm(w as usize, h as usize, source, target))
}

#[unsafe(no_mangle)]
pub extern "C" fn qik_pgm_read(file: &[u8], target: &mut [u8]) -> u64
    ensures number { result ≡ pnm_number Depth.EightBit file.now target.old }
    ensures bytes { target.new
        ≡ files.read_target Depth.EightBit file.now target.old }
{
    match netpbm::read_pgm(file, target) {
        Ok(head) => pack_read(0, 0, head.w, head.h),
        Err(why) => pack_read(answer::pack(Err(why)), 0, 0, 0),
    }
}

#[unsafe(no_mangle)]
pub extern "C" fn qik_pgm_write(w: u64, h: u64, source: &[u8], target: &mut [u8]) -> u32
    ensures number { result
        ≡ packed (files.write_answer Depth.EightBit w h source.now target.old) }
    ensures bytes { target.new
        ≡ files.write_target Depth.EightBit w h source.now target.old }
{
    answer::pack(pnmwrite::write_pgm(w as usize, h as usize, source, target))
}
