// What a host program in C calls of the operations on a picture and of chains: numbers and byte slices in,
// one number back. Nothing is asked of the host but that the buffers it lends do not overlap. The promises
// are those of the library's own functions, with the answer packed. All that goes over a picture by an
// element stands in this one crate, so that a board has the ways once.
#![tactic(auto)]

ghost use Rattle.std.specs.Prelude.{◌≡◌, min, length};
ghost use Rattle.answer.specs.Packed.{packed};
ghost use Rattle.picture.specs.Frame.{top};
ghost use Rattle.morphology.specs.Operations as defined;
ghost use Rattle.flat.specs.Flat.{flat_answer, flat_left};
ghost use Rattle.morphology.specs.Weighted.{erode_weighted, dilate_weighted, open_weighted, close_weighted};
ghost use Rattle.hit.specs.Hit.{hit_answer, hit_left};
ghost use Rattle.weighted.specs.Weighted.{weighted_answer, weighted_left};
ghost use Rattle.morphology.specs.TopHats as hats;
ghost use Rattle.answer.specs.Lent.{unless_refused};
ghost use Rattle.chain.specs.Reading.{checked};
ghost use Rattle.chained.specs.Run.{run_answer, eroded, dilated, first_after, second_after};

use picture::Depth;

// Over the depth: W and H of 64 bits in, and one number out.
fn erode(depth: Depth, w: u64, h: u64, source: &[u8], element: &[u8], target: &mut [u8]) -> u32
    ensures number { result ≡ packed (flat_answer depth w h source.now
        element.now (length target.old)) }
    ensures bytes { target.new
        ≡ flat_left depth (defined.erode (top depth)) w h source.now
        element.now (length target.old) target.old }
{
    answer::pack(flat::erode(depth, w as usize, h as usize, source, element, target))
}

fn dilate(depth: Depth, w: u64, h: u64, source: &[u8], element: &[u8], target: &mut [u8]) -> u32
    ensures number { result ≡ packed (flat_answer depth w h source.now
        element.now (length target.old)) }
    ensures bytes { target.new
        ≡ flat_left depth defined.dilate w h source.now
        element.now (length target.old) target.old }
{
    answer::pack(flat::dilate(depth, w as usize, h as usize, source, element, target))
}

fn open(
    depth: Depth,
    w: u64,
    h: u64,
    source: &[u8],
    element: &[u8],
    target: &mut [u8],
    scratch: &mut [u8],
) -> u32
    ensures number { result ≡ packed (flat_answer depth w h source.now
        element.now (min (length target.old) (length scratch.old))) }
    ensures bytes { target.new
        ≡ flat_left depth (defined.opening (top depth)) w h source.now element.now
        (min (length target.old) (length scratch.old)) target.old }
    ensures middle { scratch.new
        ≡ flat_left depth (defined.erode (top depth)) w h source.now element.now
        (min (length target.old) (length scratch.old)) scratch.old }
{
    answer::pack(flat::open(
        depth, w as usize, h as usize, source, element, target, scratch,
    ))
}

fn close(
    depth: Depth,
    w: u64,
    h: u64,
    source: &[u8],
    element: &[u8],
    target: &mut [u8],
    scratch: &mut [u8],
) -> u32
    ensures number { result ≡ packed (flat_answer depth w h source.now
        element.now (min (length target.old) (length scratch.old))) }
    ensures bytes { target.new
        ≡ flat_left depth (defined.closing (top depth)) w h source.now element.now
        (min (length target.old) (length scratch.old)) target.old }
    ensures middle { scratch.new
        ≡ flat_left depth defined.dilate w h source.now element.now
        (min (length target.old) (length scratch.old)) scratch.old }
{
    answer::pack(flat::close(
        depth, w as usize, h as usize, source, element, target, scratch,
    ))
}

#[unsafe(no_mangle)]
pub extern "C" fn qik_erode1(
    w: u64,
    h: u64,
    source: &[u8],
    element: &[u8],
    target: &mut [u8],
) -> u32
    ensures number { result ≡ packed (flat_answer Depth.OneBit w h source.now
        element.now (length target.old)) }
    ensures bytes { target.new
        ≡ flat_left Depth.OneBit (defined.erode (top Depth.OneBit)) w h source.now
        element.now (length target.old) target.old }
{
    erode(Depth::OneBit, w, h, source, element, target)
}

#[unsafe(no_mangle)]
pub extern "C" fn qik_erode8(
    w: u64,
    h: u64,
    source: &[u8],
    element: &[u8],
    target: &mut [u8],
) -> u32
    ensures number { result ≡ packed (flat_answer Depth.EightBit w h source.now
        element.now (length target.old)) }
    ensures bytes { target.new
        ≡ flat_left Depth.EightBit (defined.erode (top Depth.EightBit)) w h source.now
        element.now (length target.old) target.old }
{
    erode(Depth::EightBit, w, h, source, element, target)
}

#[unsafe(no_mangle)]
pub extern "C" fn qik_dilate1(
    w: u64,
    h: u64,
    source: &[u8],
    element: &[u8],
    target: &mut [u8],
) -> u32
    ensures number { result ≡ packed (flat_answer Depth.OneBit w h source.now
        element.now (length target.old)) }
    ensures bytes { target.new
        ≡ flat_left Depth.OneBit defined.dilate w h source.now
        element.now (length target.old) target.old }
{
    dilate(Depth::OneBit, w, h, source, element, target)
}

#[unsafe(no_mangle)]
pub extern "C" fn qik_dilate8(
    w: u64,
    h: u64,
    source: &[u8],
    element: &[u8],
    target: &mut [u8],
) -> u32
    ensures number { result ≡ packed (flat_answer Depth.EightBit w h source.now
        element.now (length target.old)) }
    ensures bytes { target.new
        ≡ flat_left Depth.EightBit defined.dilate w h source.now
        element.now (length target.old) target.old }
{
    dilate(Depth::EightBit, w, h, source, element, target)
}

#[unsafe(no_mangle)]
pub extern "C" fn qik_open1(
    w: u64,
    h: u64,
    source: &[u8],
    element: &[u8],
    target: &mut [u8],
    scratch: &mut [u8],
) -> u32
    ensures number { result ≡ packed (flat_answer Depth.OneBit w h source.now
        element.now (min (length target.old) (length scratch.old))) }
    ensures bytes { target.new
        ≡ flat_left Depth.OneBit (defined.opening (top Depth.OneBit)) w h source.now
        element.now (min (length target.old) (length scratch.old))
        target.old }
    ensures middle { scratch.new
        ≡ flat_left Depth.OneBit (defined.erode (top Depth.OneBit)) w h source.now
        element.now (min (length target.old) (length scratch.old))
        scratch.old }
{
    open(Depth::OneBit, w, h, source, element, target, scratch)
}

#[unsafe(no_mangle)]
pub extern "C" fn qik_open8(
    w: u64,
    h: u64,
    source: &[u8],
    element: &[u8],
    target: &mut [u8],
    scratch: &mut [u8],
) -> u32
    ensures number { result ≡ packed (flat_answer Depth.EightBit w h source.now
        element.now (min (length target.old) (length scratch.old))) }
    ensures bytes { target.new
        ≡ flat_left Depth.EightBit (defined.opening (top Depth.EightBit)) w h source.now
        element.now (min (length target.old) (length scratch.old))
        target.old }
    ensures middle { scratch.new
        ≡ flat_left Depth.EightBit (defined.erode (top Depth.EightBit)) w h source.now
        element.now (min (length target.old) (length scratch.old))
        scratch.old }
{
    open(Depth::EightBit, w, h, source, element, target, scratch)
}

#[unsafe(no_mangle)]
pub extern "C" fn qik_close1(
    w: u64,
    h: u64,
    source: &[u8],
    element: &[u8],
    target: &mut [u8],
    scratch: &mut [u8],
) -> u32
    ensures number { result ≡ packed (flat_answer Depth.OneBit w h source.now
        element.now (min (length target.old) (length scratch.old))) }
    ensures bytes { target.new
        ≡ flat_left Depth.OneBit (defined.closing (top Depth.OneBit)) w h source.now
        element.now (min (length target.old) (length scratch.old))
        target.old }
    ensures middle { scratch.new
        ≡ flat_left Depth.OneBit defined.dilate w h source.now element.now
        (min (length target.old) (length scratch.old)) scratch.old }
{
    close(Depth::OneBit, w, h, source, element, target, scratch)
}

#[unsafe(no_mangle)]
pub extern "C" fn qik_close8(
    w: u64,
    h: u64,
    source: &[u8],
    element: &[u8],
    target: &mut [u8],
    scratch: &mut [u8],
) -> u32
    ensures number { result ≡ packed (flat_answer Depth.EightBit w h source.now
        element.now (min (length target.old) (length scratch.old))) }
    ensures bytes { target.new
        ≡ flat_left Depth.EightBit (defined.closing (top Depth.EightBit)) w h source.now
        element.now (min (length target.old) (length scratch.old))
        target.old }
    ensures middle { scratch.new
        ≡ flat_left Depth.EightBit defined.dilate w h source.now element.now
        (min (length target.old) (length scratch.old)) scratch.old }
{
    close(Depth::EightBit, w, h, source, element, target, scratch)
}

#[unsafe(no_mangle)]
pub extern "C" fn qik_hit_or_miss(
    w: u64,
    h: u64,
    source: &[u8],
    hit: &[u8],
    miss: &[u8],
    target: &mut [u8],
) -> u32
    ensures number { result
        ≡ packed
        (hit_answer w h source.now hit.now
        miss.now (length target.old)) }
    ensures bytes { target.new
        ≡ hit_left w h source.now hit.now
        miss.now (length target.old)
        target.old }
{
    answer::pack(hit::hit_or_miss(w as usize, h as usize, source, hit, miss, target))
}

#[unsafe(no_mangle)]
pub extern "C" fn qik_weighted_erode(
    w: u64,
    h: u64,
    source: &[u8],
    element: &[u8],
    target: &mut [u8],
) -> u32
    ensures number { result ≡ packed (weighted_answer w h source.now
        element.now (length target.old)) }
    ensures bytes { target.new
        ≡ weighted_left erode_weighted w h source.now element.now
        (length target.old) target.old }
{
    answer::pack(weighted::erode(w as usize, h as usize, source, element, target))
}

#[unsafe(no_mangle)]
pub extern "C" fn qik_weighted_dilate(
    w: u64,
    h: u64,
    source: &[u8],
    element: &[u8],
    target: &mut [u8],
) -> u32
    ensures number { result ≡ packed (weighted_answer w h source.now
        element.now (length target.old)) }
    ensures bytes { target.new
        ≡ weighted_left dilate_weighted w h source.now element.now
        (length target.old) target.old }
{
    answer::pack(weighted::dilate(w as usize, h as usize, source, element, target))
}

#[unsafe(no_mangle)]
pub extern "C" fn qik_weighted_open(
    w: u64,
    h: u64,
    source: &[u8],
    element: &[u8],
    target: &mut [u8],
    scratch: &mut [u8],
) -> u32
    ensures number { result ≡ packed (weighted_answer w h source.now element.now
        (min (length target.old) (length scratch.old))) }
    ensures bytes { target.new
        ≡ weighted_left open_weighted w h source.now element.now
        (min (length target.old) (length scratch.old)) target.old }
    ensures middle { scratch.new
        ≡ weighted_left erode_weighted w h source.now element.now
        (min (length target.old) (length scratch.old)) scratch.old }
{
    answer::pack(weighted::open(w as usize, h as usize, source, element, target, scratch))
}

#[unsafe(no_mangle)]
pub extern "C" fn qik_weighted_close(
    w: u64,
    h: u64,
    source: &[u8],
    element: &[u8],
    target: &mut [u8],
    scratch: &mut [u8],
) -> u32
    ensures number { result ≡ packed (weighted_answer w h source.now element.now
        (min (length target.old) (length scratch.old))) }
    ensures bytes { target.new
        ≡ weighted_left close_weighted w h source.now element.now
        (min (length target.old) (length scratch.old)) target.old }
    ensures middle { scratch.new
        ≡ weighted_left dilate_weighted w h source.now element.now
        (min (length target.old) (length scratch.old)) scratch.old }
{
    answer::pack(weighted::close(w as usize, h as usize, source, element, target, scratch))
}

// Over the depth: W and H of 64 bits in, and one number out.
fn white_tophat(
    depth: Depth,
    w: u64,
    h: u64,
    source: &[u8],
    element: &[u8],
    target: &mut [u8],
    scratch: &mut [u8],
) -> u32
    ensures number { result ≡ packed (flat_answer depth w h source.now
        element.now (min (length target.old) (length scratch.old))) }
    ensures bytes { target.new
        ≡ flat_left depth (hats.white_top_hat (top depth)) w h source.now element.now
        (min (length target.old) (length scratch.old)) target.old }
    ensures middle { scratch.new
        ≡ flat_left depth (defined.erode (top depth)) w h source.now element.now
        (min (length target.old) (length scratch.old)) scratch.old }
{
    answer::pack(differences::white_tophat(
        depth, w as usize, h as usize, source, element, target, scratch,
    ))
}

fn black_tophat(
    depth: Depth,
    w: u64,
    h: u64,
    source: &[u8],
    element: &[u8],
    target: &mut [u8],
    scratch: &mut [u8],
) -> u32
    ensures number { result ≡ packed (flat_answer depth w h source.now
        element.now (min (length target.old) (length scratch.old))) }
    ensures bytes { target.new
        ≡ flat_left depth (hats.black_top_hat (top depth)) w h source.now element.now
        (min (length target.old) (length scratch.old)) target.old }
    ensures middle { scratch.new
        ≡ flat_left depth defined.dilate w h source.now element.now
        (min (length target.old) (length scratch.old)) scratch.old }
{
    answer::pack(differences::black_tophat(
        depth, w as usize, h as usize, source, element, target, scratch,
    ))
}

fn gradient(
    depth: Depth,
    w: u64,
    h: u64,
    source: &[u8],
    element: &[u8],
    target: &mut [u8],
    scratch: &mut [u8],
) -> u32
    ensures number { result ≡ packed (flat_answer depth w h source.now
        element.now (min (length target.old) (length scratch.old))) }
    ensures bytes { target.new
        ≡ flat_left depth (hats.gradient (top depth)) w h source.now element.now
        (min (length target.old) (length scratch.old)) target.old }
    ensures middle { scratch.new
        ≡ flat_left depth (defined.erode (top depth)) w h source.now element.now
        (min (length target.old) (length scratch.old)) scratch.old }
{
    answer::pack(differences::gradient(
        depth, w as usize, h as usize, source, element, target, scratch,
    ))
}

#[unsafe(no_mangle)]
pub extern "C" fn qik_white_tophat1(
    w: u64,
    h: u64,
    source: &[u8],
    element: &[u8],
    target: &mut [u8],
    scratch: &mut [u8],
) -> u32
    ensures number { result ≡ packed (flat_answer Depth.OneBit w h source.now
        element.now (min (length target.old) (length scratch.old))) }
    ensures bytes { target.new
        ≡ flat_left Depth.OneBit (hats.white_top_hat (top Depth.OneBit)) w h source.now
        element.now (min (length target.old) (length scratch.old))
        target.old }
    ensures middle { scratch.new
        ≡ flat_left Depth.OneBit (defined.erode (top Depth.OneBit)) w h source.now
        element.now (min (length target.old) (length scratch.old))
        scratch.old }
{
    white_tophat(Depth::OneBit, w, h, source, element, target, scratch)
}

#[unsafe(no_mangle)]
pub extern "C" fn qik_white_tophat8(
    w: u64,
    h: u64,
    source: &[u8],
    element: &[u8],
    target: &mut [u8],
    scratch: &mut [u8],
) -> u32
    ensures number { result ≡ packed (flat_answer Depth.EightBit w h source.now
        element.now (min (length target.old) (length scratch.old))) }
    ensures bytes { target.new
        ≡ flat_left Depth.EightBit (hats.white_top_hat (top Depth.EightBit)) w h source.now
        element.now (min (length target.old) (length scratch.old))
        target.old }
    ensures middle { scratch.new
        ≡ flat_left Depth.EightBit (defined.erode (top Depth.EightBit)) w h source.now
        element.now (min (length target.old) (length scratch.old))
        scratch.old }
{
    white_tophat(Depth::EightBit, w, h, source, element, target, scratch)
}

#[unsafe(no_mangle)]
pub extern "C" fn qik_black_tophat1(
    w: u64,
    h: u64,
    source: &[u8],
    element: &[u8],
    target: &mut [u8],
    scratch: &mut [u8],
) -> u32
    ensures number { result ≡ packed (flat_answer Depth.OneBit w h source.now
        element.now (min (length target.old) (length scratch.old))) }
    ensures bytes { target.new
        ≡ flat_left Depth.OneBit (hats.black_top_hat (top Depth.OneBit)) w h source.now
        element.now (min (length target.old) (length scratch.old))
        target.old }
    ensures middle { scratch.new
        ≡ flat_left Depth.OneBit defined.dilate w h source.now
        element.now (min (length target.old) (length scratch.old))
        scratch.old }
{
    black_tophat(Depth::OneBit, w, h, source, element, target, scratch)
}

#[unsafe(no_mangle)]
pub extern "C" fn qik_black_tophat8(
    w: u64,
    h: u64,
    source: &[u8],
    element: &[u8],
    target: &mut [u8],
    scratch: &mut [u8],
) -> u32
    ensures number { result ≡ packed (flat_answer Depth.EightBit w h source.now
        element.now (min (length target.old) (length scratch.old))) }
    ensures bytes { target.new
        ≡ flat_left Depth.EightBit (hats.black_top_hat (top Depth.EightBit)) w h source.now
        element.now (min (length target.old) (length scratch.old))
        target.old }
    ensures middle { scratch.new
        ≡ flat_left Depth.EightBit defined.dilate w h source.now
        element.now (min (length target.old) (length scratch.old))
        scratch.old }
{
    black_tophat(Depth::EightBit, w, h, source, element, target, scratch)
}

#[unsafe(no_mangle)]
pub extern "C" fn qik_gradient1(
    w: u64,
    h: u64,
    source: &[u8],
    element: &[u8],
    target: &mut [u8],
    scratch: &mut [u8],
) -> u32
    ensures number { result ≡ packed (flat_answer Depth.OneBit w h source.now
        element.now (min (length target.old) (length scratch.old))) }
    ensures bytes { target.new
        ≡ flat_left Depth.OneBit (hats.gradient (top Depth.OneBit)) w h source.now
        element.now (min (length target.old) (length scratch.old))
        target.old }
    ensures middle { scratch.new
        ≡ flat_left Depth.OneBit (defined.erode (top Depth.OneBit)) w h source.now
        element.now (min (length target.old) (length scratch.old))
        scratch.old }
{
    gradient(Depth::OneBit, w, h, source, element, target, scratch)
}

#[unsafe(no_mangle)]
pub extern "C" fn qik_gradient8(
    w: u64,
    h: u64,
    source: &[u8],
    element: &[u8],
    target: &mut [u8],
    scratch: &mut [u8],
) -> u32
    ensures number { result ≡ packed (flat_answer Depth.EightBit w h source.now
        element.now (min (length target.old) (length scratch.old))) }
    ensures bytes { target.new
        ≡ flat_left Depth.EightBit (hats.gradient (top Depth.EightBit)) w h source.now
        element.now (min (length target.old) (length scratch.old))
        target.old }
    ensures middle { scratch.new
        ≡ flat_left Depth.EightBit (defined.erode (top Depth.EightBit)) w h source.now
        element.now (min (length target.old) (length scratch.old))
        scratch.old }
{
    gradient(Depth::EightBit, w, h, source, element, target, scratch)
}

// Over the depth: W, H and the number of links of 64 bits in, and one number out.
fn chain_erode(
    depth: Depth,
    w: u64,
    h: u64,
    source: &[u8],
    element: &[u8],
    links: u64,
    chain: &[u8],
    first: &mut [u8],
    second: &mut [u8],
) -> u32
    ensures number { result ≡ packed (run_answer depth w h source.now element.now
        links chain.now (min (length first.old) (length second.old))) }
    ensures first { first.new
        ≡ unless_refused (run_answer depth w h source.now element.now links
        chain.now (min (length first.old) (length second.old)))
        first.old (first_after depth w h
        (eroded depth w h source.now chain.now) links first.old) }
    ensures second { second.new
        ≡ unless_refused (run_answer depth w h source.now element.now links
        chain.now (min (length first.old) (length second.old)))
        second.old (second_after depth w h
        (eroded depth w h source.now chain.now) links second.old) }
{
    answer::pack(chained::erode(
        depth,
        w as usize,
        h as usize,
        source,
        element,
        links as usize,
        chain,
        first,
        second,
    ))
}

fn chain_dilate(
    depth: Depth,
    w: u64,
    h: u64,
    source: &[u8],
    element: &[u8],
    links: u64,
    chain: &[u8],
    first: &mut [u8],
    second: &mut [u8],
) -> u32
    ensures number { result ≡ packed (run_answer depth w h source.now element.now
        links chain.now (min (length first.old) (length second.old))) }
    ensures first { first.new
        ≡ unless_refused (run_answer depth w h source.now element.now links
        chain.now (min (length first.old) (length second.old)))
        first.old (first_after depth w h
        (dilated depth w h source.now chain.now) links first.old) }
    ensures second { second.new
        ≡ unless_refused (run_answer depth w h source.now element.now links
        chain.now (min (length first.old) (length second.old)))
        second.old (second_after depth w h
        (dilated depth w h source.now chain.now) links second.old) }
{
    answer::pack(chained::dilate(
        depth,
        w as usize,
        h as usize,
        source,
        element,
        links as usize,
        chain,
        first,
        second,
    ))
}

#[unsafe(no_mangle)]
pub extern "C" fn qik_check_chain(element: &[u8], links: u64, chain: &[u8]) -> u32
    ensures { result ≡ packed (checked element.now links chain.now) }
{
    answer::pack(chain::check_chain(element, links as usize, chain))
}

#[unsafe(no_mangle)]
pub extern "C" fn qik_chain_erode1(
    w: u64,
    h: u64,
    source: &[u8],
    element: &[u8],
    links: u64,
    chain: &[u8],
    first: &mut [u8],
    second: &mut [u8],
) -> u32
    ensures number { result ≡ packed (run_answer Depth.OneBit w h source.now
        element.now links chain.now
        (min (length first.old) (length second.old))) }
    ensures first { first.new
        ≡ unless_refused (run_answer Depth.OneBit w h source.now element.now
        links chain.now (min (length first.old) (length second.old)))
        first.old (first_after Depth.OneBit w h
        (eroded Depth.OneBit w h source.now chain.now) links first.old) }
    ensures second { second.new
        ≡ unless_refused (run_answer Depth.OneBit w h source.now element.now
        links chain.now (min (length first.old) (length second.old)))
        second.old (second_after Depth.OneBit w h
        (eroded Depth.OneBit w h source.now chain.now) links second.old) }
{
    let one = Depth::OneBit;
    chain_erode(one, w, h, source, element, links, chain, first, second)
}

#[unsafe(no_mangle)]
pub extern "C" fn qik_chain_erode8(
    w: u64,
    h: u64,
    source: &[u8],
    element: &[u8],
    links: u64,
    chain: &[u8],
    first: &mut [u8],
    second: &mut [u8],
) -> u32
    ensures number { result ≡ packed (run_answer Depth.EightBit w h source.now
        element.now links chain.now
        (min (length first.old) (length second.old))) }
    ensures first { first.new
        ≡ unless_refused (run_answer Depth.EightBit w h source.now element.now
        links chain.now (min (length first.old) (length second.old)))
        first.old (first_after Depth.EightBit w h
        (eroded Depth.EightBit w h source.now chain.now) links first.old) }
    ensures second { second.new
        ≡ unless_refused (run_answer Depth.EightBit w h source.now element.now
        links chain.now (min (length first.old) (length second.old)))
        second.old
        (second_after Depth.EightBit w h (eroded Depth.EightBit w h source.now chain.now)
        links second.old) }
{
    let eight = Depth::EightBit;
    chain_erode(eight, w, h, source, element, links, chain, first, second)
}

#[unsafe(no_mangle)]
pub extern "C" fn qik_chain_dilate1(
    w: u64,
    h: u64,
    source: &[u8],
    element: &[u8],
    links: u64,
    chain: &[u8],
    first: &mut [u8],
    second: &mut [u8],
) -> u32
    ensures number { result ≡ packed (run_answer Depth.OneBit w h source.now
        element.now links chain.now
        (min (length first.old) (length second.old))) }
    ensures first { first.new
        ≡ unless_refused (run_answer Depth.OneBit w h source.now element.now
        links chain.now (min (length first.old) (length second.old)))
        first.old (first_after Depth.OneBit w h
        (dilated Depth.OneBit w h source.now chain.now) links first.old) }
    ensures second { second.new
        ≡ unless_refused (run_answer Depth.OneBit w h source.now element.now
        links chain.now (min (length first.old) (length second.old)))
        second.old (second_after Depth.OneBit w h
        (dilated Depth.OneBit w h source.now chain.now) links second.old) }
{
    let one = Depth::OneBit;
    chain_dilate(one, w, h, source, element, links, chain, first, second)
}

#[unsafe(no_mangle)]
pub extern "C" fn qik_chain_dilate8(
    w: u64,
    h: u64,
    source: &[u8],
    element: &[u8],
    links: u64,
    chain: &[u8],
    first: &mut [u8],
    second: &mut [u8],
) -> u32
    ensures number { result ≡ packed (run_answer Depth.EightBit w h source.now
        element.now links chain.now
        (min (length first.old) (length second.old))) }
    ensures first { first.new
        ≡ unless_refused (run_answer Depth.EightBit w h source.now element.now
        links chain.now (min (length first.old) (length second.old)))
        first.old
        (first_after Depth.EightBit w h (dilated Depth.EightBit w h source.now chain.now)
        links first.old) }
    ensures second { second.new
        ≡ unless_refused (run_answer Depth.EightBit w h source.now element.now
        links chain.now (min (length first.old) (length second.old)))
        second.old (second_after Depth.EightBit w h (dilated Depth.EightBit w
        h source.now chain.now) links second.old) }
{
    let eight = Depth::EightBit;
    chain_dilate(eight, w, h, source, element, links, chain, first, second)
}
