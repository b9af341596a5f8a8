// A picture by a flat element, a source row at a time: the windows of a row are made once,
// and joined into every row of the result that sees it.
// The target's own rows gather them, in any order: a join that is repeated changes nothing.
#![tactic(auto)]

ghost use Rattle.std.specs.Prelude.{◌≡◌, ℕ, ◌+◌, ◌-◌, ◌*◌, ◌/◌, ◌≤◌, ◌<◌, Bool, List, length, replicate};
ghost use Rattle.picture.specs.declared.Depth.{Depth};
ghost use Rattle.picture.specs.Frame.{most_pings, Holds, frame, row_bytes, top};
ghost use Rattle.picture.specs.Points.{value_at};
ghost use Rattle.picture.specs.Bytes.{written, bytes_of};
ghost use Rattle.element.specs.Record.{shape_by};
ghost use Rattle.morphology.specs.Operations.{flat};
ghost use Rattle.rows.specs.Steps.Ready.{Ready};
ghost use Rattle.rows.specs.Steps.Ways.{swept_by};
ghost use Rattle.bitrow.specs.Steps.Added.{row_in};
ghost use Rattle.sourceparts.specs.Steps.Part.{PartOf};
ghost use Rattle.bysource.specs.Steps.Filled.{RoomsOf, RoomsFit, Scans};
ghost use Rattle.bysource.specs.Steps.Bytes.{byte_rooms, bytes_far, bytes_filled, bytes_scan};
ghost use Rattle.bysource.specs.Steps.Bytes.{cells_in, runs_in};

use element::{Outline, RowWord};
use picture::{Bin, Depth};
use rooms::{Bytes, Lane};

// What two depths have of their own where a picture is swept by source rows.
pub trait Scan: Lane {
    ghost depth: { Depth };

    // the bytes of both rooms, and how far the windows of a row of so many points are made
    ghost rooms: { ℕ };

    ghost far: { ℕ → ℕ };

    // what stands in the rooms of rows of kind k, made of a row of w points
    ghost filled: { Bool → ℕ → List ℕ → ℕ → List ℕ };

    fn depth() -> Depth
        ensures { result ≡ depth };

    // The rooms of rows of kind k: single cells, or runs.
    fn fill_rooms(grows: bool, b: &mut [u8], s: &[u8], w: usize, k: usize)
        requires fit { RoomsFit depth grows rooms b.old (length s.now) w }
        requires kind { k < 2 }
        ensures shown { RoomsOf depth grows k s.now w (far w) b.new }
        ensures bytes { b.new ≡ filled grows k s.now w };

    ghost scans: { Scans depth Self.way rooms far };
}

// The kinds of an element's rows: single cells, and runs.
const KINDS: usize = 2;

// The bytes of a row of w points.
fn row_size<D: Scan>(w: usize) -> usize
    requires { w ≤ most_pings }
    ensures { result ≡ row_bytes D.depth w }
{
    picture::row_bytes(D::depth(), w)
}

// ---- row after row

// One row of the element, of kind k, from source row v, whose windows stand in b:
// joined into the row of the result that sees row v by it, if the frame has that row.
// The source itself is only what is said of it.
fn add_row<D: Scan>(
    grows: bool,
    t: &mut [u8],
    w: usize,
    h: usize,
    b: &[u8],
    v: Bin,
    o: Outline,
    words: &[RowWord],
    k: usize,
    row: Bin,
    s: &[u8],
)
    requires ready { Ready D.depth (length s.now) (length words.now) w h o }
    requires t_len { (length t.old ≡ h * row_bytes D.depth w)
        × ((v.0 < h) × ((row.0 < o.h) × (length b.now ≡ D.rooms))) }
    requires rooms_of { RoomsOf D.depth grows k (row_in (row_bytes D.depth w) s.now v.0) w (D.far w)
        b.now }
    requires part_of { PartOf D.depth grows s.now w h o words.now k v.0 row.0 t.old }
    ensures { PartOf D.depth grows s.now w h o words.now k v.0
        (row.0 + 1) t.new }
{
    let origin = o.origin;
    let y = rows::source_row(!grows, h, v, origin.bin, row);
    if h <= y {
        return;
    }
    let r = row.0 as usize;
    let word = words[r] & packedline::run_word(o.w);
    let m = packedline::level_of(word);
    if strokes::kind_of(m) != k {
        return;
    }
    let mut at = [0u16; packedline::CELLS];
    let column = origin.ping;
    let count = strokes::places_of(&mut at, grows, word, column.0 as usize, m);
    let n = row_size::<D>(w);
    let a = y * n;
    let z = a + n;
    rooms::join_row::<D>(grows, &mut t[a..z], b, &at[..count]);
}

// The rows of the element that are of kind k, from source row v.
fn spread<D: Scan>(
    grows: bool,
    t: &mut [u8],
    w: usize,
    h: usize,
    b: &[u8],
    v: Bin,
    o: Outline,
    words: &[RowWord],
    k: usize,
    s: &[u8],
)
    requires ready { Ready D.depth (length s.now) (length words.now) w h o }
    requires t_len { (length t.old ≡ h * row_bytes D.depth w) × ((v.0 < h) × (length b.now ≡ D.rooms)) }
    requires rooms_of { RoomsOf D.depth grows k (row_in (row_bytes D.depth w) s.now v.0) w (D.far w)
        b.now }
    requires part_of { PartOf D.depth grows s.now w h o words.now k v.0 0 t.old }
    ensures { PartOf D.depth grows s.now w h o words.now k (v.0 + 1) 0
        t.new }
{
    for r in 0..o.h {
        add_row::<D>(grows, t, w, h, b, v, o, words, k, Bin(r as u16), s);
    }
}

// Source row v into every row of the result that sees it by a row of the element of kind k.
fn source_row<D: Scan, const ROOMS: usize>(
    grows: bool,
    t: &mut [u8],
    w: usize,
    h: usize,
    v: Bin,
    o: Outline,
    words: &[RowWord],
    k: usize,
    s: &[u8],
)
    requires rooms { ROOMS ≡ D.rooms }
    requires ready { Ready D.depth (length s.now) (length words.now) w h o }
    requires t_len { (length t.old ≡ h * row_bytes D.depth w) × ((v.0 < h) × (k < 2)) }
    requires part_of { PartOf D.depth grows s.now w h o words.now k v.0 0 t.old }
    ensures { PartOf D.depth grows s.now w h o words.now k (v.0 + 1) 0
        t.new }
{
    let mut b = [blocks::beyond(grows); ROOMS];
    let n = row_size::<D>(w);
    let a = (v.0 as usize) * n;
    let z = a + n;
    D::fill_rooms(grows, &mut b, &s[a..z], w, k);
    spread::<D>(grows, t, w, h, &b, v, o, words, k, s);
}

// All source rows, for the rows of the element that are of kind k.
fn pass<D: Scan, const ROOMS: usize>(
    grows: bool,
    t: &mut [u8],
    w: usize,
    h: usize,
    o: Outline,
    words: &[RowWord],
    k: usize,
    s: &[u8],
)
    requires rooms { ROOMS ≡ D.rooms }
    requires ready { Ready D.depth (length s.now) (length words.now) w h o }
    requires t_len { (length t.old ≡ h * row_bytes D.depth w) × (k < 2) }
    requires part_of { PartOf D.depth grows s.now w h o words.now k 0 0 t.old }
    ensures { PartOf D.depth grows s.now w h o words.now (k + 1) 0 0
        t.new }
{
    if strokes::lacks_kind(words, o, k) {
        return;
    }
    for v in 0..h {
        source_row::<D, ROOMS>(grows, t, w, h, Bin(v as u16), o, words, k, s);
    }
}

// The rows of the element of one kind after the other. In a loop, so that `pass` has one call: what it holds
// stands in its caller's frame, not in one below it.
fn pass_kinds<D: Scan, const ROOMS: usize>(
    grows: bool,
    t: &mut [u8],
    w: usize,
    h: usize,
    o: Outline,
    words: &[RowWord],
    s: &[u8],
)
    requires rooms { ROOMS ≡ D.rooms }
    requires ready { Ready D.depth (length s.now) (length words.now) w h o }
    requires t_len { length t.old ≡ h * row_bytes D.depth w }
    requires part_of { PartOf D.depth grows s.now w h o words.now 0 0 0 t.old }
    ensures { PartOf D.depth grows s.now w h o words.now 2 0 0
        t.new }
{
    for k in 0..KINDS {
        pass::<D, ROOMS>(grows, t, w, h, o, words, k, s);
    }
}

// The whole picture into a target of just its size.
fn sweep_whole<D: Scan, const ROOMS: usize>(
    grows: bool,
    s: &[u8],
    t: &mut [u8],
    w: usize,
    h: usize,
    o: Outline,
    words: &[RowWord],
)
    requires rooms { ROOMS ≡ D.rooms }
    requires ready { Ready D.depth (length s.now) (length words.now) w h o }
    requires t_len { length t.old ≡ h * row_bytes D.depth w }
    ensures { t.new
        ≡ bytes_of D.depth
        (swept_by grows flat (top D.depth) (frame w h) (shape_by o words.now)
        (value_at D.depth s.now w)) w h }
{
    rows::begin(grows, 255, t);
    pass_kinds::<D, ROOMS>(grows, t, w, h, o, words, s);
    copies::clear_padding(D::depth(), t, w, h);
}

// The erosion, or the dilation, of the picture in s by a flat element, in rooms of so many bytes;
// what lies past the picture in t stays. What stands in the padding of s never counts; that of t is 0.
pub fn sweep_rows<D: Scan, const ROOMS: usize>(
    grows: bool,
    s: &[u8],
    t: &mut [u8],
    w: usize,
    h: usize,
    o: Outline,
    words: &[RowWord],
)
    requires rooms { ROOMS ≡ D.rooms }
    requires ready { Ready D.depth (length s.now) (length words.now) w h o }
    requires holds { Holds D.depth (length t.old) w h }
    ensures { t.new
        ≡ written D.depth
        (swept_by grows flat (top D.depth) (frame w h) (shape_by o words.now)
        (value_at D.depth s.now w)) w h t.old }
{
    let n = h * row_size::<D>(w);
    sweep_whole::<D, ROOMS>(grows, s, &mut t[..n], w, h, o, words);
}

// ---- 8-bit pictures

// Where the second room begins, both rooms, and the bytes before a row.
const ROOM: usize = strokes::ROOM;

const ROOMS: usize = 2464;

const SIDE: usize = 64;

// As many bytes of windows as the last place of the row reaches, and 12 places more: whole blocks.
fn windows(w: usize) -> usize
    requires { w ≤ most_pings }
    ensures { result ≡ bytes_far w }
{
    blocks::BLOCK * ((w + 202) / blocks::BLOCK)
}

// Single places in the first room, windows of two in the second.
fn fill_cells(grows: bool, b: &mut [u8], s: &[u8])
    requires fit { RoomsFit Depth.EightBit grows byte_rooms b.old (length s.now) (length s.now) }
    ensures shown { RoomsOf Depth.EightBit grows 0 s.now (length s.now) (bytes_far (length s.now)) b.new }
    ensures bytes { b.new ≡ cells_in grows s.now }
{
    packedline::copy_over(false, b, SIDE, s);
    rooms::widen::<Bytes>(grows, b, 0, ROOM, windows(s.len()), 1, 1, 1);
}

// Windows of 4 in the first room, windows of 16 in the second.
fn fill_runs(grows: bool, b: &mut [u8], s: &[u8])
    requires fit { RoomsFit Depth.EightBit grows byte_rooms b.old (length s.now) (length s.now) }
    ensures shown { RoomsOf Depth.EightBit grows 1 s.now (length s.now) (bytes_far (length s.now)) b.new }
    ensures bytes { b.new ≡ runs_in grows s.now }
{
    let n = windows(s.len());
    packedline::copy_over(false, b, ROOM + SIDE, s);
    rooms::widen::<Bytes>(grows, b, ROOM, 0, n, 1, 2, 3);
    rooms::widen::<Bytes>(grows, b, 0, ROOM, n, 4, 8, 12);
}

impl Scan for Bytes {
    ghost depth = { Depth.EightBit };

    ghost rooms = { byte_rooms };

    ghost far = { bytes_far };

    ghost filled = { bytes_filled };

    ghost scans = { bytes_scan };

    fn depth() -> Depth {
        Depth::EightBit
    }

    fn fill_rooms(grows: bool, b: &mut [u8], s: &[u8], w: usize, k: usize) {
        if k == 0 {
            return fill_cells(grows, b, s);
        }
        fill_runs(grows, b, s);
    }
}

// The erosion, or the dilation, of the 8-bit picture in s by a flat element;
// what lies past the picture in t stays.
pub fn sweep(grows: bool, s: &[u8], t: &mut [u8], w: usize, h: usize, o: Outline, words: &[RowWord])
    requires ready { Ready Depth.EightBit (length s.now) (length words.now) w h o }
    requires holds { Holds Depth.EightBit (length t.old) w h }
    ensures { t.new
        ≡ written Depth.EightBit
        (swept_by grows flat 255 (frame w h) (shape_by o words.now)
        (value_at Depth.EightBit s.now w)) w h t.old }
{
    sweep_rows::<Bytes, ROOMS>(grows, s, t, w, h, o, words);
}
