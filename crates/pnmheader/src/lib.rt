// The header of a raw PBM (P4) or PGM (P5) file, read byte by byte:
// the size, the maximum, and where the raster begins.
#![tactic(auto)]

ghost use Rattle.std.specs.Prelude.{◌≡◌, min, ◌+◌, ◌≤◌, ◌<◌, drop};
ghost use Rattle.pnmheader.specs.Header.{is_white, ends_line, ignored, open_after};
ghost use Rattle.pnmheader.specs.Header.{after_white, after_digit, part_after, number_after};
ghost use Rattle.pnmheader.specs.Header.{step, begun, scan, magic_digit, single_part, header};
ghost use Rattle.pnmheader.specs.Steps.Held.{too_large, hold, Says};

use picture::Depth;

// The parts that are numbers, as the definition counts them.
const WIDTH: usize = 3;

const HEIGHT: usize = 5;

const MAXIMUM: usize = 7;

// Any number from here on is too large for a picture: a longer one is read as this.
const TOO_LARGE: usize = 10000;

// A header while it is read: the part that it has come to, whether a comment is open, and the numbers so far.
// The part is a number, as `after_white` and `after_digit` of specs/Header.antt count it: odd, or even.
#[derive(Clone, Copy)]
pub struct Scan {
    pub part: usize,
    pub comment: bool,
    pub w: usize,
    pub h: usize,
    pub most: usize,
}

// What a whole header says, and where the raster begins.
#[derive(Clone, Copy, Debug, PartialEq, Eq)]
pub struct Found {
    pub w: usize,
    pub h: usize,
    pub most: usize,
    pub at: usize,
}

fn is_white(b: u8) -> bool
    ensures { result ≡ is_white b }
{
    matches!(b, b' ' | b'\t'..=b'\r')
}

fn ends_line(b: u8) -> bool
    ensures { result ≡ ends_line b }
{
    matches!(b, b'\n' | b'\r')
}

// The byte belongs to a comment.
fn is_ignored(comment: bool, b: u8) -> bool
    ensures { result ≡ ignored comment b }
{
    comment || b == b'#'
}

// A comment is open after the byte.
fn open_after(comment: bool, b: u8) -> bool
    ensures { result ≡ open_after comment b }
{
    is_ignored(comment, b) && !ends_line(b)
}

fn after_white(part: usize) -> usize
    requires { part < 8 }
    ensures { (result ≡ after_white part) × (result ≤ part + 1) }
{
    if part % 2 == 1 {
        return part + 1;
    }
    part
}

fn after_digit(part: usize) -> usize
    requires { part < 8 }
    ensures { (result ≡ after_digit part) × (result ≤ part + 1) }
{
    if part <= 1 {
        return 0;
    }
    if part % 2 == 1 {
        return part;
    }
    part + 1
}

// The part that the header has come to after the byte: 0 where it is broken.
#[tactic(auto, unfolding(crate::specs::Header::part_after))]
fn part_after(comment: bool, part: usize, b: u8) -> usize
    requires { part < 8 }
    ensures { (result ≡ part_after comment part b) × (result ≤ part + 1) }
{
    if is_ignored(comment, b) {
        return part;
    }
    if is_white(b) {
        return after_white(part);
    }
    if b.is_ascii_digit() {
        return after_digit(part);
    }
    0
}

// A number after the byte, where the header has come to `part` and the number is the part `own`.
fn number_after(comment: bool, part: usize, own: usize, b: u8, n: usize) -> usize
    ensures { result ≡ min (number_after comment part own b n) too_large }
{
    let held = n.min(TOO_LARGE);
    if is_ignored(comment, b) {
        return held;
    }
    if part == own {
        return (held * 10 + usize::from(b.saturating_sub(b'0'))).min(TOO_LARGE);
    }
    held
}

// One byte more.
fn next(s: Scan, b: u8) -> Scan
    requires { s.part < 8 }
    ensures { (result ≡ hold (step s b)) × (result.part ≤ s.part + 1) }
{
    let comment = open_after(s.comment, b);
    let part = part_after(s.comment, s.part, b);
    Scan {
        part,
        comment,
        w: number_after(s.comment, part, WIDTH, b, s.w),
        h: number_after(s.comment, part, HEIGHT, b, s.h),
        most: number_after(s.comment, part, MAXIMUM, b, s.most),
    }
}

// The header past its magic, up to the single white space, which is the part `single`.
fn scan_file(f: &[u8], single: usize) -> Option<Found>
    requires { (1 < single) × (single ≤ 8) }
    ensures { Says f.now (scan single begun (drop 2 f.now)) result }
{
    let mut s = Scan {
        part: 1,
        comment: false,
        w: 0,
        h: 0,
        most: 0,
    };
    for i in 2..f.len() {
        s = next(s, f[i]);
        if s.part == single {
            return Some(Found {
                w: s.w,
                h: s.h,
                most: s.most,
                at: i + 1,
            });
        }
        if s.part == 0 {
            return None;
        }
    }
    None
}

fn single_part(depth: Depth) -> usize
    ensures { result ≡ single_part depth }
{
    match depth {
        Depth::OneBit => 6,
        Depth::EightBit => 8,
    }
}

// The digit of the magic: P4 or P5.
pub fn magic_digit(depth: Depth) -> u8
    ensures { result ≡ magic_digit depth }
{
    match depth {
        Depth::OneBit => b'4',
        Depth::EightBit => b'5',
    }
}

// The header of a file of this depth's own magic, where it is whole.
pub fn read_header(depth: Depth, f: &[u8]) -> Option<Found>
    ensures { Says f.now (header depth f.now) result }
{
    if !f.starts_with(&[b'P', magic_digit(depth)]) {
        return None;
    }
    scan_file(f, single_part(depth))
}
