// What a call answers: done, or the first refusal that holds. One kind of refusal for the whole library.
#![tactic(auto)]

ghost use Rattle.std.specs.Prelude.{◌≡◌, ◌^◌, ◌<◌};
ghost use Rattle.std.proofs.Math.IntN.{sub_ℕ};
ghost use Rattle.answer.specs.Answer.{told, told_refusal, is_done, centre};
ghost use Rattle.answer.specs.Packed.{mod_byte, packed};

// A coordinate of an offset is held with this added, so that no number is negative: where 0 stands.
pub const CENTRE: usize = 128;

// Why a call is refused.
#[derive(Clone, Copy, Debug, PartialEq, Eq)]
pub enum Refusal {
    Size,
    Source,
    Pad,
    Shape,
    Overlap,
    Chain,
    // The offset at fault, each coordinate with CENTRE added: bytes in the order of the offsets.
    Split(u8, u8),
    Room,
    Form,
    Job,
    Netpbm,
    Marker,
    Full,
    Absent,
    Retired,
    Nest,
    Book,
    NoChain,
}

// Done, or why not.
pub type Answer = Result<(), Refusal>;

// An answer as a person reads it: its number, and dx and dy, which are 0 but for a split.
#[derive(Clone, Copy)]
pub struct Told {
    pub number: u32,
    pub dx: i32,
    pub dy: i32,
}

// The bytes of a split.
#[derive(Clone, Copy)]
struct Held {
    x: u8,
    y: u8,
}

// The coordinate that a byte of a split stands for.
fn signed(x: u8) -> i32
    ensures { result ≡ sub_ℕ x centre }
{
    (x as i32) - (CENTRE as i32)
}

// The number of a refusal.
#[tactic(auto, unfolding(crate::specs::Answer::told_refusal, crate::specs::Answer::plain))]
fn number_of(r: Refusal) -> u32
    ensures { (result ≡ (told_refusal r).number) × (result < 2 ^ 8) }
{
    match r {
        Refusal::Size => 1,
        Refusal::Source => 2,
        Refusal::Pad => 3,
        Refusal::Shape => 4,
        Refusal::Overlap => 5,
        Refusal::Chain => 6,
        Refusal::Split(_, _) => 7,
        Refusal::Room => 8,
        Refusal::Form => 9,
        Refusal::Job => 10,
        Refusal::Netpbm => 11,
        Refusal::Marker => 12,
        Refusal::Full => 13,
        Refusal::Absent => 14,
        Refusal::Retired => 15,
        Refusal::Nest => 16,
        Refusal::Book => 17,
        Refusal::NoChain => 18,
    }
}

// The offset of a refusal, each coordinate as a split holds it: 0, 0 but for a split.
fn offset_of(r: Refusal) -> Held
    ensures { (sub_ℕ result.x centre ≡ (told_refusal r).dx)
        × (sub_ℕ result.y centre ≡ (told_refusal r).dy) }
{
    match r {
        Refusal::Split(x, y) => Held { x, y },
        _ => Held {
            x: CENTRE as u8,
            y: CENTRE as u8,
        },
    }
}

// A refusal as a person reads it.
fn tell_refusal(r: Refusal) -> Told
    ensures { result ≡ told_refusal r }
{
    let at = offset_of(r);
    Told {
        number: number_of(r),
        dx: signed(at.x),
        dy: signed(at.y),
    }
}

#[tactic(auto, unfolding(crate::specs::Answer::told, crate::specs::Answer::plain))]
pub fn tell(a: Answer) -> Told
    ensures { result ≡ told a }
{
    match a {
        Ok(_) => Told {
            number: 0,
            dx: 0,
            dy: 0,
        },
        Err(r) => tell_refusal(r),
    }
}

// The call was carried out.
pub fn is_done(a: Answer) -> bool
    ensures { result ≡ is_done (told a) }
{
    let t = tell(a);
    t.number == 0
}

// The coordinate that a byte of a split stands for, mod 256.
fn mod_byte(x: u8) -> u32
    ensures { (result ≡ mod_byte (sub_ℕ x centre)) × (result < 2 ^ 8) }
{
    if (CENTRE as u8) <= x {
        (x - (CENTRE as u8)) as u32
    } else {
        (x as u32) + 0x100 - (CENTRE as u32)
    }
}

// A refusal in one number.
fn pack_refusal(r: Refusal) -> u32
    ensures { result ≡ packed (told_refusal r) }
{
    let at = offset_of(r);
    let x = mod_byte(at.x);
    let y = mod_byte(at.y);
    number_of(r) + x * 0x100 + y * 0x10000
}

// An answer in one number, for C: a plain number stays itself.
pub fn pack(a: Answer) -> u32
    ensures { result ≡ packed (told a) }
{
    match a {
        Ok(_) => 0,
        Err(r) => pack_refusal(r),
    }
}
