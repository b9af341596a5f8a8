// The element book: descriptors of the display and of the export, kept under numbers in one lent buffer.
// Nothing is asked of the caller: bytes that are no book, or a damaged one, are refused by BOOK.
#![tactic(auto)]

ghost use Rattle.std.specs.Prelude.{◌≡◌, ◌≤◌, cond, Ok, Err, length};
ghost use Rattle.answer.specs.declared.Refusal.TheVariants.{Book};
ghost use Rattle.answer.specs.Answer.{told};
ghost use Rattle.share.specs.Maps.{Put, Get, Remove, Tidy};
ghost use Rattle.book.specs.Book.{book_long, share_at, marked, book_made};
ghost use Rattle.book.specs.Book.{start_answer, started};
ghost use Rattle.book.specs.Book.{book_answer, book_handed, book_after, place_in, FoundAt};

use answer::{Answer, Refusal};

// Whose numbers they are.
#[derive(Clone, Copy)]
pub enum Party {
    Display,
    Export,
}

// Each party's numbers are 0 to 7, and its descriptors have 1,000 bytes.
pub const NUMBERS: usize = 8;

pub const ROOM: usize = 1000;

// The layout's version: 1 was the book of one party.
const VERSION: u8 = 2;

// The bytes before the shares, of a share, and of the book.
const HEAD: usize = 4;

const SHARE: usize = 2 * NUMBERS + ROOM;

pub const BOOK: usize = HEAD + 2 * SHARE;

// The letters EBK and the version.
const MARK: [u8; HEAD] = [b'E', b'B', b'K', VERSION];

// What is found under a number: the place and the length of the descriptor in the book.
#[derive(Clone, Copy)]
pub struct Found {
    pub place: usize,
    pub length: usize,
}

// Where a party's share begins.
fn share_at(party: Party) -> usize
    ensures { (result ≡ share_at party) × (result ≤ book_long) }
{
    match party {
        Party::Display => HEAD,
        Party::Export => HEAD + SHARE,
    }
}

// The letters EBK and the version.
fn is_marked(book: &[u8]) -> bool
    requires { 4 ≤ length book.now }
    ensures { result ≡ marked book.now }
{
    book.starts_with(&MARK)
}

// The layout, of both shares whoever asks.
#[tactic(auto, unfolding(crate::specs::Book::book_made, crate::specs::Book::share_of))]
fn book_made(book: &[u8]) -> bool
    ensures { result ≡ book_made book.now }
{
    BOOK <= book.len()
        && is_marked(book)
        && share::made(&book[HEAD..HEAD + SHARE], NUMBERS, ROOM)
        && share::made(&book[HEAD + SHARE..BOOK], NUMBERS, ROOM)
}

// Where a party's share begins, in a book that keeps the layout; else BOOK.
fn share_in(book: &[u8], party: Party) -> Result<usize, Refusal>
    ensures { result ≡ cond (book_made book.now) (Ok (share_at party)) (Err Book) }
{
    if book_made(book) {
        Ok(share_at(party))
    } else {
        Err(Refusal::Book)
    }
}

// A book that holds nothing for either party, whatever the bytes were; ROOM where the buffer is too short.
pub fn start(book: &mut [u8]) -> Answer
    ensures answer { told result ≡ start_answer book.old }
    ensures bytes { book.new ≡ started book.old }
{
    if book.len() < BOOK {
        return Err(Refusal::Room);
    }
    // the mark comes last: a start that is cut off sets no mark before bytes that were not cleared
    book[HEAD..BOOK].fill(0);
    book[..HEAD].copy_from_slice(&MARK);
    Ok(())
}

// The descriptor d under a party's number n: BOOK, ABSENT for a number above 7, SHAPE, FULL.
pub fn put(book: &mut [u8], party: Party, n: usize, d: &[u8]) -> Answer
    ensures answer { told result ≡ book_answer book.old party (Put n d.now) }
    ensures bytes { book.new ≡ book_after book.old party (Put n d.now) }
{
    let at = share_in(&book[..], party)?;
    sharework::put(&mut book[at..at + SHARE], NUMBERS, ROOM, n, d)
}

// What a party's number n holds, given up: BOOK, ABSENT.
pub fn remove(book: &mut [u8], party: Party, n: usize) -> Answer
    ensures answer { told result ≡ book_answer book.old party (Remove n) }
    ensures bytes { book.new ≡ book_after book.old party (Remove n) }
{
    let at = share_in(&book[..], party)?;
    sharework::remove(&mut book[at..at + SHARE], NUMBERS, ROOM, n)
}

// The spare bytes of a party's share to 0: BOOK.
pub fn tidy(book: &mut [u8], party: Party) -> Answer
    ensures answer { told result ≡ book_answer book.old party Tidy }
    ensures bytes { book.new ≡ book_after book.old party Tidy }
{
    let at = share_in(&book[..], party)?;
    share::tidy(&mut book[at..at + SHARE], NUMBERS, ROOM);
    Ok(())
}

// The call beside `get`: BOOK, ABSENT, or where the descriptor lies.
pub fn find(book: &[u8], party: Party, n: usize) -> Result<Found, Refusal>
    ensures { FoundAt book.now party n result }
{
    let at = share_in(book, party)?;
    let share = &book[at..at + SHARE];
    share::absent_refusal(share, NUMBERS, ROOM, n)?;
    let place = at + share::place_of(share, NUMBERS, n);
    let length = share::length_at(share, n);
    Ok(Found { place, length })
}

// The descriptor's own bytes in the book, or the empty start of the buffer where `find` refuses.
pub fn get<'a>(book: &'a [u8], party: Party, n: usize) -> &'a [u8]
    ensures bytes { result.now ≡ book_handed book.now party (Get n) }
    ensures place { result.ref_ptr ≡ place_in book.now party n book.entry.ref_ptr }
{
    match find(book, party, n) {
        Ok(at) => &book[at.place..at.place + at.length],
        Err(_) => &book[..0],
    }
}
