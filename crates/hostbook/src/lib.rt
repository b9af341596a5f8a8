// What a host program in C calls of the element book:
// the start, and for display and export each its own calls.
// C's interface names each party's calls apart (include/qiksavlut.h): each passes on to the one for both.
// Nothing is asked of the host but that the buffers it lends do not overlap.
// The promises are those of the library's own functions, with the answer packed.
#![tactic(auto)]

ghost use Rattle.std.specs.Prelude.{◌≡◌, ◌+◌, ◌*◌, ◌^◌, ◌<◌};
ghost use Rattle.answer.specs.Packed.{packed};
ghost use Rattle.share.specs.Maps.{Put, Remove, Tidy};
ghost use Rattle.book.specs.Book.{start_answer, started, book_answer, book_after};
ghost use Rattle.hostbook.specs.Get.{get_number};

use book::Party;

// The place and the length of the descriptor: the answer of a get that is done is 0.
fn pack_found(place: usize, length: usize) -> u64
    requires { (place < 2 ^ 16) × (length < 2 ^ 16) }
    ensures { result ≡ place * 2 ^ 16 + length * 4294967296 }
{
    (place as u64) * 0x10000 + (length as u64) * 0x100000000
}

// A get of either party.
fn get(book: &[u8], party: Party, number: u64) -> u64
    ensures { result ≡ get_number book.now party number }
{
    match book::find(book, party, number as usize) {
        Ok(at) => pack_found(at.place, at.length),
        Err(no) => u64::from(answer::pack(Err(no))),
    }
}

#[unsafe(no_mangle)]
pub extern "C" fn qik_book_start(book: &mut [u8]) -> u32
    ensures number { result ≡ packed (start_answer book.old) }
    ensures bytes { book.new ≡ started book.old }
{
    answer::pack(book::start(book))
}

#[unsafe(no_mangle)]
pub extern "C" fn qik_display_put(book: &mut [u8], number: u64, element: &[u8]) -> u32
    ensures number { result
        ≡ packed (book_answer book.old Party.Display (Put number element.now)) }
    ensures bytes { book.new
        ≡ book_after book.old Party.Display (Put number element.now) }
{
    answer::pack(book::put(book, Party::Display, number as usize, element))
}

#[unsafe(no_mangle)]
pub extern "C" fn qik_display_remove(book: &mut [u8], number: u64) -> u32
    ensures number { result ≡ packed (book_answer book.old Party.Display (Remove number)) }
    ensures bytes { book.new ≡ book_after book.old Party.Display (Remove number) }
{
    answer::pack(book::remove(book, Party::Display, number as usize))
}

#[unsafe(no_mangle)]
pub extern "C" fn qik_display_tidy(book: &mut [u8]) -> u32
    ensures number { result ≡ packed (book_answer book.old Party.Display Tidy) }
    ensures bytes { book.new ≡ book_after book.old Party.Display Tidy }
{
    answer::pack(book::tidy(book, Party::Display))
}

#[unsafe(no_mangle)]
pub extern "C" fn qik_display_get(book: &[u8], number: u64) -> u64
    ensures { result ≡ get_number book.now Party.Display number }
{
    get(book, Party::Display, number)
}

#[unsafe(no_mangle)]
pub extern "C" fn qik_export_put(book: &mut [u8], number: u64, element: &[u8]) -> u32
    ensures number { result
        ≡ packed (book_answer book.old Party.Export (Put number element.now)) }
    ensures bytes { book.new
        ≡ book_after book.old Party.Export (Put number element.now) }
{
    answer::pack(book::put(book, Party::Export, number as usize, element))
}

#[unsafe(no_mangle)]
pub extern "C" fn qik_export_remove(book: &mut [u8], number: u64) -> u32
    ensures number { result ≡ packed (book_answer book.old Party.Export (Remove number)) }
    ensures bytes { book.new ≡ book_after book.old Party.Export (Remove number) }
{
    answer::pack(book::remove(book, Party::Export, number as usize))
}

#[unsafe(no_mangle)]
pub extern "C" fn qik_export_tidy(book: &mut [u8]) -> u32
    ensures number { result ≡ packed (book_answer book.old Party.Export Tidy) }
    ensures bytes { book.new ≡ book_after book.old Party.Export Tidy }
{
    answer::pack(book::tidy(book, Party::Export))
}

#[unsafe(no_mangle)]
pub extern "C" fn qik_export_get(book: &[u8], number: u64) -> u64
    ensures { result ≡ get_number book.now Party.Export number }
{
    get(book, Party::Export, number)
}
