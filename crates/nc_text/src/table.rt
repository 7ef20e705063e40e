//! A table of pages: bytes and marks by place, counted from the region's first place.

ghost use Rattle.std.specs.Prelude.{◌≡◌, ◌≢◌, ℕ, ◌+◌, ◌/◌, ◌%◌, ◌<◌, ◌≤◌, ◌⊎◌, ◌↔◌, IsTrue, All, length, map, true, None, IfOk};
ghost use Rattle.std.specs.Prelude.{slice_index, slice_index_or, replicate, ◌^◌};
ghost use Rattle.nc_decode.specs.declared.instruction.Mark.TheVariants.{Unmarked};
ghost use Rattle.std.specs.Int.{bit_at};
ghost use Rattle.std.specs.Option.{is_some};
ghost use Rattle.nc_decode.specs.Bits.{mark_bit};
ghost use Rattle.nc_text.specs.machinery.Pages.{byte_on, mark_on, byte_of, mark_in_pages, page_of};
ghost use Rattle.nc_text.specs.MarkedText.{unused_mark, NamesRegister};

use crate::change::Change;
use crate::page::{BUNDLE, PAGE, Page};
use nc_decode::{Mark, STOP};
use std::alloc::{AllocError, Global};

/// The marked places of a bundle on a page that isn't allocated: only its start.
const UNUSED: u32 = 1;

/// A table of n pages, none of them allocated yet.
pub(crate) fn empty(alloc: Global, n: usize) -> Result<Vec<Option<Box<Page>>>, AllocError>
    ensures { IfOk result (λ v. v.items ≡ replicate n None) }
{
    let mut pages = Vec::with_capacity(alloc, n)?;
    for _page in 0..n {
        pages.push(None)?;
    }
    Ok(pages)
}

/// The byte at a place.
pub(crate) fn byte(pages: &[Option<Box<Page>>], at: usize) -> u8
    requires { at / 4096 < length pages.now }
    ensures { result ≡ byte_of pages.now at }
{
    match &pages[at / PAGE] {
        None => STOP,
        Some(page) => page.byte(at % PAGE),
    }
}

/// Bytes from `at` on, in one bundle: the first `len` of the result.
#[inline(always)]
pub(crate) fn read_run(pages: &[Option<Box<Page>>], at: usize, len: usize) -> [u8; 32]
    requires inside { at / 4096 < length pages.now }
    requires one_bundle { at % 32 + len ≤ 32 }
    ensures { (k : ℕ) → k < len → slice_index result k ≡ byte_of pages.now (at + k) }
{
    match &pages[at / PAGE] {
        None => [STOP; 32],
        Some(page) => page.read_run(at % PAGE, len),
    }
}

/// The mark at a place.
pub(crate) fn mark(pages: &[Option<Box<Page>>], at: usize) -> Mark
    requires { at / 4096 < length pages.now }
    ensures { result ≡ mark_in_pages pages.now at }
{
    match &pages[at / PAGE] {
        None => unused_mark(at),
        Some(page) => page.mark(at % PAGE),
    }
}

/// The marked places of the bundle that starts at `at`, one bit for each.
pub(crate) fn marked(pages: &[Option<Box<Page>>], at: usize) -> u32
    requires inside { at / 4096 < length pages.now }
    requires start { at % 32 ≡ 0 }
    ensures { (k : ℕ) → k < 32 → bit_at result k ≡ mark_bit (mark_in_pages pages.now (at + k)) }
{
    match &pages[at / PAGE] {
        None => UNUSED,
        Some(page) => page.marked(at % PAGE),
    }
}

/// The mark at a place that no chunk uses.
fn unused_mark(at: usize) -> Mark
    ensures { result ≡ unused_mark at }
{
    if at % 32 == 0 {
        Mark::Plain
    } else {
        Mark::Unmarked
    }
}

/// Puts one byte on an allocated page.
pub(crate) fn put(pages: &mut [Option<Box<Page>>], at: usize, byte: u8)
    requires ready { is_some (page_of pages.old at) ≡ true }
    ensures same { byte_of pages.new at ≡ byte }
    ensures other { (k : ℕ) → k ≢ at → byte_of pages.new k ≡ byte_of pages.old k }
    ensures marks { (k : ℕ) → mark_in_pages pages.new k ≡ mark_in_pages pages.old k }
    ensures made { map is_some pages.new ≡ map is_some pages.old }
{
    if let Some(page) = &mut pages[at / PAGE] {
        page.put(at % PAGE, byte);
    }
}

/// Sets the marks of a span inside one bundle, on an allocated page.
fn set_part(pages: &mut [Option<Box<Page>>], at: usize, marks: &[Mark])
    requires ready { is_some (page_of pages.old at) ≡ true }
    requires one_bundle { at % 32 + length marks.now ≤ 32 }
    requires registers { All NamesRegister marks.now }
    ensures within { (k : ℕ) → k < length marks.now → mark_in_pages pages.new (at + k) ≡ slice_index_or marks.now k Unmarked }
    ensures others { (k : ℕ) → (k < at) ⊎ (at + length marks.now ≤ k) → mark_in_pages pages.new k ≡ mark_in_pages pages.old k }
    ensures bytes { (k : ℕ) → byte_of pages.new k ≡ byte_of pages.old k }
    ensures made { map is_some pages.new ≡ map is_some pages.old }
{
    if let Some(page) = &mut pages[at / PAGE] {
        page.set_marks(at % PAGE, marks);
    }
}

/// Sets the marks of a span on allocated pages, a bundle at a time.
pub(crate) fn set_span(pages: &mut [Option<Box<Page>>], start: usize, marks: &[Mark])
    requires ready { (k : ℕ) → k < length marks.now → is_some (page_of pages.old (start + k)) ≡ true }
    requires registers { All NamesRegister marks.now }
    requires fits { start + length marks.now < 2 ^ 63 }
    ensures within { (k : ℕ) → k < length marks.now → mark_in_pages pages.new (start + k) ≡ slice_index_or marks.now k Unmarked }
    ensures others { (k : ℕ) → (k < start) ⊎ (start + length marks.now ≤ k) → mark_in_pages pages.new k ≡ mark_in_pages pages.old k }
    ensures bytes { (k : ℕ) → byte_of pages.new k ≡ byte_of pages.old k }
    ensures made { map is_some pages.new ≡ map is_some pages.old }
{
    let mut done = 0;
    while done < marks.len() {
        let at = start + done;
        let part = (BUNDLE - at % BUNDLE).min(marks.len() - done);
        set_part(pages, at, &marks[done..done + part]);
        done += part;
    }
}

/// Makes a change at the places of an allocated page from `at` on, which are those of the span from number `from` on.
fn change_page<C: Change>(
    pages: &mut [Option<Box<Page>>],
    at: usize,
    what: &C,
    from: usize,
    len: usize,
)
    requires ready { is_some (page_of pages.old at) ≡ true }
    requires one_page { at % 4096 + len ≤ 4096 }
    requires start { at % 32 ≡ 0 }
    requires from { from % 32 ≡ 0 }
    requires whole { len % 32 ≡ 0 }
    requires part { from + len ≤ C.size what.now }
    requires fits { C.size what.now < 2 ^ 62 }
    ensures bytes { (k : ℕ) → k < len
        → byte_of pages.new (at + k) ≡ C.byte what.now (from + k) (mark_in_pages pages.old (at + k)) (byte_of pages.old (at + k)) }
    ensures marks { (k : ℕ) → k < len → mark_in_pages pages.new (at + k) ≡ C.mark what.now (from + k) (mark_in_pages pages.old (at + k)) }
    ensures other_bytes { (k : ℕ) → (k < at) ⊎ (at + len ≤ k) → byte_of pages.new k ≡ byte_of pages.old k }
    ensures other_marks { (k : ℕ) → (k < at) ⊎ (at + len ≤ k) → mark_in_pages pages.new k ≡ mark_in_pages pages.old k }
    ensures made { map is_some pages.new ≡ map is_some pages.old }
{
    if let Some(page) = &mut pages[at / PAGE] {
        what.make(page, at % PAGE, from, len);
    }
}

/// Makes a change of whole bundles on allocated pages, a page at a time.
pub(crate) fn change<C: Change>(pages: &mut [Option<Box<Page>>], start: usize, what: &C)
    requires ready { (k : ℕ) → k < C.size what.now → is_some (page_of pages.old (start + k)) ≡ true }
    requires start { start % 32 ≡ 0 }
    requires whole { C.size what.now % 32 ≡ 0 }
    requires fits { start + C.size what.now < 2 ^ 62 }
    ensures bytes { (k : ℕ) → k < C.size what.now
        → byte_of pages.new (start + k) ≡ C.byte what.now k (mark_in_pages pages.old (start + k)) (byte_of pages.old (start + k)) }
    ensures marks { (k : ℕ) → k < C.size what.now
        → mark_in_pages pages.new (start + k) ≡ C.mark what.now k (mark_in_pages pages.old (start + k)) }
    ensures other_bytes { (k : ℕ) → (k < start) ⊎ (start + C.size what.now ≤ k) → byte_of pages.new k ≡ byte_of pages.old k }
    ensures other_marks { (k : ℕ) → (k < start) ⊎ (start + C.size what.now ≤ k) → mark_in_pages pages.new k ≡ mark_in_pages pages.old k }
    ensures made { map is_some pages.new ≡ map is_some pages.old }
{
    let size = what.size();
    let mut done = 0;
    while done < size {
        let at = start + done;
        let part = (PAGE - at % PAGE).min(size - done);
        change_page(pages, at, what, done, part);
        done += part;
    }
}

/// Leaves only bundle starts marked in a span on one page. On a page that isn't allocated, nothing has to be done.
fn unmark_page(pages: &mut [Option<Box<Page>>], at: usize, len: usize)
    requires inside { at / 4096 < length pages.old }
    requires one_page { at % 4096 + len ≤ 4096 }
    ensures within { (k : ℕ) → k < len → mark_in_pages pages.new (at + k) ≡ unused_mark (at + k) }
    ensures others { (k : ℕ) → (k < at) ⊎ (at + len ≤ k) → mark_in_pages pages.new k ≡ mark_in_pages pages.old k }
    ensures bytes { (k : ℕ) → byte_of pages.new k ≡ byte_of pages.old k }
    ensures made { map is_some pages.new ≡ map is_some pages.old }
{
    if let Some(page) = &mut pages[at / PAGE] {
        page.unmark(at % PAGE, len);
    }
}

/// Leaves only bundle starts marked in a span, a page at a time.
pub(crate) fn unmark(pages: &mut [Option<Box<Page>>], start: usize, len: usize)
    requires fits { start + len < 2 ^ 63 }
    requires inside { (k : ℕ) → k < len → (start + k) / 4096 < length pages.old }
    ensures within { (k : ℕ) → k < len → mark_in_pages pages.new (start + k) ≡ unused_mark (start + k) }
    ensures others { (k : ℕ) → (k < start) ⊎ (start + len ≤ k) → mark_in_pages pages.new k ≡ mark_in_pages pages.old k }
    ensures bytes { (k : ℕ) → byte_of pages.new k ≡ byte_of pages.old k }
    ensures made { map is_some pages.new ≡ map is_some pages.old }
{
    let mut done = 0;
    while done < len {
        let at = start + done;
        let part = (PAGE - at % PAGE).min(len - done);
        unmark_page(pages, at, part);
        done += part;
    }
}

/// A page of stops with only bundle starts marked.
fn boxed_page(alloc: Global) -> Result<Box<Page>, AllocError>
    ensures bytes { IfOk result (λ page. (k : ℕ) → k < 4096 → byte_on page.value k ≡ 0xF4) }
    ensures marks { IfOk result (λ page. (k : ℕ) → k < 4096 → mark_on page.value k ≡ unused_mark k) }
{
    Ok(Box::new(alloc, Page::new())?)
}

/// Allocates the pages from `first` up to but excluding `last`, unless they are allocated already.
pub(crate) fn make(
    alloc: Global,
    pages: &mut [Option<Box<Page>>],
    first: usize,
    last: usize,
) -> Result<(), AllocError>
    requires order { first ≤ last }
    requires inside { last ≤ length pages.old }
    ensures made { IfOk result (λ _. (i : ℕ) → first ≤ i → i < last → is_some (slice_index_or pages.new i None) ≡ true) }
    ensures kept { (i : ℕ) → is_some (slice_index_or pages.old i None) ≡ true → is_some (slice_index_or pages.new i None) ≡ true }
    ensures needed { (i : ℕ) → is_some (slice_index_or pages.new i None) ≡ true
        → (is_some (slice_index_or pages.old i None) ≡ true) ⊎ ((first ≤ i) × (i < last)) }
    ensures bytes { (k : ℕ) → byte_of pages.new k ≡ byte_of pages.old k }
    ensures marks { (k : ℕ) → mark_in_pages pages.new k ≡ mark_in_pages pages.old k }
{
    for i in first..last {
        let missing = pages[i].is_none();
        if missing {
            let Ok(page) = boxed_page(alloc) else {
                return Err(AllocError);
            };
            pages[i] = Some(page);
        }
    }
    Ok(())
}

/// Whether the pages from `first` up to but excluding `last` are all allocated.
pub(crate) fn are_made(pages: &[Option<Box<Page>>], first: usize, last: usize) -> bool
    requires { last ≤ length pages.now }
    ensures { IsTrue result ↔ ((i : ℕ) → first ≤ i → i < last → is_some (slice_index_or pages.now i None) ≡ true) }
{
    for number in first..last {
        if pages[number].is_none() {
            return false;
        }
    }
    true
}
