// Octets in pages, of which each but the last is full: none is copied when more come.
ghost use Rattle.std.specs.Prelude.{◌≡◌, ◌≤◌, ◌<◌, ◌++◌, ◌↔◌, [], IfOk, IsTrue, OnErr, OnOk, drop, length, take};
ghost use Rattle.std.specs.List.{concat};
ghost use Rattle.ftp_tree_memory.specs.pages.Pages.{HasRoom, IsPaged, page_octets};

use std::alloc::{AllocError, Allocator};

/// How many octets a full page has.
const PAGE: usize = 4_096;

/// The octets of a page.
pub(crate) type Page<A> = Vec<u8, A>;

/// Puts octets behind the `had` octets of the pages. Refused memory, it leaves those.
pub(crate) fn push_all<A: Allocator + Copy>(
    pages: &mut Vec<Page<A>, A>,
    had: u64,
    octets: &[u8],
) -> Result<(), AllocError>
    requires paged { IsPaged (page_octets pages.old.items) }
    requires had { had ≡ length (concat (page_octets pages.old.items)) }
    ensures paged { IsPaged (page_octets pages.new.items) }
    ensures ok { OnOk result (concat (page_octets pages.new.items) ≡ concat (page_octets pages.old.items) ++ octets.now) }
    ensures err { OnErr result (concat (page_octets pages.new.items) ≡ concat (page_octets pages.old.items)) }
{
    let mut rest = octets;
    while !rest.is_empty() {
        let Ok(count) = push_some(pages, rest) else {
            cut(pages, had);
            return Err(AllocError);
        };
        rest = &rest[count..];
    }
    Ok(())
}

/// Puts as many octets as go into one page behind those of the pages, and says how many.
fn push_some<A: Allocator + Copy>(
    pages: &mut Vec<Page<A>, A>,
    octets: &[u8],
) -> Result<usize, AllocError>
    requires paged { IsPaged (page_octets pages.old.items) }
    requires some { 0 < length octets.now }
    ensures paged { IsPaged (page_octets pages.new.items) }
    ensures ok { IfOk result (λ count. concat (page_octets pages.new.items) ≡ concat (page_octets pages.old.items) ++ take count octets.now) }
    ensures some { IfOk result (λ count. (0 < count) × (count ≤ length octets.now)) }
    ensures err { OnErr result (concat (page_octets pages.new.items) ≡ concat (page_octets pages.old.items)) }
{
    open_page(pages)?;
    fill_page(pages, octets)
}

/// Sees to it that the last page has room.
fn open_page<A: Allocator + Copy>(pages: &mut Vec<Page<A>, A>) -> Result<(), AllocError>
    requires { IsPaged (page_octets pages.old.items) }
    ensures paged { IsPaged (page_octets pages.new.items) }
    ensures room { OnOk result (HasRoom (page_octets pages.new.items)) }
    ensures same { concat (page_octets pages.new.items) ≡ concat (page_octets pages.old.items) }
{
    if has_room(pages.as_slice()) {
        return Ok(());
    }
    let alloc = *pages.allocator();
    let page = new_page(pages.is_empty(), alloc)?;
    pages.push(page)?;
    Ok(())
}

/// A page with no octets. The first of a file grows with it, each behind it has its whole room at once, as more than a page came before.
fn new_page<A: Allocator + Copy>(first: bool, alloc: A) -> Result<Page<A>, AllocError>
    ensures { IfOk result (λ page. page.items ≡ []) }
{
    if first {
        Ok(Vec::new(alloc))
    } else {
        Vec::with_capacity(alloc, PAGE)
    }
}

/// Whether there is a last page that has room.
fn has_room<A: Allocator + Copy>(pages: &[Page<A>]) -> bool
    ensures { IsTrue result ↔ HasRoom (page_octets pages.now) }
{
    let count = pages.len();
    count != 0 && pages[count - 1].len() < PAGE
}

/// Puts as many octets as go into the last page there, and says how many.
fn fill_page<A: Allocator + Copy>(
    pages: &mut Vec<Page<A>, A>,
    octets: &[u8],
) -> Result<usize, AllocError>
    requires paged { IsPaged (page_octets pages.old.items) }
    requires room { HasRoom (page_octets pages.old.items) }
    requires some { 0 < length octets.now }
    ensures paged { IsPaged (page_octets pages.new.items) }
    ensures ok { IfOk result (λ count. concat (page_octets pages.new.items) ≡ concat (page_octets pages.old.items) ++ take count octets.now) }
    ensures some { IfOk result (λ count. (0 < count) × (count ≤ length octets.now)) }
    ensures err { OnErr result (concat (page_octets pages.new.items) ≡ concat (page_octets pages.old.items)) }
{
    let last = pages.len() - 1;
    let page = &mut pages[last];
    let count = octets.len().min(PAGE - page.len());
    match page.extend_from_slice(&octets[..count]) {
        Ok(()) => Ok(count),
        Err(_) => Err(AllocError),
    }
}

/// Drops all octets but the first `count`.
fn cut<A: Allocator + Copy>(pages: &mut Vec<Page<A>, A>, count: u64)
    requires paged { IsPaged (page_octets pages.old.items) }
    requires most { count ≤ length (concat (page_octets pages.old.items)) }
    ensures paged { IsPaged (page_octets pages.new.items) }
    ensures front { concat (page_octets pages.new.items) ≡ take count (concat (page_octets pages.old.items)) }
{
    let last = count as usize / PAGE;
    pages.truncate(last + 1);
    if last < pages.len() {
        pages[last].truncate(count as usize % PAGE);
    }
}

/// At most so many octets from a place on, of one page.
pub(crate) fn piece<A: Allocator + Copy>(pages: &[Page<A>], at: u64, max: usize) -> &[u8]
    requires { IsPaged (page_octets pages.now) }
    // Witness: as of `piece`.
    ensures octets { result.now ≡ take (length result.now) (drop at (concat (page_octets pages.now))) }
    ensures most { length result.now ≤ max }
    ensures some { 0 < max → at < length (concat (page_octets pages.now)) → 0 < length result.now }
{
    let (number, place) = (at as usize / PAGE, at as usize % PAGE);
    if number >= pages.len() {
        return b"".as_slice();
    }
    let page = pages[number].as_slice();
    if place >= page.len() {
        return b"".as_slice();
    }
    let rest = &page[place..];
    &rest[..max.min(rest.len())]
}
