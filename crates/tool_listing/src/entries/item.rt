// What stands in a directory.
use ftp_facts::Text;
use std::alloc::Allocator;

/// What is known of a file: its octets, and when it was changed last, in seconds since 1970 began.
#[derive(Clone, Copy)]
pub struct ItemFacts {
    pub size: Option<u64>,
    pub moment: Option<u64>,
}

/// What stands under a name.
#[derive(Clone, Copy)]
pub enum ItemKind {
    File(ItemFacts),
    Dir,
    /// A link, a pipe or another thing that is neither, or what has no type.
    Other,
    /// The mirror leaves it alone, whatever it is.
    Excluded,
    /// A line of the listing that is no entry; the name is that in the line, if it has one.
    Odd,
}

/// An entry of a directory.
#[derive(Drop)]
pub struct ListedItem<A: Allocator + Copy> {
    pub name: Text<A>,
    pub kind: ItemKind,
}

/// The entries of a directory.
pub enum DirectoryListing<A: Allocator + Copy> {
    Whole(Vec<ListedItem<A>, A>),
    /// It has more entries than are taken.
    CutOff,
}

/// By hand: a derived drop is proved again, part by part, wherever a listing is let go.
impl<A: Allocator + Copy> Drop for DirectoryListing<A> {
    fn drop(self) {
        match self {
            DirectoryListing::Whole(_) | DirectoryListing::CutOff => {}
        }
    }
}
