// How a row says that a device strays.
use crate::octets::octets_of;
use crate::paths::place;
use crate::stray::{Stray, StrayChange};
use crate::straying_tree::StrayingTree;
use ftp_facts::Moment;
use ftp_tree_memory::Content;
use rows_base::{found, number, split};
use std::alloc::{Allocator, Global};

/// The second in which others write a file.
const THEN: Moment = Moment { seconds: 8 };

/// What others did, or what is given or kept.
#[derive(Clone, Copy)]
enum StrayWord {
    File,
    Gone,
    Dir,
    Gives,
    Keeps,
    Nothing,
}

const WORDS: &[(&'static [u8], StrayWord)] = &[
    (b"file", StrayWord::File),
    (b"gone", StrayWord::Gone),
    (b"dir", StrayWord::Dir),
    (b"gives", StrayWord::Gives),
    (b"keeps", StrayWord::Keeps),
];

/// Tells a tree to stray as a text says it, `2 file /f abc`: at the second look `/f` is found written by others. Whether the text says something,
/// and memory was not refused.
pub fn strays_so<A: Allocator + Copy>(
    heap: A,
    own: Global,
    tree: &mut StrayingTree<A>,
    text: &[u8],
) -> bool {
    let (count, rest) = split(text);
    let (word, rest) = split(rest);
    match stray_of(heap, own, found(WORDS, word, StrayWord::Nothing), rest) {
        Some(stray) => {
            tree.strays_at(number(count), stray);
            true
        }
        None => false,
    }
}

fn stray_of<A: Allocator + Copy>(
    heap: A,
    own: Global,
    word: StrayWord,
    text: &[u8],
) -> Option<Stray<A>> {
    match (word, text) {
        (StrayWord::Gives, [octet, ..]) => Some(Stray::Given(*octet)),
        (StrayWord::Keeps, octets) => Some(Stray::Kept(content_of(heap, own, octets)?)),
        _ => Some(Stray::Found(change_of(heap, own, word, text)?)),
    }
}

fn change_of<A: Allocator + Copy>(
    heap: A,
    own: Global,
    word: StrayWord,
    text: &[u8],
) -> Option<StrayChange<A>> {
    let (text, octets) = split(text);
    let Ok(path) = place(heap, text) else {
        return None;
    };
    match word {
        StrayWord::File => Some(StrayChange::Written(path, content_of(heap, own, octets)?, THEN)),
        StrayWord::Gone => Some(StrayChange::Removed(path)),
        StrayWord::Dir => Some(StrayChange::Made(path)),
        _ => None,
    }
}

/// The octets that a text says.
fn content_of<A: Allocator + Copy>(heap: A, own: Global, text: &[u8]) -> Option<Content<A>> {
    let octets = octets_of(own, text);
    let mut content = Content::new(heap);
    match content.push(octets.as_slice()) {
        Ok(()) => Some(content),
        Err(_) => None,
    }
}
