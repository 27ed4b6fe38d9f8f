// What a server begins with.
use crate::event::YEAR_2000;
use crate::turn::RowTurn;
use ftp_facts::Text;
use ftp_operation::{Account, Accounts, Rights};
use ftp_path::Path;
use ftp_secret::Secret;
use ftp_tree::Tree;
use ftp_tree_memory::{Content, HeldTree, MemTree};
use rows_base::{cut, found, number, octets_of, split};
use rows_tree::{make_dirs, place};
use std::alloc::{AllocError, Allocator, Global};

/// The most octets of the files below a root: so many blocks of so many octets.
const BLOCK: usize = 65_536;

const MOST_BLOCKS: u64 = 1_024;

/// More than the files and directories below a root.
const MORE_THAN_NODES: u64 = 20_000;

/// `guest` with the password `secret`, and `anonymous` without one, both at this root.
pub fn accounts<A: Allocator + Copy>(heap: A, root: &[u8]) -> Result<Accounts<A>, AllocError> {
    accounts_with(heap, root, Rights::all())
}

/// The same, with these rights.
pub fn accounts_with<A: Allocator + Copy>(
    heap: A,
    root: &[u8],
    rights: Rights,
) -> Result<Accounts<A>, AllocError> {
    let mut list = Vec::new(heap);
    list.push(account(heap, b"guest", Some(Secret::plain(b"secret")), root, rights)?)?;
    list.push(account(heap, b"anonymous", None, root, rights)?)?;
    match Accounts::new(list) {
        Ok(accounts) => Ok(accounts),
        Err(_) => Err(AllocError),
    }
}

fn account<A: Allocator + Copy>(
    heap: A,
    user: &[u8],
    pass: Option<Secret>,
    root: &[u8],
    rights: Rights,
) -> Result<Account<Text<A>, Path<A>>, AllocError> {
    let user = Text::copy_of(heap, user)?;
    let Ok(root) = place(heap, root) else {
        return Err(AllocError);
    };
    Ok(Account {
        user,
        pass,
        root,
        rights,
    })
}

/// Puts what a row says into the tree; whether memory was not refused.
pub fn plants<A: Allocator + Copy>(turn: RowTurn<'_>, heap: A, tree: &mut MemTree<A>) -> bool {
    let mut rest = turn.row;
    for _ in 0..turn.row.len() {
        let (line, behind) = cut(rest, b'\n');
        if !gives(turn.alloc, heap, tree, line) {
            return false;
        }
        rest = behind;
    }
    true
}

/// What a line puts into the tree.
#[derive(Clone, Copy)]
enum Plant {
    Dir,
    Dirs,
    Full,
    File,
    Nothing,
}

const PLANTS: &[(&'static [u8], Plant)] = &[
    (b"dir", Plant::Dir),
    (b"dirs", Plant::Dirs),
    (b"full", Plant::Full),
    (b"file", Plant::File),
];

/// Puts what a line says into the tree.
fn gives<A: Allocator + Copy>(own: Global, heap: A, tree: &mut MemTree<A>, line: &[u8]) -> bool {
    let (word, rest) = split(line);
    match found(PLANTS, word, Plant::Nothing) {
        Plant::Dir => makes_dir(heap, tree, rest),
        Plant::Dirs => makes_dirs(heap, tree, number(rest)),
        Plant::Full => makes_dir(heap, tree, rest) && makes_full(heap, tree, rest),
        Plant::File => makes_file(own, heap, tree, split(rest)),
        Plant::Nothing => true,
    }
}

/// Makes so many directories, or as many as it takes, which is well.
fn makes_dirs<A: Allocator + Copy>(heap: A, tree: &mut MemTree<A>, count: u64) -> bool {
    make_dirs(heap, tree, &Path::root(heap), count);
    true
}

fn makes_dir<A: Allocator + Copy>(heap: A, tree: &mut MemTree<A>, text: &[u8]) -> bool {
    match place(heap, text) {
        Ok(path) => tree.make_dir(&Path::root(heap), &path).is_ok(),
        Err(_) => false,
    }
}

fn makes_file<A: Allocator + Copy>(
    own: Global,
    heap: A,
    tree: &mut MemTree<A>,
    (text, octets): (&[u8], &[u8]),
) -> bool {
    let mut content = Content::new(heap);
    match octets_of(own, octets) {
        Ok(octets) => content.push(octets.as_slice()).is_ok()
            && installs(heap, tree, &Path::root(heap), text, &mut content),
        Err(_) => false,
    }
}

/// Puts a file there, below a root.
fn installs<A: Allocator + Copy>(
    heap: A,
    tree: &mut MemTree<A>,
    root: &Path<A>,
    text: &[u8],
    content: &mut Content<A>,
) -> bool {
    match place(heap, text) {
        Ok(path) => tree.install(root, &path, content, YEAR_2000).is_ok(),
        Err(_) => false,
    }
}

/// Fills the part of the tree at a directory: a file of the most octets, and as many directories as it takes; whether there is an end of them.
fn makes_full<A: Allocator + Copy>(heap: A, tree: &mut MemTree<A>, text: &[u8]) -> bool {
    match place(heap, text) {
        Ok(root) => {
            puts_most(heap, tree, &root)
                && make_dirs(heap, tree, &root, MORE_THAN_NODES) < MORE_THAN_NODES
        }
        Err(_) => false,
    }
}

/// Puts a file of the most octets there.
fn puts_most<A: Allocator + Copy>(heap: A, tree: &mut MemTree<A>, root: &Path<A>) -> bool {
    let mut content = Content::new(heap);
    fills(heap, &mut content) && installs(heap, tree, root, b"most", &mut content)
}

/// Puts the most octets into a content.
fn fills<A: Allocator + Copy>(heap: A, content: &mut Content<A>) -> bool {
    let mut block = Vec::new(heap);
    let mut is_whole = block.resize(BLOCK, 0).is_ok();
    for _ in 0..MOST_BLOCKS {
        is_whole = is_whole && content.push(block.as_slice()).is_ok();
    }
    is_whole
}
