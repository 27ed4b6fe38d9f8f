// Paths from the root of a whole tree on: an account's root and a path below it, joined.
ghost use Rattle.std.specs.Prelude.{◌≡◌, ◌≤◌, ◌<◌, ◌+◌, ◌∷◌, ◌++◌, IsTrue, length, true};
ghost use Rattle.std.specs.List.{position};
ghost use Rattle.ftp_path.specs.Kept.{names_of};
ghost use Rattle.ftp_path.specs.Path.{fits, is_name, is_slash, parent, text_limit};
ghost use Rattle.ftp_tree.specs.Text.{IsPlace};

use arrayvec::ArrayVec;
use ftp_path::Path;
use std::alloc::Allocator;
use std::marker::Model;

/// The names of a root and after them those of a path below it, with no memory but a buffer that holds any two paths.
#[derive(Drop)]
pub(crate) struct Joined {
    octets: ArrayVec<u8, 1800>,
}

impl Model for Joined {
    ghost use Rattle.std.specs.Prelude.{ℕ, List};

    ghost Value = { List (List ℕ) };

    ghost use Rattle.ftp_path.specs.Kept.{names_of};
    ghost use Rattle.ftp_tree.specs.Text.{IsPlace};

    ghost view = { λ names. names_of names.octets.items };

    ghost invariant = { λ names. IsPlace names.octets.items };
}

impl Joined {
    /// The names of a root, and after them those of a path below it.
    pub(crate) fn of<A: Allocator + Copy, B: Allocator + Copy>(
        root: &Path<A>,
        path: &Path<B>,
    ) -> Joined
        ensures { result ≡ root.now ++ path.now }
    {
        Joined::both(root.key(), path.key())
    }

    /// The same of what is above the path.
    pub(crate) fn above<A: Allocator + Copy, B: Allocator + Copy>(
        root: &Path<A>,
        path: &Path<B>,
    ) -> Joined
        ensures names { result ≡ root.now ++ parent path.now }
        ensures fits { fits path.now ≡ true }
    {
        Joined::both(root.key(), path.parent_key())
    }

    /// The names that two texts join, one after another.
    fn both(root: &[u8], path: &[u8]) -> Joined
        requires root { IsPlace root.now }
        requires path { IsPlace path.now }
        requires within { (length root.now ≤ text_limit) × (length path.now ≤ text_limit) }
        ensures { result ≡ names_of root.now ++ names_of path.now }
    {
        let mut octets = ArrayVec::new();
        octets.try_extend_from_slice(root).unwrap();
        octets.try_extend_from_slice(path).unwrap();
        Joined { octets }
    }

    /// They joined. Lends them.
    pub(crate) fn key(&self) -> &[u8]
        ensures place { IsPlace result.now }
        ensures names { names_of result.now ≡ self.now }
    {
        self.octets.as_slice()
    }
}

/// The first of some names joined, and those after it joined.
pub(crate) fn first_name(key: &[u8]) -> (&[u8], &[u8])
    requires place { IsPlace key.now }
    requires some { 0 < length key.now }
    ensures names { names_of key.now ≡ result.0.now ∷ names_of result.1.now }
    ensures name { IsTrue (is_name result.0.now) }
    ensures rest { IsPlace result.1.now }
    ensures whole { length result.1.now + length result.0.now + 1 ≡ length key.now }
{
    let text = &key[1..];
    let end = first_slash(text).unwrap_or(text.len());
    (&text[..end], &text[end..])
}

/// Where the first `/` stands.
fn first_slash(text: &[u8]) -> Option<usize>
    ensures { result ≡ position is_slash text.now }
{
    text.iter().position(|octet| *octet == b'/')
}
