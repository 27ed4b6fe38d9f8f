// Where a text leads: its components, followed one by one, with no memory but a buffer that holds any two texts.
ghost use Rattle.std.specs.Prelude.{◌≡◌, ◌+◌, ◌-◌, ◌≤◌, [], IsTrue, fold, length, nat_le};
ghost use Rattle.std.specs.List.{list_all, slice_split, suffix_len};
ghost use Rattle.ftp_path.specs.Path.{fits, followed, is_part, is_text, is_slash, joined};
ghost use Rattle.ftp_path.specs.Kept.{IsJoined, is_no_slash, names_of};

use crate::limits::{NAME_LIMIT, TEXT_LIMIT};
use crate::name::{is_above, is_here};
use arrayvec::ArrayVec;
use std::marker::Model;

/// The names passed so far, joined: a path's text, a `/` and the text that is followed have room.
#[derive(Drop)]
pub(crate) struct Walk {
    octets: ArrayVec<u8, 1801>,
}

impl Model for Walk {
    ghost use Rattle.std.specs.Prelude.{ℕ, List};

    ghost Value = { List (List ℕ) };

    ghost use Rattle.ftp_path.specs.Kept.{IsJoined, names_of};

    ghost view = { λ walk. names_of walk.octets.items };

    ghost invariant = { λ walk. IsJoined walk.octets.items };
}

impl Walk {
    /// At the root.
    pub(crate) fn at_root() -> Walk
        ensures { result ≡ [] }
    {
        Walk {
            octets: ArrayVec::new(),
        }
    }

    /// At a path, given as its names joined.
    pub(crate) fn at(octets: &[u8]) -> Walk
        requires joined { IsJoined octets.now }
        requires within { length octets.now ≤ TEXT_LIMIT }
        ensures { result ≡ names_of octets.now }
    {
        let mut walk = ArrayVec::new();
        walk.try_extend_from_slice(octets).unwrap();
        Walk { octets: walk }
    }

    /// Follows the components of a text.
    pub(crate) fn follow_all(&mut self, text: &[u8])
        requires octets { IsTrue (is_text text.now) }
        requires room { length (joined self.old) + 1 + length text.now ≤ 1801 }
        ensures { self.new ≡ fold followed self.old (slice_split is_slash text.now) }
    {
        let mut rest = text;
        while let Some(end) = rest.iter().position(|octet| *octet == b'/') {
            let (component, more) = rest.split_at(end);
            self.follow(component);
            rest = &more[1..];
        }
        self.follow(rest);
    }

    /// Follows one component.
    fn follow(&mut self, component: &[u8])
        requires octets { IsTrue (is_part component.now) }
        requires room { length (joined self.old) + 1 + length component.now ≤ 1801 }
        ensures { self.new ≡ followed self.old component.now }
    {
        if is_here(component) {
            return;
        }
        if is_above(component) {
            let kept = parent_len(self.octets.as_slice());
            self.octets.truncate(kept);
            return;
        }
        self.octets.push(b'/');
        self.octets.try_extend_from_slice(component).unwrap();
    }

    /// Whether the names so far are within the limits of a path.
    pub(crate) fn fits(&self) -> bool
        ensures { result ≡ fits self.now }
    {
        are_short(self.octets.as_slice()) && self.octets.len() <= TEXT_LIMIT
    }

    /// The names, joined.
    pub(crate) fn octets(&self) -> &[u8]
        ensures joined { IsJoined result.now }
        ensures names { names_of result.now ≡ self.now }
    {
        self.octets.as_slice()
    }
}

/// Whether no part between slashes has over 255 octets.
fn are_short(octets: &[u8]) -> bool
    ensures { result ≡ list_all (λ name. nat_le (length name) NAME_LIMIT) (slice_split is_slash octets.now) }
{
    octets
        .split(|octet| *octet == b'/')
        .all(|name| name.len() <= NAME_LIMIT)
}

/// How much of a joined text is its parent's: what stands before the last `/`.
pub(crate) fn parent_len(octets: &[u8]) -> usize
    ensures value { result ≡ length octets.now - suffix_len is_no_slash octets.now - 1 }
    ensures within { result ≤ length octets.now }
{
    match octets.iter().rposition(|octet| *octet == b'/') {
        Some(at) => at,
        None => 0,
    }
}
