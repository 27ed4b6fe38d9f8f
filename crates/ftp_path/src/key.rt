//! Paths by their names joined, as `Path::key` and `Path::parent_key` lend them: which comes first, and which is below which.
ghost use Rattle.std.specs.Prelude.{◌≡◌, IsTrue, length, map, nat_le};
ghost use Rattle.std.specs.List.{list_all};
ghost use Rattle.std.specs.Option.{option_map};
ghost use Rattle.std.specs.Cmp.Lexicographic.{slice_cmp};
ghost use Rattle.std.specs.Ordering.{nat_cmp};
ghost use Rattle.ftp_path.specs.Kept.{IsJoined, goes_on, names_of, rank};
ghost use Rattle.ftp_path.specs.Path.{is_within, name_in, name_limit, path_cmp};

use crate::name::Name;
use std::cmp::Ordering;

/// How two paths compare: name by name, each by its octets.
pub fn order(key: &[u8], other: &[u8]) -> Ordering
    requires key { IsJoined key.now }
    requires other { IsJoined other.now }
    ensures { result ≡ path_cmp (names_of key.now) (names_of other.now) }
{
    ranked_order(key, other)
}

/// How two texts compare where a `/` comes before each other octet, as a name's end does.
fn ranked_order(key: &[u8], other: &[u8]) -> Ordering
    ensures { result ≡ slice_cmp nat_cmp (map rank key.now) (map rank other.now) }
{
    key.iter()
        .map(|octet| rank(*octet))
        .cmp(other.iter().map(|octet| rank(*octet)))
}

fn rank(octet: u8) -> u8
    ensures { result ≡ rank octet }
{
    if octet == b'/' { 0 } else { octet }
}

/// Whether the second path is the first or below it.
pub fn is_within(above: &[u8], key: &[u8]) -> bool
    requires above { IsJoined above.now }
    requires key { IsJoined key.now }
    ensures { result ≡ is_within (names_of above.now) (names_of key.now) }
{
    goes_on(above, key)
}

/// Whether a text starts with another and then ends, or goes on with a `/`.
fn goes_on(front: &[u8], text: &[u8]) -> bool
    ensures { result ≡ goes_on front.now text.now }
{
    if !text.starts_with(front) {
        return false;
    }
    let rest = &text[front.len()..];
    rest.is_empty() || rest[0] == b'/'
}

/// What the directory at the first path calls what stands at the second, where that stands directly in it.
pub fn name_in<'a>(above: &[u8], key: &'a [u8]) -> Option<Name<'a>>
    requires above { IsJoined above.now }
    requires key { IsJoined key.now }
    requires short { IsTrue (list_all (λ name. nat_le (length name) name_limit) (names_of key.now)) }
    ensures { option_map (λ name. name.octets.now) result ≡ name_in (names_of above.now) (names_of key.now) }
{
    if !is_within(above, key) || key.len() <= above.len() {
        return None;
    }
    let name = &key[above.len() + 1..];
    if name.contains(&b'/') {
        return None;
    }
    Name::new(name)
}
