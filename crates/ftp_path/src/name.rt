// Tests of octets: which text may be read as a path, and what a component of it is.
ghost use Rattle.std.specs.Prelude.{◌≡◌, ◌↔◌, IsTrue, IsSome, IfSome};
ghost use Rattle.std.specs.List.{list_all};
ghost use Rattle.std.specs.Str.{is_utf8};
ghost use Rattle.ftp_path.specs.Path.{IsPathText, is_listed_text, is_path_octet, is_text, is_name_octet, is_part, is_here, is_above, is_component, is_name, is_rooted};

use crate::limits::{NAME_LIMIT, TEXT_LIMIT};

/// Whether a text may be resolved: 1 to 900 octets of UTF-8 (RFC 2640, section 3.1) without the octets 0 to 31 and 127.
/// The limits are own choices.
pub fn is_path_text(text: &[u8]) -> bool
    // Witness: equations of what they answer.
    ensures { IsTrue result ↔ IsPathText text.now }
{
    !text.is_empty() && text.len() <= TEXT_LIMIT && is_text(text)
}

/// Whether a text may be a pathname that a server lists: as a path text, but of any length.
pub fn is_listed_text(text: &[u8]) -> bool
    // Witness: equations of what they answer.
    ensures { IsTrue result ↔ IsTrue (is_listed_text text.now) }
{
    !text.is_empty() && is_text(text)
}

/// What one directory calls one of its nodes: 1 to 255 octets of such a text, no `/`, and neither `.` nor `..`. Names are
/// equal, and in order, by their octets. They are lent.
#[derive(Clone, Copy)]
pub struct Name<'a> {
    octets: &'a [u8],
    ghost named: { IsTrue (is_name octets.now) },
}

impl<'a> Name<'a> {
    /// The name that some octets are, or `None` where they are none.
    pub fn new(octets: &'a [u8]) -> Option<Name<'a>>
        // Witness: together an equation of what it answers.
        ensures name { IfSome result (λ name. name.octets.now ≡ octets.now) }
        ensures named { IsSome result ↔ IsTrue (is_name octets.now) }
    {
        if is_component(octets) && octets.len() <= NAME_LIMIT {
            Some(Name { octets })
        } else {
            None
        }
    }

    /// Its octets.
    pub fn octets(&self) -> &'a [u8]
        ensures octets { result.now ≡ self.now.octets.now }
        // Witness of named: `names_in` of `ftp_direct`, whose clause `named` passes it on.
        ensures named { IsTrue (is_name result.now) }
    {
        self.octets
    }
}

/// Whether a component names something, though maybe by too many octets.
fn is_component(component: &[u8]) -> bool
    ensures { result ≡ is_component component.now }
{
    !is_here(component) && !is_above(component) && is_part(component)
}

/// Whether a component stays where it is: an empty one, or `.`.
pub(crate) fn is_here(component: &[u8]) -> bool
    ensures { result ≡ is_here component.now }
{
    component.is_empty() || component == b".".as_slice()
}

/// Whether a component goes up to the parent: `..`.
pub(crate) fn is_above(component: &[u8]) -> bool
    ensures { result ≡ is_above component.now }
{
    component == b"..".as_slice()
}

/// Whether a text starts at the root.
pub(crate) fn is_rooted(text: &[u8]) -> bool
    ensures { result ≡ is_rooted text.now }
{
    text.starts_with(b"/")
}

/// Whether octets are UTF-8 with no control.
fn is_text(octets: &[u8]) -> bool
    ensures { result ≡ is_text octets.now }
{
    is_utf8(octets) && are_path_octets(octets)
}

/// Whether octets may stand between two slashes.
fn is_part(octets: &[u8]) -> bool
    ensures { result ≡ is_part octets.now }
{
    is_utf8(octets) && are_name_octets(octets)
}

fn is_utf8(octets: &[u8]) -> bool
    ensures { result ≡ is_utf8 octets.now }
{
    simdutf8::is_utf8(octets)
}

fn are_path_octets(octets: &[u8]) -> bool
    ensures { result ≡ list_all is_path_octet octets.now }
{
    octets.iter().all(|octet| is_path_octet(*octet))
}

fn are_name_octets(octets: &[u8]) -> bool
    ensures { result ≡ list_all is_name_octet octets.now }
{
    octets.iter().all(|octet| is_name_octet(*octet))
}

fn is_path_octet(octet: u8) -> bool
    ensures { result ≡ is_path_octet octet }
{
    32 <= octet && octet != 127
}

fn is_name_octet(octet: u8) -> bool
    ensures { result ≡ is_name_octet octet }
{
    is_path_octet(octet) && octet != b'/'
}
