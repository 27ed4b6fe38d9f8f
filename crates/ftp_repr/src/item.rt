ghost use Rattle.std.specs.Prelude.{◌≡◌, ◌==◌, length};
ghost use Rattle.ftp_repr.specs.Items.{signs};

/// What a file is made of between its octets and its wire (RFC 959, section 3.4).
///
/// Octets are lent, some of a file's or of its wire's: how a row of them is cut into items says nothing.
#[derive(Clone, Copy, PartialEq, Eq)]
pub enum Item<'a> {
    /// Octets of data, as they go over the wire in this type.
    Octets(&'a [u8]),
    /// A record is complete.
    EndRecord,
    /// The file is complete.
    EndFile,
}

impl<'a> Item<'a> {
    /// Whether it says nothing: no octets.
    pub fn is_empty(&self) -> bool
        ensures { result ≡ (length (signs self.now) == 0) }
    {
        match self {
            Item::Octets(piece) => piece.is_empty(),
            Item::EndRecord | Item::EndFile => false,
        }
    }

    /// How many octets or ends it says.
    pub fn len(&self) -> usize
        ensures { result ≡ length (signs self.now) }
    {
        match self {
            Item::Octets(piece) => piece.len(),
            Item::EndRecord | Item::EndFile => 1,
        }
    }
}

/// What octets or an end in front of an item settle, lent, and what of the item is still to be taken.
#[derive(Clone, Copy, PartialEq, Eq)]
pub struct Lent<'a> {
    /// Whether a CR comes before the octets.
    pub with_return: bool,
    /// Octets of the file.
    pub octets: &'a [u8],
    /// How many octets or ends of the item were taken.
    pub taken: usize,
    pub rest: Item<'a>,
}
