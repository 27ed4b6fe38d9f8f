/// What the next octets of a wire gave.
#[derive(Clone, Copy, PartialEq, Eq)]
pub enum Part<'a> {
    /// Nothing: the whole piece was taken.
    Need,
    /// Octets of data, one at least, lent from the piece.
    Data(&'a [u8]),
    /// An end of record.
    EndRecord,
    /// The end of file.
    EndFile,
    /// A restart marker: `Deframer::marker` lends it.
    Marker,
}

/// How many octets of a piece were taken, and what they gave.
#[derive(Clone, Copy, PartialEq, Eq)]
pub struct Step<'a> {
    pub taken: usize,
    pub part: Part<'a>,
}
