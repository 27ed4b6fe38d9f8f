// What a line of LIST tells in the columns of `ls -l`.
ghost use Rattle.ftp_endpoint.specs.Number.{IsShort};

use ftp_facts::Moment;

/// What stands under a name, by the letter that a line begins with.
#[derive(Clone, Copy)]
pub enum UnixKind {
    File,
    Dir,
    Link,
    /// A pipe, a socket or a device.
    Other,
}

/// What a line tells.
#[derive(Clone, Copy)]
pub struct UnixLine<'a> {
    pub kind: UnixKind,
    /// In octets.
    pub size: u64,
    /// The moment at which the day begins on which it was changed last, in UTC; none where the line has a time of day in place of the year.
    pub day: Option<Moment>,
    pub name: &'a [u8],
    pub ghost size_fits: { IsShort size },
}
