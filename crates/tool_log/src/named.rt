// A text of a stranger in a line of the log.
use std::fmt;
use std::fmt::{Display, Formatter};
use tool_terminal::Shown;

/// A text of a client, or a name of the folder, in quotation marks and as it is shown; a quotation mark of its own is `\x22`, so that it ends nothing.
#[derive(Clone, Copy)]
pub struct QuotedName<'a>(pub &'a [u8]);

impl<'a> Display for QuotedName<'a> {
    fn fmt<W: fmt::Write>(&self, formatter: &mut Formatter<W>) -> fmt::Result {
        formatter.write_str("\"")?;
        write_within(self.0, formatter)?;
        formatter.write_str("\"")
    }
}

/// A place below a folder, with that before it, in the same way.
#[derive(Clone, Copy)]
pub struct Placed<'a> {
    pub dir: &'a str,
    pub below: &'a [u8],
}

impl<'a> Display for Placed<'a> {
    fn fmt<W: fmt::Write>(&self, formatter: &mut Formatter<W>) -> fmt::Result {
        formatter.write_str("\"")?;
        write_within(self.dir.as_bytes(), formatter)?;
        write_within(self.below, formatter)?;
        formatter.write_str("\"")
    }
}

/// Writes a text as it stands between quotation marks.
fn write_within<W: fmt::Write>(text: &[u8], formatter: &mut Formatter<W>) -> fmt::Result {
    for (index, part) in text.split(|octet| *octet == b'"').enumerate() {
        if index > 0 {
            formatter.write_str("\\x22")?;
        }
        Shown(part).fmt(formatter)?;
    }
    Ok(())
}
