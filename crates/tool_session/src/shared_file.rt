// A file to which the octets of a download go as they come, the first of which may be those that it has.
ghost use Rattle.std.specs.Prelude.{◌≡◌};
ghost use Rattle.tool_session.specs.Again.{again};

use std::alloc::Global;
use std::fs::File;
use std::io;
use std::io::{Error, ErrorKind, Write};
use std::rc::Rc;

/// A file to which octets go as they come, after what it has, and which somebody else holds too. Its last octets may be awaited: those that come first are
/// compared with these, and none goes to the file before all of them came once more.
pub struct SharedFile {
    file: Rc<File, Global>,
    /// The last octets of the file that are to come once more.
    awaited: Vec<u8, Global>,
    /// How many of these came.
    agreed: usize,
}

/// By hand: a derived drop is proved again wherever one is let go.
impl Drop for SharedFile {
    fn drop(self) {
        let Self {
            file: _,
            awaited: _,
            agreed: _,
        } = self;
    }
}

impl SharedFile {
    /// A file that was opened so that what is written goes after what it has, of which the last octets are to come once more.
    pub fn new(file: Rc<File, Global>, awaited: Vec<u8, Global>) -> SharedFile {
        SharedFile {
            file,
            awaited,
            agreed: 0,
        }
    }
}

impl Write for SharedFile {
    fn write(&mut self, octets: &[u8]) -> io::Result<usize> {
        let awaited = self.awaited.get(self.agreed..).unwrap_or(&[]);
        if awaited.is_empty() {
            let mut file: &File = &self.file;
            return file.write(octets);
        }
        match again(awaited, octets) {
            Some(count) => {
                self.agreed = self.agreed.saturating_add(count);
                Ok(count)
            }
            None => Err(Error::new(ErrorKind::InvalidData, "it has other octets")),
        }
    }

    fn flush(&mut self) -> io::Result<()> {
        Ok(())
    }
}

/// How many of these octets come once more that are awaited next, as far as both go; none where one of them is another.
fn again(awaited: &[u8], octets: &[u8]) -> Option<usize>
    // Witness: an equation; `edits/an_octet_that_differs_comes_again`.
    ensures { result ≡ again awaited.now octets.now }
{
    if octets.starts_with(awaited) {
        Some(awaited.len())
    } else if awaited.starts_with(octets) {
        Some(octets.len())
    } else {
        None
    }
}

/// Whether a `SharedFile` failed since other octets came than those that are awaited: a file that cannot be written fails otherwise.
pub fn is_other(fault: Option<Error>) -> bool {
    match fault {
        Some(error) => error.kind() == ErrorKind::InvalidData,
        None => false,
    }
}
