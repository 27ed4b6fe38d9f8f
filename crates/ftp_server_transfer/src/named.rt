// The argument of NLST.
ghost use Rattle.std.specs.Prelude.{◌≡◌, ◌≤◌, IfOk, length};
ghost use Rattle.ftp_path.specs.Path.{text_limit};

use ftp_facts::Text;
use ftp_path::TEXT_LIMIT;
use std::alloc::{AllocError, Allocator};
use std::marker::Model;

/// A text that names what is listed: at most `TEXT_LIMIT` octets.
#[derive(Drop)]
pub struct Named<A: Allocator + Copy> {
    text: Text<A>,
}

impl<A: Allocator + Copy> Model for Named<A> {
    ghost use Rattle.std.specs.Prelude.{List, ℕ};

    ghost Value = { List ℕ };

    ghost view = { λ named. named.text };

    ghost use Rattle.std.specs.Prelude.{◌≤◌, length};
    ghost use Rattle.ftp_path.specs.Path.{text_limit};

    ghost invariant = { λ named. length named.text ≤ text_limit };
}

impl<A: Allocator + Copy> Named<A> {
    /// A copy of these octets. Text that is longer than any path text is told as want of memory (own choice: no line names such a one).
    pub fn copy_of(alloc: A, octets: &[u8]) -> Result<Named<A>, AllocError>
        ensures { IfOk result (λ named. named ≡ octets.now) }
    {
        if octets.len() > TEXT_LIMIT {
            return Err(AllocError);
        }
        let text = Text::copy_of(alloc, octets)?;
        Ok(Named { text })
    }

    /// The octets.
    pub fn as_slice(&self) -> &[u8]
        ensures octets { result.now ≡ self.now }
        // Witness of few: `Listing::stored` needs it.
        ensures few { length result.now ≤ text_limit }
    {
        self.text.as_slice()
    }
}
