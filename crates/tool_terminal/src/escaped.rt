// Octets of a stranger as they are shown, so that no terminal obeys them: appended to octets, and as a text that a formatter writes (own choice;
// RFC 3629, section 4). No IO.

pub mod rows;
mod shown;

pub use shown::{Shown, put_shown};
