// A single thing that is asked of a server, over a control connection of its own: a file that is fetched or sent, a listing, or what needs no data
// connection, as `rm`; and what is made of the answer at this end (RFC 959; RFC 3659).

mod download;
mod leaving;
mod looking;
mod parents;
mod part;
mod simple;
mod single;
mod target;
mod targets;
mod telling;
mod upload;

pub use download::{DownloadJob, Job, OUTPUT, PartHandling, get, limit_of, place_text, stamp_of};
pub use leaving::leave;
pub use parents::make_all;
pub use part::{discard, keep_part, prepare};
pub use simple::{Simple, do_simple, report};
pub use single::{Single, Wish, ask_for};
pub use target::Target;
pub use targets::{Targets, source_of};
pub use telling::tell_unwritten;
pub use upload::{FileSeen, Loaded, UploadTooLarge, load, put, put_renamed};
