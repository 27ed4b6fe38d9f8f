//! Uploads and downloads that go on where they were cut: try after try, over data connections that break and control connections that end, until the
//! file is whole or it is told why not (RFC 959, section 3.5; RFC 3659, sections 3 to 5). What follows a try is decided by values alone: by `follows` of an
//! upload, and by `follows_download` of a download.
#![tactic(auto)]

mod download_tries;
mod downloading;
mod foreseeing;
mod held;
mod known_file;
mod laws;
mod noting;
mod overlap;
mod received;
mod retry;
pub mod rows;
mod sending;
mod source;
mod step;
mod telling;
mod uploading;
mod version;

pub use download_tries::follows_download;
pub use downloading::Downloading;
pub use foreseeing::download_row;
pub use held::limit_held;
pub use known_file::KnownMoment;
pub use laws::{downloads_end, one_file_is_downloaded, one_file_is_uploaded, uploads_end};
pub use received::ReceivedOctets;
pub use retry::is_counted;
pub use sending::Sending;
pub use source::UploadSource;
pub use step::{
    Ended, FrontOwner, NextStep, There, TransferState, behind_front, follows, front_from, joins,
    part_owner,
};
pub use telling::{ToldPart, tell, tell_too_large};
pub use uploading::{Uploading, Wrong};
pub use version::{
    Arrival, FileVersion, LastChange, Size, arrived, is_too_large, last_change, resumes, stays,
};
