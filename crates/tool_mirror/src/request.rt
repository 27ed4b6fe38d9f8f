// What is mirrored, and how.
ghost use Rattle.std.specs.Prelude.{◌≡◌, IfOk, string_bytes};
ghost use Rattle.tool_location.specs.Placing.{joined};

use ftp_facts::Text;
use ftp_operation::How;
use std::alloc::{AllocError, Global};
use tool_files::Flush;
use tool_location::joined;
use tool_login::User;
use tool_mirror_plan::Rules;
use tool_session::{Openings, ServerAddress};

/// What is done of what is planned.
#[derive(Clone, Copy)]
pub enum Doing {
    /// All of it.
    All,
    /// Nothing: it is told.
    Nothing,
}

/// What of the actions goes to standard output.
#[derive(Clone, Copy)]
pub enum ActionOutput {
    /// Where nothing is done, what would be, in words.
    Words,
    /// An object of JSON for each that is done, or would be.
    Json,
}

/// What is mirrored, and how.
#[derive(Clone, Copy)]
pub struct MirrorRequest<'a> {
    pub server: ServerAddress<'a>,
    pub user: User<'a>,
    /// The directory of the server.
    pub path: &'a str,
    /// The folder of this machine.
    pub folder: &'a str,
    pub how: How,
    /// By which commands its data connections are asked for.
    pub openings: &'a Openings,
    pub rules: Rules,
    /// Patterns of what is left alone.
    pub excluded: &'a [&'a str],
    /// When a file of this machine is on the disk.
    pub flush: Flush,
    /// The most octets of a file.
    pub limit: u64,
    pub doing: Doing,
    pub actions: ActionOutput,
    /// When it began, in seconds from the beginning of 1970, by this machine's clock: nothing was listed before. `mirror` sets it.
    pub begun: u64,
}

impl<'a> MirrorRequest<'a> {
    /// The path at the server of what is called `below` in the tree.
    pub(crate) fn there(&self, alloc: Global, below: &str) -> Result<String<Global>, AllocError>
        // Witness: an equation, where memory is not refused; `edits/the_root_stands_below_its_entries`.
        ensures { IfOk result (λ path. string_bytes path ≡ joined self.now.path.now below.now) }
    {
        joined(alloc, self.path, below)
    }

    /// The same, as it goes into an operation.
    pub(crate) fn path(&self, alloc: Global, below: &str) -> Result<Text<Global>, AllocError>
        // Witness: an equation, where memory is not refused.
        ensures { IfOk result (λ path. path ≡ joined self.now.path.now below.now) }
    {
        Text::copy_of(alloc, self.there(alloc, below)?.as_bytes())
    }
}
