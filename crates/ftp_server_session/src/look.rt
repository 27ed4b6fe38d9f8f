// The path that a command names, and the look of the tree before anything is asked there.
ghost use Rattle.std.specs.Prelude.{◌≡◌, ◌==◌, IfErr, IfOk, MatchOption, None, OnOk, Some, false, length, true};
ghost use Rattle.ftp_command.specs.Line.{IfGiven};
ghost use Rattle.ftp_direct.specs.Direct.{named_or_here, refused_file};
ghost use Rattle.ftp_direct.specs.declared.refusal.Refusal.{Refusal};
ghost use Rattle.ftp_path.specs.Path.{IsPathText, fits, resolved};
ghost use Rattle.ftp_server_model.specs.Ask.{or_empty};
ghost use Rattle.ftp_server_model.specs.View.{direct_of};
ghost use Rattle.ftp_server_replies.specs.Fault.{Counted};
ghost use Rattle.ftp_tree.specs.Change.{IsSteady, NoStray};

use crate::session::Session;
use ftp_command::Argument;
use ftp_direct::file_fault;
use ftp_path::{Path, PathFault};
use ftp_server_replies::{Fault, ServerTransfer};
use ftp_tree::{Sight, Tree};
use std::alloc::Allocator;

/// The tree looks at a path, below a root of it, as far as a command tells of it, before that reads there.
pub(crate) fn look<A: Allocator + Copy, T: Tree<A>>(
    tree: &mut T,
    root: &Path<A>,
    path: &Path<A>,
    sight: Sight,
) -> Result<(), Fault>
    ensures table { NoStray (T.failures tree.old) (T.failures tree.new) → T.table tree.new ≡ T.table tree.old }
    ensures steady { OnOk result (IsSteady (T.failures tree.old) (T.failures tree.new)) }
    ensures failed { IfErr result (λ fault. Counted fault (T.failures tree.old) (T.failures tree.new)) }
{
    match tree.look(root, path, sight) {
        Ok(_) => Ok(()),
        Err(_) => Err(Fault::Device),
    }
}

/// Whether an argument that may be left out names the current directory by that.
pub(crate) fn is_here<A: Allocator + Copy>(text: &Option<Argument<A>>) -> bool
    ensures { result ≡ (length (or_empty text.now) == 0) }
{
    match text {
        Some(text) => text.octets().is_empty(),
        None => true,
    }
}

impl<A: Allocator + Copy, T: Tree<A>, J: ServerTransfer<A, T>> Session<A, T, J> {
    ghost use Rattle.ftp_server_session.specs.Session.{Looks, session_of};

    /// The path that a text names from the current directory, looked at so far; or `None` where it is past the limits of paths.
    pub(crate) fn see(&mut self, text: &[u8], sight: Sight) -> Result<Option<Path<A>>, Fault>
        requires { IsPathText text.now }
        ensures found { IfOk result (λ found. MatchOption found (fits (resolved self.new.cwd text.now) ≡ false)
            (λ path. (path ≡ resolved self.new.cwd text.now) × (fits path ≡ true))) }
        ensures looked { Looks T.table T.failures self.old self.new result }
    {
        let path = match self.cwd.resolve(self.alloc, text) {
            Ok(path) => path,
            Err(PathFault::TooBig) => return Ok(None),
            Err(_) => return Err(Fault::Memory),
        };
        look(&mut self.tree, &self.root, &path, sight)?;
        Ok(Some(path))
    }

    /// The path that a text names, or the current directory's where there is none; `None` past the limits of paths.
    pub(crate) fn see_here(
        &mut self,
        text: &Option<Argument<A>>,
        sight: Sight,
    ) -> Result<Option<Path<A>>, Fault>
        requires { IfGiven IsPathText text.now }
        ensures found { IfOk result (λ found. let path = named_or_here (direct_of (session_of T.table J.view self.new)) (or_empty text.now) in
            MatchOption found (fits path ≡ false) (λ is. (is ≡ path) × (fits is ≡ true))) }
        ensures looked { Looks T.table T.failures self.old self.new result }
    {
        match text {
            Some(text) => self.see(text.octets(), sight),
            None => self.see(b".", sight),
        }
    }

    /// The path of the file that a text names, or `None` where no file stands there.
    pub(crate) fn see_file(&mut self, text: &[u8]) -> Result<Option<Path<A>>, Fault>
        requires { IsPathText text.now }
        ensures found { IfOk result (λ found. let refused = refused_file (direct_of (session_of T.table J.view self.new)) text.now in
            MatchOption found (refused ≡ Some Refusal.Unavailable) (λ path. (path ≡ resolved self.new.cwd text.now) × (refused ≡ None))) }
        ensures looked { Looks T.table T.failures self.old self.new result }
    {
        let Some(path) = self.see(text, Sight::Path)? else {
            return Ok(None);
        };
        if file_fault(&self.tree, &self.root, &path).is_some() {
            return Ok(None);
        }
        Ok(Some(path))
    }
}
