// RETR, STOR, APPE, LIST, NLST and MLSD (RFC 959, section 4.1.3; RFC 3659, section 7).
ghost use Rattle.std.specs.Prelude.{◌≡◌, IfOk, false, if◌then◌else◌, true};
ghost use Rattle.std.specs.Option.{unwrap_or};
ghost use Rattle.ftp_operation.specs.Rights.{may_put};
ghost use Rattle.ftp_command.specs.Line.{IfGiven};
ghost use Rattle.ftp_direct.specs.Direct.{or_refused, refused_name};
ghost use Rattle.ftp_direct.specs.Refusal.{listing_refusal};
ghost use Rattle.ftp_wire.specs.Decoder.{no_octets};
ghost use Rattle.ftp_path.specs.Path.{IsPathText, fits};
ghost use Rattle.ftp_server_model.specs.Endpoint.{forgotten};
ghost use Rattle.ftp_server_model.specs.Replies.{tells};
ghost use Rattle.ftp_server_model.specs.Transfer.{appe, begin, list, misplaced, mlsd, nlst, place_of, refused_to_hold, retr, stor, transfer_starts};
ghost use Rattle.ftp_server_model.specs.Walk.{refusal_text};
ghost use Rattle.ftp_server_model.specs.declared.session.Transfer.TheVariants as Transfers;
ghost use Rattle.ftp_tree.specs.Change.{NoStray};
ghost use Rattle.ftp_tree.specs.Tree.{room_refusal, under};

use crate::look::is_here;
use crate::session::Session;
use crate::walk::lost;
use ftp_command::Argument;
use ftp_direct::{directory_fault, len_at, may_put_at, place_at, unlisted_fault};
use ftp_path::Path;
use ftp_server_model::{FixedReply, Keep, Pending, ReplyKind, ServerLink, Way};
use ftp_server_replies::{Fault, ServerTransfer, room_text};
use ftp_tree::{Sight, Tree, TreeFault};
use std::alloc::Allocator;

impl<A: Allocator + Copy, T: Tree<A>, J: ServerTransfer<A, T>> Session<A, T, J> {
    ghost use Rattle.ftp_server_session.specs.Little.{LeavesLittle, is_short_reply};
    ghost use Rattle.ftp_server_session.specs.Session.{Looks, Turns, session_of};

    /// RETR, where the REST before it put it.
    pub(crate) fn retr(
        &mut self,
        pending: &Pending<Path<A>>,
        text: &[u8],
    ) -> Result<ReplyKind<Path<A>>, Fault>
        requires { IsPathText text.now }
        ensures turn { Turns T.table T.failures J.view (retr pending.now text.now) self.old self.new result }
        ensures little { LeavesLittle 0 self.old self.new result }
    {
        let Some(path) = self.see_file(text)? else {
            return Ok(self.not_begun(FixedReply::Refused));
        };
        let Some(place) = self.place_of(pending, &path)? else {
            return Ok(self.not_begun(FixedReply::Refused));
        };
        let download = J::download(&mut self.tree, &self.root, &path, place, self.settings)?;
        Ok(self.begin(download))
    }

    /// STOR, where the REST before it put it.
    pub(crate) fn stor(
        &mut self,
        pending: &Pending<Path<A>>,
        text: &[u8],
    ) -> Result<ReplyKind<Path<A>>, Fault>
        requires { IsPathText text.now }
        ensures turn { Turns T.table T.failures J.view (stor pending.now text.now) self.old self.new result }
        ensures little { LeavesLittle 0 self.old self.new result }
    {
        let Some(mut path) = self.see(text, Sight::Path)? else {
            let text = self.unfit_text();
            return Ok(self.not_begun(text));
        };
        if !may_put_at(&self.tree, &self.root, &path, self.rights) {
            return Ok(self.not_begun(FixedReply::NotAllowed));
        }
        self.hold_at_rest(pending, &mut path)
    }

    /// APPE: a REST before it is of no matter.
    pub(crate) fn appe(&mut self, text: &[u8]) -> Result<ReplyKind<Path<A>>, Fault>
        requires { IsPathText text.now }
        ensures turn { Turns T.table T.failures J.view (appe text.now) self.old self.new result }
        ensures little { LeavesLittle 0 self.old self.new result }
    {
        let Some(mut path) = self.see(text, Sight::Path)? else {
            let text = self.unfit_text();
            return Ok(self.not_begun(text));
        };
        if !may_put_at(&self.tree, &self.root, &path, self.rights) {
            return Ok(self.not_begun(FixedReply::NotAllowed));
        }
        let stands = len_at(&self.tree, &self.root, &path);
        self.hold(&mut path, Keep::All(stands))
    }

    /// LIST.
    pub(crate) fn list(&mut self, text: &Option<Argument<A>>) -> Result<ReplyKind<Path<A>>, Fault>
        requires { IfGiven IsPathText text.now }
        ensures turn { Turns T.table T.failures J.view (list text.now) self.old self.new result }
        ensures little { LeavesLittle 0 self.old self.new result }
    {
        let Some(mut path) = self.see_here(text, Sight::Files)? else {
            return Ok(self.not_begun(FixedReply::Refused));
        };
        if unlisted_fault(&self.tree, &self.root, &path, is_here(text)).is_some() {
            return Ok(self.not_begun(FixedReply::Refused));
        }
        let Ok(listing) = J::list(
            self.alloc,
            &self.tree,
            &self.root,
            &mut path,
            self.settings.mode,
        ) else {
            return Err(Fault::Memory);
        };
        Ok(self.begin(listing))
    }

    /// NLST.
    pub(crate) fn nlst(&mut self, text: &Option<Argument<A>>) -> Result<ReplyKind<Path<A>>, Fault>
        requires { IfGiven IsPathText text.now }
        ensures turn { Turns T.table T.failures J.view (nlst text.now) self.old self.new result }
        ensures little { LeavesLittle 0 self.old self.new result }
    {
        let Some(mut path) = self.see_here(text, Sight::Files)? else {
            return Ok(self.not_begun(FixedReply::Refused));
        };
        if unlisted_fault(&self.tree, &self.root, &path, is_here(text)).is_some() {
            return Ok(self.not_begun(FixedReply::Refused));
        }
        let Ok(listing) = J::names(
            self.alloc,
            &self.tree,
            &self.root,
            &mut path,
            text,
            self.settings.mode,
        ) else {
            return Err(Fault::Memory);
        };
        Ok(self.begin(listing))
    }

    /// MLSD.
    pub(crate) fn mlsd(&mut self, text: &Option<Argument<A>>) -> Result<ReplyKind<Path<A>>, Fault>
        requires { IfGiven IsPathText text.now }
        ensures turn { Turns T.table T.failures J.view (mlsd text.now) self.old self.new result }
        ensures little { LeavesLittle 0 self.old self.new result }
    {
        let Some(mut path) = self.see_here(text, Sight::Files)? else {
            return Ok(self.not_begun(FixedReply::Refused));
        };
        if let Some(fault) = directory_fault(&self.tree, &self.root, &path) {
            return Ok(self.not_begun(listing_text(fault)));
        }
        let Ok(listing) = J::entries(
            self.alloc,
            &self.tree,
            &self.root,
            &mut path,
            self.facts,
            self.settings.mode,
        ) else {
            return Err(Fault::Memory);
        };
        Ok(self.begin(listing))
    }

    /// The place in the file at a path where a transfer begins, or `None` where the offset of the REST before it leads to none.
    fn place_of(&mut self, pending: &Pending<Path<A>>, path: &Path<A>) -> Result<Option<u64>, Fault>
        ensures place { NoStray (T.failures self.old.tree) (T.failures self.new.tree) → IfOk result (λ place. place ≡ place_of pending.now path.now (session_of T.table J.view self.old)) }
        ensures looked { Looks T.table T.failures self.old self.new result }
    {
        let Pending::Restart(offset) = pending else {
            return Ok(Some(0));
        };
        let kind = self.settings.kind;
        match place_at(&mut self.tree, &self.root, path, kind, *offset) {
            Ok(place) => Ok(place),
            Err(fault) => Err(lost(fault)),
        }
    }

    /// The reply to an upload whose path is past the limits of paths.
    fn unfit_text(&self) -> FixedReply
        ensures { result ≡ (if may_put self.now.rights false then FixedReply.NameRefused else FixedReply.NotAllowed) }
    {
        if self.rights.may_put(false) {
            FixedReply::NameRefused
        } else {
            FixedReply::NotAllowed
        }
    }

    /// Why the tree takes no file at a path.
    fn room_fault(&self, path: &Path<A>) -> Option<TreeFault>
        ensures { result ≡ room_refusal (under (T.table self.now.tree) self.now.root) path.now }
    {
        match self.tree.room(&self.root, path) {
            Ok(_) => None,
            Err(fault) => Some(fault),
        }
    }

    /// An upload begins after the octets before the place where the REST before it leads, if it leads to one and the tree takes a file there.
    fn hold_at_rest(
        &mut self,
        pending: &Pending<Path<A>>,
        path: &mut Path<A>,
    ) -> Result<ReplyKind<Path<A>>, Fault>
        requires { fits path.old ≡ true }
        ensures turn { Turns T.table T.failures J.view (λ s. let place = place_of pending.now path.old s in
            transfer_starts (or_refused (refused_name (misplaced place)) (refused_to_hold s path.old))
            (Transfers.Upload path.old (Keep.First (unwrap_or place 0)) (no_octets s.settings)) s) self.old self.new result }
        ensures little { LeavesLittle 0 self.old self.new result }
    {
        let Some(place) = self.place_of(pending, path)? else {
            return Ok(self.not_begun(FixedReply::NameRefused));
        };
        self.hold(path, Keep::First(place))
    }

    /// An upload begins, after so many octets of the file at a path, if the tree takes a file there.
    fn hold(&mut self, path: &mut Path<A>, keep: Keep) -> Result<ReplyKind<Path<A>>, Fault>
        requires { fits path.old ≡ true }
        ensures turn { Turns T.table T.failures J.view (λ s. transfer_starts (refused_to_hold s path.old) (Transfers.Upload path.old keep (no_octets s.settings)) s) self.old self.new result }
        ensures little { LeavesLittle 0 self.old self.new result }
    {
        if let Some(fault) = self.room_fault(path) {
            return Ok(self.not_begun(room_text(fault)));
        }
        let upload = J::upload(
            self.alloc,
            &mut self.tree,
            &self.root,
            path,
            keep,
            self.settings,
        )?;
        Ok(self.begin(upload))
    }

    /// A transfer begins, where there is an endpoint for it.
    fn begin(&mut self, transfer: J) -> ReplyKind<Path<A>>
        ensures turn { let s = session_of T.table J.view self.old in
            (session_of T.table J.view self.new, result) ≡ begin s.connection (J.view transfer) s }
        ensures tree { self.new.tree ≡ self.old.tree }
        ensures access { self.new.access ≡ self.old.access }
        ensures short { is_short_reply result ≡ true }
    {
        self.connection = match self.connection {
            ServerLink::Active(endpoint) => ServerLink::Opening(transfer, Way::Connect(endpoint)),
            ServerLink::Passive => ServerLink::Opening(transfer, Way::Accept),
            ServerLink::Ready => ServerLink::Transferring(transfer),
            ServerLink::Free
            | ServerLink::Asked(_)
            | ServerLink::Opening(_, _)
            | ServerLink::Transferring(_) => return ReplyKind::Fixed(FixedReply::NoConnection),
        };
        ReplyKind::Fixed(FixedReply::Opens)
    }

    /// A transfer is refused, and the endpoint is forgotten.
    fn not_begun(&mut self, text: FixedReply) -> ReplyKind<Path<A>>
        ensures turn { (session_of T.table J.view self.new, result) ≡ tells text (forgotten (session_of T.table J.view self.old)) }
        ensures tree { self.new.tree ≡ self.old.tree }
        ensures access { self.new.access ≡ self.old.access }
        ensures short { is_short_reply result ≡ true }
    {
        self.forget();
        ReplyKind::Fixed(text)
    }
}

/// The reply where no directory can be listed.
fn listing_text(fault: TreeFault) -> FixedReply
    ensures { result ≡ refusal_text (listing_refusal fault) }
{
    match fault {
        TreeFault::WrongKind => FixedReply::BadArgument,
        _ => FixedReply::Refused,
    }
}
