// PORT, EPRT, PASV and EPSV (RFC 959, section 4.1.2; RFC 2428).
ghost use Rattle.std.specs.Prelude.{◌≡◌, Ok};
ghost use Rattle.ftp_server_model.specs.Endpoint.{asks, disconnected, epsv, forgotten, is_standing, pasv, port};

use crate::context::Context;
use crate::session::Session;
use ftp_command::Passive;
use ftp_endpoint::Endpoint;
use ftp_ends::is_v6;
use ftp_path::Path;
use ftp_server_model::{FixedReply, PassiveVerb, ReplyKind, ServerLink, Way};
use ftp_server_replies::{ServerTransfer, is_taken};
use ftp_tree::Tree;
use std::alloc::Allocator;

impl<A: Allocator + Copy, T: Tree<A>, J: ServerTransfer<A, T>> Session<A, T, J> {
    ghost use Rattle.ftp_server_session.specs.Little.{LeavesLittle};
    ghost use Rattle.ftp_server_session.specs.Session.{connection_seen, context_of, session_of};

    /// Whether the data connection is open, or a port is listened at.
    pub fn is_standing(&self) -> bool
        ensures { result ≡ is_standing (connection_seen J.view self.now.connection) }
    {
        match &self.connection {
            ServerLink::Free | ServerLink::Asked(_) | ServerLink::Active(_) => false,
            ServerLink::Passive | ServerLink::Ready | ServerLink::Transferring(_) => true,
            ServerLink::Opening(_, way) => matches!(way, Way::Accept),
        }
    }

    /// The endpoint is forgotten, and what stands of it is to be closed.
    pub fn forget(&mut self)
        ensures view { session_of T.table J.view self.new ≡ forgotten (session_of T.table J.view self.old) }
        ensures tree { self.new.tree ≡ self.old.tree }
        ensures free { self.new.connection ≡ ServerLink.Free }
        ensures access { self.new.access ≡ self.old.access }
    {
        self.closing = self.closing || self.is_standing();
        self.disconnect();
    }

    /// The data connection is gone, and nothing is left to close.
    pub fn disconnect(&mut self)
        ensures view { session_of T.table J.view self.new ≡ disconnected (session_of T.table J.view self.old) }
        ensures tree { self.new.tree ≡ self.old.tree }
        ensures free { self.new.connection ≡ ServerLink.Free }
        ensures access { self.new.access ≡ self.old.access }
    {
        self.connection = ServerLink::Free;
    }

    /// PORT and EPRT.
    pub(crate) fn port(&mut self, context: &Context<A>, endpoint: Endpoint) -> ReplyKind<Path<A>>
        ensures turn { (session_of T.table J.view self.new, result) ≡ port (context_of context.now) endpoint (session_of T.table J.view self.old) }
        ensures tree { self.new.tree ≡ self.old.tree }
        ensures little { LeavesLittle 0 self.old self.new (Ok result) }
    {
        if self.only_extended {
            return ReplyKind::Fixed(FixedReply::BadSequence);
        }
        self.forget();
        if !is_taken(context.peer, endpoint) {
            return ReplyKind::Fixed(FixedReply::BadParameter);
        }
        self.connection = ServerLink::Active(endpoint);
        ReplyKind::Fixed(FixedReply::EndpointTaken)
    }

    /// A port is asked for.
    fn ask(&mut self, asked: PassiveVerb) -> ReplyKind<Path<A>>
        ensures turn { (session_of T.table J.view self.new, result) ≡ asks asked (session_of T.table J.view self.old) }
        ensures tree { self.new.tree ≡ self.old.tree }
        ensures little { LeavesLittle 0 self.old self.new (Ok result) }
    {
        self.forget();
        self.connection = ServerLink::Asked(asked);
        ReplyKind::Nothing
    }

    /// PASV.
    pub(crate) fn pasv(&mut self, context: &Context<A>) -> ReplyKind<Path<A>>
        ensures turn { (session_of T.table J.view self.new, result) ≡ pasv (context_of context.now) (session_of T.table J.view self.old) }
        ensures tree { self.new.tree ≡ self.old.tree }
        ensures little { LeavesLittle 0 self.old self.new (Ok result) }
    {
        if self.only_extended {
            return ReplyKind::Fixed(FixedReply::BadSequence);
        }
        if is_v6(context.here) {
            return ReplyKind::Fixed(FixedReply::NoConnection);
        }
        self.ask(PassiveVerb::Pasv)
    }

    /// EPSV.
    pub(crate) fn epsv(&mut self, context: &Context<A>, family: Passive) -> ReplyKind<Path<A>>
        ensures turn { (session_of T.table J.view self.new, result) ≡ epsv (context_of context.now) family (session_of T.table J.view self.old) }
        ensures tree { self.new.tree ≡ self.old.tree }
        ensures little { LeavesLittle 0 self.old self.new (Ok result) }
    {
        match family {
            Passive::Any => self.ask(PassiveVerb::Epsv),
            Passive::Ipv4 => {
                if is_v6(context.here) {
                    return ReplyKind::Fixed(FixedReply::OnlyIpv6);
                }
                self.ask(PassiveVerb::Epsv)
            }
            Passive::Ipv6 => {
                if !is_v6(context.here) {
                    return ReplyKind::Fixed(FixedReply::OnlyIpv4);
                }
                self.ask(PassiveVerb::Epsv)
            }
            Passive::Only => {
                self.only_extended = true;
                ReplyKind::Fixed(FixedReply::OnlyExtended)
            }
        }
    }
}
