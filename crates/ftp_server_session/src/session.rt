// What commands and the data connection change (RFC 959, sections 3.2 and 4.1).
ghost use Rattle.std.specs.Prelude.{◌≡◌, false};
ghost use Rattle.ftp_server_model.specs.Machine.{is_connection_busy};
ghost use Rattle.ftp_server_model.specs.View.{first_session};

use ftp_command::Argument;
use ftp_facts::Facts;
use ftp_operation::Rights;
use ftp_path::Path;
use ftp_server_model::{Access, Life, Pending, ServerLink};
use ftp_server_replies::ServerTransfer;
use ftp_settings::{Kind, Mode, Representation, Structure};
use ftp_tree::Tree;
use std::alloc::Allocator;

/// A session over a tree `T`, with transfers `J`.
#[derive(Drop)]
pub struct Session<A: Allocator + Copy, T: Drop, J: Drop> {
    pub alloc: A,
    pub tree: T,
    pub access: Access<Argument<A>>,
    /// The root of the account, which is `/` to its user.
    pub root: Path<A>,
    /// What the account may change.
    pub rights: Rights,
    /// The current directory, below that root.
    pub cwd: Path<A>,
    pub pending: Pending<Path<A>>,
    pub settings: Representation,
    pub facts: Facts,
    pub only_extended: bool,
    pub connection: ServerLink<J>,
    /// Whether the data connection, or the port that is listened at, is to be closed.
    pub closing: bool,
    pub life: Life,
}

/// The settings at the start (RFC 959, section 5.1).
pub(crate) const DEFAULTS: Representation = Representation {
    kind: Kind::Ascii,
    structure: Structure::File,
    mode: Mode::Stream,
};

impl<A: Allocator + Copy, T: Tree<A>, J: ServerTransfer<A, T>> Session<A, T, J> {
    ghost use Rattle.ftp_server_session.specs.Session.{connection_seen, has_transfer, session_of};

    /// A session as it begins: nobody is logged in, and all is as after REIN. Takes no memory.
    pub fn new(alloc: A, tree: T) -> Session<A, T, J>
        ensures begun { session_of T.table J.view result ≡ first_session (T.table tree) }
        ensures tree { result.tree ≡ tree }
        // Witness of idle: follows from `begun`.
        ensures idle { has_transfer result.connection ≡ false }
        ensures nobody { result.access ≡ Access.Nobody }
    {
        Session {
            alloc,
            tree,
            access: Access::Nobody,
            root: Path::root(alloc),
            rights: Rights::none(),
            cwd: Path::root(alloc),
            pending: Pending::Nothing,
            settings: DEFAULTS,
            facts: Facts::ALL,
            only_extended: false,
            connection: ServerLink::Free,
            closing: false,
            life: Life::Running,
        }
    }

    /// Whether a transfer is under way, or a port was asked for.
    pub fn is_busy(&self) -> bool
        ensures busy { result ≡ is_connection_busy (connection_seen J.view self.now.connection) }
        // Witness of idle: follows from `busy`.
        ensures idle { result ≡ false → has_transfer self.now.connection ≡ false }
    {
        match &self.connection {
            ServerLink::Asked(_) | ServerLink::Opening(_, _) | ServerLink::Transferring(_) => true,
            ServerLink::Free | ServerLink::Active(_) | ServerLink::Passive | ServerLink::Ready =>
                false,
        }
    }
}
