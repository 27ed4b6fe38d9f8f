// Who begins a session's server: what stands on it names none, and is proved for less.
ghost use Rattle.std.specs.Global.{Global};

use ftp_endpoint::Host;
use ftp_operation::Accounts;
use ftp_server::Server;
use ftp_server_transfer::TreeTransfer;
use ftp_tree::Tree;
use laws_server::Lends;
use std::alloc::Global;

/// Who begins servers over trees `T`.
pub(crate) trait Begins<T: Tree<Global>>: Drop {
    /// What serves.
    type Server: Lends<Global, T>;

    /// A server over a tree between two hosts, which owes its greeting; none where memory is refused.
    fn begin(
        &self,
        alloc: Global,
        tree: T,
        accounts: Accounts<Global>,
        here: Host,
        peer: Host,
    ) -> Option<Self::Server>;
}

/// The server of this house, whose transfers are the tree's.
#[derive(Clone, Copy, Drop)]
pub(crate) struct Ours;

impl<T: Tree<Global>> Begins<T> for Ours {
    type Server = Server<Global, T, TreeTransfer<Global, T>>;

    fn begin(
        &self,
        alloc: Global,
        tree: T,
        accounts: Accounts<Global>,
        here: Host,
        peer: Host,
    ) -> Option<Server<Global, T, TreeTransfer<Global, T>>> {
        Server::new(alloc, tree, accounts, here, peer).ok()
    }
}
