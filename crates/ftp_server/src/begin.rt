// A server begins, and gives its tree back.
ghost use Rattle.std.specs.Prelude.{◌≡◌, IfErr, IfOk};
ghost use Rattle.ftp_server_model.specs.Calls.{start};

use crate::reader::Reader;
use crate::server::Server;
use ftp_endpoint::Host;
use ftp_facts::Moment;
use ftp_operation::Accounts;
use ftp_server_model::FixedReply;
use ftp_server_replies::Output;
use ftp_server_session::{Context, ServerTransfer, Session};
use ftp_tree::Tree;
use std::alloc::Allocator;
use std::error::Error;
use std::fmt;

/// What a server was to be made of, where memory was refused.
#[derive(Drop)]
pub struct NotBegun<A: Allocator + Copy, T: Drop> {
    pub tree: T,
    pub accounts: Accounts<A>,
}

impl<A: Allocator + Copy, T: Drop> fmt::Display for NotBegun<A, T> {
    fn fmt<W: fmt::Write>(&self, f: &mut fmt::Formatter<W>) -> fmt::Result {
        f.write_str("no server: out of memory")
    }
}

impl<A: Allocator + Copy, T: Drop> fmt::Debug for NotBegun<A, T> {
    fn fmt<W: fmt::Write>(&self, f: &mut fmt::Formatter<W>) -> fmt::Result {
        f.write_str("NotBegun { .. }")
    }
}

impl<A: Allocator + Copy, T: Drop> Error for NotBegun<A, T> {}

impl<A: Allocator + Copy, T: Tree<A>, J: ServerTransfer<A, T>> Server<A, T, J> {
    ghost use Rattle.ftp_server.specs.Server.{view_of};

    /// A server of these hosts: its own, and that of the client. The greeting is owed, and it is the first second of 1970 until `clock` is
    /// called. It takes the room for control octets and for a line; refused that, it hands tree and accounts back.
    pub fn new(
        alloc: A,
        tree: T,
        accounts: Accounts<A>,
        here: Host,
        peer: Host,
    ) -> Result<Server<A, T, J>, NotBegun<A, T>>
        ensures begun { IfOk result (λ server. view_of T.table J.view server ≡ start (T.table tree) accounts here peer) }
        ensures tree { IfOk result (λ server. server.session.tree ≡ tree) }
        ensures back { IfErr result (λ back. (back.tree ≡ tree) × (back.accounts ≡ accounts)) }
    {
        let Ok(reader) = Reader::new(alloc) else {
            return Err(NotBegun { tree, accounts });
        };
        let Ok(mut output) = Output::new(alloc) else {
            return Err(NotBegun { tree, accounts });
        };
        output.put_fixed(FixedReply::Ready);
        Ok(Server {
            context: Context {
                accounts,
                here,
                peer,
                moment: Moment { seconds: 0 },
            },
            session: Session::new(alloc, tree),
            reader,
            waiting: None,
            output,
            heard: None,
            refusals: 0,
        })
    }

    /// Its tree, whose map is that of the session.
    pub fn tree(&self) -> &T
        ensures { T.table result.now ≡ (view_of T.table J.view self.now).session.table }
    {
        &self.session.tree
    }

    /// Its tree, where nothing more is to be served.
    pub fn into_tree(self) -> T
        ensures { result ≡ self.session.tree }
    {
        let session = self.into_session();
        session.tree
    }
}
