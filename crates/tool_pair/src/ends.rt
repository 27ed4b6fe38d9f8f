// A client and a server in one world.
ghost use Rattle.std.specs.Prelude.{◌≡◌, IfOk, true};
ghost use Rattle.laws_world.specs.Claims.{world_of};
ghost use Rattle.tool_pair.specs.Begun.{begun};

use crate::beginning::Beginning;
use ftp_client::Client;
use ftp_client_steps::ClientTransfer;
use ftp_pair::World;
use ftp_server::Server;
use ftp_server_session::ServerTransfer;
use ftp_tree::SureTree;
use std::alloc::{AllocError, Allocator};

/// A client and a server in one world; `C` and `J` are how their transfers are held.
pub type Ends<A, T, C, J> = World<A, T, Client<A, C>, Server<A, T, J>>;

/// The world of a client and a server that begin with this, over a tree whose device never strays (RFC 959, section 2.3).
pub fn world_of<A: Allocator + Copy, T: SureTree<A>, C: ClientTransfer<A>, J: ServerTransfer<A, T>>(
    alloc: A,
    of: Beginning<A, T>,
) -> Result<Ends<A, T, C, J>, AllocError>
    // Witness: equations; `edits/both_ends_are_on_one_host`.
    ensures world { IfOk result (λ w. w.world ≡ world_of (begun of.login.user of.login.pass of.accounts (T.table of.tree) of.near_host of.far_host)) }
    ensures calm { IfOk result (λ w. w.calm ≡ true) }
{
    let near_host = of.near_host;
    let far_host = of.far_host;
    let Ok(client) = Client::new(alloc, of.login, near_host, far_host) else {
        return Err(AllocError);
    };
    let Ok(server) = Server::new(alloc, of.tree, of.accounts, far_host, near_host) else {
        return Err(AllocError);
    };
    match World::new(alloc, client, server) {
        Ok(world) => Ok(world),
        Err(_) => Err(AllocError),
    }
}
