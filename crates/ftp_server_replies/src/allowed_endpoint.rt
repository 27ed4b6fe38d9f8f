// Which endpoint of a client is taken (RFC 959, section 4.1.2).
ghost use Rattle.std.specs.Prelude.{◌≡◌};
ghost use Rattle.ftp_server_model.specs.Endpoint.{is_taken};

use ftp_endpoint::{Endpoint, Host};
use ftp_ends::is_same_host;

/// The lowest port of a client's endpoint (RFC 2577, section 3).
const LOWEST_PORT: u16 = 1024;

/// Whether an endpoint is on the client's own host, and on no port below 1024.
pub fn is_taken(peer: Host, endpoint: Endpoint) -> bool
    // Witness: an equation; `edits/an_endpoint_of_another_host_is_taken`.
    ensures { result ≡ is_taken peer endpoint }
{
    is_same_host(endpoint.host, peer) && endpoint.port >= LOWEST_PORT
}
