// Hosts of endpoints as addresses of sockets.
ghost use Rattle.std.specs.Prelude.{◌≡◌};
ghost use Rattle.std.specs.Net.Socket.{socket_ip, socket_port};
ghost use Rattle.tool_sockets.specs.Host.{IsAddressOf, IsHostOf};

use ftp_endpoint::{Endpoint, Host};
use std::net::{IpAddr, Ipv4Addr, Ipv6Addr, SocketAddr};

/// The host of an address; an IPv4 address that is mapped into IPv6 is that IPv4 address.
pub fn host_of(addr: SocketAddr) -> Host
    // Witness: `edits/a_mapped_host_stays_ipv6.edit`.
    ensures { IsHostOf (socket_ip addr) result }
{
    match addr.ip().to_canonical() {
        IpAddr::V4(ip) => Host::V4(ip.octets()),
        IpAddr::V6(ip) => Host::V6(ip.octets()),
    }
}

/// The address of an endpoint: its host and its port, with no scope.
pub fn addr_of(endpoint: Endpoint) -> SocketAddr
    // Witness of ip: `edits/an_endpoint_of_ipv4_is_nowhere.edit`.
    ensures ip { IsAddressOf endpoint.host (socket_ip result) }
    ensures port { socket_port result ≡ endpoint.port }
{
    SocketAddr::new(ip_of(endpoint.host), endpoint.port)
}

/// The address of a host, each octet as it stands.
fn ip_of(host: Host) -> IpAddr
    ensures { IsAddressOf host result }
{
    match host {
        Host::V4(octets) => IpAddr::V4(Ipv4Addr::from_octets(octets)),
        Host::V6(octets) => IpAddr::V6(Ipv6Addr::from_octets(octets)),
    }
}
