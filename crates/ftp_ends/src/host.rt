// Hosts of a data connection.
ghost use Rattle.std.specs.Prelude.{◌≡◌};
ghost use Rattle.ftp_ends.specs.Link.{is_v6, same_host};

use ftp_endpoint::Host;

/// Whether two hosts are one.
pub fn is_same_host(one: Host, other: Host) -> bool
    // Witness: an equation; `edits/another_host_is_the_same`.
    ensures { result ≡ same_host one other }
{
    match one {
        Host::V4(a) => match other {
            Host::V4(b) => a == b,
            Host::V6(_) => false,
        },
        Host::V6(a) => match other {
            Host::V4(_) => false,
            Host::V6(b) => a == b,
        },
    }
}

/// Whether a host is one of IPv6.
pub fn is_v6(host: Host) -> bool
    ensures { result ≡ is_v6 host }
{
    matches!(host, Host::V6(_))
}
