// Why a text is no extended address.

use thiserror::Error;

/// Why a text is not read as an extended address.
#[derive(Clone, Copy, Debug, PartialEq, Eq, Error)]
pub enum EndpointFault {
    /// It is none of any protocol: its shape, its port, or an address that is none of its protocol.
    #[error("BadText")]
    BadText,
    /// Its protocol is neither IPv4 nor IPv6.
    #[error("Protocol")]
    Protocol,
}
