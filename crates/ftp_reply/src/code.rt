//! The codes of replies that are told apart, each once.

/// A marker of a transfer, as both ends know it (RFC 959, section 4.2.2).
pub const MARK: u16 = 110;

/// The service is ready in some minutes (RFC 959, section 4.2.2).
pub const DELAYED: u16 = 120;

/// The data connection is closed: a transfer or an abort is done (RFC 959, section 4.2.2).
pub const COMPLETE: u16 = 226;

/// The user is logged in (RFC 959, section 4.2.2).
pub const LOGGED_IN: u16 = 230;

/// An account is needed for the login (RFC 959, section 4.2.2).
pub const ACCOUNT_NEEDED: u16 = 332;

/// The service is not available, and the control connection is closed (RFC 959, section 4.2.2).
pub const NOT_AVAILABLE: u16 = 421;

/// The data connection could not be opened (RFC 959, section 4.2.2).
pub const NO_CONNECTION: u16 = 425;

/// The data connection broke, and the transfer with it (RFC 959, section 4.2.2).
pub const BROKEN: u16 = 426;

/// The server gave up what it was doing, for a reason of its own (RFC 959, section 4.2.2).
pub const GIVEN_UP: u16 = 451;

/// The command is not known (RFC 959, section 4.2.2).
pub const UNKNOWN: u16 = 500;

/// Its argument is not known (RFC 959, section 4.2.2); what should be listed as a directory is none (RFC 3659, section 7.2.1).
pub const BAD_ARGUMENT: u16 = 501;

/// The command is not implemented (RFC 959, section 4.2.2).
pub const NOT_IMPLEMENTED: u16 = 502;

/// The protocol of the network is not supported (RFC 2428, section 2).
pub const BAD_PROTOCOL: u16 = 522;

/// The login was refused, or nobody is logged in (RFC 959, section 4.2.2).
pub const NOT_LOGGED_IN: u16 = 530;

/// Nothing stands there, or it may not be had (RFC 959, section 4.2.2).
pub const UNAVAILABLE: u16 = 550;
