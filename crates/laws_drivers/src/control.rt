// What two drives did between their own connections, as the events of a world: laws, and no code (RFC 959, section 2.3).

pub mod laws;
