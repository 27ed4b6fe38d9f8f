// What follows of a session in which both drives took turns, over data connections that either dials: its answers, and the map that is left, are those of the
// operations run directly (RFC 959, section 3.2).

pub mod laws;
