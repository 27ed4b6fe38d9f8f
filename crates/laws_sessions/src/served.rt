// A session of several over one tree, as one of two drives: laws, and no code (RFC 959, section 2.3).

pub mod laws;
