// Data connections that break between two drives: laws, and no code (RFC 959, section 3.3).

pub mod laws;
