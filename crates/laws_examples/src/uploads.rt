// A session of two drives of which an upload breaks, as an example that the premises of `laws_breaks` can be met: laws, and no code (RFC 959, section 3.3).

pub mod laws;
