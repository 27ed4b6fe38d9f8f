// Sessions of two drives of which a download breaks, as examples that the premises of `laws_breaks` can be met: laws, and no code (RFC 959, section 3.3).

pub mod laws;
