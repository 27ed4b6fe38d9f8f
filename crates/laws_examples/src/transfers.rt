// Sessions of two drives that fetch a file, peek into one and put one, as examples that the premises of `laws_transfers` can be met: laws, and no code
// (RFC 959, section 2.3).

pub mod laws;
