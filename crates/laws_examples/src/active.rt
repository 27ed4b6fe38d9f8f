// Sessions of two drives that fetch a file, and peek into one, over an active data connection, as examples that the premises of `laws_active` can be met:
// laws, and no code (RFC 959, section 3.2).

pub mod laws;
