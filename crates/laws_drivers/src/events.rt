// What is so of both drives, action by action, while data goes over passive data connections: definitions, lemmas and a law, and no code (RFC 959, section 2.3).

pub mod laws;
