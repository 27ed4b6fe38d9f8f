// That a server holds little, whatever is called and whatever fails, and that an account's root keeps the rest of its map apart: laws of its
// definitions, and no code (own choice of the limits and of roots).

pub mod laws;
pub mod roots;
