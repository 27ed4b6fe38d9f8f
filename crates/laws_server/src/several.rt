// Several sessions over one tree: what they are as one history of single calls, the laws of that, and a server whose tree is exchanged between
// two of its calls. Definitions, laws and a trait; no code that does anything (own choice).

pub mod laws;
mod lends;

pub use lends::Lends;
