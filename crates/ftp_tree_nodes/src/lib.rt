//! The finite map of a tree as nodes in memory, however the octets of its files are held; no IO, and no octets of its own. What refuses
//! a change and what it makes of the map stand here once for every tree.
#![tactic(auto)]

mod holder;
mod loading;
mod node;
mod nodes;
mod place;
mod placing;
mod refusing;

pub use holder::Holder;
pub use node::{Count, Standing};
pub use nodes::Nodes;
