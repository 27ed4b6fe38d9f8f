// Why a command could not be done.

/// Why a command could not be done, and changed nothing but what was pending for it.
#[derive(Clone, Copy)]
pub enum Fault {
    /// Memory was refused.
    Memory,
    /// The device of the tree failed, as its count of failures tells.
    Device,
}
