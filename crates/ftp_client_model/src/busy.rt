// The refusal of a client that has an operation already.

/// An operation is begun whose report was not taken: another is not begun, and what was handed in comes back.
#[derive(Drop)]
pub struct Busy<T: Drop> {
    /// What was handed in.
    pub back: T,
}
