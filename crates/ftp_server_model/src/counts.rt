// What a server tells of its failures.

/// What has failed so far; both counts wrap. Where neither moved in a call, nothing failed in it.
#[derive(Clone, Copy, Debug, PartialEq, Eq)]
pub struct Counts {
    /// In how many calls a growth was refused.
    pub refusals: u64,
    /// How many failures the tree's device has counted.
    pub failures: u64,
}
