// How many sessions are served.

/// How many control connections are served, one after another.
#[derive(Clone, Copy, Debug, PartialEq, Eq)]
pub enum SessionCount {
    Count(u32),
    Forever,
}
