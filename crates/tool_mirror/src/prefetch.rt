// What is asked of a server ahead of its turn, over control connections that are free.

mod prefetched;
mod requests;

pub(crate) use prefetched::Prefetched;
pub(crate) use requests::foresee;
