// A server of several sessions between its connections: for some turns it is lent the one tree of all, and gives it back. All its turns are one drive (own
// choice; RFC 959, section 2.3). No IO of its own.

pub mod laws;
mod turns;

pub use turns::lent_turns;
