// Rows of events, as both real ends live through them in one world over memory (RFC 959).
mod beside;
mod desk;
mod drawn;
mod each;
mod lines;
mod making;
mod plays;
mod row;
mod shown;
mod stage;
mod ways;
mod words;
mod world;

pub(crate) use row::play_all;
