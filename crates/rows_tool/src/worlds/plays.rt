// What rows are played on.
use crate::worlds::words::Happening;
use rows_base::Paper;
use std::alloc::Global;

/// What became of an event.
#[derive(Clone, Copy)]
pub enum Became {
    Happened,
    Impossible,
    NoMemory,
}

/// How many octets the ends hold.
#[derive(Clone, Copy)]
pub struct HeldOctets {
    pub client: usize,
    pub server: usize,
}

/// The calls of a world, of which nothing is said here, so that what plays rows on it is proved without the world's clauses.
pub trait WorldCalls: Drop {
    fn happens(&mut self, happening: Happening) -> Became;

    /// The order of a line of a script begins; this is its number, from 0.
    fn begins(&mut self, line: &[u8], number: u64) -> Became;

    /// The same by `World::run` of that one event.
    fn begins_by_run(&mut self, alloc: Global, line: &[u8], number: u64) -> Became;

    /// An upload of octets to the file `f` begins; this is its number.
    fn uploads(&mut self, octets: &[u8], number: u64) -> Became;

    /// Events happen in one call.
    fn runs(&mut self, alloc: Global, happenings: &[Happening]) -> Became;

    /// All that moves by itself moves; whether all is at rest then.
    fn settles(&mut self) -> bool;

    fn is_calm(&self) -> bool;

    fn held(&self) -> HeldOctets;

    /// Writes the reports from that one on; gives how many there are.
    fn put_reports(&self, alloc: Global, from: usize, paper: &mut Paper) -> usize;

    /// Writes the marks of the order with this number.
    fn put_marks(&self, number: u64, paper: &mut Paper);

    /// Writes the tree.
    fn put_tree(&self, alloc: Global, paper: &mut Paper);
}
