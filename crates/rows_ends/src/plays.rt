// What rows are played on.
use crate::driven::Owner;
use crate::event::{EndEvent, EventDetails};
use crate::peer::Peer;
use ftp_client::Client;
use ftp_client_steps::CountedTransfer;
use ftp_ends::Wants;
use ftp_server::Server;
use ftp_server_replies::Counted;
use ftp_tree::Tree;
use rows_base::{FailingReader, FailingWriter, Paper};
use std::alloc::{Allocator, Global};

/// An end that tells how many octets it holds, as the definitions count them (`held`).
pub trait Holds: Drop {
    fn held(&self) -> usize;
}

impl<A: Allocator + Copy, C: CountedTransfer<A>> Holds for Client<A, C> {
    fn held(&self) -> usize {
        self.held()
    }
}

impl<A: Allocator + Copy, T: Tree<A>, J: Counted<A, T>> Holds for Server<A, T, J> {
    fn held(&self) -> usize {
        self.held()
    }
}

/// The calls of an end, of which nothing is said here, so that what plays rows on it is proved without the clauses of both.
pub trait EndpointCalls: Drop {
    fn hear(&mut self, piece: &[u8]) -> usize;

    fn control_out(&mut self, room: &mut [u8]) -> usize;

    fn data_hear(&mut self, piece: &[u8]) -> usize;

    fn data_out(&mut self, room: &mut [u8]) -> usize;

    fn happens(&mut self, event: EndEvent, told: EventDetails);

    fn wants(&self) -> Wants;

    fn held(&self) -> usize;

    /// Writes what its last call acted on, and by which code a transfer ended in it, where it tells such.
    fn tell(&mut self, paper: &mut Paper);

    /// Begins an operation, where it has such; says why it did not.
    fn begin(&mut self, alloc: Global, line: &[u8], paper: &mut Paper);

    /// Writes a report, if it is there.
    fn report(&mut self, alloc: Global, paper: &mut Paper);

    /// Writes what it tells beside its reports, if it tells something.
    fn show_told(&self, paper: &mut Paper);

    /// Writes its tree, if it has one.
    fn show_tree(&self, alloc: Global, paper: &mut Paper);

    /// Is driven: writes what it reports in the end, nothing where it was broken off, and hands the writer back.
    fn drive(
        &mut self,
        alloc: Global,
        owner: Owner<'_>,
        control: (FailingReader<'_>, FailingWriter),
        peer: &mut Peer,
        paper: &mut Paper,
    ) -> FailingWriter;
}
