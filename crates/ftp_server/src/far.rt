// A server is the server's end of a session. The calls of data octets, of their end and of a break stand here; the others are those of its type.
use crate::server::Server;
use ftp_endpoint::Host;
use ftp_ends::Wants;
use ftp_facts::Moment;
use ftp_operation::Rights;
use ftp_path::Path;
use ftp_server_model::{Answered, Counts, Far, SureFar};
use ftp_server_session::ServerTransfer;
use ftp_tree::{SureTree, Tree};
use std::alloc::Allocator;

impl<A: Allocator + Copy, T: Tree<A>, J: ServerTransfer<A, T>> Far<A, T> for Server<A, T, J> {
    ghost use Rattle.ftp_server.specs.Server.{server_of};

    ghost server = { server_of T.table T.failures J.view };

    ghost heard = { λ server. server.heard };

    fn clock(&mut self, moment: Moment) {
        self.clock(moment);
    }

    fn hear(&mut self, piece: &[u8]) -> usize {
        self.hear(piece)
    }

    fn control_out(&mut self, room: &mut [u8]) -> usize {
        self.control_out(room)
    }

    fn control_end(&mut self) {
        self.control_end();
    }

    fn listening(&mut self, port: u16) {
        self.listening(port);
    }

    fn listen_refused(&mut self) {
        self.listen_refused();
    }

    fn data_opened(&mut self, host: Host) {
        self.data_opened(host);
    }

    fn data_refused(&mut self) {
        self.data_refused();
    }

    // Witness of within, some: bounds of the count; `edits/a_server_takes_no_data`.
    // Witness of most: `edits/a_server_takes_one_octet_of_data`.
    fn data_hear(&mut self, piece: &[u8]) -> usize {
        let failures = self.session.tree.device_failures();
        let taken = self.receive_octets(piece);
        self.count(taken.outcome, failures);
        taken.count
    }

    // Witness of acts: `edits/an_upload_ends_with_all_rights`.
    fn data_end(&mut self) {
        let failures = self.session.tree.device_failures();
        let ended = self.end_transfer();
        self.settle_behind(ended, failures);
    }

    // Witness of acts: `edits/a_break_puts_with_all_rights`.
    fn data_fault(&mut self) {
        let failures = self.session.tree.device_failures();
        let broken = self.break_transfer();
        self.settle_behind(broken, failures);
    }

    // Witness of gave, now: `edits/the_last_octet_is_not_waited_for`, `edits/a_download_that_could_not_be_read_on_counts_as_done`.
    fn data_out(&mut self, room: &mut [u8]) -> usize {
        let failures = self.session.tree.device_failures();
        let given = self.give(room);
        self.settle_behind(given.outcome, failures);
        given.count
    }

    fn data_closed(&mut self) {
        self.data_closed();
    }

    fn wants(&self) -> Wants {
        self.wants()
    }

    fn here(&self) -> Host {
        self.here()
    }

    fn counts(&self) -> Counts {
        self.counts()
    }

    fn owes(&self) -> bool {
        self.owes()
    }

    fn has_data(&self) -> bool {
        self.has_data()
    }

    fn may_hear(&self) -> bool {
        self.may_hear()
    }

    fn may_receive(&self) -> bool {
        self.may_receive()
    }

    fn answered(&self) -> Option<Answered<'_>> {
        self.answered()
    }

    fn login(&self) -> Option<(&Path<A>, Rights)> {
        self.login()
    }

    fn owed(&self) -> usize {
        self.owed()
    }

    fn code_at(&self, place: usize) -> Option<u16> {
        self.code_at(place)
    }

    fn is_transferring(&self) -> bool {
        self.is_transferring()
    }

    fn tree(&self) -> &T {
        self.tree()
    }
}

impl<A: Allocator + Copy, T: SureTree<A>, J: ServerTransfer<A, T>> SureFar<A, T>
    for Server<A, T, J> {
    ghost never = { λ server. T.never server.session.tree };
}
