// A client is the client's end of a session.
use crate::client::Client;
use ftp_client_model::Near;
use ftp_client_steps::ClientTransfer;
use ftp_endpoint::Host;
use ftp_ends::Wants;
use ftp_facts::Text;
use ftp_operation::{Answer, How, Op};
use std::alloc::Allocator;

impl<A: Allocator + Copy, F: ClientTransfer<A>> Near<A> for Client<A, F> {
    ghost use Rattle.ftp_client.specs.Calls.{client_of, told_of};

    ghost client = { client_of F.flow };

    ghost told = { told_of };

    fn begin(&mut self, op: &mut Option<Op<Text<A>>>) {
        if self.counted.begin(op) {
            self.came = None;
        }
    }

    fn begin_upload(&mut self, texts: &mut Option<(Text<A>, Text<A>)>, how: How) {
        if self.counted.begin_upload(texts, how) {
            self.came = None;
        }
    }

    fn report(&mut self) -> Option<Answer<A>> {
        self.counted.report()
    }

    fn hear(&mut self, piece: &[u8]) -> usize {
        self.counted.hear(piece, &mut self.line)
    }

    fn control_out(&mut self, room: &mut [u8]) -> usize {
        self.counted.control_out(room)
    }

    fn control_end(&mut self) {
        if let Some(came) = self.counted.control_end() {
            self.came = Some(came);
        }
    }

    fn listening(&mut self, port: u16) {
        self.counted.listening(port);
    }

    fn listen_refused(&mut self) {
        self.counted.listen_refused();
    }

    fn data_opened(&mut self, host: Host) {
        self.counted.data_opened(host);
    }

    fn data_refused(&mut self) {
        self.counted.data_refused();
    }

    fn data_hear(&mut self, piece: &[u8]) -> usize {
        self.counted.data_hear(piece)
    }

    fn data_end(&mut self) {
        self.counted.data_end();
    }

    fn data_fault(&mut self) {
        self.counted.data_fault();
    }

    fn data_out(&mut self, room: &mut [u8]) -> usize {
        self.counted.data_out(room)
    }

    fn data_closed(&mut self) {
        self.counted.data_closed();
    }

    fn wants(&self) -> Wants {
        self.counted.wants()
    }

    fn last_reply(&self) -> &[u8] {
        self.line.as_slice()
    }

    fn came(&self) -> &[u8] {
        match &self.came {
            Some(came) => came.as_slice(),
            None => &[],
        }
    }

    fn here(&self) -> Host {
        self.counted.here()
    }

    fn refusals(&self) -> u64 {
        self.counted.refusals
    }

    fn owes(&self) -> bool {
        self.counted.owes()
    }

    fn has_data(&self) -> bool {
        self.counted.has_data()
    }

    fn may_hear(&self) -> bool {
        self.counted.may_hear()
    }

    fn may_receive(&self) -> bool {
        self.counted.may_receive()
    }
}
