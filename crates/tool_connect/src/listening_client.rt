// A client of which each line is taken that its server says last, for whoever tells what a server said.
use ftp_client_model::Near;
use ftp_endpoint::Host;
use ftp_ends::Wants;
use ftp_facts::Text;
use ftp_operation::{Answer, How, Op};
use std::alloc::Global;
use tool_session::LastReply;

/// A client, and what its server said last.
#[derive(Drop)]
pub(crate) struct ListeningClient<'a, N> {
    client: N,
    last_reply: &'a mut LastReply,
}

impl<'a, N> ListeningClient<'a, N> {
    /// A client at a control connection that begins.
    pub(crate) fn new(client: N, last_reply: &'a mut LastReply) -> ListeningClient<'a, N> {
        last_reply.begin();
        ListeningClient { client, last_reply }
    }
}

impl<'a, N: Near<Global>> Near<Global> for ListeningClient<'a, N> {
    ghost client = { λ hearing. N.client hearing.client };

    ghost told = { λ hearing. N.told hearing.client };

    fn begin(&mut self, op: &mut Option<Op<Text<Global>>>) {
        self.client.begin(op);
    }

    fn begin_upload(&mut self, texts: &mut Option<(Text<Global>, Text<Global>)>, how: How) {
        self.client.begin_upload(texts, how);
    }

    fn report(&mut self) -> Option<Answer<Global>> {
        self.client.report()
    }

    fn hear(&mut self, piece: &[u8]) -> usize {
        let taken = self.client.hear(piece);
        self.last_reply.keep(self.client.last_reply());
        taken
    }

    fn control_out(&mut self, room: &mut [u8]) -> usize {
        self.client.control_out(room)
    }

    fn control_end(&mut self) {
        self.client.control_end();
    }

    fn listening(&mut self, port: u16) {
        self.client.listening(port);
    }

    fn listen_refused(&mut self) {
        self.client.listen_refused();
    }

    fn data_opened(&mut self, host: Host) {
        self.client.data_opened(host);
    }

    fn data_refused(&mut self) {
        self.client.data_refused();
    }

    fn data_hear(&mut self, piece: &[u8]) -> usize {
        self.client.data_hear(piece)
    }

    fn data_end(&mut self) {
        self.client.data_end();
    }

    fn data_fault(&mut self) {
        self.client.data_fault();
    }

    fn data_out(&mut self, room: &mut [u8]) -> usize {
        self.client.data_out(room)
    }

    fn data_closed(&mut self) {
        self.client.data_closed();
    }

    fn wants(&self) -> Wants {
        self.client.wants()
    }

    fn last_reply(&self) -> &[u8] {
        self.client.last_reply()
    }

    fn came(&self) -> &[u8] {
        self.client.came()
    }

    fn here(&self) -> Host {
        self.client.here()
    }

    fn refusals(&self) -> u64 {
        self.client.refusals()
    }

    fn owes(&self) -> bool {
        self.client.owes()
    }

    fn has_data(&self) -> bool {
        self.client.has_data()
    }

    fn may_hear(&self) -> bool {
        self.client.may_hear()
    }

    fn may_receive(&self) -> bool {
        self.client.may_receive()
    }
}
