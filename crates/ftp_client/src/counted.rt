// A dialogue whose refused growths are counted: each call as the definitions of a client have it (RFC 959, sections 2.3 and 5.4).
ghost use Rattle.std.specs.Prelude.{◌≡◌, ◌≢◌, ◌<◌, ◌≤◌, ℕ, List, None, Some, IfErr, IfOk, IsTrue, false, length, min, option_map, take, if◌then◌else◌};
ghost use Rattle.ftp_operation.specs.Answer.{said_of};
ghost use Rattle.ftp_operation.specs.declared.op.Op.{Op as AnyOp};
ghost use Rattle.ftp_ends.specs.Limits.{held_limit};
ghost use Rattle.ftp_ends.specs.Octets.{has_octets};
ghost use Rattle.ftp_client_model.specs.Calls.{control_end, data_closed, data_end, data_fault, data_opened, data_refused, gives_control, gives_data, handed_back, is_busy, listen_refused, may_hear, may_receive, port_told, report_of, reports, starts, to_give, uploads, wants};
ghost use Rattle.ftp_client_model.specs.Counting.{MovesByOneAtMost};
ghost use Rattle.ftp_client_model.specs.Failing.{HearsIfRoom, Holds, HoldsIfRoom, ReceivesIfRoom, data_end_short, data_fault_short, data_opened_short, data_refused_short, listen_refused_short, port_told_short, short, starts_short, uploads_short};
ghost use Rattle.ftp_client_model.specs.Growing.{giving_grows};
ghost use Rattle.ftp_client_model.specs.Held.{block_stored_limit, talk_len};
ghost use Rattle.ftp_client_model.specs.Most.{IsMostOfReplies, IsMostOfDownload};
ghost use Rattle.ftp_client_model.specs.Telling.{Told, anew, begins_told, came_of, last_line_heard};
ghost use Rattle.ftp_client_model.specs.Tries.{over_breaks};
ghost use Rattle.ftp_client_model.specs.View as view;

use ftp_client_model::client::Failure;
use ftp_client_session::{
    Dialogue, data_end, data_fault, data_opened, data_refused, hear_octet, listen_refused,
    listening,
};
use ftp_client_steps::{ClientTransfer, CountedTransfer, LastLine};
use ftp_endpoint::Host;
use ftp_ends::Wants;
use ftp_facts::Text;
use ftp_operation::{Answer, How, Login, Op};
use std::alloc::Allocator;

/// What a client holds, and how many growths were refused to it. `F` is what a transfer carries.
#[derive(Drop)]
pub struct Counted<A: Allocator + Copy, F: Drop> {
    pub(crate) dialogue: Dialogue<A, F>,
    /// Moves on by wrapping.
    pub(crate) refusals: u64,
}

impl<A: Allocator + Copy, F: ClientTransfer<A>> Counted<A, F> {
    ghost use Rattle.ftp_client.specs.Counted.{counted_of};

    /// A client of this login, on this host, of the server on its peer's host. Refused memory, it hands the login back.
    pub(crate) fn new(
        alloc: A,
        login: Login<A>,
        here: Host,
        peer: Host,
    ) -> Result<Counted<A, F>, Login<A>>
        ensures begun { IfOk result (λ counted. (counted_of F.flow counted).view ≡ view.client login.user login.pass here peer) }
        ensures back { IfErr result (λ back. back ≡ login) }
    {
        match Dialogue::new(alloc, login, here, peer) {
            Ok(dialogue) => Ok(Counted {
                dialogue,
                refusals: 0,
            }),
            Err(login) => Err(login),
        }
    }

    /// Begins the operation that `op` has, and takes it out of there. Says whether one is begun.
    pub(crate) fn begin(&mut self, op: &mut Option<Op<Text<A>>>) -> bool
        ensures begun { (given : AnyOp (List ℕ)) → op.old ≡ Some given → is_busy (counted_of F.flow self.old).view ≡ false
            → HoldsIfRoom (counted_of F.flow self.old) (counted_of F.flow self.new)
            (starts given (counted_of F.flow self.old).view) (starts_short given (counted_of F.flow self.old).view) }
        ensures left { op.new ≡ handed_back (is_busy (counted_of F.flow self.old).view) op.old }
        ensures busy { IsTrue (is_busy (counted_of F.flow self.old).view) → Holds (counted_of F.flow self.old) (counted_of F.flow self.new) (counted_of F.flow self.old).view }
        ensures none { op.old ≡ None → Holds (counted_of F.flow self.old) (counted_of F.flow self.new) (counted_of F.flow self.old).view }
        ensures told { (t : Told) → begins_told (is_busy (counted_of F.flow self.old).view) op.old t ≡ (if result then anew t else t) }
        ensures counted { MovesByOneAtMost self.old.refusals self.new.refusals }
    {
        if self.dialogue.is_busy() {
            return false;
        }
        let Some(given) = op.take() else {
            return false;
        };
        if self.dialogue.start(given).is_err() {
            self.shorten();
        }
        true
    }

    /// Begins an upload that goes on after breaks, and has one report (at most 16 tries; own choice). `texts` has the path and the octets.
    /// Says whether one is begun.
    pub(crate) fn begin_upload(&mut self, texts: &mut Option<(Text<A>, Text<A>)>, how: How) -> bool
        ensures begun { (path octets : List ℕ) → texts.old ≡ Some (path, octets) → is_busy (counted_of F.flow self.old).view ≡ false
            → HoldsIfRoom (counted_of F.flow self.old) (counted_of F.flow self.new)
            (uploads (over_breaks path octets how) (counted_of F.flow self.old).view) (uploads_short (over_breaks path octets how) (counted_of F.flow self.old).view) }
        ensures left { texts.new ≡ handed_back (is_busy (counted_of F.flow self.old).view) texts.old }
        ensures busy { IsTrue (is_busy (counted_of F.flow self.old).view) → Holds (counted_of F.flow self.old) (counted_of F.flow self.new) (counted_of F.flow self.old).view }
        ensures none { texts.old ≡ None → Holds (counted_of F.flow self.old) (counted_of F.flow self.new) (counted_of F.flow self.old).view }
        ensures told { (t : Told) → begins_told (is_busy (counted_of F.flow self.old).view) texts.old t ≡ (if result then anew t else t) }
        ensures counted { MovesByOneAtMost self.old.refusals self.new.refusals }
    {
        if self.dialogue.is_busy() {
            return false;
        }
        let Some((path, octets)) = texts.take() else {
            return false;
        };
        if self.dialogue.upload(path, octets, how).is_err() {
            self.shorten();
        }
        true
    }

    /// The report of the operation, if it is done; it is given once.
    pub(crate) fn report(&mut self) -> Option<Answer<A>>
        ensures answer { option_map said_of result ≡ report_of (counted_of F.flow self.old).view }
        ensures taken { Holds (counted_of F.flow self.old) (counted_of F.flow self.new) (reports (counted_of F.flow self.old).view) }
    {
        self.dialogue.report()
    }

    /// Takes octets of the control connection, and says how many. The line that the last of them ended is kept in `last`.
    pub(crate) fn hear(&mut self, piece: &[u8], last: &mut LastLine) -> usize
        ensures within { result ≤ length piece.now }
        ensures took { HearsIfRoom (counted_of F.flow self.old) (counted_of F.flow self.new) piece.now result }
        ensures some { IsTrue (may_hear (counted_of F.flow self.old).view) → 0 < length piece.now → 0 < result }
        ensures most { self.new.refusals ≡ self.old.refusals → IsMostOfReplies result piece.now (counted_of F.flow self.new).view }
        ensures told { last.new ≡ last_line_heard (counted_of F.flow self.old).view (take result piece.now) last.old }
        ensures counted { MovesByOneAtMost self.old.refusals self.new.refusals }
    {
        let mut taken = 0;
        while taken < piece.len() && self.dialogue.may_hear() {
            if hear_octet(&mut self.dialogue, piece[taken], last).is_err() {
                self.shorten();
                return taken + 1;
            }
            taken += 1;
        }
        taken
    }

    /// Gives octets of the control connection, and says how many. Takes no memory.
    pub(crate) fn control_out(&mut self, room: &mut [u8]) -> usize
        ensures within { (result ≤ length room.old) × (result ≤ length (counted_of F.flow self.old).view.owed) }
        ensures gave { take result room.new ≡ take result (counted_of F.flow self.old).view.owed }
        ensures now { Holds (counted_of F.flow self.old) (counted_of F.flow self.new) (gives_control result (counted_of F.flow self.old).view) }
        ensures some { 0 < length room.old → 0 < length (counted_of F.flow self.old).view.owed → 0 < result }
        ensures most { result ≡ min (length room.old) (length (counted_of F.flow self.old).view.owed) }
    {
        self.dialogue.control_out(room)
    }

    /// The control connection ended. Hands out what came of a transfer under way, as its answer would have it where it was cut: of a download of a
    /// file.
    #[tactic(auto, unfolding(ftp_client_model::specs::Calls::control_end))]
    pub(crate) fn control_end(&mut self) -> Option<Text<A>>
        ensures now { Holds (counted_of F.flow self.old) (counted_of F.flow self.new) (control_end (counted_of F.flow self.old).view) }
        ensures came { result ≡ came_of (counted_of F.flow self.old).view.job }
    {
        self.dialogue.lose()
    }

    /// A port is listened at. Nobody can be told to come to port 0: it is as no port.
    pub(crate) fn listening(&mut self, port: u16)
        ensures moved { HoldsIfRoom (counted_of F.flow self.old) (counted_of F.flow self.new)
            (port_told port (counted_of F.flow self.old).view) (port_told_short port (counted_of F.flow self.old).view) }
        ensures counted { MovesByOneAtMost self.old.refusals self.new.refusals }
    {
        if port == 0 {
            self.listen_refused();
            return;
        }
        if listening(&mut self.dialogue, port).is_err() {
            self.shorten();
        }
    }

    /// No port was had.
    pub(crate) fn listen_refused(&mut self)
        ensures moved { HoldsIfRoom (counted_of F.flow self.old) (counted_of F.flow self.new)
            (listen_refused (counted_of F.flow self.old).view) (listen_refused_short (counted_of F.flow self.old).view) }
        ensures counted { MovesByOneAtMost self.old.refusals self.new.refusals }
    {
        if listen_refused(&mut self.dialogue).is_err() {
            self.shorten();
        }
    }

    /// The link is open; this host is at its other end.
    pub(crate) fn data_opened(&mut self, host: Host)
        ensures moved { HoldsIfRoom (counted_of F.flow self.old) (counted_of F.flow self.new)
            (data_opened host (counted_of F.flow self.old).view) (data_opened_short (counted_of F.flow self.old).view) }
        ensures counted { MovesByOneAtMost self.old.refusals self.new.refusals }
    {
        if data_opened(&mut self.dialogue, host).is_err() {
            self.shorten();
        }
    }

    /// The link was not had.
    pub(crate) fn data_refused(&mut self)
        ensures moved { HoldsIfRoom (counted_of F.flow self.old) (counted_of F.flow self.new)
            (data_refused (counted_of F.flow self.old).view) (data_refused_short (counted_of F.flow self.old).view) }
        ensures counted { MovesByOneAtMost self.old.refusals self.new.refusals }
    {
        if data_refused(&mut self.dialogue).is_err() {
            self.shorten();
        }
    }

    /// Takes octets of the link, and says how many.
    pub(crate) fn data_hear(&mut self, piece: &[u8]) -> usize
        ensures within { result ≤ length piece.now }
        ensures took { ReceivesIfRoom (counted_of F.flow self.old) (counted_of F.flow self.new) piece.now result }
        ensures some { IsTrue (may_receive (counted_of F.flow self.old).view) → 0 < length piece.now → 0 < result }
        ensures most { self.new.refusals ≡ self.old.refusals → IsMostOfDownload result piece.now (counted_of F.flow self.new).view }
        ensures counted { MovesByOneAtMost self.old.refusals self.new.refusals }
    {
        if !self.dialogue.may_receive() {
            return 0;
        }
        match self.dialogue.receive(piece) {
            Ok(()) => piece.len(),
            Err(taken) => {
                self.shorten();
                taken + 1
            }
        }
    }

    /// The other end closed the link.
    pub(crate) fn data_end(&mut self)
        ensures moved { HoldsIfRoom (counted_of F.flow self.old) (counted_of F.flow self.new)
            (data_end (counted_of F.flow self.old).view) (data_end_short (counted_of F.flow self.old).view) }
        ensures counted { MovesByOneAtMost self.old.refusals self.new.refusals }
    {
        if data_end(&mut self.dialogue).is_err() {
            self.shorten();
        }
    }

    /// The link broke.
    pub(crate) fn data_fault(&mut self)
        ensures moved { HoldsIfRoom (counted_of F.flow self.old) (counted_of F.flow self.new)
            (data_fault (counted_of F.flow self.old).view) (data_fault_short (counted_of F.flow self.old).view) }
        ensures counted { MovesByOneAtMost self.old.refusals self.new.refusals }
    {
        if data_fault(&mut self.dialogue).is_err() {
            self.shorten();
        }
    }

    /// Gives octets of the link, and says how many.
    pub(crate) fn data_out(&mut self, room: &mut [u8]) -> usize
        ensures within { (result ≤ length room.old) × (result ≤ length (to_give (counted_of F.flow self.old).view)) }
        ensures gave { take result room.new ≡ take result (to_give (counted_of F.flow self.old).view) }
        ensures now { HoldsIfRoom (counted_of F.flow self.old) (counted_of F.flow self.new)
            (gives_data result (counted_of F.flow self.old).view) (short (counted_of F.flow self.old).view) }
        ensures some { 0 < length room.old → 0 < length (to_give (counted_of F.flow self.old).view) → 0 < result }
        ensures most { result ≡ min (length room.old) (length (to_give (counted_of F.flow self.old).view)) }
        ensures counted { MovesByOneAtMost self.old.refusals self.new.refusals }
        ensures spare { giving_grows result (counted_of F.flow self.old).view ≡ false → self.new.refusals ≡ self.old.refusals }
    {
        let count = self.dialogue.give(room);
        if self.dialogue.carry_on().is_err() {
            self.shorten();
        }
        count
    }

    /// What it wants of the connections. Takes no memory.
    pub(crate) fn wants(&self) -> Wants
        ensures { result ≡ wants (counted_of F.flow self.now).view }
    {
        self.dialogue.wants()
    }

    /// The host that it stands on.
    pub(crate) fn here(&self) -> Host
        ensures { result ≡ (counted_of F.flow self.now).view.here }
    {
        self.dialogue.here()
    }

    /// Whether it owes octets of the control connection.
    pub(crate) fn owes(&self) -> bool
        ensures { result ≡ has_octets (counted_of F.flow self.now).view.owed }
    {
        self.dialogue.owes()
    }

    /// Whether it has octets of the link to give.
    pub(crate) fn has_data(&self) -> bool
        ensures { result ≡ has_octets (to_give (counted_of F.flow self.now).view) }
    {
        self.dialogue.has_data()
    }

    /// Whether it may take an octet of the control connection.
    pub(crate) fn may_hear(&self) -> bool
        ensures { result ≡ may_hear (counted_of F.flow self.now).view }
    {
        self.dialogue.may_hear()
    }

    /// Whether it may take an octet of the link.
    pub(crate) fn may_receive(&self) -> bool
        ensures { result ≡ may_receive (counted_of F.flow self.now).view }
    {
        self.dialogue.may_receive()
    }

    /// A close that it wanted is done.
    pub(crate) fn data_closed(&mut self)
        ensures { Holds (counted_of F.flow self.old) (counted_of F.flow self.new) (data_closed (counted_of F.flow self.old).view) }
    {
        self.dialogue.data_closed();
    }

    /// How many octets it holds, beside the texts of an operation, what its report brings, and what its transfer stores.
    pub(crate) fn talk_len(&self) -> usize
        requires { talk_len (counted_of F.flow self.now).view ≤ held_limit }
        ensures { result ≡ talk_len (counted_of F.flow self.now).view }
    {
        self.dialogue.talk_len()
    }

    /// A growth was refused: the client is short of memory.
    fn shorten(&mut self)
        ensures view { (counted_of F.flow self.new).view ≡ short (counted_of F.flow self.old).view }
        ensures count { self.new.refusals ≢ self.old.refusals }
        ensures counted { MovesByOneAtMost self.old.refusals self.new.refusals }
    {
        self.dialogue.fail(Failure::Memory);
        self.refusals = self.refusals.wrapping_add(1);
    }
}

impl<A: Allocator + Copy, F: CountedTransfer<A>> Counted<A, F> {
    ghost use Rattle.ftp_client_session.specs.Stored.{stored_in};

    /// What its transfer stores.
    pub(crate) fn stored_len(&self) -> usize
        ensures sum { result ≡ stored_in F.stored self.now.dialogue.place }
        ensures few { result ≤ block_stored_limit }
    {
        self.dialogue.stored_len()
    }
}
