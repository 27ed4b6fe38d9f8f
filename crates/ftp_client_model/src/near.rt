// The client's end of a session, as a world of both sees it: each call is the function of the view that `specs` has for it.
ghost use Rattle.std.specs.Prelude.{◌≡◌, ◌<◌, ◌≤◌, ℕ, List, Some, None, IfErr, IsTrue, OnErr, OnOk, false, is_err, length, min, take};
ghost use Rattle.ftp_operation.specs.declared.op.Op.{Op};
ghost use Rattle.ftp_operation.specs.Answer.{said_of};
ghost use Rattle.ftp_client_model.specs.Calls.{starts, uploads, is_busy, handed_back, report_of, reports, gives_control, may_hear, control_end, listen_refused, port_told, data_opened, data_refused, data_end, data_fault, data_closed, gives_data, to_give, may_receive, wants};
ghost use Rattle.ftp_client_model.specs.Counting.{MovesByOneAtMost};
ghost use Rattle.ftp_client_model.specs.Failing.{Client, Holds, HoldsIfRoom, HearsIfRoom, ReceivesIfRoom, starts_short, uploads_short, short, listen_refused_short, port_told_short, data_opened_short, data_refused_short, data_end_short, data_fault_short};
ghost use Rattle.ftp_client_model.specs.Growing.{giving_grows};
ghost use Rattle.ftp_client_model.specs.Most.{IsMostOfReplies, IsMostOfDownload};
ghost use Rattle.ftp_client_model.specs.Telling.{Told, anew, begins_told, ends_told, hears_told};
ghost use Rattle.ftp_client_model.specs.Tries.{over_breaks};
ghost use Rattle.ftp_ends.specs.Octets.{has_octets};
ghost use Rattle.std.specs.Option.{option_map};

use crate::busy::Busy;
use ftp_endpoint::Host;
use ftp_ends::Wants;
use ftp_facts::Text;
use ftp_operation::{Answer, How, Op};
use std::alloc::Allocator;

/// The client's end. Where the count of refused growths changed in a call (it moves on by one, wrapping), the client is short of
/// memory, and every operation answers so.
pub trait Near<A: Allocator + Copy>: Drop {
    /// What it holds, and how many growths were refused to it.
    ghost client: { Self → Client };

    /// What it tells beside its reports.
    ghost told: { Self → Told };

    /// Begins the operation that `op` has, and takes it out of there. Where one is begun whose report was not taken, and where `op` has
    /// none, nothing changes. An end has this call; who owns one has `start`.
    fn begin(&mut self, op: &mut Option<Op<Text<A>>>)
        // Witness of begun, left, busy, none: the same, of an operation or an upload over breaks that is begun or left where it was.
        ensures begun { (given : Op (List ℕ)) → op.old ≡ Some given → is_busy (client self.old).view ≡ false
            → HoldsIfRoom (client self.old) (client self.new) (starts given (client self.old).view) (starts_short given (client self.old).view) }
        ensures left { op.new ≡ handed_back (is_busy (client self.old).view) op.old }
        ensures busy { IsTrue (is_busy (client self.old).view) → Holds (client self.old) (client self.new) (client self.old).view }
        ensures none { op.old ≡ None → Holds (client self.old) (client self.new) (client self.old).view }
        // Witness of told: what it tells before the call to that after it (`Telling`): only `hear`, `control_end`, `begin`, `begin_upload`, `start`
        // and `upload` change it `the_line_before_is_told`, `what_came_is_kept_over_the_next_operation`, `what_came_of_a_lost_download_is_let_go` of
        // `ftp_client`.
        ensures told { told self.new ≡ begins_told (is_busy (client self.old).view) op.old (told self.old) }
        // Witness of counted: the count of refused growths before the call to that after it: it stays, or moves on by one, wrapping (`Counting`)
        // `a_refused_growth_is_counted_twice` of `ftp_client`.
        ensures counted { MovesByOneAtMost (client self.old).refusals (client self.new).refusals };

    /// Begins an upload that goes on after breaks, and has one report (own choice: at most 16 tries). `texts` has the path and the octets; they are
    /// taken as `begin` takes an operation. An end has this call; who owns one has `upload`.
    fn begin_upload(&mut self, texts: &mut Option<(Text<A>, Text<A>)>, how: How)
        // Witness of begun, left, busy, none: as of `begin`.
        ensures begun { (path octets : List ℕ) → texts.old ≡ Some (path, octets) → is_busy (client self.old).view ≡ false
            → HoldsIfRoom (client self.old) (client self.new)
            (uploads (over_breaks path octets how) (client self.old).view) (uploads_short (over_breaks path octets how) (client self.old).view) }
        ensures left { texts.new ≡ handed_back (is_busy (client self.old).view) texts.old }
        ensures busy { IsTrue (is_busy (client self.old).view) → Holds (client self.old) (client self.new) (client self.old).view }
        ensures none { texts.old ≡ None → Holds (client self.old) (client self.new) (client self.old).view }
        // Witness of told: as of `begin`.
        ensures told { told self.new ≡ begins_told (is_busy (client self.old).view) texts.old (told self.old) }
        // Witness of counted: as of `begin`.
        ensures counted { MovesByOneAtMost (client self.old).refusals (client self.new).refusals };

    /// The report of the operation, if it is done; it is given once.
    fn report(&mut self) -> Option<Answer<A>>
        // Witness of answer, taken: the same, of a report.
        ensures answer { option_map said_of result ≡ report_of (client self.old).view }
        ensures taken { Holds (client self.old) (client self.new) (reports (client self.old).view) }
        // Witness of told: as of `begin`.
        ensures told { told self.new ≡ told self.old };

    /// Takes octets of the control connection, and says how many.
    fn hear(&mut self, piece: &[u8]) -> usize
        // Witness of within, took, some, most: the same, of the octets taken.
        ensures within { result ≤ length piece.now }
        ensures took { HearsIfRoom (client self.old) (client self.new) piece.now result }
        ensures some { IsTrue (may_hear (client self.old).view) → 0 < length piece.now → 0 < result }

        // Where no growth was refused it takes all of them, or as many as it may.
        ensures most { (client self.new).refusals ≡ (client self.old).refusals → IsMostOfReplies result piece.now (client self.new).view }

        // The line is that of the last one that these octets ended, where a growth was refused too.
        // Witness of told: as of `begin`.
        ensures told { told self.new ≡ hears_told (client self.old).view (take result piece.now) (told self.old) }
        // Witness of counted: as of `begin`.
        ensures counted { MovesByOneAtMost (client self.old).refusals (client self.new).refusals };

    /// Gives octets of the control connection, and says how many. Takes no memory.
    fn control_out(&mut self, room: &mut [u8]) -> usize
        // Witness of within, gave, now, some, most: the same, of the octets given.
        ensures within { (result ≤ length room.old) × (result ≤ length (client self.old).view.owed) }
        ensures gave { take result room.new ≡ take result (client self.old).view.owed }
        ensures now { Holds (client self.old) (client self.new) (gives_control result (client self.old).view) }
        ensures some { 0 < length room.old → 0 < length (client self.old).view.owed → 0 < result }

        // It gives all that is owed, or fills the room.
        ensures most { result ≡ min (length room.old) (length (client self.old).view.owed) }
        // Witness of told: as of `begin`.
        ensures told { told self.new ≡ told self.old };

    /// The control connection ended. What came of a download of a file by then can be had by `came` (RFC 959, sections 3.4 and 5.4).
    fn control_end(&mut self)
        // Witness of now: the same.
        ensures now { Holds (client self.old) (client self.new) (control_end (client self.old).view) }
        // Witness of told: as of `begin`.
        ensures told { told self.new ≡ ends_told (client self.old).view (told self.old) };

    /// A port is listened at. Nobody can be told to come to port 0: it is as no port (own choice).
    fn listening(&mut self, port: u16)
        // Witness of moved: the same of the port that is told, of which 0 is as no port, or short of memory;
        // `port_0_is_taken_as_any_other` of `ftp_client`.
        ensures moved { HoldsIfRoom (client self.old) (client self.new) (port_told port (client self.old).view) (port_told_short port (client self.old).view) }
        // Witness of told: as of `begin`.
        ensures told { told self.new ≡ told self.old }
        // Witness of counted: as of `begin`.
        ensures counted { MovesByOneAtMost (client self.old).refusals (client self.new).refusals };

    /// No port was had.
    fn listen_refused(&mut self)
        // Witness of moved: the same, or short of memory.
        ensures moved { HoldsIfRoom (client self.old) (client self.new) (listen_refused (client self.old).view) (listen_refused_short (client self.old).view) }
        // Witness of told: as of `begin`.
        ensures told { told self.new ≡ told self.old }
        // Witness of counted: as of `begin`.
        ensures counted { MovesByOneAtMost (client self.old).refusals (client self.new).refusals };

    /// The link is open; this host is at its other end.
    fn data_opened(&mut self, host: Host)
        // Witness of moved: the same, or short of memory.
        ensures moved { HoldsIfRoom (client self.old) (client self.new) (data_opened host (client self.old).view) (data_opened_short (client self.old).view) }
        // Witness of told: as of `begin`.
        ensures told { told self.new ≡ told self.old }
        // Witness of counted: as of `begin`.
        ensures counted { MovesByOneAtMost (client self.old).refusals (client self.new).refusals };

    /// The link was not had.
    fn data_refused(&mut self)
        // Witness of moved: the same, or short of memory.
        ensures moved { HoldsIfRoom (client self.old) (client self.new) (data_refused (client self.old).view) (data_refused_short (client self.old).view) }
        // Witness of told: as of `begin`.
        ensures told { told self.new ≡ told self.old }
        // Witness of counted: as of `begin`.
        ensures counted { MovesByOneAtMost (client self.old).refusals (client self.new).refusals };

    /// Takes octets of the link, and says how many.
    fn data_hear(&mut self, piece: &[u8]) -> usize
        // Witness of within, took, some, most: the same, of the octets taken.
        ensures within { result ≤ length piece.now }
        ensures took { ReceivesIfRoom (client self.old) (client self.new) piece.now result }
        ensures some { IsTrue (may_receive (client self.old).view) → 0 < length piece.now → 0 < result }

        // Where no growth was refused it takes all of them, or as many as it may.
        ensures most { (client self.new).refusals ≡ (client self.old).refusals → IsMostOfDownload result piece.now (client self.new).view }
        // Witness of told: as of `begin`.
        ensures told { told self.new ≡ told self.old }
        // Witness of counted: as of `begin`.
        ensures counted { MovesByOneAtMost (client self.old).refusals (client self.new).refusals };

    /// The other end closed the link.
    fn data_end(&mut self)
        // Witness of moved: the same, or short of memory.
        ensures moved { HoldsIfRoom (client self.old) (client self.new) (data_end (client self.old).view) (data_end_short (client self.old).view) }
        // Witness of told: as of `begin`.
        ensures told { told self.new ≡ told self.old }
        // Witness of counted: as of `begin`.
        ensures counted { MovesByOneAtMost (client self.old).refusals (client self.new).refusals };

    /// The link broke.
    fn data_fault(&mut self)
        // Witness of moved: the same, or short of memory.
        ensures moved { HoldsIfRoom (client self.old) (client self.new) (data_fault (client self.old).view) (data_fault_short (client self.old).view) }
        // Witness of told: as of `begin`.
        ensures told { told self.new ≡ told self.old }
        // Witness of counted: as of `begin`.
        ensures counted { MovesByOneAtMost (client self.old).refusals (client self.new).refusals };

    /// Gives octets of the link, and says how many.
    fn data_out(&mut self, room: &mut [u8]) -> usize
        // Witness of within, gave, now, some, most: the same, of the octets given.
        ensures within { (result ≤ length room.old) × (result ≤ length (to_give (client self.old).view)) }
        ensures gave { take result room.new ≡ take result (to_give (client self.old).view) }
        ensures now { HoldsIfRoom (client self.old) (client self.new) (gives_data result (client self.old).view) (short (client self.old).view) }
        ensures some { 0 < length room.old → 0 < length (to_give (client self.old).view) → 0 < result }

        // It gives all that is left, or fills the room.
        ensures most { result ≡ min (length room.old) (length (to_give (client self.old).view)) }

        // It takes memory at most for the next operation of an upload over breaks.
        // Witness of spare: the octets given, to whether memory may be taken `data_out_is_short_at_will` (of `ftp_client`).
        ensures spare { giving_grows result (client self.old).view ≡ false → (client self.new).refusals ≡ (client self.old).refusals }
        // Witness of told: as of `begin`.
        ensures told { told self.new ≡ told self.old }
        // Witness of counted: as of `begin`.
        ensures counted { MovesByOneAtMost (client self.old).refusals (client self.new).refusals };

    /// A close that it wanted is done.
    fn data_closed(&mut self)
        // Witness of now: the same.
        ensures now { Holds (client self.old) (client self.new) (data_closed (client self.old).view) }
        // Witness of told: as of `begin`.
        ensures told { told self.new ≡ told self.old };

    /// What it wants of the connections. Takes no memory.
    fn wants(&self) -> Wants
        // Witness: a call to the function of the view that `specs/` has for it.
        ensures { result ≡ wants (client self.now).view };

    /// The line that the server said last on the control connection, without its end and at most its first 320 octets; empty before any. One that
    /// is too long says nothing (RFC 959, section 4.2; own choices). Takes no memory.
    fn last_reply(&self) -> &[u8]
        // Witness: what it tells, to the octets that are handed out.
        ensures { result.now ≡ (told self.now).line };

    /// The octets that came of a Get, GetFrom or Peek during which the control connection ended, as the answer of one that was cut would have them;
    /// else none. They stay until another operation is begun. Takes no memory.
    fn came(&self) -> &[u8]
        // Witness: what it tells, to the octets that are handed out.
        ensures { result.now ≡ (told self.now).came };

    /// The host that it stands on.
    fn here(&self) -> Host
        // Witness: a call to the function of the view that `specs/` has for it.
        ensures { result ≡ (client self.now).view.here };

    /// How many growths were refused to it; the count moves on by wrapping.
    fn refusals(&self) -> u64
        // Witness: a call to the function of the view that `specs/` has for it.
        ensures { result ≡ (client self.now).refusals };

    /// Whether it owes octets of the control connection.
    fn owes(&self) -> bool
        // Witness: a call to the function of the view that `specs/` has for it.
        ensures { result ≡ has_octets (client self.now).view.owed };

    /// Whether it has octets of the link to give.
    fn has_data(&self) -> bool
        // Witness: a call to the function of the view that `specs/` has for it.
        ensures { result ≡ has_octets (to_give (client self.now).view) };

    /// Whether it may take an octet of the control connection.
    fn may_hear(&self) -> bool
        // Witness: a call to the function of the view that `specs/` has for it.
        ensures { result ≡ may_hear (client self.now).view };

    /// Whether it may take an octet of the link.
    fn may_receive(&self) -> bool
        // Witness: a call to the function of the view that `specs/` has for it.
        ensures { result ≡ may_receive (client self.now).view };

    /// Begins an operation. Where one is begun whose report was not taken, the client is busy: nothing changes, and the operation is handed back.
    final fn start(&mut self, op: Op<Text<A>>) -> Result<(), Busy<Op<Text<A>>>>
        // Witness of busy, begun, back, silent, same: the same, of one that is given by value, to `Busy`, which has it again
        // `a_busy_client_says_that_it_began`, `an_operation_is_handed_back_that_was_not_tried`, `a_busy_client_hands_back_another_text`.
        ensures busy { is_err result ≡ is_busy (client self.old).view }
        ensures begun { OnOk result (HoldsIfRoom (client self.old) (client self.new)
            (starts op (client self.old).view) (starts_short op (client self.old).view)) }
        // Witness of told: as of `begin`.
        ensures told { OnOk result (told self.new ≡ anew (told self.old)) }
        ensures back { IfErr result (λ busy. busy.back ≡ op) }
        ensures silent { OnErr result (told self.new ≡ told self.old) }
        ensures same { OnErr result (Holds (client self.old) (client self.new) (client self.old).view) }
    {
        let mut given = Some(op);
        self.begin(&mut given);
        match given {
            None => Ok(()),
            Some(back) => Err(Busy { back }),
        }
    }

    /// Begins an upload of a path and its octets that goes on after breaks, and has one report (own choice: at most 16 tries). A client that is busy
    /// hands both back.
    final fn upload(
        &mut self,
        path: Text<A>,
        octets: Text<A>,
        how: How,
    ) -> Result<(), Busy<(Text<A>, Text<A>)>>
        // Witness of busy, begun, back, silent, same: as of `start`.
        ensures busy { is_err result ≡ is_busy (client self.old).view }
        ensures begun { OnOk result (HoldsIfRoom (client self.old) (client self.new)
            (uploads (over_breaks path octets how) (client self.old).view) (uploads_short (over_breaks path octets how) (client self.old).view)) }
        // Witness of told: as of `begin`.
        ensures told { OnOk result (told self.new ≡ anew (told self.old)) }
        ensures back { IfErr result (λ busy. busy.back ≡ (path, octets)) }
        ensures silent { OnErr result (told self.new ≡ told self.old) }
        ensures same { OnErr result (Holds (client self.old) (client self.new) (client self.old).view) }
    {
        let mut given = Some((path, octets));
        self.begin_upload(&mut given, how);
        match given {
            None => Ok(()),
            Some(back) => Err(Busy { back }),
        }
    }
}
