// The calls of an end, as a drive makes them.
ghost use Rattle.std.specs.Prelude.{◌≡◌, ◌<◌, ◌≤◌, IsTrue, length, take};
ghost use Rattle.ftp_ports.specs.Machine.{Machine};
ghost use Rattle.ftp_ends.specs.Octets.{has_octets};
ghost use Rattle.ftp_driver.specs.Calling.{IsAskedIfOver, IsOpenEnd, IsToldOfClose};

use ftp_endpoint::Host;
use ftp_ends::Wants;
use ftp_ports::Rest;

/// What an end gave: how many octets, and whether it has more of those that it was to give.
#[derive(Clone, Copy)]
pub struct Given {
    pub count: usize,
    pub rest: Rest,
}

/// The calls of an end `E`. Each does what the `Machine` says of it to what the end holds.
pub trait EndCalls<E> {
    /// What the drive gives at its end.
    type Over;

    ghost machine: { Machine };

    /// What an end holds.
    ghost here: { E → machine.Here };

    /// Its last call.
    ghost last: { Self.Over → (old new : machine.Here) → Type 0 };

    /// The call that asks whether its drive is over, where it is not.
    ghost goes_on: { machine.Own };

    /// Whether it serves: it hears octets one by one, while a transfer is under way too, and lines may wait for a transfer's end unheard. One that
    /// asks hears all that was read before anything else is done.
    fn serves() -> bool
        // Witness: `drive_end`: actions of `Ends`, and which are due.
        ensures { result ≡ machine.serves };

    /// Whether its drive is over, and with what.
    fn over(end: &mut E) -> Option<Self::Over>
        // Witness: `drive_end`: actions of `Ends`, and which are due.
        ensures { IsAskedIfOver machine last goes_on result (here end.old) (here end.new) };

    /// What it wants of the connections.
    fn wants(end: &E) -> Wants
        // Witness: `drive_end`: actions of `Ends`, and which are due.
        ensures { result ≡ machine.wants (here end.now) };

    /// Whether it may take an octet of the control connection.
    fn may_hear(end: &E) -> bool
        // Witness: `drive_end`: actions of `Ends`, and which are due.
        ensures { result ≡ machine.may_hear (here end.now) };

    /// Takes the first of the octets of the control connection that were read and not heard, and says how many.
    fn hear(end: &mut E, unheard: &[u8]) -> usize
        // Witness: `drive_end`: actions of `Ends` (took); their octets can be cut there (within); both drives: `no_octet_is_heard`,
        // `no_octet_of_an_upload_is_taken`, `no_octet_of_a_download_is_taken` (some).
        ensures within { result ≤ length unheard.now }
        ensures took { machine.Hears (take result unheard.now) unheard.now (here end.old) (here end.new) }
        ensures some { IsTrue (machine.may_hear (here end.old)) → 0 < length unheard.now → 0 < result };

    /// Whether it owes octets of the control connection.
    fn owes(end: &E) -> bool
        // Witness: `drive_end`: a read is due only where nothing is owed.
        ensures { result ≡ has_octets (machine.owed (here end.now)) };

    /// Gives octets of the control connection, and says how many.
    fn control_out(end: &mut E, room: &mut [u8]) -> usize
        // Witness: `drive_end`: what is written (gave, now), and that it is all (some); the room is cut there (within).
        ensures within { result ≤ length room.old }
        ensures gave { take result room.new ≡ take result (machine.owed (here end.old)) }
        ensures now { machine.Gives result (here end.old) (here end.new) }
        ensures some { 0 < length room.old → 0 < length (machine.owed (here end.old)) → 0 < result };

    /// The control connection ended.
    fn control_end(end: &mut E)
        // Witness: `drive_end`: actions of `Ends`, and which are due.
        ensures { machine.IsCut (here end.old) (here end.new) };

    /// A port is listened at.
    fn listening(end: &mut E, port: u16)
        // Witness: `drive_end`: actions of `Ends`.
        ensures { machine.Listening port (here end.old) (here end.new) };

    /// No port was had.
    fn listen_refused(end: &mut E)
        // Witness: `drive_end`: actions of `Ends`.
        ensures { machine.NoPort (here end.old) (here end.new) };

    /// The data connection is open; this host is at its other end.
    fn data_opened(end: &mut E, host: Host)
        // Witness: `drive_end`: actions of `Ends`.
        ensures { machine.Opened host (here end.old) (here end.new) };

    /// The data connection was not had.
    fn data_refused(end: &mut E)
        // Witness: `drive_end`: actions of `Ends`.
        ensures { machine.Refused (here end.old) (here end.new) };

    /// Takes octets of the data connection, and says how many.
    fn data_hear(end: &mut E, piece: &[u8]) -> usize
        // Witness: as of `hear`.
        ensures within { result ≤ length piece.now }
        ensures took { machine.Received piece.now result (here end.old) (here end.new) }
        ensures some { IsTrue (machine.may_receive (here end.old)) → 0 < length piece.now → 0 < result };

    /// The other end closed the data connection.
    fn data_end(end: &mut E)
        // Witness: `drive_end`: actions of `Ends`.
        ensures { machine.End (here end.old) (here end.new) };

    /// The data connection broke.
    fn data_fault(end: &mut E)
        // Witness: `drive_end`: actions of `Ends`.
        ensures { machine.Break (here end.old) (here end.new) };

    /// Gives octets of the data connection, and says how many; where it wanted to send, also whether it has more to give.
    fn data_out(end: &mut E, room: &mut [u8]) -> Given
        // Witness: `drive_end`: actions of `Ends` (gave); the room holds them (within); `a_part_is_closed_as_if_it_were_whole` of `ftp_server_driver`
        // (gave).
        ensures within { result.count ≤ length room.old }
        ensures gave { machine.wants (here end.old) ≡ Wants.Send → machine.Gave result.count (take result.count room.new) result.rest (here end.old) (here end.new) };

    /// A close that it wanted is done.
    fn data_closed(end: &mut E)
        // Witness: `drive_end`: actions of `Ends`, and which are due.
        ensures { machine.Closed (here end.old) (here end.new) };

    /// One that serves is over where it wants all to be closed.
    ghost is_over: { (old new : machine.Here) → machine.Owns goes_on old new → IsOpenEnd machine old };

    /// It may be told of a close where it wants one.
    ghost close_due: { (there : machine.Here) → IsToldOfClose machine there };
}
