// The server's end of a session, as a world of both sees it: each call is a step of the view that `specs` has for it.
ghost use Rattle.std.specs.Prelude.{◌≡◌, ◌<◌, ◌≤◌, ℕ, IsTrue, None, Option, drop, length, min, option_map, take};
ghost use Rattle.ftp_server_model.specs.Calls.{break_step, clock_step, close_step, control_end, control_step, end_step, given_step, listening_step, may_receive, no_port_step, opened_step, refused_step, to_give, wants};
ghost use Rattle.ftp_server_model.specs.Failing.{EndFails, GiveFails, KeepsCourse};
ghost use Rattle.ftp_server_model.specs.Heard.{Heard, Tells, TellsHeard, TellsReceived, code_in, lent, login_of_session};
ghost use Rattle.ftp_server_model.specs.Machine.{is_transferring, may_hear};
ghost use Rattle.ftp_server_model.specs.Most.{IsMostHeard, IsMostReceived};
ghost use Rattle.ftp_server_model.specs.Far.{Acts, AreTold, Hears, Receives, Server, Steps};
ghost use Rattle.ftp_ends.specs.Octets.{has_octets};

use crate::counts::Counts;
use crate::heard::Answered;
use ftp_endpoint::Host;
use ftp_ends::Wants;
use ftp_facts::Moment;
use ftp_operation::Rights;
use ftp_path::Path;
use ftp_tree::Tree;
use std::alloc::Allocator;

/// The server's end. Its `view` is what it holds; where a count of refused growths or of device failures changed in a call
/// (both wrap, and move by as many as `specs/Counting` says at most), the call left what `specs/Failing` says, and every later call is a step again.
/// Where the tree's device strayed in a call, nothing is said of it but how the counts moved.
pub trait Far<A: Allocator + Copy, T: Tree<A>>: Drop {
    ghost server: { Self → Server };
    /// The line that the last call acted on, where it acted on one; what it is where a count changed in that call is not said.
    ghost heard: { Self → Option Heard };

    /// The moment in force from now on.
    fn clock(&mut self, moment: Moment)
        // Witness of acts: a call to its step and the line that waits.
        ensures acts { Acts (clock_step moment.seconds) (server self.old) (server self.new) }
        // Witness of told: a call in which nothing failed to the line that it acted on (`Heard`), as `answered` lends it: its verb, what it names,
        // the code that it was answered with at once.
        ensures told { Tells (clock_step moment.seconds) (heard self.new) (server self.old) (server self.new) }

        // Where no line waits that is all, and its device is not asked.
        // Witness of alone: a call while no line waits to its step, however the device is.
        ensures alone { (server self.old).view.waiting ≡ None → server self.new ≡ record (server self.old) { view = clock_step moment.seconds (server self.old).view } };

    /// Takes octets of the control connection, and says how many.
    fn hear(&mut self, piece: &[u8]) -> usize
        // Witness of within, took, some, most: the same, of the octets taken: all, or as many as may be, where neither count moved.
        ensures within { result ≤ length piece.now }
        ensures took { Hears (take result piece.now) (server self.old) (server self.new) }
        // Witness of told: as of `clock`.
        ensures told { TellsHeard (take result piece.now) (heard self.new) (server self.old) (server self.new) }
        ensures some { IsTrue (may_hear (server self.old).view) → 0 < length piece.now → 0 < result }

        // Where nothing failed it takes all of them, or as many as it may.
        ensures most { (server self.new).counts ≡ (server self.old).counts → IsMostHeard result piece.now (server self.new).view };

    /// Gives octets of the control connection, and says how many.
    fn control_out(&mut self, room: &mut [u8]) -> usize
        // Witness of within, gave, now, some, most: the same, of the octets given: all, or as many as there is room for, of data where neither count
        // moved.
        ensures within { (result ≤ length room.old) × (result ≤ length (server self.old).view.owed) }
        ensures gave { take result room.new ≡ take result (server self.old).view.owed }
        ensures now { Acts (control_step result) (server self.old) (server self.new) }
        // Witness of told: as of `clock`.
        ensures told { Tells (control_step result) (heard self.new) (server self.old) (server self.new) }
        ensures some { 0 < length room.old → 0 < length (server self.old).view.owed → 0 < result }

        // It gives all that is owed, or fills the room.
        ensures most { result ≡ min (length room.old) (length (server self.old).view.owed) };

    /// The control connection ended.
    fn control_end(&mut self)
        // Witness of acts: a call to its step and the line that waits.
        ensures acts { server self.new ≡ record (server self.old) { view = control_end (server self.old).view } }
        // Witness of told: as of `clock`.
        ensures told { heard self.new ≡ None };

    /// A port is listened at.
    fn listening(&mut self, port: u16)
        // Witness of acts: a call to its step and the line that waits.
        ensures acts { Acts (listening_step port) (server self.old) (server self.new) }
        // Witness of told: as of `clock`.
        ensures told { Tells (listening_step port) (heard self.new) (server self.old) (server self.new) };

    /// No port was had.
    fn listen_refused(&mut self)
        // Witness of acts: a call to its step and the line that waits.
        ensures acts { Acts no_port_step (server self.old) (server self.new) }
        // Witness of told: as of `clock`.
        ensures told { Tells no_port_step (heard self.new) (server self.old) (server self.new) };

    /// The data connection is open; this host is at its other end.
    fn data_opened(&mut self, host: Host)
        // Witness of acts: a call to its step and the line that waits.
        ensures acts { Acts (opened_step host) (server self.old) (server self.new) }
        // Witness of told: as of `clock`.
        ensures told { Tells (opened_step host) (heard self.new) (server self.old) (server self.new) };

    /// The data connection was not had.
    fn data_refused(&mut self)
        // Witness of acts: a call to its step and the line that waits.
        ensures acts { Acts refused_step (server self.old) (server self.new) }
        // Witness of told: as of `clock`.
        ensures told { Tells refused_step (heard self.new) (server self.old) (server self.new) };

    /// Takes octets of the data connection, and says how many.
    fn data_hear(&mut self, piece: &[u8]) -> usize
        // Witness of within, took, some, most: as of `hear`.
        ensures within { result ≤ length piece.now }
        ensures took { Receives (take result piece.now) (server self.old) (server self.new) }
        // Witness of told: as of `clock`.
        ensures told { TellsReceived (take result piece.now) (heard self.new) (server self.old) (server self.new) }
        ensures some { IsTrue (may_receive (server self.old).view) → 0 < length piece.now → 0 < result }

        // Where nothing failed it takes all of them, or as many as it may.
        ensures most { (server self.new).counts ≡ (server self.old).counts → IsMostReceived result piece.now (server self.new).view };

    /// The other end closed the data connection.
    fn data_end(&mut self)
        // Witness of acts: a call to its step and the line that waits.
        ensures acts { Steps EndFails end_step (server self.old) (server self.new) }
        // Witness of told: as of `clock`.
        ensures told { Tells end_step (heard self.new) (server self.old) (server self.new) };

    /// The data connection broke.
    fn data_fault(&mut self)
        // Witness of acts: a call to its step and the line that waits.
        ensures acts { Steps EndFails break_step (server self.old) (server self.new) }
        // Witness of told: as of `clock`.
        ensures told { Tells break_step (heard self.new) (server self.old) (server self.new) };

    /// Gives octets of the data connection, and says how many. Where what comes next of a download or a listing is not had, that ends with 451.
    fn data_out(&mut self, room: &mut [u8]) -> usize
        // Witness of within, gave, now, some, most: as of `control_out`.
        ensures within { result ≤ length room.old }
        // Witness of left: a bound of the octets given by those that are left.
        ensures left { KeepsCourse (server self.old).counts (server self.new).counts → result ≤ length (to_give (server self.old).view) }
        ensures gave { KeepsCourse (server self.old).counts (server self.new).counts → take result room.new ≡ take result (to_give (server self.old).view) }
        ensures now { Steps (GiveFails result) (given_step result) (server self.old) (server self.new) }
        // Witness of told: as of `clock`.
        ensures told { Tells (given_step result) (heard self.new) (server self.old) (server self.new) }
        ensures some { (server self.new).counts ≡ (server self.old).counts → 0 < length room.old → 0 < length (to_give (server self.old).view) → 0 < result }

        // Where nothing failed it gives all that is left, or fills the room.
        ensures most { (server self.new).counts ≡ (server self.old).counts → result ≡ min (length room.old) (length (to_give (server self.old).view)) };

    /// A close that it wanted is done.
    fn data_closed(&mut self)
        // Witness of acts: a call to its step and the line that waits.
        ensures acts { Acts close_step (server self.old) (server self.new) }
        // Witness of told: as of `clock`.
        ensures told { Tells close_step (heard self.new) (server self.old) (server self.new) };

    /// What it wants of the connections. Takes no memory.
    fn wants(&self) -> Wants
        // Witness: a call to the function of the view that `specs/` has for it.
        ensures { result ≡ wants (server self.now).view };

    /// The host that it stands on.
    fn here(&self) -> Host
        // Witness: a call to the function of the view that `specs/` has for it.
        ensures { result ≡ (server self.now).view.context.here };

    /// What has failed so far.
    fn counts(&self) -> Counts
        // Witness: a call to the function of the view that `specs/` has for it.
        ensures { AreTold result (server self.now).counts };

    /// Whether it owes octets of the control connection.
    fn owes(&self) -> bool
        // Witness: a call to the function of the view that `specs/` has for it.
        ensures { result ≡ has_octets (server self.now).view.owed };

    /// Whether it has octets of the data connection to give.
    fn has_data(&self) -> bool
        // Witness: a call to the function of the view that `specs/` has for it.
        ensures { result ≡ has_octets (to_give (server self.now).view) };

    /// Whether it may take an octet of the control connection.
    fn may_hear(&self) -> bool
        // Witness: a call to the function of the view that `specs/` has for it.
        ensures { result ≡ may_hear (server self.now).view };

    /// Whether it may take an octet of the data connection.
    fn may_receive(&self) -> bool
        // Witness: a call to the function of the view that `specs/` has for it.
        ensures { result ≡ may_receive (server self.now).view };

    /// The line that the last call acted on, if it acted on one. Takes no memory.
    fn answered(&self) -> Option<Answered<'_>>
        // Witness: what it lends to `heard`, or to the function of the view that `specs/` has for it.
        ensures { option_map lent result ≡ heard self.now };

    /// The root of the account of who is logged in, and its rights; none where nobody is.
    fn login(&self) -> Option<(&Path<A>, Rights)>
        // Witness: as of `answered`.
        ensures { option_map (λ login. (login.0.now, login.1)) result ≡ login_of_session (server self.now).view.session };

    /// How many octets of the control connection it owes.
    fn owed(&self) -> usize
        // Witness: as of `answered`.
        ensures { result ≡ length (server self.now).view.owed };

    /// The code whose three digits stand at a place of the octets that it owes; none where no three digits stand there.
    fn code_at(&self, place: usize) -> Option<u16>
        // Witness: as of `answered`.
        ensures { result ≡ code_in (drop place (server self.now).view.owed) };

    /// Whether a transfer is under way, its data connection open or still to come.
    fn is_transferring(&self) -> bool
        // Witness: as of `answered`.
        ensures { result ≡ is_transferring (server self.now).view.session.connection };

    /// Its tree, whose map is that of the session.
    fn tree(&self) -> &T
        // Witness: a call to the function of the view that `specs/` has for it.
        ensures { T.table result.now ≡ (server self.now).view.session.table };
}

/// The server's end over a tree whose device never strays.
pub trait SureFar<A: Allocator + Copy, T: Tree<A>>: Far<A, T> {
    ghost use Rattle.std.specs.Prelude.{◌≡◌};

    ghost never: { (far : Self) → (Self.server far).counts.failures.strays ≡ 0 };
}
