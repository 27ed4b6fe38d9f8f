// A transfer under way: octets go over the data connection, and control octets that come first are read.
ghost use Rattle.std.specs.Prelude.{◌≡◌, ◌≢◌, ◌⊎◌, ◌<◌, IsTrue, false, length, true};
ghost use Rattle.std.specs.Option.{is_some};
ghost use Rattle.ftp_ports.specs.Asking.{Adds, is_over, told_lost};
ghost use Rattle.ftp_ports.specs.Cause.{HasLost};
ghost use Rattle.ftp_ports.specs.Halting.{fate_by};
ghost use Rattle.ftp_ports.specs.Machine.{IsBroken, IsFlushed, IsListening, MayLeave, awaits, moves_octets, waits};
ghost use Rattle.ftp_ports.specs.Unheard.{unheard_of};
ghost use Rattle.ftp_driver.specs.Standing.{Follows, Gets, HasEnded, IsKept, IsOpenAt, LeadsOn, ProgressesOn, Why};

use crate::calls::EndCalls;
use crate::data::Data;
use crate::drive::Drive;
use crate::hand::hand;
use ftp_ends::Wants;
use ftp_ports::{Cause, Duplex, Fate, For, Halt, Ports, Ready, Spoken};
use std::io::{Read, Write};

impl<'e, 'k, 'p, 'd, K, E, R, W, P, S> Drive<'e, 'k, 'p, 'd, K, E, R, W, P, S>
where
    K: EndCalls<E>,
    R: Read + Drop,
    W: Write + Drop,
    P: Ports<Stream = S>,
    S: Duplex,
{
    /// Takes octets from an end that asks, which the turns behind it write; of one that serves sends them where there is room for them.
    #[tactic(auto, using(ftp_ports::proofs::Getting::gets_then, ftp_ports::proofs::Getting::then_gets, ftp_ports::proofs::Getting::progresses_then, ftp_ports::proofs::Leading::leads_then, ftp_ports::proofs::Getting::gets_goes))]
    pub(crate) fn carry(&mut self) -> Result<(), Cause>
        requires wants { K.machine.wants (K.here self.old.end.now) ≡ Wants.Send }
        requires sound { self.old.data.now.connection.fate ≢ Fate.Failed }
        requires flushed { IsFlushed K.machine (K.here self.old.end.now) }
        requires none { K.machine.serves ≡ false → IsOpenAt self.old.data.now → self.old.data.now.connection.at ≡ self.old.data.now.connection.end }
        ensures gets { Gets K.machine K.here R.remaining W.contents P.history S.remaining S.contents self.old self.new result }
        ensures why { Why K.machine K.machine.serves (K.here self.new.end.now) (P.history self.new.ports.now) self.new.control.now result }
        ensures kept { IsKept self.old self.new }
    {
        if !self.data.is_open() {
            self.miss();
            return Ok(());
        }
        if !K::serves() {
            self.fill();
            return Ok(());
        }
        match self.wait(For::Room) {
            Ready::Control => return self.heed(),
            Ready::Data => self.send_more(),
            Ready::Lost => return Err(Cause::Lost),
        }
        Ok(())
    }

    /// Receives octets where there are any, and reads the control connection where it has some first.
    #[tactic(auto, using(ftp_ports::proofs::Getting::gets_then, ftp_ports::proofs::Getting::gets_goes))]
    pub(crate) fn receive(&mut self) -> Result<(), Cause>
        requires wants { K.machine.wants (K.here self.old.end.now) ≡ Wants.Receive }
        requires sound { self.old.data.now.connection.fate ≢ Fate.Failed }
        requires flushed { IsFlushed K.machine (K.here self.old.end.now) }
        ensures gets { Gets K.machine K.here R.remaining W.contents P.history S.remaining S.contents self.old self.new result }
        ensures why { Why K.machine K.machine.serves (K.here self.new.end.now) (P.history self.new.ports.now) self.new.control.now result }
        ensures kept { IsKept self.old self.new }
    {
        if !self.data.is_open() {
            self.miss();
            return Ok(());
        }
        match self.wait(For::Octets) {
            Ready::Control => self.heed(),
            Ready::Data => self.take(),
            Ready::Lost => self.lost(),
        }
    }

    /// Octets were to go over a data connection, or to come, and none is open: the end is told where none stands, and one that it was told of is left.
    fn miss(&mut self)
        requires moves { moves_octets (K.machine.wants (K.here self.old.end.now)) ≡ true }
        requires sound { self.old.data.now.connection.fate ≢ Fate.Failed }
        requires none { IsOpenAt self.old.data.now → ⊥ }
        requires flushed { IsFlushed K.machine (K.here self.old.end.now) }
        ensures progresses { ProgressesOn K.machine K.here R.remaining W.contents P.history S.remaining S.contents self.old self.new }
        ensures kept { IsKept self.old self.new }
    {
        if self.data.connection.fate() == Fate::Sound {
            self.lose();
            return;
        }
        self.leave();
    }

    /// Waits until octets can go over the data connection, or where all that was read was heard until the control connection is to be served.
    fn wait(&mut self, what: For) -> Ready
        requires { awaits (K.machine.wants (K.here self.old.end.now)) ≡ true }
        ensures progresses { ProgressesOn K.machine K.here R.remaining W.contents P.history S.remaining S.contents self.old self.new }
        ensures ready { IsOpenAt self.old.data.now → IsOpenAt self.new.data.now }
        ensures end { self.new.end.now ≡ self.old.end.now }
        ensures first { result ≡ Ready.Control → 0 < length (unheard_of self.new.control.now) → HasLost (P.history self.new.ports.now) }
        ensures lost { result ≡ Ready.Lost → HasLost (P.history self.new.ports.now) }
        ensures kept { IsKept self.old self.new }
    {
        let hears = !self.control.has_unheard();
        self.data.wait(self.ports, what, hears)
    }

    /// The waiting failed: an end that serves gives up, one that asks may still receive what came before.
    fn lost(&mut self) -> Result<(), Cause>
        requires flushed { IsFlushed K.machine (K.here self.old.end.now) }
        requires lost { HasLost (P.history self.old.ports.now) }
        requires ready { IsOpenAt self.old.data.now }
        requires wants { K.machine.wants (K.here self.old.end.now) ≡ Wants.Receive }
        ensures goes { Follows K.machine K.here R.remaining W.contents P.history S.remaining S.contents self.old self.new result }
        ensures why { Why K.machine K.machine.serves (K.here self.new.end.now) (P.history self.new.ports.now) self.new.control.now result }
        ensures kept { IsKept self.old self.new }
    {
        if K::serves() {
            return Err(Cause::Lost);
        }
        self.take()
    }

    /// Takes what a data connection has: octets are handed on; or it ended or broke, and the end is told that.
    fn take(&mut self) -> Result<(), Cause>
        requires flushed { IsFlushed K.machine (K.here self.old.end.now) }
        requires ready { IsOpenAt self.old.data.now }
        requires wants { K.machine.wants (K.here self.old.end.now) ≡ Wants.Receive }
        ensures goes { Follows K.machine K.here R.remaining W.contents P.history S.remaining S.contents self.old self.new result }
        ensures why { Why K.machine K.machine.serves (K.here self.new.end.now) (P.history self.new.ports.now) self.new.control.now result }
        ensures kept { IsKept self.old self.new }
    {
        match self.data.come() {
            Ok(0) => self.ended(),
            Ok(count) => hand::<K, E, R, W>(self.end, self.control, self.data.front(count)),
            Err(Halt::Broken) => self.broke(),
            Err(halt) => self.halted(halt),
        }
    }

    /// Takes octets from the end, where all before were written, and writes some of those on their way.
    #[tactic(auto, using(ftp_ports::proofs::Leading::leads_then))]
    fn send_more(&mut self)
        requires ready { IsOpenAt self.old.data.now }
        requires wants { K.machine.wants (K.here self.old.end.now) ≡ Wants.Send }
        ensures leads { LeadsOn K.machine K.here R.remaining W.contents P.history S.remaining S.contents self.old self.new }
        ensures kept { IsKept self.old self.new }
    {
        self.fill();
        self.push();
    }

    /// Writes octets on their way, as many as one write takes; where that fails, the data connection is lost.
    #[tactic(auto, using(ftp_ports::proofs::Leading::leads_then, ftp_ports::proofs::Getting::progresses_lead, ftp_ports::proofs::Getting::progresses_then))]
    pub(crate) fn push(&mut self)
        requires ready { IsOpenAt self.old.data.now }
        ensures leads { LeadsOn K.machine K.here R.remaining W.contents P.history S.remaining S.contents self.old self.new }
        ensures progresses { self.old.data.now.connection.at < self.old.data.now.connection.end → ProgressesOn K.machine K.here R.remaining W.contents P.history S.remaining S.contents self.old self.new }
        ensures kept { IsKept self.old self.new }
    {
        match self.write() {
            Err(Halt::Broken) => self.lose(),
            _ => {}
        }
    }

    /// Writes octets that are on their way, as many as one write takes.
    #[tactic(auto, using(ftp_ports::proofs::Getting::gets_then))]
    pub(crate) fn send(&mut self) -> Result<(), Cause>
        requires flushed { IsFlushed K.machine (K.here self.old.end.now) }
        requires ready { IsOpenAt self.old.data.now }
        requires some { self.old.data.now.connection.at < self.old.data.now.connection.end }
        ensures gets { Gets K.machine K.here R.remaining W.contents P.history S.remaining S.contents self.old self.new result }
        ensures why { Why K.machine K.machine.serves (K.here self.new.end.now) (P.history self.new.ports.now) self.new.control.now result }
        ensures kept { IsKept self.old self.new }
    {
        match self.write() {
            Ok(()) => Ok(()),
            Err(halt) => self.halted(halt),
        }
    }

    /// Takes octets from the end, where all before were written.
    fn fill(&mut self)
        requires ready { IsOpenAt self.old.data.now }
        requires wants { K.machine.wants (K.here self.old.end.now) ≡ Wants.Send }
        ensures ready { IsOpenAt self.new.data.now }
        ensures leads { LeadsOn K.machine K.here R.remaining W.contents P.history S.remaining S.contents self.old self.new }
        ensures progresses { self.old.data.now.connection.at ≡ self.old.data.now.connection.end → ProgressesOn K.machine K.here R.remaining W.contents P.history S.remaining S.contents self.old self.new }
        ensures kept { IsKept self.old self.new }
    {
        self.data.fill::<K, E>(self.end);
    }

    /// Writes octets that are not written yet.
    fn write(&mut self) -> Result<(), Halt>
        requires { IsOpenAt self.old.data.now }
        ensures end { self.new.end.now ≡ self.old.end.now }
        ensures fate { self.new.data.now.connection.fate ≡ fate_by result Fate.Sound }
        ensures leads { LeadsOn K.machine K.here R.remaining W.contents P.history S.remaining S.contents self.old self.new }
        ensures progresses { self.old.data.now.connection.at < self.old.data.now.connection.end → ProgressesOn K.machine K.here R.remaining W.contents P.history S.remaining S.contents self.old self.new }
        ensures kept { IsKept self.old self.new }
    {
        self.data.write()
    }

    /// Follows a read or a write of the data connection that moved no octet: one that asks reads what goes first, where all before was heard, and
    /// where it broke, the end is told.
    #[tactic(auto, using(ftp_ports::proofs::Getting::gets_goes, ftp_ports::proofs::Getting::progresses_lead, ftp_ports::proofs::Leading::leads_nowhere))]
    fn halted(&mut self, halt: Halt) -> Result<(), Cause>
        requires flushed { IsFlushed K.machine (K.here self.old.end.now) }
        requires failed { halt ≡ Halt.Broken → self.old.data.now.connection.fate ≡ Fate.Failed }
        ensures goes { Follows K.machine K.here R.remaining W.contents P.history S.remaining S.contents self.old self.new result }
        ensures why { Why K.machine K.machine.serves (K.here self.new.end.now) (P.history self.new.ports.now) self.new.control.now result }
        ensures kept { IsKept self.old self.new }
    {
        match halt {
            Halt::Again => {}
            Halt::Spoken => {
                if K::serves() {
                    return Ok(());
                }
                if self.control.has_unheard() {
                    return Ok(());
                }
                return self.read();
            }
            Halt::Broken => self.lose(),
        }
        Ok(())
    }

    /// The data connection ended: that is told, unless the control connection goes first. What the end owes then is written, and only then is the
    /// data connection closed: its peer, which ended it, waits for the reply alone.
    #[tactic(auto, using(ftp_ports::proofs::Causing::passes))]
    fn ended(&mut self) -> Result<(), Cause>
        requires flushed { IsFlushed K.machine (K.here self.old.end.now) }
        requires ready { IsOpenAt self.old.data.now }
        requires ended { HasEnded S.remaining self.old.data.now }
        requires wants { K.machine.wants (K.here self.old.end.now) ≡ Wants.Receive }
        ensures goes { Follows K.machine K.here R.remaining W.contents P.history S.remaining S.contents self.old self.new result }
        ensures why { Why K.machine K.machine.serves (K.here self.new.end.now) (P.history self.new.ports.now) self.new.control.now result }
        ensures kept { IsKept self.old self.new }
    {
        let spoken = self.look();
        if self.goes_first(spoken) {
            return self.heed();
        }
        self.tell_end(spoken);
        self.flush()?;
        self.leave();
        Ok(())
    }

    /// The data connection broke: that is told, unless the control connection goes first.
    #[tactic(auto, using(ftp_ports::proofs::Getting::then_gets, ftp_ports::proofs::Getting::then_progresses))]
    pub(crate) fn broke(&mut self) -> Result<(), Cause>
        requires flushed { IsFlushed K.machine (K.here self.old.end.now) }
        requires failed { self.old.data.now.connection.fate ≡ Fate.Failed }
        ensures gets { Gets K.machine K.here R.remaining W.contents P.history S.remaining S.contents self.old self.new result }
        ensures why { Why K.machine K.machine.serves (K.here self.new.end.now) (P.history self.new.ports.now) self.new.control.now result }
        ensures kept { IsKept self.old self.new }
    {
        let spoken = self.look();
        if self.goes_first(spoken) {
            return self.heed();
        }
        self.lose();
        Ok(())
    }

    /// Whether what the control connection has goes before the end of a data connection: octets, where all before were heard, and its own end.
    fn goes_first(&self, spoken: Spoken) -> bool
        ensures behind { result ≡ false → spoken ≢ Spoken.Ended }
        ensures some { IsTrue result → spoken ≢ Spoken.Nothing }
        ensures first { IsTrue result → 0 < length (unheard_of self.now.control.now) → spoken ≡ Spoken.Ended }
    {
        match spoken {
            Spoken::Nothing => false,
            Spoken::Octets => !self.control.has_unheard(),
            Spoken::Ended => true,
        }
    }

    /// The data connection ended now, and the control connection, as far as it was looked at, has not: the end is told.
    fn tell_end(&mut self, _spoken: Spoken)
        requires before { _spoken ≢ Spoken.Ended }
        requires ready { IsOpenAt self.old.data.now }
        requires ended { HasEnded S.remaining self.old.data.now }
        requires wants { K.machine.wants (K.here self.old.end.now) ≡ Wants.Receive }
        ensures fate { self.new.data.now.connection.fate ≡ Fate.Over }
        ensures leads { LeadsOn K.machine K.here R.remaining W.contents P.history S.remaining S.contents self.old self.new }
        ensures kept { IsKept self.old self.new }
    {
        K::data_end(self.end);
        self.data.connection.told(Fate::Over);
    }

    /// Closes what stands of the data connection.
    pub(crate) fn leave(&mut self)
        requires may { MayLeave (K.machine.IsDone (K.here self.old.end.now)) (K.machine.wants (K.here self.old.end.now)) self.old.data.now.connection.fate }
        requires flushed { IsFlushed K.machine (K.here self.old.end.now) }
        ensures progresses { ProgressesOn K.machine K.here R.remaining W.contents P.history S.remaining S.contents self.old self.new }
        ensures kept { IsKept self.old self.new }
    {
        self.data.leave(self.ports);
    }

    /// The data connection is lost: the end is told, and it is reset.
    fn lose(&mut self)
        requires { IsBroken (K.machine.wants (K.here self.old.end.now)) (is_some self.old.data.now.connection.stream) self.old.data.now.connection.fate }
        ensures progresses { ProgressesOn K.machine K.here R.remaining W.contents P.history S.remaining S.contents self.old self.new }
        ensures kept { IsKept self.old self.new }
    {
        K::data_fault(self.end);
        self.data.reset(self.ports);
    }

    /// What the control connection has, where an end that serves and waits for octets looks at it before its data connection is over; one that asks has
    /// looked already, and one that wants no more octets does not read.
    #[tactic(auto, using(ftp_ports::proofs::Leading::leads_nowhere))]
    fn look(&mut self) -> Spoken
        ensures leads { LeadsOn K.machine K.here R.remaining W.contents P.history S.remaining S.contents self.old self.new }
        ensures listening { result ≢ Spoken.Nothing → IsListening K.machine (K.here self.new.end.now) }
        ensures asked { Adds (P.history self.old.ports.now) (P.history self.new.ports.now) (told_lost (is_over result)) }
        ensures data { self.new.data.now ≡ self.old.data.now }
        ensures end { self.new.end.now ≡ self.old.end.now }
        ensures kept { IsKept self.old self.new }
    {
        if K::serves() && awaits(K::wants(self.end)) {
            return self.ports.spoken();
        }
        Spoken::Nothing
    }
}

/// Whether an end that wants this waits at its data connection, or for one.
fn awaits(wants: Wants) -> bool
    ensures awaits { result ≡ awaits wants }
    ensures waits { IsTrue result → waits wants ≡ true }
{
    match wants {
        Wants::Accept | Wants::Receive | Wants::Send => true,
        Wants::Nothing | Wants::Listen | Wants::Connect(_) | Wants::CloseData | Wants::CloseAll =>
            false,
    }
}
