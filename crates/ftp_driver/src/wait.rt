// What the next turn of a drive would wait for.
ghost use Rattle.std.specs.Prelude.{◌≡◌, IfOk, IsTrue, false};
ghost use Rattle.ftp_driver.specs.Standing.{Follows, IsKept, LeadsOn, Why};

use crate::calls::EndCalls;
use crate::drive::Drive;
use ftp_ends::Wants;
use ftp_ports::{Awaited, Beside, Cause, Duplex, Fate, For, Ports};
use std::io::{Read, Write};

impl<'e, 'k, 'p, 'd, K, E, R, W, P, S> Drive<'e, 'k, 'p, 'd, K, E, R, W, P, S>
where
    K: EndCalls<E>,
    R: Read + Drop,
    W: Write + Drop,
    P: Ports<Stream = S>,
    S: Duplex,
{
    /// Whether the next turn would wait. What the end owes is written before, where it may be said now and the control connection has room for it.
    pub(crate) fn would_wait(&mut self) -> Result<bool, Cause>
        ensures goes { Follows K.machine K.here R.remaining W.contents P.history S.remaining S.contents self.old self.new result }
        ensures why { Why K.machine K.machine.serves (K.here self.new.end.now) (P.history self.new.ports.now) self.new.control.now result }
        ensures later { IfOk result (λ later. IsTrue later → P.waits self.new.ports.now) }
        ensures kept { IsKept self.old self.new }
    {
        if self.is_parting() {
            return Ok(!self.data.looks(self.ports, For::Room, Beside::Nothing));
        }
        if K::owes(self.end) {
            if !self.looks(Awaited::Replies) {
                return Ok(true);
            }
            self.flush()?;
        }
        Ok(!self.is_ready())
    }

    /// Whether a turn would end at once, where nothing is owed: what is heard is there, and else what the end wants.
    #[tactic(auto, using(ftp_ports::proofs::Leading::leads_then, ftp_ports::proofs::Leading::leads_nowhere))]
    fn is_ready(&mut self) -> bool
        ensures leads { LeadsOn K.machine K.here R.remaining W.contents P.history S.remaining S.contents self.old self.new }
        ensures later { result ≡ false → P.waits self.new.ports.now }
        ensures kept { IsKept self.old self.new }
    {
        if self.hears_now() || self.data.connection.fate() == Fate::Failed {
            return true;
        }
        if self.is_sending() {
            return self.looks_at(For::Room);
        }
        let beside = self.beside();
        match K::wants(self.end) {
            Wants::Nothing => self.control.has_unheard() || self.looks(Awaited::Control),
            Wants::Accept => {
                self.data.connection.stands() || self.looks(Awaited::Accepted(beside))
            }
            Wants::Connect(endpoint) => {
                self.data.connection.stands() || self.looks(Awaited::Connected(endpoint))
            }
            Wants::Receive => self.looks(Awaited::Replies) && self.looks_at(For::Octets),
            Wants::Send => self.looks_at(For::Room),
            Wants::Listen | Wants::CloseData | Wants::CloseAll => true,
        }
    }

    /// Whether that is there.
    fn looks(&mut self, what: Awaited) -> bool
        ensures leads { LeadsOn K.machine K.here R.remaining W.contents P.history S.remaining S.contents self.old self.new }
        ensures data { self.new.data.now ≡ self.old.data.now }
        ensures later { result ≡ false → P.waits self.new.ports.now }
        ensures kept { IsKept self.old self.new }
    {
        self.ports.looks(what)
    }

    /// Whether octets can go over the data connection, or the control connection is to be served; where none is open that is told at once.
    #[tactic(auto, using(ftp_ports::proofs::Leading::leads_nowhere))]
    fn looks_at(&mut self, what: For) -> bool
        ensures leads { LeadsOn K.machine K.here R.remaining W.contents P.history S.remaining S.contents self.old self.new }
        ensures later { result ≡ false → P.waits self.new.ports.now }
        ensures kept { IsKept self.old self.new }
    {
        if !self.data.is_open() {
            return true;
        }
        let beside = self.beside();
        self.data.looks(self.ports, what, beside)
    }

    /// What of the control connection ends a waiting: octets, too, where all that was read was heard.
    fn beside(&self) -> Beside {
        if self.control.has_unheard() {
            Beside::End
        } else {
            Beside::Octets
        }
    }
}
