// How an end comes to a data connection: ports are listened at, data connections are waited for, opened and closed.
ghost use Rattle.std.specs.Prelude.{◌≡◌, ◌≢◌, [], ◌∷◌, List, Option, false};
ghost use Rattle.std.specs.Option.{is_some};
ghost use Rattle.ftp_ports.specs.Asking.{Adds, Asked};
ghost use Rattle.ftp_ports.specs.Channel.{IsHad};
ghost use Rattle.ftp_ports.specs.Machine.{IsFlushed, IsWanted, Progresses};
ghost use Rattle.ftp_driver.specs.Standing.{Gets, IsKept, ProgressesOn, Why, asked_before, standing};

use crate::calls::EndCalls;
use crate::drive::Drive;
use crate::hand::rest_of;
use ftp_endpoint::{Endpoint, Host};
use ftp_ends::Wants;
use ftp_ports::{Accepted, Cause, Duplex, Fate, Ports};
use std::io::{Read, Write};

impl<'e, 'k, 'p, 'd, K, E, R, W, P, S> Drive<'e, 'k, 'p, 'd, K, E, R, W, P, S>
where
    K: EndCalls<E>,
    R: Read + Drop,
    W: Write + Drop,
    P: Ports<Stream = S>,
    S: Duplex,
{
    /// Waits for the data connection that the other end opens; one that stands still is left first. Where all that was read was heard, octets of the
    /// control connection that come first are read; else the drive breaks off where the waiting ends so.
    pub(crate) fn accept(&mut self) -> Result<(), Cause>
        requires wants { K.machine.wants (K.here self.old.end.now) ≡ Wants.Accept }
        requires flushed { IsFlushed K.machine (K.here self.old.end.now) }
        requires sound { self.old.data.now.connection.fate ≢ Fate.Failed }
        ensures gets { Gets K.machine K.here R.remaining W.contents P.history S.remaining S.contents self.old self.new result }
        ensures why { Why K.machine K.machine.serves (K.here self.new.end.now) (P.history self.new.ports.now) self.new.control.now result }
        ensures kept { IsKept self.old self.new }
    {
        if self.data.connection.stands() {
            self.leave();
            return Ok(());
        }
        let hears = !self.control.has_unheard();
        match self.ports.accept(hears) {
            Accepted::Came(stream, host) => self.opened(stream, host),
            Accepted::Spoken => return self.heed(),
            Accepted::Refused => K::data_refused(self.end),
        }
        Ok(())
    }

    /// Listens at a port, and tells the end which.
    pub(crate) fn listen(&mut self)
        requires wants { K.machine.wants (K.here self.old.end.now) ≡ Wants.Listen }
        requires flushed { IsFlushed K.machine (K.here self.old.end.now) }
        ensures progresses { ProgressesOn K.machine K.here R.remaining W.contents P.history S.remaining S.contents self.old self.new }
        ensures kept { IsKept self.old self.new }
    {
        match self.ports.listen() {
            Some(port) => K::listening(self.end, port),
            None => K::listen_refused(self.end),
        }
    }

    /// Opens the data connection to an endpoint, and tells the end; one that stands still is left first.
    pub(crate) fn connect(&mut self, endpoint: Endpoint)
        requires wants { K.machine.wants (K.here self.old.end.now) ≡ Wants.Connect endpoint }
        requires flushed { IsFlushed K.machine (K.here self.old.end.now) }
        requires sound { self.old.data.now.connection.fate ≢ Fate.Failed }
        ensures progresses { ProgressesOn K.machine K.here R.remaining W.contents P.history S.remaining S.contents self.old self.new }
        ensures kept { IsKept self.old self.new }
    {
        if self.data.connection.stands() {
            self.leave();
            return;
        }
        match self.ports.connect(endpoint) {
            Some(stream) => self.opened(stream, endpoint.host),
            None => K::data_refused(self.end),
        }
    }

    /// The data connection that was had last is open now, and this host is at its other end.
    fn opened(&mut self, stream: S, host: Host)
        requires none { is_some self.old.data.now.connection.stream ≡ false }
        requires flushed { IsFlushed K.machine (K.here self.old.end.now) }
        ensures progresses { (before : Option (List Asked)) (had : Asked) → Adds before (P.history self.old.ports.now) (had ∷ []) → IsHad host had (S.remaining stream) (S.contents stream) → IsWanted (K.machine.wants (K.here self.old.end.now)) had → Progresses K.machine (asked_before before (standing K.machine K.here R.remaining W.contents P.history S.remaining S.contents self.old)) (standing K.machine K.here R.remaining W.contents P.history S.remaining S.contents self.new) }
        ensures kept { IsKept self.old self.new }
    {
        K::data_opened(self.end, host);
        let rest = rest_of::<K, E>(self.end);
        self.data.connection.begin(self.ports, stream, rest);
    }

    /// Closes what stands of the data connection, and tells the end.
    pub(crate) fn close(&mut self)
        requires wants { K.machine.wants (K.here self.old.end.now) ≡ Wants.CloseData }
        requires flushed { IsFlushed K.machine (K.here self.old.end.now) }
        requires sound { self.old.data.now.connection.fate ≢ Fate.Failed }
        ensures progresses { ProgressesOn K.machine K.here R.remaining W.contents P.history S.remaining S.contents self.old self.new }
        ensures kept { IsKept self.old self.new }
    {
        self.data.leave(self.ports);
        K::data_closed(self.end);
    }
}
