// The octets of a control connection: those that the end owes are written, those that were read are heard.
ghost use Rattle.std.specs.Prelude.{◌≡◌, ◌<◌, IsTrue, OnOk, length, true, [], List, Option};
ghost use Rattle.ftp_ports.specs.Asking.{Asked};
ghost use Rattle.ftp_ports.specs.Cause.{HasLost};
ghost use Rattle.ftp_ports.specs.Driving.{Flushes};
ghost use Rattle.ftp_ports.specs.Channel.{Channel};
ghost use Rattle.ftp_ports.specs.Machine.{IsFlushed, IsListening, held, stand_of};
ghost use Rattle.ftp_ports.specs.Unheard.{unheard_of};
ghost use Rattle.ftp_driver.specs.Standing.{Follows, Gets, IsKept, IsParting, ProgressesOn, Why, standing};

use crate::calls::EndCalls;
use crate::drive::Drive;
use ftp_ports::{Cause, Control, Duplex, Ports, Turns};
use std::io::{Read, Write};

/// Writes all control octets that the end owes.
#[tactic(auto, using(ftp_ports::proofs::Causing::passes, ftp_ports::proofs::Causing::is_fault, ftp_ports::proofs::Causing::is_spent))]
pub(crate) fn flush<K, E, R, W>(end: &mut E, control: &mut Control<R, W>) -> Result<(), Cause>
where
    K: EndCalls<E>,
    R: Read + Drop,
    W: Write + Drop,
    ensures flushes { (channel : Channel) → Flushes (stand_of K.machine R.remaining W.contents (held (K.here end.old) channel) control.old) (stand_of K.machine R.remaining W.contents (held (K.here end.new) channel) control.new) result }
    ensures unheard { unheard_of control.new ≡ unheard_of control.old }
    ensures why { (asked : Option (List Asked)) → Why K.machine K.machine.serves (K.here end.new) asked control.new result }
{
    let mut room = [0u8; 1024];
    let mut turns = Turns::new();
    while K::owes(end) {
        turns.next()?;
        let count = K::control_out(end, &mut room);
        let (octets, _) = room.split_at(count);
        control.write(octets)?;
    }
    Ok(())
}

impl<'e, 'k, 'p, 'd, K, E, R, W, P, S> Drive<'e, 'k, 'p, 'd, K, E, R, W, P, S>
where
    K: EndCalls<E>,
    R: Read + Drop,
    W: Write + Drop,
    P: Ports<Stream = S>,
    S: Duplex,
{
    /// Writes all control octets that the end owes, which is not before the last octets of its data connection are written, where it serves.
    pub(crate) fn flush(&mut self) -> Result<(), Cause>
        requires parted { K.machine.serves ≡ true → IsParting self.old.data.now → ⊥ }
        ensures goes { Follows K.machine K.here R.remaining W.contents P.history S.remaining S.contents self.old self.new result }
        ensures flushes { Flushes (standing K.machine K.here R.remaining W.contents P.history S.remaining S.contents self.old) (standing K.machine K.here R.remaining W.contents P.history S.remaining S.contents self.new) result }
        ensures owes { OnOk result (IsFlushed K.machine (K.here self.new.end.now)) }
        ensures unheard { unheard_of self.new.control.now ≡ unheard_of self.old.control.now }
        ensures data { self.new.data.now ≡ self.old.data.now }
        ensures why { Why K.machine K.machine.serves (K.here self.new.end.now) (P.history self.new.ports.now) self.new.control.now result }
        ensures kept { IsKept self.old self.new }
    {
        flush::<K, E, R, W>(self.end, self.control)
    }

    /// Hears the first octets that were read. It is seen before whether the end has more to give: what it hears may end that.
    pub(crate) fn hear(&mut self)
        requires some { 0 < length (unheard_of self.old.control.now) }
        requires may { IsTrue (K.machine.may_hear (K.here self.old.end.now)) }
        requires listening { IsListening K.machine (K.here self.old.end.now) }
        ensures progresses { ProgressesOn K.machine K.here R.remaining W.contents P.history S.remaining S.contents self.old self.new }
        ensures kept { IsKept self.old self.new }
    {
        self.data.see::<K, E>(self.end);
        let taken = K::hear(self.end, self.control.unheard());
        self.control.heard(taken);
    }

    /// Serves the control connection, of which `Ports` told: reads it; where octets stand unheard its end was told, and the drive breaks off.
    pub(crate) fn heed(&mut self) -> Result<(), Cause>
        requires flushed { IsFlushed K.machine (K.here self.old.end.now) }
        requires listening { IsListening K.machine (K.here self.old.end.now) }
        requires lost { 0 < length (unheard_of self.old.control.now) → HasLost (P.history self.old.ports.now) }
        ensures gets { Gets K.machine K.here R.remaining W.contents P.history S.remaining S.contents self.old self.new result }
        ensures why { Why K.machine K.machine.serves (K.here self.new.end.now) (P.history self.new.ports.now) self.new.control.now result }
        ensures kept { IsKept self.old self.new }
    {
        if self.control.has_unheard() {
            return Err(Cause::Lost);
        }
        self.read()
    }

    /// Reads from the control connection, where all that was owed is written and all octets before were heard; tells the end where that ended.
    #[tactic(auto, using(ftp_ports::proofs::Getting::gets_err, ftp_ports::proofs::Causing::passes, ftp_ports::proofs::Causing::is_fault))]
    pub(crate) fn read(&mut self) -> Result<(), Cause>
        requires flushed { IsFlushed K.machine (K.here self.old.end.now) }
        requires listening { IsListening K.machine (K.here self.old.end.now) }
        requires heard { unheard_of self.old.control.now ≡ [] }
        ensures gets { Gets K.machine K.here R.remaining W.contents P.history S.remaining S.contents self.old self.new result }
        ensures why { Why K.machine K.machine.serves (K.here self.new.end.now) (P.history self.new.ports.now) self.new.control.now result }
        ensures kept { IsKept self.old self.new }
    {
        let count = self.control.read()?;
        if count != 0 {
            return Ok(());
        }
        self.data.cut::<K, E>(self.end);
        Ok(())
    }
}
