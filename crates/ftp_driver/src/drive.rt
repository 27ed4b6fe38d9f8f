// The drive: what an end wants is done, turn by turn, until that is over.
ghost use Rattle.std.specs.Prelude.{◌≡◌, ◌≢◌, ◌<◌, IsTrue, [], false, length, true};
ghost use Rattle.ftp_ports.specs.Cause.{is_still};
ghost use Rattle.ftp_ports.specs.Machine.{IsFlushed, IsListening, held, stand_of, waits};
ghost use Rattle.ftp_ports.specs.Unheard.{unheard_of};
ghost use Rattle.ftp_driver.specs.Calling.{Ends, IsLater, TurnsTo};
ghost use Rattle.ftp_driver.specs.Standing.{IsKept, IsOpenAt, IsParting, TurnsOn, Why, channel_at, standing};

use crate::calls::EndCalls;
use crate::data::Data;
use ftp_ends::Wants;
use ftp_ports::{Cause, Control, Duplex, Fate, Ports, Turns};
use std::io::{Read, Write};
use std::marker::PhantomData;

/// An end, its control connection, what opens its data connections, and the data connection that stands.
pub(crate) struct Drive<'e, 'k, 'p, 'd, K, E, R, W, P, S> {
    pub(crate) end: &'e mut E,
    pub(crate) control: &'k mut Control<R, W>,
    pub(crate) ports: &'p mut P,
    pub(crate) data: &'d mut Data<S>,
    /// How the end is called.
    calls: PhantomData<K>,
}

/// How some turns of a drive ended.
pub enum Turned<T> {
    /// Its drive is over, and this is what the end gave.
    Over(T),
    /// The next turn would wait.
    Later,
    /// As many turns were made as may be; the next one is due.
    More,
}

/// Drives an end until its drive is over, and gives what the end gave. It breaks off only for a `Cause` that is so then.
pub fn drive_end<K, E, R, W, P>(
    end: &mut E,
    control: &mut Control<R, W>,
    ports: &mut P,
    data: &mut Data<P::Stream>,
) -> Result<K::Over, Cause>
where
    K: EndCalls<E>,
    R: Read + Drop,
    W: Write + Drop,
    P: Ports,
    // Witness of ends: `Drives` of `drive_server` and of `drive_client`.
    ensures ends { Ends K.machine K.last (stand_of K.machine R.remaining W.contents (held (K.here end.old) (channel_at P.Stream.remaining P.Stream.contents (P.history ports.old) data.old [])) control.old) (stand_of K.machine R.remaining W.contents (held (K.here end.new) (channel_at P.Stream.remaining P.Stream.contents (P.history ports.new) data.new [])) control.new) result }
    // Witness of why: `edits/a_drive_breaks_off_after_three_turns.edit`.
    ensures why { Why K.machine K.machine.serves (K.here end.new) (P.history ports.new) control.new result }
{
    let mut drive = Drive {
        end,
        control,
        ports,
        data,
        calls: PhantomData::<K>,
    };
    let over = drive.turns();
    let Drive {
        end,
        control,
        ports,
        data,
        calls: _,
    } = drive;
    // A move ends what is lent here: these are as the drive left them.
    let (_end, _control, _ports, _data) = (end, control, ports, data);
    over
}

/// Drives an end beside others: turns until its drive is over, until the next one would wait, or so many. What was led on so far goes on with the next
/// call, with the same end, control connection, ports and data connection. It breaks off only for a `Cause` that is so then.
pub fn drive_on<K, E, R, W, P>(
    end: &mut E,
    control: &mut Control<R, W>,
    ports: &mut P,
    data: &mut Data<P::Stream>,
    most: u64,
) -> Result<Turned<K::Over>, Cause>
where
    K: EndCalls<E>,
    R: Read + Drop,
    W: Write + Drop,
    P: Ports,
    // Witness of turns: `edits/one_turn_counts_as_all.edit`, `octets_that_were_read_are_let_go_where_the_next_turn_would_wait`,
    // `a_data_connection_is_left_where_the_next_turn_would_wait`.
    ensures turns { TurnsTo K.machine K.last most (stand_of K.machine R.remaining W.contents (held (K.here end.old) (channel_at P.Stream.remaining P.Stream.contents (P.history ports.old) data.old [])) control.old) (stand_of K.machine R.remaining W.contents (held (K.here end.new) (channel_at P.Stream.remaining P.Stream.contents (P.history ports.new) data.new [])) control.new) result }
    // Witness of why: as of `drive_end`.
    ensures why { Why K.machine K.machine.serves (K.here end.new) (P.history ports.new) control.new result }
    // Witness of later: `edits/what_would_end_at_once_counts_as_waiting.edit`.
    ensures later { IsLater (P.waits ports.new) result }
{
    let mut drive = Drive {
        end,
        control,
        ports,
        data,
        calls: PhantomData::<K>,
    };
    let turned = drive.some_turns(most);
    let Drive {
        end,
        control,
        ports,
        data,
        calls: _,
    } = drive;
    let (_end, _control, _ports, _data) = (end, control, ports, data);
    turned
}

impl<'e, 'k, 'p, 'd, K, E, R, W, P, S> Drive<'e, 'k, 'p, 'd, K, E, R, W, P, S>
where
    K: EndCalls<E>,
    R: Read + Drop,
    W: Write + Drop,
    P: Ports<Stream = S>,
    S: Duplex,
{
    /// The turns of a drive.
    #[tactic(auto, using(ftp_ports::proofs::Causing::passes, ftp_ports::proofs::Causing::is_spent))]
    fn turns(&mut self) -> Result<K::Over, Cause>
        ensures ends { Ends K.machine K.last (standing K.machine K.here R.remaining W.contents P.history S.remaining S.contents self.old) (standing K.machine K.here R.remaining W.contents P.history S.remaining S.contents self.new) result }
        ensures why { Why K.machine K.machine.serves (K.here self.new.end.now) (P.history self.new.ports.now) self.new.control.now result }
        ensures kept { IsKept self.old self.new }
    {
        let mut turns = Turns::new();
        loop {
            turns.next()?;
            match K::over(self.end) {
                Some(over) => return Ok(over),
                None => self.turn()?,
            }
        }
    }

    /// So many turns at most.
    #[tactic(auto, using(ftp_ports::proofs::Causing::passes))]
    fn some_turns(&mut self, most: u64) -> Result<Turned<K::Over>, Cause>
        ensures turns { TurnsTo K.machine K.last most (standing K.machine K.here R.remaining W.contents P.history S.remaining S.contents self.old) (standing K.machine K.here R.remaining W.contents P.history S.remaining S.contents self.new) result }
        ensures why { Why K.machine K.machine.serves (K.here self.new.end.now) (P.history self.new.ports.now) self.new.control.now result }
        ensures later { IsLater (P.waits self.new.ports.now) result }
        ensures kept { IsKept self.old self.new }
    {
        let mut made = 0;
        while made < most {
            match K::over(self.end) {
                Some(over) => return Ok(Turned::Over(over)),
                None => {}
            }
            if self.would_wait()? {
                return Ok(Turned::Later);
            }
            self.turn()?;
            made += 1;
        }
        Ok(Turned::More)
    }

    /// One turn: what the end owes is written; then what was read is heard, where it may be heard now; or the end is told of a data connection that
    /// failed; or octets on their way from one that asks are written; or what the end wants is done. Of one that serves and has no more to give, the
    /// octets on their way go before all else.
    #[tactic(auto, using(ftp_ports::proofs::Getting::gets_err, ftp_ports::proofs::Getting::then_gets, ftp_ports::proofs::Getting::then_progresses, ftp_ports::proofs::Causing::passes))]
    fn turn(&mut self) -> Result<(), Cause>
        ensures gets { TurnsOn K.machine K.here R.remaining W.contents P.history S.remaining S.contents self.old self.new result }
        ensures why { Why K.machine K.machine.serves (K.here self.new.end.now) (P.history self.new.ports.now) self.new.control.now result }
        ensures kept { IsKept self.old self.new }
    {
        if self.is_parting() {
            self.push();
            return Ok(());
        }
        self.flush()?;
        if self.hears_now() {
            self.hear();
            return Ok(());
        }
        if self.data.connection.fate() == Fate::Failed {
            return self.broke();
        }
        if self.is_sending() {
            return self.send();
        }
        self.act()
    }

    /// Whether octets that were read are to be heard now: of one that asks before all else, of one that serves beside what it waits for.
    pub(crate) fn hears_now(&self) -> bool
        ensures some { IsTrue result → 0 < length (unheard_of self.now.control.now) }
        ensures may { IsTrue result → IsTrue (K.machine.may_hear (K.here self.now.end.now)) }
        ensures listening { IsTrue result → IsListening K.machine (K.here self.now.end.now) }
        ensures none { result ≡ false → 0 < length (unheard_of self.now.control.now) → is_still K.machine.serves (K.machine.wants (K.here self.now.end.now)) ≡ true → K.machine.may_hear (K.here self.now.end.now) ≡ false }
    {
        if !self.control.has_unheard() {
            return false;
        }
        if K::serves() && !waits(K::wants(self.end)) {
            return false;
        }
        K::may_hear(self.end)
    }

    /// Whether the last octets that one gives which serves are on their way: the reply behind them is said only once they are written.
    pub(crate) fn is_parting(&self) -> bool
        ensures some { IsTrue result → IsParting self.now.data.now }
        ensures none { result ≡ false → K.machine.serves ≡ true → IsParting self.now.data.now → ⊥ }
    {
        K::serves() && self.data.is_parting()
    }

    /// Whether octets of one that asks are on their way over a data connection that is open.
    pub(crate) fn is_sending(&self) -> bool
        ensures ready { IsTrue result → IsOpenAt self.now.data.now }
        ensures some { IsTrue result → self.now.data.now.connection.at < self.now.data.now.connection.end }
        ensures none { result ≡ false → K.machine.serves ≡ false → IsOpenAt self.now.data.now → self.now.data.now.connection.at ≡ self.now.data.now.connection.end }
    {
        !K::serves() && self.data.is_open() && self.data.connection.has_unwritten()
    }

    /// Does what the end wants. The drive breaks off where octets stand that the end may not hear, and it wants nothing that goes on beside them.
    #[tactic(auto, using(ftp_ports::proofs::Leading::fails_at, ftp_ports::proofs::Leading::leads_nowhere))]
    fn act(&mut self) -> Result<(), Cause>
        requires sound { self.old.data.now.connection.fate ≢ Fate.Failed }
        requires flushed { IsFlushed K.machine (K.here self.old.end.now) }
        requires none { K.machine.serves ≡ false → IsOpenAt self.old.data.now → self.old.data.now.connection.at ≡ self.old.data.now.connection.end }
        requires heard { 0 < length (unheard_of self.old.control.now) → is_still K.machine.serves (K.machine.wants (K.here self.old.end.now)) ≡ true → K.machine.may_hear (K.here self.old.end.now) ≡ false }
        ensures gets { TurnsOn K.machine K.here R.remaining W.contents P.history S.remaining S.contents self.old self.new result }
        ensures why { Why K.machine K.machine.serves (K.here self.new.end.now) (P.history self.new.ports.now) self.new.control.now result }
        ensures kept { IsKept self.old self.new }
    {
        let wants = K::wants(self.end);
        if self.control.has_unheard() && stands_still::<K, E>(wants) {
            return Err(Cause::Unheard);
        }
        match wants {
            Wants::Nothing => return self.read(),
            Wants::CloseAll => {
                if !K::serves() {
                    return Err(Cause::Closed);
                }
            }
            Wants::Listen => self.listen(),
            Wants::Connect(endpoint) => self.connect(endpoint),
            Wants::CloseData => self.close(),
            Wants::Accept => return self.accept(),
            Wants::Receive => return self.receive(),
            Wants::Send => return self.carry(),
        }
        Ok(())
    }
}

/// Whether an end that wants this waits for octets.
fn waits(wants: Wants) -> bool
    ensures waits { result ≡ waits wants }
    ensures none { result ≡ false → is_still true wants ≡ false }
{
    match wants {
        Wants::Nothing | Wants::Accept | Wants::Receive | Wants::Send => true,
        Wants::Listen | Wants::Connect(_) | Wants::CloseData | Wants::CloseAll => false,
    }
}

/// Whether an end that wants this goes on only once what stands unheard is heard.
fn stands_still<K: EndCalls<E>, E>(wants: Wants) -> bool
    ensures { result ≡ is_still K.machine.serves wants }
{
    match wants {
        Wants::Nothing => true,
        Wants::Accept | Wants::Receive | Wants::Send => false,
        Wants::Listen | Wants::Connect(_) | Wants::CloseData | Wants::CloseAll => !K::serves(),
    }
}
