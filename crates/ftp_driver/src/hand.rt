// Octets that go from the end into a room, and those that come and are handed to it.
ghost use Rattle.std.specs.Prelude.{◌≡◌, ◌≤◌, [], List, Option, length, take};
ghost use Rattle.ftp_ports.specs.Asking.{Asked};
ghost use Rattle.ftp_ports.specs.Driving.{Goes};
ghost use Rattle.ftp_ports.specs.Channel.{IsOpen, Channel, with_given, with_untold};
ghost use Rattle.ftp_ports.specs.Machine.{Progressing, held, rest_by, stand_of};
ghost use Rattle.ftp_driver.specs.Standing.{Why};

use crate::calls::{EndCalls, Given};
use crate::control::flush;
use ftp_ends::Wants;
use ftp_ports::{Cause, Control, Rest, Turns};
use std::io::{Read, Write};

/// Fills the front of the room, so many octets at most, with the octets that an end gives which has some.
pub(crate) fn fill_front<K, E>(end: &mut E, room: &mut [u8], most: usize) -> Given
where
    K: EndCalls<E>,
    requires most { most ≤ length room.old }
    requires wants { K.machine.wants (K.here end.old) ≡ Wants.Send }
    ensures within { result.count ≤ most }
    ensures progresses { (channel : Channel) → IsOpen channel → Progressing K.machine (held (K.here end.old) channel) (held (K.here end.new) (with_given (take result.count room.new) result.rest channel)) }
{
    let (front, _) = room.split_at_mut(most);
    fill::<K, E>(end, front)
}

/// Fills the room with the octets that an end gives which has some, as far as they go.
fn fill<K: EndCalls<E>, E>(end: &mut E, room: &mut [u8]) -> Given
    requires { K.machine.wants (K.here end.old) ≡ Wants.Send }
    ensures within { result.count ≤ length room.new }
    ensures progresses { (channel : Channel) → IsOpen channel → Progressing K.machine (held (K.here end.old) channel) (held (K.here end.new) (with_given (take result.count room.new) result.rest channel)) }
{
    let first = K::data_out(end, room);
    let mut at = first.count;
    let mut rest = first.rest;
    while at < room.len() && rest_of::<K, E>(end) == Rest::More {
        let (_, free) = room.split_at_mut(at);
        let given = K::data_out(end, free);
        at += given.count;
        rest = given.rest;
        if given.count == 0 {
            return Given { count: at, rest };
        }
    }
    Given { count: at, rest }
}

/// Whether an end wants to send now: then it has more octets for its data connection.
pub(crate) fn rest_of<K: EndCalls<E>, E>(end: &E) -> Rest
    ensures rest { result ≡ rest_by (K.machine.wants (K.here end.now)) }
    ensures more { result ≡ Rest.More → K.machine.wants (K.here end.now) ≡ Wants.Send }
{
    match K::wants(end) {
        Wants::Send => Rest::More,
        _ => Rest::Nothing,
    }
}

/// Hands octets that came to the end until it has taken them all or wants no more, which drops the rest; what it owes is written behind each call.
#[tactic(auto, using(ftp_ports::proofs::Causing::passes, ftp_ports::proofs::Causing::is_spent))]
pub(crate) fn hand<K, E, R, W>(
    end: &mut E,
    control: &mut Control<R, W>,
    octets: &[u8],
) -> Result<(), Cause>
where
    K: EndCalls<E>,
    R: Read + Drop,
    W: Write + Drop,
    ensures goes { (channel : Channel) → IsOpen channel → Goes (stand_of K.machine R.remaining W.contents (held (K.here end.old) (with_untold octets.now channel)) control.old) (stand_of K.machine R.remaining W.contents (held (K.here end.new) (with_untold [] channel)) control.new) result }
    ensures why { (asked : Option (List Asked)) → Why K.machine K.machine.serves (K.here end.new) asked control.new result }
{
    let mut rest = octets;
    let mut turns = Turns::new();
    while !rest.is_empty() {
        if K::wants(end) != Wants::Receive {
            return Ok(());
        }
        turns.next()?;
        let taken = K::data_hear(end, rest);
        flush::<K, E, R, W>(end, control)?;
        let (_, behind) = rest.split_at(taken);
        rest = behind;
    }
    Ok(())
}
