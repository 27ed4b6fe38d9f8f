// One call of a server.
ghost use Rattle.std.specs.Prelude.{◌≡◌, IfOk, OnErr, vec_len};
ghost use Rattle.ftp_server_model.specs.Play.{ControlOut, DataOut};
ghost use Rattle.ftp_server_calls.specs.one.Making.{Makes, MakesOnCourse, room_of};
ghost use Rattle.ftp_server_calls.specs.one.Cues.{cue_of, gift_of};

use crate::one::cue::{Cue, Gift};
use ftp_server_model::{Far, SureFar};
use ftp_tree::Tree;
use std::alloc::{AllocError, Allocator};

/// Makes a call of a server over a tree whose device never strays, as `make` does.
pub(crate) fn call<A: Allocator + Copy, T: Tree<A>, S: SureFar<A, T>>(
    alloc: A,
    server: &mut S,
    cue: &Cue<A>,
) -> Result<Gift<A>, AllocError>
    ensures makes { IfOk result (λ gift. Makes (cue_of cue.now) (gift_of gift) (S.server server.old) (S.server server.new)) }
    // Witness of back: an equation; `edits/a_tree_is_lent_before_there_is_room`.
    ensures back { OnErr result (S.server server.new ≡ S.server server.old) }
{
    make(alloc, server, cue)
}

/// Makes a call of a server, and gives what it gave. Where there is no memory for the octets that it may give, it is not made. Of a call in which
/// the device of the server's tree strayed nothing is said.
pub fn make<A: Allocator + Copy, T: Tree<A>, S: Far<A, T>>(
    alloc: A,
    server: &mut S,
    cue: &Cue<A>,
) -> Result<Gift<A>, AllocError>
    // Witness: `play` has them.
    ensures makes { IfOk result (λ gift. MakesOnCourse (cue_of cue.now) (gift_of gift) (S.server server.old) (S.server server.new)) }
    ensures back { OnErr result (S.server server.new ≡ S.server server.old) }
{
    let room = room_for(alloc, cue)?;
    Ok(make_into::<A, T, S>(server, cue, room))
}

/// Room for the octets that a call may give: none for a call that gives no octets.
pub fn room_for<A: Allocator + Copy>(alloc: A, cue: &Cue<A>) -> Result<Vec<u8, A>, AllocError>
    // Witness: an equation of its length; `edits/a_call_for_data_has_no_room`.
    ensures { IfOk result (λ room. vec_len room ≡ room_of (cue_of cue.now)) }
{
    match cue {
        Cue::ControlOut(room) => empty(alloc, *room),
        Cue::DataOut(room) => empty(alloc, *room),
        _ => Ok(Vec::new(alloc)),
    }
}

/// Makes a call of a server, with room for the octets that it may give, and gives what it gave. Of a call in which the device of the server's tree
/// strayed nothing is said.
pub fn make_into<A: Allocator + Copy, T: Tree<A>, S: Far<A, T>>(
    server: &mut S,
    cue: &Cue<A>,
    room: Vec<u8, A>,
) -> Gift<A>
    requires { vec_len room ≡ room_of (cue_of cue.now) }
    // Witness: the relation of the call; `make` has it, and `Sessions::call` of `ftp_server_calls`.
    ensures { MakesOnCourse (cue_of cue.now) (gift_of result) (S.server server.old) (S.server server.new) }
{
    match cue {
        Cue::Clock(moment) => {
            server.clock(*moment);
            Gift::Nothing
        }
        Cue::Hear(octets) => Gift::Took(server.hear(octets.as_slice())),
        Cue::ControlOut(_) => control_out(server, room),
        Cue::ControlEnd => {
            server.control_end();
            Gift::Nothing
        }
        Cue::Listening(port) => {
            server.listening(*port);
            Gift::Nothing
        }
        Cue::ListenRefused => {
            server.listen_refused();
            Gift::Nothing
        }
        Cue::DataOpened(host) => {
            server.data_opened(*host);
            Gift::Nothing
        }
        Cue::DataRefused => {
            server.data_refused();
            Gift::Nothing
        }
        Cue::DataHear(octets) => Gift::Took(server.data_hear(octets.as_slice())),
        Cue::DataOut(_) => data_out(server, room),
        Cue::DataEnd => {
            server.data_end();
            Gift::Nothing
        }
        Cue::DataFault => {
            server.data_fault();
            Gift::Nothing
        }
        Cue::DataClosed => {
            server.data_closed();
            Gift::Nothing
        }
        Cue::AsksWants => Gift::Wanted(server.wants()),
    }
}

/// Control octets, into this room.
fn control_out<A: Allocator + Copy, T: Tree<A>, S: Far<A, T>>(
    server: &mut S,
    room: Vec<u8, A>,
) -> Gift<A>
    ensures { Makes (ControlOut (vec_len room)) (gift_of result) (S.server server.old) (S.server server.new) }
{
    let mut octets = room;
    let count = server.control_out(octets.as_mut_slice());
    octets.truncate(count);
    Gift::Octets(octets)
}

/// Data octets, into this room.
fn data_out<A: Allocator + Copy, T: Tree<A>, S: Far<A, T>>(
    server: &mut S,
    room: Vec<u8, A>,
) -> Gift<A>
    ensures { MakesOnCourse (DataOut (vec_len room)) (gift_of result) (S.server server.old) (S.server server.new) }
{
    let mut octets = room;
    let count = server.data_out(octets.as_mut_slice());
    octets.truncate(count);
    Gift::Octets(octets)
}

/// Room for so many octets.
fn empty<A: Allocator + Copy>(alloc: A, room: usize) -> Result<Vec<u8, A>, AllocError>
    ensures { IfOk result (λ octets. vec_len octets ≡ room) }
{
    let mut octets = Vec::new(alloc);
    octets.resize(room, 0)?;
    Ok(octets)
}
