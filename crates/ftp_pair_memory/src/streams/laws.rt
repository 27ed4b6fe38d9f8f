//! Laws of turns beside data connections in memory: functions that do nothing, whose contracts are the claims of `specs/`.
ghost use Rattle.ftp_pair_memory.specs.streams.Claims.{FarTurnsHappen, NearTurnsHappen};

/// What a client did in some turns beside data connections in memory can happen in that order.
pub fn near_turns_happen()
    ensures { NearTurnsHappen }
{}

/// So can what a server did.
pub fn far_turns_happen()
    ensures { FarTurnsHappen }
{}
