//! A law: a function that does nothing, whose contract is the claim of `specs/Bare`.
ghost use Rattle.laws_drivers.specs.events.Bare.{NoneIsBare};

/// Where no data connection stands, as where a call begins a drive, no octet of one is on its way or in hand.
pub fn none_is_bare()
    ensures { NoneIsBare }
{}
