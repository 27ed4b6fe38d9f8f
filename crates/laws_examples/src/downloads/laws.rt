//! The examples, as laws: functions that do nothing, whose contracts they are.
ghost use Rattle.laws_examples.specs.downloads.Example.{ClientFirstAgrees, ClientFirstIsOver, ServerFirstAgrees, ServerFirstIsOver};

/// Of every map that has a root and the file of two octets, and at any moments, drives did so by their contracts, until both are over: a Get of the file, of
/// which the server wrote one octet, was told that the data connection broke, said 426 and reset it; the client heard the 426, and only then took that octet and
/// was told of the break. It reports `Broken` with that octet; of the file alone that and the map that is left agree with the Get, with marks of that break.
pub fn a_server_is_told_first()
    ensures over { ServerFirstIsOver }
    ensures agrees { ServerFirstAgrees }
{}

/// So they did where the client took one octet, was told of the break and reset the data connection; then the server gave the other octet, which nobody reads,
/// and said 226, and was told of nothing. The answer is the same.
pub fn a_client_is_told_first()
    ensures over { ClientFirstIsOver }
    ensures agrees { ClientFirstAgrees }
{}
