//! The examples, as laws: functions that do nothing, whose contracts they are.
ghost use Rattle.laws_examples.specs.transfers.Example.{FetchHasQuit, FetchIsOver, IsThere, PeekHasQuit, PeekIsOver, PutIsOver};

/// Of every map that has a root and the file, drives did so by their contracts, at any moment: a login, EPSV, a Get of the file and its report, until both are
/// over, since the client left or by QUIT.
pub fn an_example_is_fetched()
    ensures over { FetchIsOver }
    ensures quit { FetchHasQuit }
{}

/// Of every such map they did so of a Peek of one octet: the client said ABOR after it, the server reset the data connection for that, with an octet to give,
/// and the client was told of the break; until both are over, since the client left or by QUIT.
pub fn an_example_is_peeked_into()
    ensures over { PeekIsOver }
    ensures quit { PeekHasQuit }
{}

/// Of every such map that has room for one octet in its place they did so of a Put over that file, until both are over, since the client left. The file alone
/// below a root is such a map, with that room, and the session is fair.
pub fn an_example_is_put()
    ensures over { PutIsOver }
    ensures there { IsThere }
{}
