//! The examples, as laws: functions that do nothing, whose contracts they are.
ghost use Rattle.laws_examples.specs.uploads.Example.{ClientFirstAgrees, ClientFirstIsOver, ServerAloneAgrees, ServerAloneIsOver, ServerFirstAgrees, ServerFirstIsOver};

/// Of every map that has a root, a file and room for one octet in its place, and at any moments, drives did so by their contracts, until both are over: a Put
/// of two octets, of which the client gave both and wrote one, was told that the data connection broke, and reset it; only then the server took that octet,
/// was told of the break, installed it and said 426. The client reports `Broken`; of the file alone that and the map that is left agree with the Put, with
/// marks of that break.
pub fn a_client_is_told_first()
    ensures over { ClientFirstIsOver }
    ensures agrees { ClientFirstAgrees }
{}

/// So they did where the client wrote both and ended the data connection, and was told of nothing; the server took one, was told of the break, installed that
/// and said 426; nobody reads the other. The answer is the same.
pub fn a_server_alone_is_told()
    ensures over { ServerAloneIsOver }
    ensures agrees { ServerAloneAgrees }
{}

/// So they did where the client gave and wrote one octet, and the server took it, was told of the break, installed it and said 426; only then the client,
/// which had the other to give, was told of the break too, and reset the data connection. The answer is the same.
pub fn a_server_is_told_first()
    ensures over { ServerFirstIsOver }
    ensures agrees { ServerFirstAgrees }
{}
