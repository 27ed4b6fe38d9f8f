//! The examples, as laws: functions that do nothing, whose contracts they are.
ghost use Rattle.laws_examples.specs.active.Example.{CallIsOver, CallIsPeek};

/// Of every map that has a root and the file, drives did so by their contracts, at any moment: a login, EPRT, a Get of the file, of which the client heard 226
/// before it accepted its data connection, and its report, until both are over, since the client left.
pub fn an_example_is_called()
    ensures { CallIsOver }
{}

/// Of every such map drives did so, at any moment: a login, EPRT, a Peek of the first octet of the file, of which the client said ABOR once it had that, was
/// told that its data connection broke, since the server had reset it, and heard 426 and 226; and its report, until both are over, since the client left.
pub fn an_example_is_peeked_into()
    ensures { CallIsPeek }
{}
