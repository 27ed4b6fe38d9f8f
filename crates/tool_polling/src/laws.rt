//! What the limits of a session come to. The law is the contract of a function that does nothing.
ghost use Rattle.tool_polling.specs.Timeouts.{NobodyHolds, WaitingIsCounted};

/// Nobody holds the server: once another client waits for as long as a session may last then, no time is left of it.
pub fn nobody_holds_the_server()
    // Witness: a law: once another client waits for as long as a session may last then, no time is left of it.
    ensures { NobodyHolds }
{}

/// Who logged in keeps its session while another waits for less than a session may last then.
pub fn waiting_is_counted()
    // Witness: a law: who logged in keeps its session while another waits for less than a session may last then.
    ensures { WaitingIsCounted }
{}
