// What lies between two ends, beside octets.

/// How the control connection stands.
#[derive(Clone, Copy)]
pub enum Control {
    Stands,
    LeftByNear,
    LeftByFar,
    Parted,
}

/// How the data link stands.
#[derive(Clone, Copy)]
pub enum Link {
    Gone,
    Opened,
    ClosedByNear,
    ClosedByFar,
}

/// What became of a link that was asked for: refused, or broken when its receiving end had taken so many octets of the wire.
#[derive(Clone, Copy)]
pub enum Mark {
    Refused,
    Broken(u64),
}

/// A queue of octets: over the control connection or the data link, to the server or to the client.
#[derive(Clone, Copy)]
pub enum Queue {
    ControlToServer,
    ControlToClient,
    DataToServer,
    DataToClient,
}
