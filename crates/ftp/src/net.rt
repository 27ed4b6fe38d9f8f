// Connections and a clock: what a driver is handed, and what there is over sockets of a system.
pub use ftp_driver::{Data, Turned};
pub use ftp_endpoint::{Endpoint, Host};
pub use ftp_facts::Moment;
pub use ftp_ports::{
    Accepted, Awaited, Beside, Cause, Control, Duplex, For, Ports, Ready, Spoken, Watch,
};
pub use tool_sockets::{
    ClientTimeouts as Timeouts, ControlReader, ControlWriter, SocketPorts, Sockets, SystemWatch,
};
