// The program over the standard streams.
use crate::field::making::make;
use crate::field::salt::salt_of;
use std::io;
use std::io::Write;
use std::random::RandomSource;
use tool_terminal::Status;

/// Why nothing is read at a terminal, and what does.
const SHOWN: &str =
    "error: at a terminal a password would be shown: stty -echo; head -n 1 | ftp_tool password; stty echo\n";

/// Writes the field of the password that standard input gives, by a salt of the system's random octets, and LF; gives the exit status. `faults` is told
/// why there is none. At a terminal nothing is read: the system shows there what is typed.
pub fn password<R, F>(rt: &R, rounds: Option<u32>, faults: &mut F) -> Status
where
    R: Input + Print + RandomSource,
    F: Write,
{
    if libc::isatty(libc::STDIN_FILENO) == 1 {
        let _told = faults.write_all(SHOWN.as_bytes());
        return Status::BadWords;
    }
    let mut octets = [0u8; 16];
    if let Err(error) = rt.fill_bytes(&mut octets) {
        let _told = writeln!(faults, "error: there are no random octets: {error}");
        return Status::Failed;
    }
    let salt = salt_of(&octets);
    let mut reader = rt.reader();
    let mut writer = io::writer(rt);
    let status = make(rounds, salt.as_slice(), &mut reader, &mut writer, faults);
    if status == Status::Failed {
        let _told = faults.write_all(b"error: a read or a write failed\n");
    }
    status
}
