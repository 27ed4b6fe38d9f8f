// What a mirror asks of this machine: what stands on one trait without types of its own is proved for less.
use std::fs::{File, Files};
use std::io;
use std::io::{Eprint, Print, Write};
use std::time::Clock;
use tool_files::{LocalFiles, Places};

/// Who has files and folders, and tells what is done.
pub(crate) trait LocalMachine: LocalFiles + Places + Eprint {
    /// Tells on standard output what would be done of what is shown so.
    fn tell_would(&self, what: &str, name: &str) -> io::Result<()>;

    /// Writes a line, which has its LF, to standard output.
    fn tell_line(&self, line: &[u8]) -> io::Result<()>;
}

impl<R> LocalMachine for R
where
    R: Files<File = File> + Clock + Print + Eprint + AllocGlobal + Clone + Drop,
{
    fn tell_would(&self, what: &str, name: &str) -> io::Result<()> {
        println!(self; "{what} {name}")
    }

    fn tell_line(&self, line: &[u8]) -> io::Result<()> {
        io::writer(self).write_all(line)
    }
}
