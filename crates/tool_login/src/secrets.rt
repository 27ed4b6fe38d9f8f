// Who has secrets, as a trait without types of its own: what stands on it is proved for less than on the system's files and environment.
use crate::private::{NotPrivate, read_private};
use std::alloc::Global;
use std::env::{Env, VarError};
use std::fs::Files;
use std::io::{Error, ErrorKind};
use std::{env, io};

/// Who has an environment, and files that nobody else may use.
pub(crate) trait Secrets {
    /// What the environment has under a name.
    fn variable(&self, name: &str) -> io::Result<Option<String<Global>>>;

    /// The octets of a file that nobody else may use, if they are at most so many: `read_private`.
    fn private(&self, file: &str, most: u64) -> Result<Vec<u8, Global>, NotPrivate>;
}

impl<R: Files + Env + AllocGlobal> Secrets for R {
    fn variable(&self, name: &str) -> io::Result<Option<String<Global>>> {
        match env::var(self, name) {
            Ok(value) => Ok(Some(value)),
            Err(VarError::OutOfMemory) => Err(Error::from(ErrorKind::OutOfMemory)),
            Err(_) => Ok(None),
        }
    }

    fn private(&self, file: &str, most: u64) -> Result<Vec<u8, Global>, NotPrivate> {
        read_private(self, file, most)
    }
}
