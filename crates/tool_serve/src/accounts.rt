// Who may log in.
use crate::log_line::{OfFile, ServerNotice, Tells};
use ftp_operation::{Accounts, Rights};
use std::alloc::{AllocError, Global};
use std::fs::Files;
use tool_accounts::{AccountsFileFault, Reach, TextFault, load_accounts, load_reach, two_accounts};
use tool_log::LogLines;

/// The accounts that a file says; where none is given, `guest` and `anonymous`, who may change all.
pub fn accounts_of<R: Files + AllocGlobal>(
    rt: &R,
    file: Option<&str>,
) -> Result<Accounts<Global>, AccountsFileFault> {
    match file {
        Some(file) => load_accounts(rt, file),
        None => match two_accounts(rt.alloc()) {
            Ok(accounts) => Ok(accounts),
            Err(AllocError) => Err(AccountsFileFault::Text(TextFault::Memory)),
        },
    }
}

/// Who may log in; where that can't be had, it is told why.
pub(crate) fn accounts_told<R: Files + Tells + AllocGlobal>(
    rt: &R,
    file: Option<&str>,
    lines: &LogLines,
) -> Option<Accounts<Global>> {
    match accounts_of(rt, file) {
        Ok(accounts) => Some(accounts),
        Err(fault) => {
            rt.tell(
                lines,
                &ServerNotice("error: accounts: ", &OfFile(file, &fault)),
            );
            None
        }
    }
}

/// How far those accounts reach.
pub(crate) fn reach_of<R: Files + AllocGlobal>(
    rt: &R,
    file: Option<&str>,
) -> Result<Reach<Global>, AccountsFileFault> {
    match file {
        Some(file) => load_reach(rt, file),
        None => Ok(Reach {
            roots: Vec::new(rt.alloc()),
            rights: Rights::all(),
        }),
    }
}
