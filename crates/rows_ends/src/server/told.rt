// What a server tells of its last call, as rows write it.
use ftp_server_model::{Answered, Far};
use ftp_tree::Tree;
use rows_base::Paper;
use std::alloc::Allocator;

/// How a server stood behind the call before: whether a transfer was under way, and how many octets were owed.
#[derive(Clone, Copy)]
pub struct Was {
    transferring: bool,
    owed: usize,
}

impl Was {
    pub fn new() -> Was {
        Was {
            transferring: false,
            owed: 0,
        }
    }

    /// How it stands now.
    pub fn of<A: Allocator + Copy, T: Tree<A>, S: Far<A, T>>(server: &S) -> Was {
        Was {
            transferring: server.is_transferring(),
            owed: server.owed(),
        }
    }

    /// `= ended 226`, where a transfer ended in the last call: the code stands where the octets ended that were owed before it.
    pub fn put_end<A: Allocator + Copy, T: Tree<A>, S: Far<A, T>>(
        &self,
        server: &S,
        paper: &mut Paper,
    ) {
        if !self.transferring || server.is_transferring() {
            return;
        }
        if let Some(code) = server.code_at(self.owed) {
            paper.put(b"= ended ");
            paper.number(u64::from(code));
            paper.put(b"\n");
        }
    }
}

/// `= acted RETR 150 /f`: `?` where the line says no command, `-` where it is not answered yet.
pub fn put_line(line: Answered<'_>, paper: &mut Paper) {
    paper.put(b"= acted ");
    match line.verb {
        Some(verb) => paper.put(verb.letters()),
        None => paper.put(b"?"),
    }
    match line.code {
        Some(code) => {
            paper.put(b" ");
            paper.number(u64::from(code));
        }
        None => paper.put(b" -"),
    }
    if !line.text.is_empty() {
        paper.put(b" ");
        paper.put(line.text);
    }
    paper.put(b"\n");
}
