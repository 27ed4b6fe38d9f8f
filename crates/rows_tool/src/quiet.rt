// What is told on standard error with `--quiet`.
use rows_base::Paper;
use std::cell::RefCell;
use std::fmt::Display;
use std::io;
use std::io::Eprint;
use tool_terminal::{QuietHandle, Verbosity, is_told};

/// Texts of the programs, and whether each is an error.
const TEXTS: &[(&str, bool)] = &[
    ("error: a.csv: the server refuses it: 550 None", true),
    ("error: ", true),
    ("error:", false),
    ("note: no connection; trying again in 1 s", false),
    ("\r5.2 of 20.0 MiB, 26 %, 1.1 MiB/s, 13 s left", false),
    (
        "1 files copied, 0 directories made, 0 removed, 0 failed; 3 octets",
        false,
    ),
    ("d/error: x: 1 files copied", false),
    ("", false),
];

/// Who keeps what is told.
#[derive(Drop)]
struct Listener {
    told: RefCell<Paper>,
}

impl Eprint for Listener {
    fn eprint<D: Display + Drop>(&self, value: D) -> io::Result<()> {
        let _value = value;
        self.put(b".");
        Ok(())
    }

    fn eprintln<D: Display + Drop>(&self, value: D) -> io::Result<()> {
        let _value = value;
        self.put(b"|");
        Ok(())
    }
}

impl Listener {
    fn put(&self, octets: &[u8]) {
        if let Ok(mut told) = self.told.try_borrow_mut() {
            told.put(octets);
        }
    }
}

/// Puts of each text whether it is told with `--quiet`, and whether a handle tells it with and without.
pub(crate) fn rows(rt: &HostRuntime, paper: &mut Paper) {
    let mut all = true;
    for (text, is_error) in TEXTS {
        all &= is_told(Verbosity::Errors, text.as_bytes()) == *is_error;
        all &= is_told(Verbosity::All, text.as_bytes());
        all &= hears(rt, Verbosity::Errors, *text) == *is_error;
        all &= hears(rt, Verbosity::All, *text);
    }
    paper.holds("with --quiet errors alone are told", all);
}

/// Whether a listener hears a text and a line of it.
fn hears(rt: &HostRuntime, told: Verbosity, text: &str) -> bool {
    let listener = Listener {
        told: RefCell::new(Paper::new(rt.alloc())),
    };
    let hushed = QuietHandle {
        rt: &listener,
        told,
    };
    let done = hushed.eprint(text).is_ok() & hushed.eprintln(text).is_ok();
    let heard = match listener.told.try_borrow() {
        Ok(paper) => paper.text() == b".|".as_slice(),
        Err(_) => false,
    };
    done & heard
}
