//! What is put together, and how it is printed.
ghost use Rattle.std.specs.Prelude.{◌≤◌, length};

use rows_base::Paper;
use std::alloc::Global;
use std::fmt::Display;

/// Puts so many of one octet.
pub(crate) fn fill(paper: &mut Paper, octet: u8, count: usize) {
    for _ in 0..count {
        paper.put(&[octet]);
    }
}

/// Puts octets between double quotes, as a script writes them: very many of one are `[8192x]`.
pub(crate) fn put_quoted(octets: &[u8], paper: &mut Paper) {
    paper.put(b"\"");
    let mut rest = octets;
    for _ in 0..octets.len() {
        if rest.is_empty() {
            break;
        }
        let (run, behind) = rest.split_at(run_in_front(rest));
        put_run(run, paper);
        rest = behind;
    }
    paper.put(b"\"");
}

/// The most octets of a run that are written one by one.
const SHOWN: usize = 1_000;

fn put_run(run: &[u8], paper: &mut Paper) {
    match run {
        [octet, ..] if run.len() > SHOWN => {
            paper.put(b"[");
            paper.number(run.len() as u64);
            paper.octets(&[*octet]);
            paper.put(b"]");
        }
        _ => paper.octets(run),
    }
}

/// How many octets in front of these are the same.
fn run_in_front(octets: &[u8]) -> usize
    ensures { result ≤ length octets.now }
{
    let [first, ..] = octets else {
        return 0;
    };
    for (at, octet) in octets.iter().enumerate() {
        if *octet != *first {
            return at;
        }
    }
    octets.len()
}

/// Puts a value as it is printed.
pub(crate) fn put_printed<T: Display>(alloc: Global, value: &T, paper: &mut Paper) {
    match &format!(in alloc; "{value}") {
        Ok(printed) => paper.put(printed.as_str().as_bytes()),
        Err(_) => paper.fill(),
    }
}
