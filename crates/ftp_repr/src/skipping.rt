ghost use Rattle.ftp_repr.specs.Skipping.{Skips};
ghost use Rattle.ftp_settings.specs.declared.representation.Kind.TheVariants.{Ascii, Image};

use crate::run::plain_run;
use ftp_settings::{Kind, Structure};

/// Where a count of octets of the wire leads to in a piece of a file.
#[derive(Clone, Copy, PartialEq, Eq)]
pub enum Skipped {
    /// The first octets of the piece go as that count, so many of them.
    Within(usize),
    /// The whole piece goes, and this count is left, 1 at least.
    Left(u64),
    /// An octet that goes as two is cut: no octets of the file go as that count.
    Inside,
}

/// Which octets of a file go as so many on the wire, in file structure and stream mode (RFC 959, section 3.1.1.1).
///
/// `piece` has the next octets of the file. Where `Left` is answered the next piece goes on with what is left; a place
/// at the end of a piece is one of that piece. It takes no memory.
pub fn skip(kind: Kind, left: u64, piece: &[u8]) -> Skipped
    // Witness: the law `laws::places`, `answer`; `edits/skip_ends_within_a_pair`.
    ensures { Skips kind piece.now left result }
{
    match kind {
        Kind::Ascii => skip_lines(left, piece),
        Kind::Image => skip_octets(left, piece),
    }
}

/// In type I each octet goes as itself.
fn skip_octets(left: u64, piece: &[u8]) -> Skipped
    ensures { Skips Image piece.now left result }
{
    let len = piece.len() as u64;
    if left <= len {
        return Skipped::Within(left as usize);
    }
    Skipped::Left(left - len)
}

/// In type A runs go as themselves, and CR and LF as two octets.
fn skip_lines(left: u64, piece: &[u8]) -> Skipped
    ensures { Skips Ascii piece.now left result }
{
    let mut more = left;
    let mut at = 0;
    while at < piece.len() {
        let (_, rest) = piece.split_at(at);
        let run = plain_run(Kind::Ascii, Structure::File, rest);
        if more <= run as u64 {
            return Skipped::Within(at + more as usize);
        }
        more -= run as u64;
        at += run;
        if at < piece.len() {
            if more == 1 {
                return Skipped::Inside;
            }
            more -= 2;
            at += 1;
        }
    }
    if more == 0 {
        return Skipped::Within(at);
    }
    Skipped::Left(more)
}
