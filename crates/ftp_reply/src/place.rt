//! Where a line stands in a reply: before anything is kept or changed.
ghost use Rattle.std.specs.Prelude.{◌≡◌, ◌≢◌, ◌++◌, ◌∷◌, [], List, ℕ, IfOk, IfErr, IfSome, IfNone};
ghost use Rattle.ftp_reply.specs.Reply.{IsCode, code_text, last_line, IsLastLine};
ghost use Rattle.ftp_reply.specs.Reader.{AreKept, Begun, Between, Faulty, first_heard, heard_at, line_heard, reply_placed, reader_standing};

use crate::fault::ReplyFault;

/// How far a reader has come.
#[derive(Clone, Copy, PartialEq, Eq)]
pub enum Stage {
    Between,
    /// The code of the opening line.
    Begun(u16),
    Failed,
}

/// A line's part in a reply.
#[derive(Clone, Copy)]
pub struct LinePlace<'a> {
    pub code: u16,
    /// What the reply keeps of the line.
    pub text: &'a [u8],
    /// Whether the reply ends with this line.
    pub ends: bool,
}

/// Where a line stands in the reply that a reader is at.
pub fn place_of(stage: Stage, line: &[u8]) -> Result<LinePlace<'_>, ReplyFault>
    // Witness: caller: `Reader::line`, lone.
    ensures ok { IfOk result (λ place. (lines : List (List ℕ)) → AreKept stage lines → IsCode place.code
        × (heard_at (reader_standing stage lines) line.now ≡ reply_placed place.ends place.code (lines ++ place.text.now ∷ []))) }
    ensures err { IfErr result (λ fault. (lines : List (List ℕ)) → heard_at (reader_standing stage lines) line.now ≡ Faulty fault) }
{
    match stage {
        Stage::Between => match first_place(line) {
            Some(place) => Ok(place),
            None => Err(ReplyFault::BadCode),
        },
        Stage::Begun(code) => Ok(later_place(code, line)),
        Stage::Failed => Err(ReplyFault::Failed),
    }
}

/// The place of a reply's first line. The code alone is a reply too.
fn first_place(line: &[u8]) -> Option<LinePlace<'_>>
    ensures code { IfSome result (λ place. IsCode place.code) }
    ensures found { IfSome result (λ place. line_heard Between line.now ≡ reply_placed place.ends place.code (place.text.now ∷ [])) }
    ensures none { IfNone result (line_heard Between line.now ≡ Faulty ReplyFault.BadCode) }
{
    let (code, rest) = code_of(line)?;
    let (text, ends) = first_text(rest)?;
    Some(LinePlace { code, text, ends })
}

/// What the reply keeps of its first line, of which this stands behind the code, and whether that is the only line.
fn first_text(rest: &[u8]) -> Option<(&[u8], bool)>
    ensures some { IfSome result (λ kept. (code : ℕ) → first_heard code rest.now ≡ reply_placed kept.1 code (kept.0.now ∷ [])) }
    ensures none { IfNone result ((code : ℕ) → first_heard code rest.now ≡ Faulty ReplyFault.BadCode) }
{
    match rest {
        [] => Some((rest, true)),
        [b' ', text @ ..] => Some((text, true)),
        [b'-', text @ ..] => Some((text, false)),
        _ => None,
    }
}

/// The place of a line in a reply that this code opened.
fn later_place(code: u16, line: &[u8]) -> LinePlace<'_>
    ensures code { result.code ≡ code }
    ensures heard { (lines : List (List ℕ)) → IsCode code → line_heard (Begun code lines) line.now
        ≡ reply_placed result.ends code (lines ++ result.text.now ∷ []) }
{
    match last_text(code, line) {
        Some(text) => LinePlace {
            code,
            text,
            ends: true,
        },
        None => LinePlace {
            code,
            text: line,
            ends: false,
        },
    }
}

/// The text of a line that begins with this code and SP.
fn last_text(code: u16, line: &[u8]) -> Option<&[u8]>
    ensures found { IfSome result (λ text. line.now ≡ last_line code text.now) }
    ensures none { IfNone result (IsCode code → IsLastLine code line.now → ⊥) }
{
    let (found, rest) = code_of(line)?;
    match rest {
        [b' ', text @ ..] if found == code => Some(text),
        _ => None,
    }
}

/// The code that a line begins with, and what follows it.
fn code_of(line: &[u8]) -> Option<(u16, &[u8])>
    ensures found { IfSome result (λ found. IsCode found.0 × (line.now ≡ code_text found.0 ++ found.1.now)) }
    ensures none { IfNone result ((code : ℕ) (rest : List ℕ) → IsCode code → line.now ≢ code_text code ++ rest) }
{
    match line {
        [a @ b'1'..=b'5', b @ b'0'..=b'9', c @ b'0'..=b'9', rest @ ..] => {
            let code = 100 * u16::from(*a - b'0')
                + 10 * u16::from(*b - b'0')
                + u16::from(*c - b'0');
            Some((code, rest))
        }
        _ => None,
    }
}
