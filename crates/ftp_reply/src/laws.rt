//! Laws of the definitions. Each is the contract of a function that does nothing.
ghost use Rattle.std.specs.Prelude.{◌≡◌, ◌<◌, ◌++◌, ◌∷◌, ◌↔◌, [], ℕ, List, Some, All, length};
ghost use Rattle.ftp_endpoint.specs.Number.{SaysNumber};
ghost use Rattle.ftp_endpoint.specs.declared.endpoint.Endpoint.{Endpoint};
ghost use Rattle.ftp_facts.specs.Value.{number_value};
ghost use Rattle.ftp_reply.specs.Lines.{AreWithin, IsSingleLine, cut_at_lf, joined};
ghost use Rattle.ftp_reply.specs.Reader as reader;
ghost use Rattle.ftp_reply.specs.Reader.{Between, Faulty, Gathered, GivesRightly, GoesOn, Stands, CanStandAfter, line_heard};
ghost use Rattle.ftp_reply.specs.Reply.{IsCode, HasPlainLines, Begins, Fits, Says, written};
ghost use Rattle.ftp_reply.specs.Values.{NamesEndpoint, NamesPath, NamesPort, Quotes, SaysMark, extended_value, mark_value, passive_value, path_value, quoted_value};

use crate::fault::ReplyFault;

/// What is written is read again as the same reply, where no inner line begins with three digits.
pub fn written_is_said()
    ensures { (code : ℕ) (lines : List (List ℕ)) → IsCode code → 0 < length lines → AreWithin lines
        → HasPlainLines lines → Says (written code lines) code lines }
{}

/// The octets that are written, cut at LF, are the lines that are written, where no text has an LF.
pub fn written_is_cut()
    ensures { (code : ℕ) (lines : List (List ℕ)) → IsCode code → 0 < length lines → All IsSingleLine lines
        → cut_at_lf (joined (written code lines)) ≡ written code lines }
{}

/// Lines say one reply at most, none of their beginnings says one, and they are not the beginning of another.
pub fn one_reply()
    ensures one { (heard : List (List ℕ)) (code code' : ℕ) (lines lines' : List (List ℕ))
        → Says heard code lines → Says heard code' lines' → (code ≡ code') × (lines ≡ lines') }
    ensures ended { (heard more : List (List ℕ)) (code code' : ℕ) (lines lines' : List (List ℕ))
        → Says heard code lines → Says (heard ++ more) code' lines' → more ≡ [] }
    ensures apart { (heard : List (List ℕ)) (code code' : ℕ) (lines lines' : List (List ℕ))
        → Says heard code lines → Begins heard code' lines' → ⊥ }
{}

/// What a line gives is right for all lines before it that the reader has not yet made a reply of, and it gives that wherever
/// it is right.
pub fn line_is_heard()
    ensures right { (gathered : Gathered) (heard : List (List ℕ)) (line : List ℕ) → Stands gathered heard
        → GivesRightly heard line (line_heard gathered line) }
    ensures says { (gathered : Gathered) (heard : List (List ℕ)) (line : List ℕ) (code : ℕ) (texts : List (List ℕ))
        → Stands gathered heard → Says (heard ++ line ∷ []) code texts → line_heard gathered line ≡ reader.Says code texts }
    ensures bad_code { (line : List ℕ) → ((code : ℕ) (texts : List (List ℕ)) → ¬ Fits (line ∷ []) code texts)
        → line_heard Between line ≡ Faulty ReplyFault.BadCode }
    ensures too_many { (gathered : Gathered) (heard : List (List ℕ)) (line : List ℕ) (code : ℕ) (texts : List (List ℕ))
        → Stands gathered heard → Fits (heard ++ line ∷ []) code texts → ¬ AreWithin texts
        → line_heard gathered line ≡ Faulty ReplyFault.TooMany }
{}

/// A reader stands after all lines that it has taken and the replies that it gave for them.
pub fn so_far()
    ensures first { CanStandAfter Between [] [] }
    ensures goes_on { (old new : Gathered) (line : List ℕ) (all : List (List ℕ)) (replies : List (ℕ × List (List ℕ)))
        → line_heard old line ≡ GoesOn new → CanStandAfter old all replies → CanStandAfter new (all ++ line ∷ []) replies }
    ensures ends { (old : Gathered) (line : List ℕ) (code : ℕ) (lines : List (List ℕ))
        (all : List (List ℕ)) (replies : List (ℕ × List (List ℕ)))
        → line_heard old line ≡ reader.Says code lines → CanStandAfter old all replies
        → CanStandAfter Between (all ++ line ∷ []) (replies ++ (code, lines) ∷ []) }
{}

/// A text says a value just where it names one in the standard's words.
pub fn values()
    ensures number { (text : List ℕ) (value : ℕ) → (number_value text ≡ Some value) ↔ SaysNumber text value }
    ensures endpoint { (text : List ℕ) (value : Endpoint) → (passive_value text ≡ Some value) ↔ NamesEndpoint text value }
    ensures port { (text : List ℕ) (value : ℕ) → (extended_value text ≡ Some value) ↔ NamesPort text value }
    ensures quoted { (text value : List ℕ) → (quoted_value text ≡ Some value) ↔ Quotes text value }
    ensures path { (text value : List ℕ) → (path_value text ≡ Some value) ↔ NamesPath text value }
    ensures mark { (text : List ℕ) (value : ℕ) → (mark_value text ≡ Some value) ↔ SaysMark text value }
{}
