//! What the definitions say of texts and names. The calls do nothing: their contracts are the laws.
ghost use Rattle.std.specs.Prelude.{ℕ, List, IsTrue};
ghost use Rattle.ftp_path.specs.Path.{IsPathText, is_name};
ghost use Rattle.ftp_path.specs.Printable.{IsPrintableName, IsPrintableText};

/// Printable ASCII is UTF-8: each pathname as RFC 959 has it, within the limits, is a path text, and each such name a name.
pub fn printable_is_text()
    ensures texts { (text : List ℕ) → IsPrintableText text → IsPathText text }
    ensures names { (name : List ℕ) → IsPrintableName name → IsTrue (is_name name) }
{}

/// A name is a path text, which leads one step.
pub fn name_is_path_text()
    ensures { (name : List ℕ) → IsTrue (is_name name) → IsPathText name }
{}
