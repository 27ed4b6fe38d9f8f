// What the values of a command line's options say, whoever takes the line apart.
ghost use Rattle.std.specs.Prelude.{◌≡◌, ◌<◌, ◌^◌, IfSome, IsNone};
ghost use Rattle.std.specs.Option.{SomeIff};
ghost use Rattle.std.specs.Str.Parse.{IsNumeral, digits_value};
ghost use Rattle.tool_codec.specs.Words.{IsKind, IsStructure, IsMode, Names};
ghost use Rattle.ftp_settings.specs.declared.representation.Kind.{Kind};
ghost use Rattle.ftp_settings.specs.declared.representation.Mode.{Mode};
ghost use Rattle.ftp_settings.specs.declared.representation.Representation.{Representation};
ghost use Rattle.ftp_settings.specs.declared.representation.Structure.{Structure};

use ftp_settings::{Kind, Mode, Representation, Structure};

/// A decimal number below 2^32, as it is written: digits alone, leading zeros read, no sign.
pub fn number_of(text: &str) -> Option<u32>
    // Witness: an equation; `a_number_may_have_a_sign`, `a_word_is_read_as_the_number_0`.
    ensures { SomeIff result (IsNumeral 10 text.now × (digits_value 10 text.now < 2 ^ 32)) (digits_value 10 text.now) }
{
    if text.starts_with('+') {
        return None;
    }
    text.parse::<u32>().ok()
}

/// Type, structure and mode, each by its letter (RFC 959, section 5.3.2); none where one is no such letter.
pub fn representation_of(kind: &str, structure: &str, mode: &str) -> Option<Representation>
    // Witness: an equation: three letters name one representation at most.
    ensures some { IfSome result (λ form. Names kind.now structure.now mode.now form) }
    ensures none { IsNone result → (form : Representation) → ¬ Names kind.now structure.now mode.now form }
{
    Some(Representation {
        kind: kind_of(kind)?,
        structure: structure_of(structure)?,
        mode: mode_of(mode)?,
    })
}

/// The type that a letter names.
fn kind_of(letter: &str) -> Option<Kind>
    ensures some { IfSome result (λ kind. IsKind letter.now kind) }
    ensures none { IsNone result → (kind : Kind) → ¬ IsKind letter.now kind }
{
    match letter {
        "A" => Some(Kind::Ascii),
        "I" => Some(Kind::Image),
        _ => None,
    }
}

/// The structure that a letter names.
fn structure_of(letter: &str) -> Option<Structure>
    ensures some { IfSome result (λ structure. IsStructure letter.now structure) }
    ensures none { IsNone result → (structure : Structure) → ¬ IsStructure letter.now structure }
{
    match letter {
        "F" => Some(Structure::File),
        "R" => Some(Structure::Record),
        _ => None,
    }
}

/// The mode that a letter names.
fn mode_of(letter: &str) -> Option<Mode>
    ensures some { IfSome result (λ mode. IsMode letter.now mode) }
    ensures none { IsNone result → (mode : Mode) → ¬ IsMode letter.now mode }
{
    match letter {
        "S" => Some(Mode::Stream),
        "B" => Some(Mode::Block),
        _ => None,
    }
}
