// How octets go, as a field of letters.
ghost use Rattle.std.specs.Prelude.{◌≡◌};
ghost use Rattle.tool_script.specs.Line.{form_value, how_value, kind_of_letter, marks_value, mode_value, opening_value, structure_value};

use ftp_operation::How;
use ftp_settings::{Kind, Mode, Representation, Structure};

/// How octets go, of five letters and perhaps a sixth.
pub(crate) fn how_of(text: &[u8]) -> Option<How>
    ensures { result ≡ how_value text.now }
{
    let [kind, structure, mode, opening, form, marks @ ..] = text else {
        return None;
    };
    let Some(kind) = kind_of(*kind) else {
        return None;
    };
    let Some(structure) = structure_of(*structure) else {
        return None;
    };
    let Some(mode) = mode_of(*mode) else {
        return None;
    };
    let Some(active) = opening_of(*opening) else {
        return None;
    };
    let Some(extended) = form_of(*form) else {
        return None;
    };
    let Some(marks) = marks_of(marks) else {
        return None;
    };
    Some(How {
        representation: Representation {
            kind,
            structure,
            mode,
        },
        marks,
        active,
        extended,
    })
}

fn kind_of(letter: u8) -> Option<Kind>
    ensures { result ≡ kind_of_letter letter }
{
    match letter {
        b'A' => Some(Kind::Ascii),
        b'I' => Some(Kind::Image),
        _ => None,
    }
}

fn structure_of(letter: u8) -> Option<Structure>
    ensures { result ≡ structure_value letter }
{
    match letter {
        b'F' => Some(Structure::File),
        b'R' => Some(Structure::Record),
        _ => None,
    }
}

fn mode_of(letter: u8) -> Option<Mode>
    ensures { result ≡ mode_value letter }
{
    match letter {
        b'S' => Some(Mode::Stream),
        b'B' => Some(Mode::Block),
        _ => None,
    }
}

/// Whether the server opens the data connection.
fn opening_of(letter: u8) -> Option<bool>
    ensures { result ≡ opening_value letter }
{
    match letter {
        b'p' => Some(false),
        b'a' => Some(true),
        _ => None,
    }
}

/// Whether by EPRT and EPSV.
fn form_of(letter: u8) -> Option<bool>
    ensures { result ≡ form_value letter }
{
    match letter {
        b'n' => Some(false),
        b'e' => Some(true),
        _ => None,
    }
}

/// Whether restart markers are asked for.
fn marks_of(text: &[u8]) -> Option<bool>
    ensures { result ≡ marks_value text.now }
{
    if text.is_empty() {
        Some(false)
    } else if text == b"m".as_slice() {
        Some(true)
    } else {
        None
    }
}
