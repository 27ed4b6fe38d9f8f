// Whether what stands at the path of an upload is what stood there.
ghost use Rattle.std.specs.Prelude.{◌≡◌};
ghost use Rattle.ftp_server_model.specs.Standing.{same_standing, still_stands};

use ftp_server_model::Standing;

/// Whether both are the same.
fn same_standing(before: Standing, now: Standing) -> bool
    // Witness: equations; `edits/another_moment_is_the_same`.
    ensures { result ≡ same_standing before now }
{
    match before {
        Standing::Nothing => matches!(now, Standing::Nothing),
        Standing::Dir => matches!(now, Standing::Dir),
        Standing::File { size, moment } => is_file(now, size, moment),
    }
}

/// Whether it is a file of so many octets and this moment.
fn is_file(now: Standing, size: u64, moment: u64) -> bool
    ensures { result ≡ same_standing (Standing.File size moment) now }
{
    match now {
        Standing::File {
            size: other,
            moment: at,
        } => size == other && moment == at,
        Standing::Nothing | Standing::Dir => false,
    }
}

/// Whether what stood at a path still stands there, as far as both are known.
pub fn still_stands(before: Option<Standing>, now: Option<Standing>) -> bool
    // Witness: equations; `edits/another_moment_is_the_same`.
    ensures { result ≡ still_stands before now }
{
    match before {
        Some(before) => match now {
            Some(now) => same_standing(before, now),
            None => true,
        },
        None => true,
    }
}
