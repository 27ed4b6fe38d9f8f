// Names as a system lists them.
ghost use Rattle.std.specs.Prelude.{◌≡◌, IfSome};

use ftp_disk_host::Host;
use ftp_path::Name;
use std::alloc::{AllocError, Global};

/// Names with a NUL after each, in the order of their octets.
pub fn sorted(alloc: Global, octets: &[u8]) -> Result<Vec<&[u8], Global>, AllocError> {
    let mut names = Vec::new(alloc);
    for name in octets.split(|octet| *octet == 0) {
        if !name.is_empty() {
            names.push(name)?;
        }
    }
    names.sort_unstable_by(|one: &&[u8], other: &&[u8]| one.cmp(other));
    Ok(names)
}

/// A name that a tree has, where these octets are one, and none that a part has.
pub fn served<'a, H: Host>(host: &H, octets: &'a [u8]) -> Option<&'a str>
    // Witness: `edits/a_name_is_served_as_another`.
    ensures { IfSome result (λ name. name.now ≡ octets.now) }
{
    let Ok(name) = std::str::from_utf8(octets) else {
        return None;
    };
    if Name::new(octets).is_none() || host.is_left(name) {
        return None;
    }
    Some(name)
}
