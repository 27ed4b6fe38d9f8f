// Where something goes whose name is known.
ghost use Rattle.std.specs.Prelude.{◌≡◌, IfOk, string_bytes};
ghost use Rattle.tool_location.specs.Placing.{joined, last_part, place_for, says_directory};

use std::alloc::{AllocError, Global};

/// The path of what stands below a root, or below a directory: both, with one slash between them where neither is empty.
pub fn joined(alloc: Global, root: &str, below: &str) -> Result<String<Global>, AllocError>
    // Witness: an equation, where memory is not refused.
    ensures { IfOk result (λ path. string_bytes path ≡ joined root.now below.now) }
{
    let mut path: String<Global> = String::from_str(alloc, root)?;
    if !root.is_empty() && !below.is_empty() && !root.ends_with('/') {
        path.push_str("/")?;
    }
    path.push_str(below)?;
    Ok(path)
}

/// Whether a text says no file but a directory: it is empty, or ends in a slash.
pub fn says_directory(text: &str) -> bool
    ensures { result ≡ says_directory text.now }
{
    text.is_empty() || text.ends_with('/')
}

/// What a path ends in: all behind its last slash, or all where it has none.
pub fn last_part(path: &str) -> &str
    ensures { result.now ≡ last_part path.now }
{
    match path.rsplit_once('/') {
        Some((_, name)) => name,
        None => path,
    }
}

/// Where a file goes of which a text says the place: into a directory by the last part of its own path, and else to the place itself.
pub fn place_for(
    alloc: Global,
    into: bool,
    target: &str,
    file: &str,
) -> Result<String<Global>, AllocError>
    // Witness: an equation, where memory is not refused.
    ensures { IfOk result (λ path. string_bytes path ≡ place_for into target.now file.now) }
{
    if into {
        joined(alloc, target, last_part(file))
    } else {
        String::from_str(alloc, target)
    }
}
