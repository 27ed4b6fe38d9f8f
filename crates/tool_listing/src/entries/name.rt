// Texts that are names of single files.
ghost use Rattle.std.specs.Prelude.{◌≡◌};
ghost use Rattle.std.specs.List.{list_all};
ghost use Rattle.tool_listing.specs.entries.Name.{is_dots, is_name, is_no_slash};

/// Whether a text is the name of one file in a directory: not empty, neither `.` nor `..`, and without a slash.
pub fn is_name(name: &[u8]) -> bool
    ensures { result ≡ is_name name.now }
{
    !name.is_empty() && !is_dots(name) && has_no_slash(name)
}

fn has_no_slash(name: &[u8]) -> bool
    ensures { result ≡ list_all is_no_slash name.now }
{
    name.iter().all(|octet| is_no_slash(*octet))
}

fn is_no_slash(octet: u8) -> bool
    ensures { result ≡ is_no_slash octet }
{
    octet != b'/'
}

/// Whether it is `.` or `..`.
fn is_dots(name: &[u8]) -> bool
    ensures { result ≡ is_dots name.now }
{
    match name {
        [first] => *first == b'.',
        [first, second] => *first == b'.' && *second == b'.',
        _ => false,
    }
}
