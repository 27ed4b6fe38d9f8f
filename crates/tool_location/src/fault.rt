// Why a URL is refused.

/// Why a URL names no place.
#[derive(Clone, Copy)]
pub enum UrlFault {
    /// It is no URL by the URL Standard: an empty host, no port, and more.
    NoUrl,
    /// Its scheme is not `ftp`.
    Scheme,
    Query,
    Fragment,
    /// A `;` in its path, as that of `;type=i`.
    Parameter,
    /// A password without a user.
    Password,
    /// What is written by escapes is not UTF-8.
    Text,
    Memory,
}

impl UrlFault {
    /// What is wanted in its place.
    pub fn wanted(self) -> &'static str {
        match self {
            UrlFault::NoUrl =>
                "a URL ftp://[USER[:PASSWORD]@]HOST[:PORT]/PATH is wanted, an IPv6 address in brackets",
            UrlFault::Scheme => "ftp:// is wanted, no other scheme",
            UrlFault::Query => "a URL without a query is wanted; a ? of a name is %3F",
            UrlFault::Fragment => "a URL without a fragment is wanted; a # of a name is %23",
            UrlFault::Parameter => {
                "a URL without ;type= is wanted, for which there is --type; a ; of a name is %3B"
            }
            UrlFault::Password => "a user is wanted before a password",
            UrlFault::Text => "escapes that are UTF-8 are wanted",
            UrlFault::Memory => "out of memory",
        }
    }
}
