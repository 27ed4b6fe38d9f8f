// Where the password of a user is taken from, by values alone.
ghost use Rattle.std.specs.Prelude.{◌≡◌};
ghost use Rattle.tool_login.specs.Secret.{may_be_environment, source_of};

/// Where a password of a user is, as far as it is said, and who the user is.
#[derive(Clone, Copy)]
pub struct Known {
    /// A URL has one, of this user.
    pub in_url: bool,
    /// A file of it is named.
    pub in_file: bool,
    /// An entry of a `.netrc` for the host and the user has one.
    pub in_netrc: bool,
    /// FTP_PASSWORD in the environment has one.
    pub in_environment: bool,
    /// A URL names the user.
    pub is_of_url: bool,
    /// The user is `anonymous`.
    pub is_anonymous: bool,
}

/// Where a password is taken from.
#[derive(Clone, Copy)]
pub enum PasswordSource {
    Url,
    File,
    Netrc,
    Environment,
    /// `anonymous` has none: what stands for it.
    Guest,
    /// There is none.
    Nowhere,
}

/// Where the password of a user is taken from. That of the environment is sent for no user whom a URL names: whoever made the URL chose the host.
pub fn source_of(known: Known) -> PasswordSource
    ensures { result ≡ source_of known }
{
    if known.in_url {
        PasswordSource::Url
    } else if known.in_file {
        PasswordSource::File
    } else if known.in_netrc {
        PasswordSource::Netrc
    } else if may_be_environment(known) {
        PasswordSource::Environment
    } else if known.is_anonymous {
        PasswordSource::Guest
    } else {
        PasswordSource::Nowhere
    }
}

/// Whether the environment has the password of a user to whom it may be sent.
fn may_be_environment(known: Known) -> bool
    ensures { result ≡ may_be_environment known }
{
    known.in_environment && !known.is_of_url && !known.is_anonymous
}
