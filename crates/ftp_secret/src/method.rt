// Which digest.

/// The digest that a text of SHA-crypt is made with.
#[derive(Clone, Copy, Debug, PartialEq, Eq)]
pub enum Method {
    /// `$5$`, 43 letters.
    Sha256,
    /// `$6$`, 86 letters.
    Sha512,
}
