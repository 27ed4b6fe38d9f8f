// Whether two texts are one, in a time that tells neither.
ghost use Rattle.std.specs.Prelude.{◌≡◌};
ghost use Rattle.std.specs.Str.{bytes_eq};

use crate::text::octet_at;

/// Whether a text is the right one. How long it takes depends on the length of the given text alone: neither on octets nor on the length of the right one.
pub(crate) fn is_same(right: &[u8], given: &[u8]) -> bool
    ensures { result ≡ bytes_eq right.now given.now }
{
    let mut differs = u8::from(right.len() != given.len());
    'octets: for i in 0..given.len() {
        differs |= octet_at(right, i) ^ given[i];
    }
    differs == 0
}
