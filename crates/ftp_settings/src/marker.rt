// The text of a restart marker.
ghost use Rattle.std.specs.Prelude.{◌≡◌};
ghost use Rattle.ftp_settings.specs.Marker.{is_marker_octet};

/// The most octets in the text of a restart marker (own choice).
pub const MARKER_LIMIT: usize = 255;

/// Whether an octet may stand in the text of a restart marker: it is printable, and no space (RFC 959, section 3.4.2).
pub fn is_marker_octet(octet: u8) -> bool
    ensures { result ≡ is_marker_octet octet }
{
    33 <= octet && octet <= 126
}
