// Replies that refuse something (RFC 959, section 4.2.1).
ghost use Rattle.std.specs.Prelude.{◌≡◌};
ghost use Rattle.tool_dialogue.specs.Dialogue.{is_refusal};

/// Whether a line of these octets begins with 4 or 5.
pub fn is_refusal(octets: &[u8]) -> bool
    ensures { result ≡ is_refusal octets.now }
{
    let mut begins = true;
    for octet in octets {
        if begins && matches!(*octet, b'4' | b'5') {
            return true;
        }
        begins = *octet == b'\n';
    }
    false
}
