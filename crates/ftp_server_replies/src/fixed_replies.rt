// The octets of replies without computed parts (RFC 959, sections 4.2 and 5.4).
ghost use Rattle.std.specs.Prelude.{◌≡◌, ◌≤◌, length};
ghost use Rattle.ftp_ends.specs.Reply.{reply_octets};
ghost use Rattle.ftp_server_model.specs.Replies.{fixed_reply};

use ftp_server_model::FixedReply;

/// The most octets of a reply without a computed part.
pub const FIXED_LIMIT: usize = 64;

/// The reply as it stands on the wire, CR LF included.
pub fn fixed_line(text: FixedReply) -> &'static [u8]
    // Witness: an equation; its bound.
    ensures line { result.now ≡ reply_octets (fixed_reply text) }
    ensures short { length result.now ≤ FIXED_LIMIT }
{
    match text {
        FixedReply::Ready => b"220 Ready\r\n",
        FixedReply::Unknown => b"500 Unknown command\r\n",
        FixedReply::LineTooLong => b"500 Line too long\r\n",
        FixedReply::BadArgument => b"501 Bad argument\r\n",
        FixedReply::NotImplemented => b"502 Not implemented\r\n",
        FixedReply::BadSequence => b"503 Bad sequence\r\n",
        FixedReply::BadParameter => b"504 Parameter not implemented\r\n",
        FixedReply::Protocol => b"522 Network protocol not supported, use (1,2)\r\n",
        FixedReply::OnlyIpv4 => b"522 Network protocol not supported, use (1)\r\n",
        FixedReply::OnlyIpv6 => b"522 Network protocol not supported, use (2)\r\n",
        FixedReply::NotLoggedIn => b"530 Not logged in\r\n",
        FixedReply::PasswordNeeded => b"331 Password needed\r\n",
        FixedReply::LoggedIn => b"230 Logged in\r\n",
        FixedReply::LoginRefused => b"530 Login refused\r\n",
        FixedReply::NotNeeded => b"202 Not needed\r\n",
        FixedReply::Done => b"250 Done\r\n",
        FixedReply::NewName => b"350 Ready for the new name\r\n",
        FixedReply::Refused => b"550 Refused\r\n",
        FixedReply::NotAllowed => b"550 The account may not do that\r\n",
        FixedReply::NameRefused => b"553 Name refused\r\n",
        FixedReply::NoRoom => b"452 No room\r\n",
        FixedReply::TooMuch => b"552 Too much\r\n",
        FixedReply::Opens => b"150 Opening data connection\r\n",
        FixedReply::Complete => b"226 Transfer complete\r\n",
        FixedReply::NoConnection => b"425 No data connection\r\n",
        FixedReply::Broken => b"426 Transfer broken\r\n",
        FixedReply::LocalFault => b"451 Local fault\r\n",
        FixedReply::AbortDone => b"226 Abort done\r\n",
        FixedReply::TypeSet => b"200 Type set\r\n",
        FixedReply::StructureSet => b"200 Structure set\r\n",
        FixedReply::ModeSet => b"200 Mode set\r\n",
        FixedReply::Utf8Set => b"200 UTF8 set\r\n",
        FixedReply::Fine => b"200 Ok\r\n",
        FixedReply::EndpointTaken => b"200 Endpoint taken\r\n",
        FixedReply::OnlyExtended => b"200 Only EPSV from now on\r\n",
        FixedReply::System => b"215 UNIX Type: L8\r\n",
        FixedReply::Help => b"214 See RFC 959, RFC 2428 and RFC 3659\r\n",
        FixedReply::Serving => b"211 Serving\r\n",
        FixedReply::Goodbye => b"221 Goodbye\r\n",
    }
}
