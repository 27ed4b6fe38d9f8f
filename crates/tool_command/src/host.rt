// Which texts say a host: an address, or a name.
ghost use Rattle.std.specs.Prelude.{◌≡◌, ◌↔◌, IsTrue};
ghost use Rattle.std.specs.List.{list_all, list_any};
ghost use Rattle.tool_command.specs.Host.{IsAddress, IsHost, has_both, is_colon, is_of_numbers, is_point, means_address};

use std::net::IpAddr;

/// Whether a text is an address: four numbers in dotted decimal, or IPv6 in groups alone.
pub(crate) fn is_address(text: &str) -> bool
    ensures { IsTrue result ↔ IsAddress text.now }
{
    if has_both(text) {
        return false;
    }
    match text.parse::<IpAddr>() {
        Ok(_) => true,
        Err(_) => false,
    }
}

/// Whether a text says a host: an address, or a name, which has no colon and more than digits and points.
pub(crate) fn is_host(text: &str) -> bool
    ensures { IsTrue result ↔ IsHost text.now }
{
    !means_address(text) || is_address(text)
}

/// Whether a text has a colon and a point.
fn has_both(text: &str) -> bool
    ensures { result ≡ has_both text.now }
{
    has_colon(text.as_bytes()) && has_point(text.as_bytes())
}

/// Whether a text can be meant as an address alone.
fn means_address(text: &str) -> bool
    ensures { result ≡ means_address text.now }
{
    has_colon(text.as_bytes()) || are_of_numbers(text.as_bytes())
}

fn has_colon(octets: &[u8]) -> bool
    ensures { result ≡ list_any is_colon octets.now }
{
    octets.contains(&b':')
}

fn has_point(octets: &[u8]) -> bool
    ensures { result ≡ list_any is_point octets.now }
{
    octets.contains(&b'.')
}

fn are_of_numbers(octets: &[u8]) -> bool
    ensures { result ≡ list_all is_of_numbers octets.now }
{
    octets.iter().all(|octet| is_of_numbers(*octet))
}

/// Whether an octet may stand in dotted decimal.
fn is_of_numbers(octet: u8) -> bool
    ensures { result ≡ is_of_numbers octet }
{
    octet.is_ascii_digit() || octet == b'.'
}
