// The texts that endpoints are written as, made on the stack.
ghost use Rattle.std.specs.Prelude.{◌≡◌, ◌+◌, ◌*◌, ◌/◌, ◌%◌, ◌<◌, ◌≤◌, ◌++◌, [], ◌∷◌, IfNone, IfSome, codes, decimal, if◌then◌else◌, length, map};
ghost use Rattle.std.specs.Char.{digit_char};
ghost use Rattle.std.specs.List.{join_with_byte};
ghost use Rattle.ftp_endpoint.specs.Number.{colon};
ghost use Rattle.ftp_endpoint.specs.Written.{IsV4, address_text, extended_text, groups_of, hex, numbers_text, six_text};

use crate::endpoint::Endpoint;
use crate::host::Host;
use arrayvec::ArrayVec;
use itoa::Buffer;

type Line = ArrayVec<u8, 128>;

/// The six numbers of an endpoint; a host of IPv6 has none (RFC 959, section 4.1.2).
pub fn write_six(endpoint: Endpoint) -> Option<ArrayVec<u8, 128>>
    ensures some { IfSome result (λ text. IsV4 endpoint.host × (text.items ≡ six_text endpoint)) }
    // Witness of none: equation.
    ensures none { IfNone result (¬ IsV4 endpoint.host) }
{
    let Endpoint { host, port } = endpoint;
    match host {
        Host::V4(octets) => {
            let mut text = Line::new();
            put_numbers(b',', octets, &mut text);
            put(b",", &mut text);
            put_decimal(u64::from(port / 256), &mut text);
            put(b",", &mut text);
            put_decimal(u64::from(port % 256), &mut text);
            Some(text)
        }
        Host::V6(_) => None,
    }
}

/// The extended address of an endpoint (RFC 2428, section 2).
pub fn write_extended(endpoint: Endpoint) -> ArrayVec<u8, 128>
    ensures { result.items ≡ extended_text endpoint }
{
    let Endpoint { host, port } = endpoint;
    let mut text = Line::new();
    put_address(host, &mut text);
    put(b"|", &mut text);
    put_decimal(u64::from(port), &mut text);
    put(b"|", &mut text);
    text
}

fn put(text: &[u8], line: &mut Line)
    requires { length line.old.items + length text.now ≤ 128 }
    ensures { line.new.items ≡ line.old.items ++ text.now }
{
    line.try_extend_from_slice(text).unwrap()
}

fn put_decimal(number: u64, line: &mut Line)
    requires { length line.old.items + 20 ≤ 128 }
    ensures text { line.new.items ≡ line.old.items ++ decimal number }
    ensures bound { length line.new.items ≤ length line.old.items + 20 }
{
    let mut buffer = Buffer::new();
    put(buffer.format(number).as_bytes(), line)
}

// Four numbers joined by a separator.
fn put_numbers(separator: u8, octets: [u8; 4], line: &mut Line)
    requires { length line.old.items ≤ 10 }
    ensures text { line.new.items ≡ line.old.items ++ numbers_text separator octets }
    ensures bound { length line.new.items ≤ length line.old.items + 83 }
{
    let [a, b, c, d] = octets;
    put_decimal(u64::from(a), line);
    put(&[separator], line);
    put_decimal(u64::from(b), line);
    put(&[separator], line);
    put_decimal(u64::from(c), line);
    put(&[separator], line);
    put_decimal(u64::from(d), line);
}

// The protocol and the address, each behind its delimiter.
fn put_address(host: Host, line: &mut Line)
    requires { length line.old.items ≤ 5 }
    ensures text { line.new.items ≡ line.old.items ++ address_text host }
    ensures bound { length line.new.items ≤ 100 }
{
    match host {
        Host::V4(octets) => {
            put(b"|1|", line);
            put_numbers(b'.', octets, line);
        }
        Host::V6(octets) => {
            put(b"|2|", line);
            put_groups(&groups(octets), line);
        }
    }
}

// The groups of a host of IPv6.
fn groups(octets: [u8; 16]) -> [u16; 8]
    ensures { result ≡ groups_of octets }
{
    let [a, b, c, d, e, f, g, h, i, j, k, l, m, n, o, p] = octets;
    let [r, s] = two(a, b, c, d);
    let [t, u] = two(e, f, g, h);
    let [v, w] = two(i, j, k, l);
    let [x, y] = two(m, n, o, p);
    [r, s, t, u, v, w, x, y]
}

fn two(a: u8, b: u8, c: u8, d: u8) -> [u16; 2]
    ensures { result ≡ (a * 256 + b) ∷ (c * 256 + d) ∷ [] }
{
    [
        u16::from(a) * 256 + u16::from(b),
        u16::from(c) * 256 + u16::from(d),
    ]
}

// Groups in lower case, joined by colons.
fn put_groups(groups: &[u16], line: &mut Line)
    requires few { length groups.now ≤ 8 }
    requires room { length line.old.items ≤ 8 }
    ensures text { line.new.items ≡ line.old.items ++ join_with_byte colon (map hex groups.now) }
    ensures bound { length line.new.items ≤ length line.old.items + 40 }
{
    for (i, group) in groups.iter().enumerate() {
        put_group(i > 0, *group, line);
    }
}

// A group without leading zeros, behind a colon unless it is the first.
fn put_group(behind: bool, group: u16, line: &mut Line)
    requires { length line.old.items + 5 ≤ 128 }
    ensures text { line.new.items ≡ line.old.items ++ ((if behind then codes ":" else []) ++ hex group) }
    ensures bound { length line.new.items ≤ length line.old.items + 5 }
{
    if behind {
        line.push(b':');
    }
    if group >= 4096 {
        line.push(hex_digit(group / 4096));
    }
    if group >= 256 {
        line.push(hex_digit(group / 256 % 16));
    }
    if group >= 16 {
        line.push(hex_digit(group / 16 % 16));
    }
    line.push(hex_digit(group % 16));
}

fn hex_digit(digit: u16) -> u8
    requires { digit < 16 }
    ensures { result ≡ digit_char digit }
{
    if digit < 10 {
        b'0' + digit as u8
    } else {
        b'a' + (digit - 10) as u8
    }
}
