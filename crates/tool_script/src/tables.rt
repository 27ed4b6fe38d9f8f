// What stands for an octet, looked up.
ghost use Rattle.std.specs.Prelude.{◌≡◌, ◌≤◌, ◌==◌, IfSome, take, if◌then◌else◌};
ghost use Rattle.tool_script.specs.Field.{digit_value, written};

/// What stands for no digit.
const X: u8 = 255;

/// The value of each octet that is a hexadecimal digit, in small letters.
static DIGITS: [u8; 256] = [
    X, X, X, X, X, X, X, X, X, X, X, X, X, X, X, X, X, X, X, X, X, X, X, X, X, X, X, X, X, X, X, X,
    X, X, X, X, X, X, X, X, X, X, X, X, X, X, X, X, 0, 1, 2, 3, 4, 5, 6, 7, 8, 9, X, X, X, X, X, X,
    X, X, X, X, X, X, X, X, X, X, X, X, X, X, X, X, X, X, X, X, X, X, X, X, X, X, X, X, X, X, X, X,
    X, 10, 11, 12, 13, 14, 15, X, X, X, X, X, X, X, X, X, X, X, X, X, X, X, X, X, X, X, X, X, X, X,
    X, X, X, X, X, X, X, X, X, X, X, X, X, X, X, X, X, X, X, X, X, X, X, X, X, X, X, X, X, X, X, X,
    X, X, X, X, X, X, X, X, X, X, X, X, X, X, X, X, X, X, X, X, X, X, X, X, X, X, X, X, X, X, X, X,
    X, X, X, X, X, X, X, X, X, X, X, X, X, X, X, X, X, X, X, X, X, X, X, X, X, X, X, X, X, X, X, X,
    X, X, X, X, X, X, X, X, X, X, X, X, X, X, X, X, X, X, X, X, X, X, X, X, X, X, X, X, X, X, X, X,
    X, X,
];

/// Each octet as a field has it, with SP behind it up to four.
static WRITTEN: [u8; 1024] = *b"\
    \\x00\\x01\\x02\\x03\\x04\\x05\\x06\\x07\\x08\\x09\\n  \\x0b\\x0c\\r  \\x0e\\x0f\
    \\x10\\x11\\x12\\x13\\x14\\x15\\x16\\x17\\x18\\x19\\x1a\\x1b\\x1c\\x1d\\x1e\\x1f\
    \\s  !   \"   #   $   %   &   '   (   )   *   +   ,   -   .   /   \
    0   1   2   3   4   5   6   7   8   9   :   ;   <   =   >   ?   \
    @   A   B   C   D   E   F   G   H   I   J   K   L   M   N   O   \
    P   Q   R   S   T   U   V   W   X   Y   Z   [   \\\\  ]   ^   _   \
    `   a   b   c   d   e   f   g   h   i   j   k   l   m   n   o   \
    p   q   r   s   t   u   v   w   x   y   z   {   |   }   ~   \\x7f\
    \\x80\\x81\\x82\\x83\\x84\\x85\\x86\\x87\\x88\\x89\\x8a\\x8b\\x8c\\x8d\\x8e\\x8f\
    \\x90\\x91\\x92\\x93\\x94\\x95\\x96\\x97\\x98\\x99\\x9a\\x9b\\x9c\\x9d\\x9e\\x9f\
    \\xa0\\xa1\\xa2\\xa3\\xa4\\xa5\\xa6\\xa7\\xa8\\xa9\\xaa\\xab\\xac\\xad\\xae\\xaf\
    \\xb0\\xb1\\xb2\\xb3\\xb4\\xb5\\xb6\\xb7\\xb8\\xb9\\xba\\xbb\\xbc\\xbd\\xbe\\xbf\
    \\xc0\\xc1\\xc2\\xc3\\xc4\\xc5\\xc6\\xc7\\xc8\\xc9\\xca\\xcb\\xcc\\xcd\\xce\\xcf\
    \\xd0\\xd1\\xd2\\xd3\\xd4\\xd5\\xd6\\xd7\\xd8\\xd9\\xda\\xdb\\xdc\\xdd\\xde\\xdf\
    \\xe0\\xe1\\xe2\\xe3\\xe4\\xe5\\xe6\\xe7\\xe8\\xe9\\xea\\xeb\\xec\\xed\\xee\\xef\
    \\xf0\\xf1\\xf2\\xf3\\xf4\\xf5\\xf6\\xf7\\xf8\\xf9\\xfa\\xfb\\xfc\\xfd\\xfe\\xff";
/// The value of a hexadecimal digit.
pub(crate) fn digit_value(digit: u8) -> Option<u8>
    ensures value { result ≡ digit_value digit }
    ensures bound { IfSome result (λ value. value ≤ 15) }
{
    let value = DIGITS[digit as usize];
    if value < 16 { Some(value) } else { None }
}

/// An octet as a field has it: so many of these octets.
pub(crate) fn escape_of(octet: u8) -> ([u8; 4], usize)
    ensures text { take result.1 result.0 ≡ written octet }
    ensures long { result.1 ≤ 4 }
{
    let at = 4 * octet as usize;
    let (second, third) = (WRITTEN[at + 1], WRITTEN[at + 2]);
    let escape = [WRITTEN[at], second, third, WRITTEN[at + 3]];
    (escape, length_of(second, third))
}

/// How many octets stand before SP, of one that is none, these two and one more.
fn length_of(second: u8, third: u8) -> usize
    ensures { result ≡ (if third == 32 then (if second == 32 then 1 else 2) else 4) }
{
    if third != b' ' {
        4
    } else if second != b' ' {
        2
    } else {
        1
    }
}
