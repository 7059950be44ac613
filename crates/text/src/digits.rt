// Numbers in digits: decimal, and bytes in hexadecimal, lower case.
ghost use Rattle.std.specs.Prelude.{◌≡◌, ◌<◌};
ghost use Rattle.text.specs.Place.{Puts};
ghost use Rattle.text.specs.Decimal.{decimal, digit};
ghost use Rattle.text.specs.Hex.{nibble, hex, hex_bytes};

use crate::place::Text;

// The digit of a number below 10.
fn digit_of(d: u64) -> u8
    requires { d < 10 }
    ensures { result ≡ digit d }
{
    b'0' + d as u8
}

// The digit of a number below 16.
fn nibble_of(d: u8) -> u8
    requires { d < 16 }
    ensures { result ≡ nibble d }
{
    if d < 10 { b'0' + d } else { b'a' - 10 + d }
}

impl Text<'_> {
    // Puts the digits of `n`. It calls itself once for each digit but the last.
    pub fn put_decimal(&mut self, n: u64)
        ensures { Puts (decimal n) self.old self.new }
    {
        if n >= 10 {
            self.put_decimal(n / 10);
        }
        self.put_byte(digit_of(n % 10));
    }

    // Puts the two digits of `b`.
    pub fn put_hex(&mut self, b: u8)
        ensures { Puts (hex b) self.old self.new }
    {
        self.put_byte(nibble_of(b / 16));
        self.put_byte(nibble_of(b % 16));
    }

    // Puts a space and two digits for each byte of `s`.
    pub fn put_bytes(&mut self, s: &[u8])
        ensures { Puts (hex_bytes s.now) self.old self.new }
    {
        for &b in s {
            self.put_byte(b' ');
            self.put_hex(b);
        }
    }
}
