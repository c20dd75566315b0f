//! Digits.
ghost use Rattle.std.specs.Prelude.{◌≡◌, ◌<◌};
ghost use Rattle.std.specs.Fmt.{digit_glyph};

/// The digit of a number below 16, a letter from 10 on, and a capital one where `upper` says so.
pub fn digit(n: u32, upper: bool) -> u8
    requires { n < 16 }
    ensures { result ≡ digit_glyph upper n }
{
    let n = n as u8;
    if n < 10 {
        b'0' + n
    } else if upper {
        b'A' + (n - 10)
    } else {
        b'a' + (n - 10)
    }
}
