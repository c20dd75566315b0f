//! The digits of a number.
ghost use Rattle.std.specs.Prelude.{◌≡◌, ◌≤◌, drop};
ghost use Rattle.std.specs.Fmt.{digits};

use tmpl_values::digit;

/// Writes the digits of a number to the end of the buffer, and says where they begin. A number of
/// 64 bits has at most 64 digits in any base.
pub(crate) fn write_digits(n: u64, base: u64, upper: bool, out: &mut [u8; 64]) -> usize
    requires low { 2 ≤ base }
    requires high { base ≤ 16 }
    ensures bound { result ≤ 64 }
    ensures value { drop result out.new ≡ digits base upper n }
{
    let mut i = 64;
    let mut rest = n;
    while i > 0 {
        i -= 1;
        out[i] = digit((rest % base) as u32, upper);
        rest /= base;
        if rest == 0 {
            break;
        }
    }
    i
}
