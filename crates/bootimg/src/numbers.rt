//! Numbers on the command line.

ghost use Rattle.std.specs.Prelude.{◌≡◌, ◌≤◌, ◌<◌, ◌^◌, ℕ, Some, IfSome};
ghost use Rattle.bootimg.specs.Numbers.{IsNumber, AreDigitsOf};

/// Parses a number: one or more decimal digits, or `0x` and one or more hexadecimal digits of
/// either case. Leading zeros are allowed. Returns None exactly for any other text, and for a
/// number over 0xffffffff: a sign, `_`, `0X`, a digit of another alphabet and the empty text are
/// not allowed.
pub fn parse_number(argument: &str) -> Option<u32>
    ensures some { IfSome result (IsNumber argument.now) }
    ensures exactly { (number : ℕ) → IsNumber argument.now number → result ≡ Some number }
{
    match argument.strip_prefix("0x") {
        Some(digits) => number_of(digits, 16),
        None => number_of(argument, 10),
    }
}

/// Parses the digits of a number in this base. Returns None exactly for any other text, and for a
/// number over 0xffffffff. Requires: the base is from 2 to 36.
fn number_of(digits: &str, base: u32) -> Option<u32>
    requires least_base { 2 ≤ base }
    requires most_base { base ≤ 36 }
    ensures some { IfSome result (λ number. AreDigitsOf base number digits.now
        × (number < 2 ^ 32)) }
    ensures exactly { (number : ℕ) → AreDigitsOf base number digits.now → number < 2 ^ 32 → result
        ≡ Some number }
{
    if digits.starts_with('+') {
        return None;
    }
    u32::from_str_radix(digits, base).ok()
}
