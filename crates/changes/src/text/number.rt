// A word of decimal digits, read as a number.
ghost use Rattle.std.specs.Prelude.{◌≡◌};
ghost use Rattle.changes.specs.Text.{number_of};

// The number that a word writes, if it is one digit or more; the largest u32 where it is larger. The library's parse takes a sign, and
// refuses a larger one.
pub fn read_number(word: &[u8]) -> Option<u32>
    ensures { result ≡ number_of word.now }
{
    if word.is_empty() {
        return None;
    }
    let mut sum = 0u32;
    for byte in word {
        if !byte.is_ascii_digit() {
            return None;
        }
        let digit = u32::from(*byte - b'0');
        sum = sum.saturating_mul(10).saturating_add(digit);
    }
    Some(sum)
}
