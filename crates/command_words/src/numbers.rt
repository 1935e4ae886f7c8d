//! Numbers that words spell.
ghost use Rattle.std.specs.Prelude.{◌≡◌, ◌≤◌, IfSome};
ghost use Rattle.command_words.specs.Numbers.{number_of};

/// The number from 1 to `most` that a word spells in decimal digits, leading zeros allowed.
pub(crate) fn number_of(most: u64, word: &[u8]) -> Option<u64>
    requires { most ≤ 1000000000 }
    ensures number { result ≡ number_of most word.now }
    ensures within { IfSome result (λ n. n ≤ most) }
{
    let mut number = 0u64;
    for digit in word {
        if !digit.is_ascii_digit() {
            return None;
        }
        number = number * 10 + u64::from(*digit - b'0');
        if number > most {
            return None;
        }
    }
    if number > 0 { Some(number) } else { None }
}
