//! Words that are numbers.
ghost use Rattle.std.specs.Prelude.{◌≡◌, ◌≤◌, IfSome};
ghost use Rattle.std.specs.Char.{is_ascii_digit};
ghost use Rattle.std.specs.List.{list_all};
ghost use Rattle.call_words.specs.Words.{is_number, number_within};

use text_lists::Text;

/// The number that a word spells, where it isn't below `least` and not above `most`.
pub fn number_within(least: u64, most: u64, word: &Text) -> Option<u64>
    ensures number { result ≡ number_within least most word.now }
    ensures within { IfSome result (λ number. (least ≤ number) × (number ≤ most)) }
{
    if !is_number(word.as_str().as_bytes()) {
        return None;
    }
    match word.as_str().parse::<u64>() {
        Ok(number) if least <= number && number <= most => Some(number),
        _ => None,
    }
}

/// Whether it is digits, without a leading zero but for `0` itself.
fn is_number(word: &[u8]) -> bool
    ensures { result ≡ is_number word.now }
{
    match word {
        [] => false,
        [digit] => digit.is_ascii_digit(),
        [first, _, ..] => *first != b'0' && are_digits(word),
    }
}

fn are_digits(word: &[u8]) -> bool
    ensures { result ≡ list_all is_ascii_digit word.now }
{
    word.iter().all(|b| b.is_ascii_digit())
}
