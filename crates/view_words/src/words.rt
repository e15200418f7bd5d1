//! What each word of a call is: an option, its value, or none of both.
ghost use Rattle.std.specs.Prelude.{◌≡◌, option_map};
ghost use Rattle.call_words.specs.Words.{is_plain};
ghost use Rattle.view_words.specs.Words.{cut, fits, is_flag, is_option_with, wants_value};

/// Whether it isn't empty and doesn't begin with `-`.
pub fn is_plain(word: &str) -> bool
    ensures { result ≡ is_plain word.now }
{
    match word.as_bytes() {
        [] => false,
        [first, ..] => *first != b'-',
    }
}

/// Whether it is an option behind which its value stands.
pub fn wants_value(word: &str) -> bool
    ensures { result ≡ wants_value word.now }
{
    word == "--table" || word == "--rule" || word == "--first" || word == "--vouch"
}

/// Whether it is an option without a value.
pub fn is_flag(word: &str) -> bool
    ensures { result ≡ is_flag word.now }
{
    word == "--loaded"
}

/// What stands before and behind the first `=` of a word.
pub fn cut(word: &str) -> Option<(&str, &str)>
    ensures { option_map (λ p. (p.0.now, p.1.now)) result ≡ cut word.now }
{
    word.split_once('=')
}

/// Whether it is an option and its value in one word, as `--first=5`.
fn is_option_with(word: &str) -> bool
    ensures { result ≡ is_option_with (cut word.now) }
{
    match cut(word) {
        Some((name, value)) => wants_value(name) && is_plain(value),
        None => false,
    }
}

/// Whether a word may stand behind the one before it.
pub fn fits(before: &str, word: &str) -> bool
    ensures { result ≡ fits before.now word.now }
{
    if wants_value(before) {
        is_plain(word)
    } else {
        is_plain(word) || is_flag(word) || wants_value(word) || is_option_with(word)
    }
}
