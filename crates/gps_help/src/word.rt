ghost use Rattle.std.specs.Prelude.{◌≡◌, ◌<◌, option_map};
ghost use Rattle.gps_words.specs.Devices.{halves};
ghost use Rattle.gps_words.specs.Numbers.{is_digit};
ghost use Rattle.gps_help.specs.Places.{can_be_value, head_of, is_dashed, value_of};

/// Whether a word begins with `-` and is more than that.
#[tactic(auto, unfolding(crate::specs::Places::is_dashed))]
pub(crate) fn is_dashed(word: &str) -> bool
    ensures { result ≡ is_dashed word.now }
{
    let bytes = word.as_bytes();
    bytes.len() > 1 && bytes[0] == b'-'
}

fn is_digit(byte: u8) -> bool
    ensures { result ≡ is_digit byte }
{
    b'0' <= byte && byte <= b'9'
}

/// Whether a word can be meant as the value of the option before it: one without a `-`, or a number with one.
#[tactic(auto, unfolding(crate::specs::Places::can_be_value, crate::specs::Places::is_dashed))]
pub(crate) fn can_be_value(word: &str) -> bool
    ensures { result ≡ can_be_value word.now }
{
    let bytes = word.as_bytes();
    !(bytes.len() > 1 && bytes[0] == b'-') || is_digit(bytes[1])
}

/// What comes before the first such character, which is ASCII, and what comes after it.
pub(crate) fn halves(text: &str, mark: char) -> Option<(&str, &str)>
    requires { mark < 128 }
    ensures { option_map (λ parts. (parts.0.now, parts.1.now)) result ≡ halves mark text.entry.now }
{
    text.split_once(mark)
}

/// What comes before the first `=` of a word, or the word.
#[tactic(auto, unfolding(crate::specs::Places::head_of))]
pub(crate) fn head_of(word: &str) -> &str
    ensures { result.now ≡ head_of word.entry.now }
{
    match halves(word, '=') {
        Some((head, _)) => head,
        None => word,
    }
}

/// What comes after the first `=` of a word.
#[tactic(auto, unfolding(crate::specs::Places::value_of))]
pub(crate) fn value_of(word: &str) -> Option<&str>
    ensures { option_map (λ value. value.now) result ≡ value_of word.entry.now }
{
    match halves(word, '=') {
        Some((_, value)) => Some(value),
        None => None,
    }
}

/// What an option is called without its dashes.
pub(crate) fn name_of(flag: &str) -> &str {
    match flag.strip_prefix("--") {
        Some(name) => name,
        None => match flag.strip_prefix('-') {
            Some(name) => name,
            None => flag,
        },
    }
}
