ghost use Rattle.std.specs.Prelude.{◌≡◌, ◌≤◌, Some, None, if◌then◌else◌, option_map};
ghost use Rattle.std.specs.List.{list_all};
ghost use Rattle.gps_words.specs.Numbers.{digits_after, is_digit, is_number_text, number_if, number_in, number_or};

fn has_digits_alone(text: &str) -> bool
    ensures { result ≡ list_all is_digit text.now }
{
    text.as_bytes()
        .iter()
        .all(|byte| matches!(*byte, b'0'..=b'9'))
}

fn is_number(text: &str) -> bool
    ensures { result ≡ is_number_text text.now }
{
    !text.is_empty() && text.len() <= 10 && has_digits_alone(text)
}

#[tactic(auto, using(crate::proofs::NumberTexts::parsed))]
fn number(text: &str) -> Option<u64>
    ensures { result ≡ (if is_number_text text.now then Some (digits_after 0 text.now) else None) }
{
    if is_number(text) {
        text.parse::<u64>().ok()
    } else {
        None
    }
}

/// The number that 1 to 10 decimal digits write, if it is from `least` to `most`.
pub fn number_within(text: &str, least: u32, most: u32) -> Option<u32>
    ensures { result ≡ number_in least most text.now }
{
    match number(text) {
        Some(n) if u64::from(least) <= n && n <= u64::from(most) => Some(n as u32),
        _ => None,
    }
}

/// The number of an option that may be left out.
pub(crate) fn number_given(text: Option<&str>, default: u32, least: u32, most: u32) -> Option<u32>
    ensures { result ≡ number_or default least most (option_map (λ t. t.now) text.entry) }
{
    match text {
        None => Some(default),
        Some(text) => number_within(text, least, most),
    }
}

/// The number of an option that may be left out and is none then.
pub(crate) fn number_if_given(text: Option<&str>, least: u32, most: u32) -> Option<Option<u32>>
    ensures { result ≡ number_if least most (option_map (λ t. t.now) text.entry) }
{
    match text {
        None => Some(None),
        Some(text) => match number_within(text, least, most) {
            Some(n) => Some(Some(n)),
            None => None,
        },
    }
}
