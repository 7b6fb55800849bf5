//! Numbers among the words.
ghost use Rattle.std.specs.Prelude.{◌≡◌, ◌≤◌, IfSome};
ghost use Rattle.sac_words.specs.Meaning.{number_in};

/// The number that one or more digits stand for, where it is within the range.
pub fn number_in(text: &str, least: u64, most: u64) -> Option<u64>
    ensures exact { result ≡ number_in least most text.now }
    ensures within { IfSome result (λ number. (least ≤ number) × (number ≤ most)) }
{
    // A plus sign may stand before the digits for `parse`.
    if text.as_bytes().starts_with(b"+") {
        return None;
    }
    match text.parse::<u64>() {
        Ok(number) if least <= number && number <= most => Some(number),
        _ => None,
    }
}
