//! Numbers in words.
ghost use Rattle.std.specs.Prelude.{◌≡◌, ◌≤◌, IfSome};
ghost use Rattle.std.specs.List.{list_all};
ghost use Rattle.clap.specs.Lexer.{is_digit};
ghost use Rattle.command_words.specs.Numbers.{number_in, number_of};

/// Whether all bytes are digits.
fn are_digits(bytes: &[u8]) -> bool
    ensures { result ≡ list_all is_digit bytes.now }
{
    bytes.iter().all(|byte| 48 <= *byte && *byte <= 57)
}

/// A number of one to ten digits.
fn number_of(text: &str) -> Option<u64>
    ensures { result ≡ number_of text.now }
{
    let bytes = text.as_bytes();
    if bytes.is_empty() || bytes.len() > 10 || !are_digits(bytes) {
        return None;
    }
    text.parse::<u64>().ok()
}

/// A number of one to ten digits, in a range.
pub fn number_in(text: &str, least: u32, most: u32) -> Option<u32>
    ensures value { result ≡ number_in least most text.now }
    ensures in_range { IfSome result (λ n. (least ≤ n) × (n ≤ most)) }
{
    let number = number_of(text)?;
    if u64::from(least) <= number && number <= u64::from(most) {
        return Some(number as u32);
    }
    None
}
