ghost use Rattle.std.specs.Prelude.{◌≤◌, ℕ, IfSome, IfNone, option_map};
ghost use Rattle.dch_top.specs.Parses.{IsNumber, IsNumberOr};

use itoa::Buffer;

/// The number from `least` to `most` that a text writes in decimal digits, without sign or leading zero.
pub fn read_number(text: &str, least: u32, most: u32) -> Option<u32>
    ensures some { IfSome result (λ n. IsNumber least most text.now n) }
    ensures none { IfNone result ((n : ℕ) → ¬ IsNumber least most text.now n) }
{
    let number = text.parse::<u32>().ok()?;
    if Buffer::new().format(number) == text && least <= number && number <= most {
        Some(number)
    } else {
        None
    }
}

/// The number that a word gives, or a default where the word is left out.
pub fn read_number_or(text: Option<&str>, default: u32, least: u32, most: u32) -> Option<u32>
    ensures some { IfSome result (λ n. IsNumberOr default least most (option_map (λ s. s.now) text.entry) n) }
    ensures none { IfNone result ((n : ℕ) →
        ¬ IsNumberOr default least most (option_map (λ s. s.now) text.entry) n) }
    ensures few { default ≤ most → IfSome result (λ n. n ≤ most) }
{
    match text {
        Some(text) => read_number(text, least, most),
        None => Some(default),
    }
}
