ghost use Rattle.std.specs.Prelude.{◌≡◌, ◌^◌, ◌<◌, ◌≤◌, ◌↔◌, ℕ, List, IfSome, decimal};
ghost use Rattle.std.specs.List.{list_all};
ghost use Rattle.dch_script.specs.Numbers.{is_digit, is_numeral, number_of};

/// The number of at most `most` that a word writes in decimal digits, without sign or leading zero.
#[tactic(auto, unfolding(crate::specs::Numbers::number_of))]
pub fn read_number(word: &[u8], most: u32) -> Option<u32>
    ensures value { result ≡ number_of most word.now }
    ensures within { IfSome result (λ number. number ≤ most) }
{
    if !is_numeral(word) {
        return None;
    }
    let mut number: u64 = 0;
    for c in word {
        number = 10 * number + u64::from(c.saturating_sub(b'0'));
        if number > u64::from(most) {
            return None;
        }
    }
    Some(number as u32)
}

/// Whether a word is decimal digits without a leading zero.
pub fn is_numeral(word: &[u8]) -> bool
    ensures { result ≡ is_numeral word.now }
{
    match word {
        [] => false,
        [digit] => is_digit(*digit),
        [first, ..] => *first != b'0' && are_digits(word),
    }
}

fn are_digits(word: &[u8]) -> bool
    ensures { result ≡ list_all is_digit word.now }
{
    word.iter().all(|c| is_digit(*c))
}

fn is_digit(c: u8) -> bool
    ensures { result ≡ is_digit c }
{
    b'0' <= c && c <= b'9'
}

/// A law: a number is read exactly where the word is its decimal text.
pub fn decimal_law()
    ensures { (most n : ℕ) (word : List ℕ) → most < 2 ^ 64 →
        (number_of most word ≡ Some n) ↔ ((word ≡ decimal n) × (n ≤ most)) }
{}
