ghost use Rattle.std.specs.Prelude.{◌≡◌, ◌∷◌, [], IfOk, IfErr};
ghost use Rattle.std.specs.Str.{bytes_eq};
ghost use Rattle.dch_script.specs.Forms.{alone, one, two, three, four, one_shown, two_shown, three_shown, four_shown};
ghost use Rattle.dch_script.specs.ParsedLine.{parsed, parsed_of};
ghost use Rattle.dch_script.specs.LineWords.{words_of, later_words};

use crate::event::{Event, LineError};
use memchr::memchr;

/// The first word of a text, and what follows the space after it, where one is there.
#[tactic(auto, using(crate::proofs::Cuts::words_cut))]
pub fn cut_word(text: &[u8]) -> (&[u8], Option<&[u8]>)
    ensures { words_of text.now ≡ result.0.now ∷ later_words result.1 }
{
    match memchr(b' ', text) {
        Some(at) => (&text[..at], Some(&text[at + 1..])),
        None => (text, None),
    }
}

/// Whether a word is this one.
pub fn is_word(word: &[u8], name: &[u8]) -> bool
    ensures { result ≡ bytes_eq word.now name.now }
{
    word == name
}

/// The next word, and what follows it; `Count` where no word is left.
pub fn next_word(words: Option<&[u8]>) -> Result<(&[u8], Option<&[u8]>), LineError>
    ensures ok { IfOk result (λ cut. later_words words.entry ≡ cut.0.now ∷ later_words cut.1) }
    ensures err { IfErr result (λ error. (error ≡ LineError.Count) × (later_words words.entry ≡ [])) }
{
    match words {
        Some(text) => Ok(cut_word(text)),
        None => Err(LineError::Count),
    }
}

/// The event of a form without further words; `Count` where a word is left.
#[tactic(auto, using(crate::proofs::Cuts::not_alone))]
pub fn alone<'a>(words: Option<&[u8]>, event: Event<'a>) -> Result<Event<'a>, LineError>
    ensures { parsed result ≡ alone (parsed_of event.entry) (later_words words.entry) }
{
    match words {
        None => Ok(event),
        Some(_more) => Err(LineError::Count),
    }
}

/// The one word that is left, or `Count`.
#[tactic(auto, using(crate::proofs::Cuts::not_one))]
pub fn one_word(words: Option<&[u8]>) -> Result<&[u8], LineError>
    ensures { one_shown result ≡ one (later_words words.entry) }
{
    match next_word(words)? {
        (word, None) => Ok(word),
        (_, Some(_more)) => Err(LineError::Count),
    }
}

/// The two words that are left, or `Count`.
pub fn two_words(words: Option<&[u8]>) -> Result<(&[u8], &[u8]), LineError>
    ensures { two_shown result ≡ two (later_words words.entry) }
{
    let (first, rest) = next_word(words)?;
    let second = one_word(rest)?;
    Ok((first, second))
}

/// The three words that are left, or `Count`.
pub fn three_words(words: Option<&[u8]>) -> Result<(&[u8], &[u8], &[u8]), LineError>
    ensures { three_shown result ≡ three (later_words words.entry) }
{
    let (first, rest) = next_word(words)?;
    let (second, third) = two_words(rest)?;
    Ok((first, second, third))
}

/// The four words that are left, or `Count`.
pub fn four_words(words: Option<&[u8]>) -> Result<(&[u8], &[u8], &[u8], &[u8]), LineError>
    ensures { four_shown result ≡ four (later_words words.entry) }
{
    let (first, rest) = next_word(words)?;
    let (second, third, fourth) = three_words(rest)?;
    Ok((first, second, third, fourth))
}
