ghost use Rattle.std.specs.Prelude.{◌≡◌, ◌↔◌, IsTrue, codes, map, string_bytes};
ghost use Rattle.dch_margin.specs.Words.{AskFor};

/// What is told of each format.
#[derive(Clone, Copy)]
pub enum Telling {
    /// How many cells of a code block may be wrong.
    Margins,
    /// A worst case.
    WorstCases,
}

/// What the words after the program's name ask for: `--worst`, or no word. `None` is other words.
pub fn telling_of(words: &[String]) -> Option<Telling>
    ensures { AskFor (map string_bytes words.now) result }
{
    match words {
        [] => Some(Telling::Margins),
        [word] if is_worst(word) => Some(Telling::WorstCases),
        _ => None,
    }
}

fn is_worst(word: &String) -> bool
    ensures { IsTrue result ↔ (string_bytes word.now ≡ codes "--worst") }
{
    word.as_str() == "--worst"
}
