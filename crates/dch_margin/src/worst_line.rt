ghost use Rattle.std.specs.Prelude.{◌≡◌, ◌++◌, IfOk, decimal, length, slice_index, slice_index_or, string_bytes};
ghost use Rattle.dch_margin.specs.Reports.{case_text, comma, fields_text, listed, no_place, place_text, worst_line, worst_text};

use crate::places::Place;
use crate::worst::{Worst, WorstCase};
use dch_bits::NoMemory;
use dch_script::dir_word;
use dch_types::Dir;
use std::alloc::Global;

/// The line of a worst case of format `f` of channel `i`.
pub fn worst_line(alloc: Global, dir: Dir, i: u8, f: u8, worst: &Worst) -> Result<String, NoMemory>
    ensures { IfOk result (λ line. string_bytes line ≡ worst_line dir i f worst.now) }
{
    let dir = dir_word(dir);
    let text = worst_text(alloc, worst)?;
    let line = format!(in alloc; "worst {dir} channel={i} format={f}{text}")?;
    Ok(line)
}

fn worst_text(alloc: Global, worst: &Worst) -> Result<String, NoMemory>
    ensures { IfOk result (λ text. string_bytes text ≡ worst_text worst.now) }
{
    match worst {
        Worst::Case(worst) => case_text(alloc, worst),
        Worst::Unsent => {
            let text = format!(in alloc; " cells=none\n")?;
            Ok(text)
        }
        Worst::Sequences(sequences) => {
            let sequences = *sequences;
            let text = format!(in alloc; " sequences={sequences}\n")?;
            Ok(text)
        }
    }
}

fn case_text(alloc: Global, worst: &WorstCase) -> Result<String, NoMemory>
    ensures { IfOk result (λ text. string_bytes text ≡ case_text worst.now) }
{
    let combinations = numbers_text(alloc, worst.combinations.as_slice())?;
    let places = places_text(alloc, worst.places.as_slice())?;
    fields_text(alloc, worst.cells, worst.block, &combinations, &places)
}

fn fields_text(
    alloc: Global,
    cells: u32,
    block: usize,
    combinations: &str,
    places: &str,
) -> Result<String, NoMemory>
    ensures { IfOk result (λ text. string_bytes text ≡ fields_text cells block combinations.now places.now) }
{
    let text = format!(in alloc;
        " cells={cells} block={block} combinations={combinations} places={places}\n"
    )?;
    Ok(text)
}

/// Numbers with commas between them.
fn numbers_text(alloc: Global, numbers: &[u16]) -> Result<String, NoMemory>
    ensures { IfOk result (λ text. string_bytes text ≡
        listed (λ n. decimal (slice_index numbers.now n)) (length numbers.now)) }
{
    let mut text = String::new(alloc);
    for n in 0..numbers.len() {
        let comma = comma(n);
        let number = numbers[n];
        let more = format!(in alloc; "{comma}{number}")?;
        text.push_str(&more)?;
    }
    Ok(text)
}

/// Cells with commas between them.
fn places_text(alloc: Global, places: &[Place]) -> Result<String, NoMemory>
    ensures { IfOk result (λ text. string_bytes text ≡
        listed (λ n. place_text (slice_index_or places.now n no_place)) (length places.now)) }
{
    let mut text = String::new(alloc);
    for n in 0..places.len() {
        let comma = comma(n);
        let more = place_text(alloc, comma, &places[n])?;
        text.push_str(&more)?;
    }
    Ok(text)
}

fn place_text(alloc: Global, comma: &str, place: &Place) -> Result<String, NoMemory>
    ensures { IfOk result (λ text. string_bytes text ≡ comma.now ++ place_text place.now) }
{
    let frame = place.frame;
    let cell = place.cell;
    let text = format!(in alloc; "{comma}{frame}:{cell}")?;
    Ok(text)
}

/// What stands in front of part `n` of a list.
fn comma(n: usize) -> &'static str
    ensures { result.now ≡ comma n }
{
    if n == 0 { "" } else { "," }
}
