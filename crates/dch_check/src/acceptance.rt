ghost use Rattle.std.specs.Prelude.{◌≡◌, ◌++◌, Some, IfOk, OnOk, decimal, string_bytes};
ghost use Rattle.dch_bits.specs.Text.{letter_of};
ghost use Rattle.dch_check.specs.Acceptance.{acceptance_refusal, accepted_line, accepted_lines, of_combination, of_count, of_block, of_collision, numbers_text, more_numbers, letters, accepted_second_line};

use crate::which::{Which, which_word};
use dch_accept::Refusal;
use dch_bits::{Bit, NoMemory};
use dch_script::dir_word;
use dch_types::Dir;
use std::alloc::Global;

/// The line of a configuration that is accepted, with the count of what may collide.
pub fn accepted_line(alloc: Global, count: u128) -> Result<String, NoMemory>
    ensures { IfOk result (λ line. string_bytes line ≡ accepted_line count) }
{
    let line = format!(in alloc; "accepted count={count}\n")?;
    Ok(line)
}

/// The lines of the configurations that are accepted, of which there may be a second one, with their counts of what may
/// collide.
pub fn accepted_lines(alloc: Global, first: u128, second: Option<u128>) -> Result<String, NoMemory>
    ensures { IfOk result (λ lines. string_bytes lines ≡ accepted_lines first second) }
{
    let mut lines = accepted_line(alloc, first)?;
    if let Some(count) = second {
        let line = accepted_second_line(alloc, count)?;
        lines.push_str(&line)?;
    }
    Ok(lines)
}

fn accepted_second_line(alloc: Global, count: u128) -> Result<String, NoMemory>
    ensures { IfOk result (λ line. string_bytes line ≡ accepted_second_line count) }
{
    let line = format!(in alloc; "accepted second count={count}\n")?;
    Ok(line)
}

/// The line that says why a configuration is not accepted. Want of memory has none.
pub fn acceptance_line(alloc: Global, which: Which, refusal: &Refusal) -> Result<String, NoMemory>
    ensures { IfOk result (λ line. acceptance_refusal which refusal.now ≡ Some (string_bytes line)) }
{
    match refusal {
        Refusal::NoMemory => Err(NoMemory),
        Refusal::NoRate(combination) => combination_line(alloc, which, *combination),
        Refusal::Sequences(count) => count_line(alloc, which, *count),
        Refusal::Collision {
            dir,
            channel,
            format,
            block,
            sequence,
            first,
            second,
        } => {
            let mut line = block_text(alloc, which, *dir, *channel, *format, *block)?;
            push_collision(
                alloc,
                &mut line,
                sequence.as_slice(),
                first.as_slice(),
                second.as_slice(),
            )?;
            Ok(line)
        }
    }
}

fn combination_line(alloc: Global, which: Which, combination: u16) -> Result<String, NoMemory>
    ensures { IfOk result (λ line. string_bytes line ≡ of_combination which combination) }
{
    let which = which_word(which);
    let line = format!(in alloc; "refused 25{which} combination={combination}\n")?;
    Ok(line)
}

fn count_line(alloc: Global, which: Which, count: u128) -> Result<String, NoMemory>
    ensures { IfOk result (λ line. string_bytes line ≡ of_count which count) }
{
    let which = which_word(which);
    let line = format!(in alloc; "refused 27{which} count={count}\n")?;
    Ok(line)
}

/// The front of the line of a collision: the place of the two code blocks.
fn block_text(
    alloc: Global,
    which: Which,
    dir: Dir,
    channel: u8,
    format: u8,
    block: u16,
) -> Result<String, NoMemory>
    ensures { IfOk result (λ text. string_bytes text ≡ of_block which dir channel format block) }
{
    let which = which_word(which);
    let dir = dir_word(dir);
    let mut text = format!(in alloc; "refused 40{which} {dir}")?;
    push_field(alloc, &mut text, " channel=", u16::from(channel))?;
    push_field(alloc, &mut text, " format=", u16::from(format))?;
    push_field(alloc, &mut text, " block=", block)?;
    Ok(text)
}

fn push_field(alloc: Global, line: &mut String, name: &str, number: u16) -> Result<(), NoMemory>
    ensures { OnOk result (string_bytes line.new ≡ string_bytes line.old ++ (name.now ++ decimal number)) }
{
    line.push_str(name)?;
    push_number(alloc, line, number)
}

/// Appends the sequence under which two code blocks collide, and the two.
fn push_collision(
    alloc: Global,
    line: &mut String,
    sequence: &[u16],
    first: &[Bit],
    second: &[Bit],
) -> Result<(), NoMemory>
    ensures { OnOk result (string_bytes line.new ≡
        string_bytes line.old ++ of_collision sequence.now first.now second.now) }
{
    line.push_str(" sequence=")?;
    push_numbers(alloc, line, sequence)?;
    line.push_str(" first=")?;
    push_letters(line, first)?;
    line.push_str(" second=")?;
    push_letters(line, second)?;
    line.push('\n')?;
    Ok(())
}

/// Appends numbers with commas between them.
fn push_numbers(alloc: Global, line: &mut String, numbers: &[u16]) -> Result<(), NoMemory>
    ensures { OnOk result (string_bytes line.new ≡ string_bytes line.old ++ numbers_text numbers.now) }
{
    let [first, more @ ..] = numbers else {
        return Ok(());
    };
    push_number(alloc, line, *first)?;
    push_more(alloc, line, more)
}

/// Appends numbers, each behind a comma.
fn push_more(alloc: Global, line: &mut String, numbers: &[u16]) -> Result<(), NoMemory>
    ensures { OnOk result (string_bytes line.new ≡ string_bytes line.old ++ more_numbers numbers.now) }
{
    for number in numbers {
        line.push(',')?;
        push_number(alloc, line, *number)?;
    }
    Ok(())
}

fn push_number(alloc: Global, line: &mut String, number: u16) -> Result<(), NoMemory>
    ensures { OnOk result (string_bytes line.new ≡ string_bytes line.old ++ decimal number) }
{
    let text = format!(in alloc; "{number}")?;
    line.push_str(&text)?;
    Ok(())
}

fn push_letters(line: &mut String, bits: &[Bit]) -> Result<(), NoMemory>
    ensures { OnOk result (string_bytes line.new ≡ string_bytes line.old ++ letters bits.now) }
{
    for bit in bits {
        line.push(letter(*bit))?;
    }
    Ok(())
}

fn letter(bit: Bit) -> char
    ensures { result ≡ letter_of bit }
{
    match bit {
        Bit::Zero => '0',
        Bit::One => '1',
    }
}
