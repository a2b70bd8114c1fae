ghost use Rattle.std.specs.Prelude.{◌≡◌, ◌<◌, length};
ghost use Rattle.dch_types.specs.Parts.{channel_at, side_of};
ghost use Rattle.dch_script.specs.Report.{dir_word};
ghost use Rattle.dch_stages.specs.Answers.{amount_of, cells_line, number_text, place_text, places_text, question_line, question_text, where_line};
ghost use Rattle.dch_stages.specs.Places.{cells_of_tti};

use crate::places::{TtiOf, bit_at, blocks_bits, cells_of, shown_at};
use dch_accept::Accepted;
use dch_lines::{Page, put_decimal};
use dch_script::{Question, dir_word};
use dch_types::Dir;

/// How many places, or bits of its transport blocks, a question can name of a TTI.
pub fn amount_of(accepted: &Accepted, question: Question, tti: TtiOf) -> usize
    requires channel { tti.channel < length (side_of accepted.now.config tti.dir).channels }
    requires format { tti.format < length (channel_at (side_of accepted.now.config tti.dir) tti.channel).formats }
    ensures { result ≡ amount_of accepted.now question tti.dir tti.channel tti.format }
{
    match question {
        Question::Where => cells_of(accepted, tti),
        Question::Cells => blocks_bits(accepted, tti),
    }
}

/// Adds the line that answers a question of a TTI.
pub fn put_answer<P: Page>(
    page: &mut P,
    accepted: &Accepted,
    question: Question,
    tti: TtiOf,
    number: u32,
)
    requires channel { tti.channel < length (side_of accepted.now.config tti.dir).channels }
    requires format { tti.format < length (channel_at (side_of accepted.now.config tti.dir) tti.channel).formats }
    requires number { number < amount_of accepted.now question tti.dir tti.channel tti.format }
    ensures text { P.writes page.old (question_line accepted.now question tti.dir tti.channel tti.format number)
        page.new }
{
    match question {
        Question::Where => put_where(page, accepted, tti, number),
        Question::Cells => put_cells(page, accepted, tti, number),
    }
}

/// Adds `where DIR CHANNEL PLACE coded=N bit=K`.
fn put_where<P: Page>(page: &mut P, accepted: &Accepted, tti: TtiOf, place: u32)
    requires channel { tti.channel < length (side_of accepted.now.config tti.dir).channels }
    requires format { tti.format < length (channel_at (side_of accepted.now.config tti.dir) tti.channel).formats }
    requires place { place < cells_of_tti accepted.now tti.dir tti.channel tti.format }
    ensures text { P.writes page.old (where_line accepted.now tti.dir tti.channel tti.format place) page.new }
{
    let coded = shown_at(accepted, tti, place as usize);
    put_question(page, b"where", tti, place);
    page.put_text(b" coded=");
    put_number(page, coded);
    page.put_text(b" bit=");
    put_number(page, bit_at(accepted, tti, coded));
    page.put_text(b"\n");
}

/// Adds `cells DIR CHANNEL BIT` and the places that show the bit.
fn put_cells<P: Page>(page: &mut P, accepted: &Accepted, tti: TtiOf, bit: u32)
    requires channel { tti.channel < length (side_of accepted.now.config tti.dir).channels }
    requires format { tti.format < length (channel_at (side_of accepted.now.config tti.dir) tti.channel).formats }
    ensures text { P.writes page.old (cells_line accepted.now tti.dir tti.channel tti.format bit) page.new }
{
    put_question(page, b"cells", tti, bit);
    put_places(page, accepted, tti, bit);
    page.put_text(b"\n");
}

/// Adds the places that show a bit, each behind a space.
fn put_places<P: Page>(page: &mut P, accepted: &Accepted, tti: TtiOf, bit: u32)
    requires channel { tti.channel < length (side_of accepted.now.config tti.dir).channels }
    requires format { tti.format < length (channel_at (side_of accepted.now.config tti.dir) tti.channel).formats }
    ensures text { P.writes page.old (places_text accepted.now tti.dir tti.channel tti.format bit
        (cells_of_tti accepted.now tti.dir tti.channel tti.format)) page.new }
{
    for place in 0..cells_of(accepted, tti) {
        put_place(page, accepted, tti, bit, place);
    }
}

/// Adds a place, where it shows a bit.
fn put_place<P: Page>(page: &mut P, accepted: &Accepted, tti: TtiOf, bit: u32, place: usize)
    requires channel { tti.channel < length (side_of accepted.now.config tti.dir).channels }
    requires format { tti.format < length (channel_at (side_of accepted.now.config tti.dir) tti.channel).formats }
    requires place { place < cells_of_tti accepted.now tti.dir tti.channel tti.format }
    ensures text { P.writes page.old (place_text accepted.now tti.dir tti.channel tti.format bit place) page.new }
{
    match bit_at(accepted, tti, shown_at(accepted, tti, place)) {
        Some(shown) if shown == bit => {
            page.put_text(b" ");
            put_decimal(page, place as u64);
        }
        _ => {}
    }
}

/// Adds the words of a question: `WORD DIR CHANNEL NUMBER`.
#[tactic(auto, unfolding(crate::specs::Answers::question_text))]
fn put_question<P: Page>(page: &mut P, word: &[u8], tti: TtiOf, number: u32)
    ensures text { P.writes page.old (question_text word.now tti.dir tti.channel number) page.new }
{
    page.put_text(word);
    page.put_text(b" ");
    put_dir(page, tti.dir);
    page.put_text(b" ");
    put_decimal(page, tti.channel as u64);
    page.put_text(b" ");
    put_decimal(page, number as u64);
}

/// Adds a number, if there is one.
fn put_number<P: Page>(page: &mut P, number: Option<u32>)
    ensures text { P.writes page.old (number_text number) page.new }
{
    match number {
        Some(number) => put_decimal(page, number as u64),
        None => page.put_text(b"none"),
    }
}

/// Adds the word of a direction.
fn put_dir<P: Page>(page: &mut P, dir: Dir)
    ensures { P.writes page.old (dir_word dir) page.new }
{
    page.put_text(dir_word(dir).as_bytes());
}
