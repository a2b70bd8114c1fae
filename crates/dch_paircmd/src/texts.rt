ghost use Rattle.std.specs.Prelude.{◌≡◌, decimal, length};
ghost use Rattle.dch_paircmd.specs.Texts.{IsWithin, end_text, end_word, got_text, handed_text, number_text, octets_text, offer_text};

use dch_bits::Offer;
use dch_lines::{Page, put_decimal};
use dch_reset::Got;
use dch_rlcpdu::{Handed, PduError};

/// A line of a word and an end, 0 for `a` and 1 for `b`.
#[tactic(auto, unfolding(crate::specs::Texts::end_text))]
pub fn put_end<P: Page>(page: &mut P, word: &[u8], end: u8)
    ensures { P.writes page.old (end_text word.now end) page.new }
{
    page.put_text(word);
    put_letter(page, end);
    page.put_text(b"\n");
}

/// A line of a word, an end and octets.
#[tactic(auto, unfolding(crate::specs::Texts::octets_text))]
pub fn put_octets<P: Page>(page: &mut P, word: &[u8], end: u8, octets: &[u8])
    ensures { P.writes page.old (octets_text word.now end octets.now) page.new }
{
    page.put_text(word);
    put_letter(page, end);
    page.put_text(b" ");
    dch_lines::put_octets(page, octets);
    page.put_text(b"\n");
}

/// A line of a word, an end and a number.
#[tactic(auto, unfolding(crate::specs::Texts::number_text))]
fn put_number<P: Page>(page: &mut P, word: &[u8], end: u8, number: u8)
    ensures { P.writes page.old (number_text word.now end number) page.new }
{
    page.put_text(word);
    put_letter(page, end);
    page.put_text(b" ");
    put_small(page, number);
    page.put_text(b"\n");
}

/// The line on a unit that was offered.
pub fn put_offer<P: Page>(page: &mut P, end: u8, answer: Offer)
    ensures { P.writes page.old (offer_text end answer) page.new }
{
    match answer {
        Offer::Accepted => put_end(page, b"took ", end),
        Offer::Full => put_end(page, b"full ", end),
        Offer::WrongSize => put_end(page, b"wrong ", end),
    }
}

/// The line on a PDU that arrived, where there is one.
pub fn put_got<P: Page>(page: &mut P, end: u8, got: Got)
    ensures { P.writes page.old (got_text end got) page.new }
{
    match got {
        Got::Bad(error) => put_number(page, b"pdubad ", end, error.number()),
        Got::Restarted => put_end(page, b"restart ", end),
        Got::Outside => put_end(page, b"outside ", end),
        Got::Repeated | Got::Ignored | Got::Taken | Got::Duplicate => {}
    }
}

/// The line on a unit that is handed up and stands at the front of `room`, or is overlong.
pub fn put_handed<P: Page>(page: &mut P, end: u8, handed: Handed, room: &[u8])
    requires size { IsWithin handed (length room.now) }
    ensures { P.writes page.old (handed_text end handed room.now) page.new }
{
    match handed {
        Handed::Whole(size) => put_octets(page, b"got ", end, &room[..size]),
        Handed::Overlong => put_end(page, b"overlong ", end),
    }
}

/// Writes the letter of an end.
fn put_letter<P: Page>(page: &mut P, end: u8)
    ensures { P.writes page.old (end_word end) page.new }
{
    page.put_text(end_word(end).as_bytes());
}

/// Writes a number in decimal.
fn put_small<P: Page>(page: &mut P, number: u8)
    ensures { P.writes page.old (decimal number) page.new }
{
    put_decimal(page, u64::from(number));
}

/// The letter of an end.
fn end_word(end: u8) -> &'static str
    ensures { result.now ≡ end_word end }
{
    if end == 0 { "a" } else { "b" }
}
