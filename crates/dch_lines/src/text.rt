ghost use Rattle.std.specs.Prelude.{◌≡◌, ◌++◌, ◌*◌, codes, decimal, length, map};
ghost use Rattle.dch_bits.specs.Text.{letter_of, cell_letter};
ghost use Rattle.hex.specs.Hex.{encode_lower};
ghost use Rattle.dch_script.specs.Report.{bits_shown, cells_shown, dir_word, iub_text, line_text, octets_shown, pair_text, phy_text, place_text, unit_text, words_text};

use crate::page::Page;
use dch_bits::{Bit, Trit, bits_text, trits_text};
use dch_script::{Line, dir_word};
use dch_types::Dir;
use hex::encode_to_slice;
use itoa::Buffer;

/// How many bits, cells or octets become letters at a time.
const PART: usize = 1024;

/// Writes a number in decimal.
pub fn put_decimal<P: Page>(page: &mut P, number: u64)
    ensures { P.writes page.old (decimal number) page.new }
{
    page.put_text(Buffer::new().format(number).as_bytes());
}

/// Writes bits as letters, `.` for none.
pub fn put_bits<P: Page>(page: &mut P, bits: &[Bit])
    ensures { P.writes page.old (bits_shown bits.now) page.new }
{
    match bits {
        [] => page.put_text(b"."),
        [_, ..] => put_bit_letters(page, bits),
    }
}

fn put_bit_letters<P: Page>(page: &mut P, bits: &[Bit])
    ensures { P.writes page.old (map letter_of bits.now) page.new }
{
    let mut letters = [0; PART];
    let mut left = bits;
    'parts: while !left.is_empty() {
        let (part, rest) = left.split_at(left.len().min(PART));
        let out = &mut letters[..part.len()];
        bits_text(part, out);
        page.put_text(out);
        left = rest;
    }
}

/// Writes cells as letters, `.` for none.
pub fn put_cells<P: Page>(page: &mut P, cells: &[Trit])
    ensures { P.writes page.old (cells_shown cells.now) page.new }
{
    match cells {
        [] => page.put_text(b"."),
        [_, ..] => put_cell_letters(page, cells),
    }
}

fn put_cell_letters<P: Page>(page: &mut P, cells: &[Trit])
    ensures { P.writes page.old (map cell_letter cells.now) page.new }
{
    let mut letters = [0; PART];
    let mut left = cells;
    'parts: while !left.is_empty() {
        let (part, rest) = left.split_at(left.len().min(PART));
        let out = &mut letters[..part.len()];
        trits_text(part, out);
        page.put_text(out);
        left = rest;
    }
}

/// Writes octets in lower-case hexadecimal, `.` for none.
pub fn put_octets<P: Page>(page: &mut P, octets: &[u8])
    ensures { P.writes page.old (octets_shown octets.now) page.new }
{
    match octets {
        [] => page.put_text(b"."),
        [_, ..] => put_digits(page, octets),
    }
}

fn put_digits<P: Page>(page: &mut P, octets: &[u8])
    ensures { P.writes page.old (encode_lower octets.now) page.new }
{
    let mut letters = [0; 2 * PART];
    let mut left = octets;
    'parts: while !left.is_empty() {
        let (part, rest) = left.split_at(left.len().min(PART));
        let out = &mut letters[..2 * part.len()];
        hex_text(part, out);
        page.put_text(out);
        left = rest;
    }
}

/// Writes octets in lower-case hexadecimal.
fn hex_text(octets: &[u8], out: &mut [u8])
    requires { length out.old ≡ 2 * length octets.now }
    ensures { out.new ≡ encode_lower octets.now }
{
    match encode_to_slice(octets, out) {
        Ok(()) => {}
        Err(_) => unreachable!(),
    }
}

/// Writes a line, with its line feed.
pub fn put_line<P: Page>(page: &mut P, line: &Line<'_>)
    ensures { P.writes page.old (line_text line.now) page.new }
{
    put_words(page, line);
    page.put_text(b"\n");
}

/// Writes a line without its line feed.
fn put_words<P: Page>(page: &mut P, line: &Line<'_>)
    ensures { P.writes page.old (words_text line.now) page.new }
{
    match *line {
        Line::Open => page.put_text(b"open"),
        Line::Took { dir, bearer } => put_place(page, b"took ", dir, bearer),
        Line::Full { dir, bearer } => put_place(page, b"full ", dir, bearer),
        Line::Wrong { dir, bearer } => put_place(page, b"wrong ", dir, bearer),
        Line::Iub { dir, set, frame } => put_iub(page, dir, set, frame),
        Line::Phy { dir, tfci, cells } => put_phy(page, dir, tfci, cells),
        Line::PhyNone => page.put_text(b"phydown none"),
        Line::BadTti {
            dir,
            channel,
            frame,
        } => put_pair(page, b"badtti ", dir, channel, frame),
        Line::Bad {
            dir,
            channel,
            block,
        } => put_pair(page, b"bad ", dir, channel, block),
        Line::IubBad { dir, set, number } => put_pair(page, b"iubbad ", dir, set, number),
        Line::Reserved { dir, channel } => put_place(page, b"reserved ", dir, channel),
        Line::NoBearer { dir, channel, ct } => put_pair(page, b"nobearer ", dir, channel, ct),
        Line::Nobody { dir, channel } => put_place(page, b"nobody ", dir, channel),
        Line::PduBad {
            dir,
            bearer,
            number,
        } => put_pair(page, b"pdubad ", dir, bearer, number),
        Line::Outside { dir, bearer } => put_place(page, b"outside ", dir, bearer),
        Line::Overlong { dir, bearer } => put_place(page, b"overlong ", dir, bearer),
        Line::GotBits { dir, bearer, bits } => put_unit_bits(page, dir, bearer, bits),
        Line::GotOctets {
            dir,
            bearer,
            octets,
        } => put_unit_octets(page, dir, bearer, octets),
        Line::Differs { dir, channel } => put_place(page, b"false ", dir, channel),
        Line::Coded { bits } => put_coded(page, bits),
        Line::EndFrames(count) => put_count(page, b"end frames=", u128::from(count)),
        Line::EndLines(count) => put_count(page, b"end lines=", u128::from(count)),
        Line::Accepted(count) => put_count(page, b"accepted count=", count),
    }
}

/// The word of a direction.
fn put_dir<P: Page>(page: &mut P, dir: Dir)
    ensures { P.writes page.old (dir_word dir) page.new }
{
    page.put_text(dir_word(dir).as_bytes());
}

/// A small number in decimal.
fn put_small<P: Page>(page: &mut P, number: u8)
    ensures { P.writes page.old (decimal number) page.new }
{
    page.put_text(Buffer::new().format(number).as_bytes());
}

fn put_count<P: Page>(page: &mut P, word: &[u8], count: u128)
    ensures { P.writes page.old (word.now ++ decimal count) page.new }
{
    page.put_text(word);
    page.put_text(Buffer::new().format(count).as_bytes());
}

/// A word, a direction and a number.
#[tactic(auto, unfolding(dch_script::specs::Report::place_text))]
fn put_place<P: Page>(page: &mut P, word: &[u8], dir: Dir, number: u8)
    ensures { P.writes page.old (place_text word.now dir number) page.new }
{
    page.put_text(word);
    put_dir(page, dir);
    page.put_text(b" ");
    put_small(page, number);
}

/// The same, with one more number.
#[tactic(auto, unfolding(dch_script::specs::Report::pair_text))]
fn put_pair<P: Page>(page: &mut P, word: &[u8], dir: Dir, number: u8, more: u8)
    ensures { P.writes page.old (pair_text word.now dir number more) page.new }
{
    put_place(page, word, dir, number);
    page.put_text(b" ");
    put_small(page, more);
}

#[tactic(auto, unfolding(dch_script::specs::Report::iub_text))]
fn put_iub<P: Page>(page: &mut P, dir: Dir, set: u8, frame: &[u8])
    ensures { P.writes page.old (iub_text dir set frame.now) page.new }
{
    page.put_text(b"iub");
    put_dir(page, dir);
    page.put_text(b" ");
    put_small(page, set);
    page.put_text(b" ");
    put_octets(page, frame);
}

#[tactic(auto, unfolding(dch_script::specs::Report::phy_text))]
fn put_phy<P: Page>(page: &mut P, dir: Dir, tfci: &[Bit], cells: &[Trit])
    ensures { P.writes page.old (phy_text dir tfci.now cells.now) page.new }
{
    page.put_text(b"phy");
    put_dir(page, dir);
    page.put_text(b" ");
    put_bits(page, tfci);
    page.put_text(b" ");
    put_cells(page, cells);
}

#[tactic(auto, unfolding(dch_script::specs::Report::unit_text))]
fn put_unit_bits<P: Page>(page: &mut P, dir: Dir, bearer: u8, bits: &[Bit])
    ensures { P.writes page.old (unit_text dir bearer (bits_shown bits.now)) page.new }
{
    put_place(page, b"got ", dir, bearer);
    page.put_text(b" ");
    put_bits(page, bits);
}

#[tactic(auto, unfolding(dch_script::specs::Report::unit_text))]
fn put_unit_octets<P: Page>(page: &mut P, dir: Dir, bearer: u8, octets: &[u8])
    ensures { P.writes page.old (unit_text dir bearer (octets_shown octets.now)) page.new }
{
    put_place(page, b"got ", dir, bearer);
    page.put_text(b" ");
    put_octets(page, octets);
}

fn put_coded<P: Page>(page: &mut P, bits: &[Bit])
    ensures { P.writes page.old (codes "coded " ++ bits_shown bits.now) page.new }
{
    page.put_text(b"coded ");
    put_bits(page, bits);
}
