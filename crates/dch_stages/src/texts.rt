ghost use Rattle.dch_script.specs.Report.{bits_shown, cells_shown};
ghost use Rattle.dch_stages.specs.Texts.{named_text, numbered_text, placed_text};

use dch_bits::{Bit, Trit};
use dch_lines::{Page, put_bits, put_cells, put_decimal};

/// Adds `WORD BITS`.
pub fn put_named_bits<P: Page>(page: &mut P, word: &[u8], bits: &[Bit])
    ensures text { P.writes page.old (named_text word.now (bits_shown bits.now)) page.new }
{
    page.put_text(word);
    page.put_text(b" ");
    put_bits(page, bits);
    page.put_text(b"\n");
}

/// Adds `WORD CELLS`.
pub fn put_named_cells<P: Page>(page: &mut P, word: &[u8], cells: &[Trit])
    ensures text { P.writes page.old (named_text word.now (cells_shown cells.now)) page.new }
{
    page.put_text(word);
    page.put_text(b" ");
    put_cells(page, cells);
    page.put_text(b"\n");
}

/// Adds `WORD N BITS`.
pub fn put_numbered_bits<P: Page>(page: &mut P, word: &[u8], n: u64, bits: &[Bit])
    ensures text { P.writes page.old (numbered_text word.now n (bits_shown bits.now)) page.new }
{
    page.put_text(word);
    page.put_text(b" ");
    put_decimal(page, n);
    page.put_text(b" ");
    put_bits(page, bits);
    page.put_text(b"\n");
}

/// Adds `WORD N CELLS`.
pub fn put_numbered_cells<P: Page>(page: &mut P, word: &[u8], n: u64, cells: &[Trit])
    ensures text { P.writes page.old (numbered_text word.now n (cells_shown cells.now)) page.new }
{
    page.put_text(word);
    page.put_text(b" ");
    put_decimal(page, n);
    page.put_text(b" ");
    put_cells(page, cells);
    page.put_text(b"\n");
}

/// Adds `WORD I N CELLS`.
pub fn put_placed_cells<P: Page>(page: &mut P, word: &[u8], i: u64, n: u64, cells: &[Trit])
    ensures text { P.writes page.old (placed_text word.now i n (cells_shown cells.now)) page.new }
{
    page.put_text(word);
    page.put_text(b" ");
    put_decimal(page, i);
    page.put_text(b" ");
    put_decimal(page, n);
    page.put_text(b" ");
    put_cells(page, cells);
    page.put_text(b"\n");
}
