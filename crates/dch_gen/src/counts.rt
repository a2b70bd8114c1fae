ghost use Rattle.std.specs.Prelude.{◌≡◌, ◌<◌, ◌≤◌, ◌+◌, ◌==◌, ◌&&◌, ◌^◌, ◌∷◌, ℕ, [], true, count_by, length, slice_index};
ghost use Rattle.dch_indication.specs.Told.{line_of};
ghost use Rattle.dch_script.specs.LineText.{text_of};
ghost use Rattle.dch_gen.specs.Counts.{is_one, same_dir};
ghost use Rattle.dch_gen.specs.Counting.{AreCountsOf, CountsLine, HasDirRoom, HasRoom, ShowsCounts, one_if};

use dch_bits::Trit;
use dch_indication::{Indication, Indications};
use dch_types::Dir;

/// How many bearers are counted, from bearer 0 on.
pub const BEARERS: usize = 6;

/// What is counted of a direction.
#[derive(Clone, Copy)]
pub struct DirCounts {
    /// Units that were accepted, by bearer.
    pub took: [u64; BEARERS],
    /// Units that were handed up, by bearer.
    pub got: [u64; BEARERS],
    /// Cells of the radio frames that were sent, those without transmission among them.
    pub cells: u64,
    /// Cells with a one.
    pub ones: u64,
}

/// What is counted of both directions, by what nodes tell.
#[derive(Clone, Copy)]
pub struct Counts {
    pub up: DirCounts,
    pub down: DirCounts,
    /// Whether no count has become too large.
    pub is_exact: bool,
}

impl Counts {
    /// Nothing is counted yet.
    pub fn new() -> Self
        ensures none { AreCountsOf [] result }
        ensures exact { result.is_exact ≡ true }
        ensures room { (more : ℕ) → more < 2 ^ 64 → HasRoom result more }
    {
        let none = DirCounts {
            took: [0; BEARERS],
            got: [0; BEARERS],
            cells: 0,
            ones: 0,
        };
        Counts {
            up: none,
            down: none,
            is_exact: true,
        }
    }
}

impl Indications for Counts {
    ghost shows = { ShowsCounts };

    fn indicate(&mut self, it: Indication<'_>) {
        let up = self.up.count(Dir::Up, &it);
        let down = self.down.count(Dir::Down, &it);
        self.is_exact = self.is_exact && up && down;
    }
}

impl DirCounts {
    /// Counts an indication, where it is one of this direction. Answers whether no count has become too large.
    fn count(&mut self, dir: Dir, it: &Indication<'_>) -> bool
        ensures counts { result ≡ true → CountsLine dir (line_of it.now) self.old self.new }
        ensures exact { HasDirRoom self.old (length (text_of (line_of it.now ∷ []))) → result ≡ true }
    {
        match *it {
            Indication::Took { dir: of, bearer } => {
                count_one(&mut self.took, is_same(of, dir), bearer)
            }
            Indication::Got {
                dir: of,
                bearer,
                ..
            } => count_one(&mut self.got, is_same(of, dir), bearer),
            Indication::GotBits {
                dir: of,
                bearer,
                ..
            } => count_one(&mut self.got, is_same(of, dir), bearer),
            Indication::Phy { dir: of, cells, .. } if is_same(of, dir) => self.count_cells(cells),
            _ => true,
        }
    }

    /// Counts the cells of a radio frame. Answers whether no count has become too large.
    fn count_cells(&mut self, cells: &[Trit]) -> bool
        ensures cells { result ≡ true → self.new ≡ record self.old {
          cells = self.old.cells + length cells.now;
          ones = self.old.ones + count_by is_one cells.now;
        } }
        ensures exact { self.old.cells + length cells.now < 2 ^ 64 → self.old.ones + length cells.now < 2 ^ 64 →
            result ≡ true }
    {
        let ones = count_ones(cells) as u64;
        match (
            self.cells.checked_add(cells.len() as u64),
            self.ones.checked_add(ones),
        ) {
            (Some(all), Some(ones)) => {
                self.cells = all;
                self.ones = ones;
                true
            }
            _ => false,
        }
    }
}

/// Counts one more for a bearer, where it is one that is counted and the direction is this one. Answers whether the
/// count has not become too large.
fn count_one(counts: &mut [u64], is_same: bool, bearer: u8) -> bool
    requires { length counts.old ≡ 6 }
    ensures counts { result ≡ true → (b : ℕ) → b < 6 →
        slice_index counts.new b ≡ slice_index counts.old b + one_if (is_same && (bearer == b)) }
    ensures exact { ((b : ℕ) → b < 6 → slice_index counts.old b + 1 < 2 ^ 64) → result ≡ true }
{
    let place = usize::from(bearer);
    if !is_same || place >= counts.len() {
        return true;
    }
    match counts[place].checked_add(1) {
        Some(count) => {
            counts[place] = count;
            true
        }
        None => false,
    }
}

/// Whether two directions are the same.
fn is_same(a: Dir, b: Dir) -> bool
    ensures { result ≡ same_dir a b }
{
    match a {
        Dir::Up => match b {
            Dir::Up => true,
            Dir::Down => false,
        },
        Dir::Down => match b {
            Dir::Up => false,
            Dir::Down => true,
        },
    }
}

/// How many cells are ones. They are counted 128 at a time, in eight bits.
fn count_ones(cells: &[Trit]) -> usize
    ensures value { result ≡ count_by is_one cells.now }
    ensures few { result ≤ length cells.now }
{
    let many = cells.len() / 128;
    let mut ones = 0;
    for c in 0..many {
        ones += usize::from(count_few(&cells[128 * c..128 * c + 128]));
    }
    ones + usize::from(count_few(&cells[128 * many..]))
}

/// How many of a few cells are ones.
fn count_few(cells: &[Trit]) -> u8
    requires { length cells.now ≤ 128 }
    ensures { result ≡ count_by is_one cells.now }
{
    let mut ones = 0;
    for k in 0..cells.len() {
        ones += u8::from(cells[k] == Trit::One);
    }
    ones
}
