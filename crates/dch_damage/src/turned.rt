ghost use Rattle.std.specs.Prelude.{◌≡◌, ◌≤◌, length, slice_index_or, take};
ghost use Rattle.dch_damage.specs.Damage.{each_changed};
ghost use Rattle.dch_damage.specs.Tables.{turned_at};
ghost use Rattle.dch_damage.specs.Turns.{bit_after, cell_after, next_turned};

use dch_bits::{Bit, Trit};

/// How often a place of a radio frame is turned over.
#[derive(Clone, Copy)]
pub enum Turned {
    /// Not at all.
    Not,
    /// An odd number of times.
    Odd,
    /// An even number of times, twice at least.
    Even,
}

impl Turned {
    /// The same with one turn more.
    fn next(self) -> Turned
        ensures { result ≡ next_turned self }
    {
        match self {
            Turned::Not | Turned::Even => Turned::Odd,
            Turned::Odd => Turned::Even,
        }
    }

    /// What becomes of a bit.
    fn bit(self, bit: Bit) -> Bit
        ensures { result ≡ bit_after self bit }
    {
        match (self, bit) {
            (Turned::Odd, Bit::Zero) => Bit::One,
            (Turned::Odd, Bit::One) => Bit::Zero,
            (Turned::Not | Turned::Even, bit) => bit,
        }
    }

    /// What becomes of a cell. One in which nothing is sent becomes a One by the first turn.
    fn cell(self, cell: Trit) -> Trit
        ensures { result ≡ cell_after self cell }
    {
        match (self, cell) {
            (Turned::Not, cell) => cell,
            (Turned::Odd, Trit::One) | (Turned::Even, Trit::Zero | Trit::Off) => Trit::Zero,
            (Turned::Odd, Trit::Zero | Trit::Off) | (Turned::Even, Trit::One) => Trit::One,
        }
    }
}

/// Turns a place once more. A place past the end has no effect.
pub fn turn(table: &mut [Turned], place: usize)
    ensures { table.new ≡ turned_at table.old place }
{
    if place < table.len() {
        table[place] = table[place].next();
    }
}

/// Writes bits to the front of `out`, each turned as the table says.
pub fn turn_bits(table: &[Turned], bits: &[Bit], out: &mut [Bit])
    requires table { length bits.now ≤ length table.now }
    requires room { length bits.now ≤ length out.old }
    ensures { take (length bits.now) out.new ≡
        each_changed (λ place. bit_after (slice_index_or table.now place Turned.Not)) bits.now }
{
    for i in 0..bits.len() {
        out[i] = table[i].bit(bits[i]);
    }
}

/// Writes cells to the front of `out`, each turned as the table says.
pub fn turn_cells(table: &[Turned], cells: &[Trit], out: &mut [Trit])
    requires table { length cells.now ≤ length table.now }
    requires room { length cells.now ≤ length out.old }
    ensures { take (length cells.now) out.new ≡
        each_changed (λ place. cell_after (slice_index_or table.now place Turned.Not)) cells.now }
{
    for i in 0..cells.len() {
        out[i] = table[i].cell(cells[i]);
    }
}
