ghost use Rattle.std.specs.Prelude.{◌≡◌, ◌<◌, ◌≤◌, ◌*◌, ◌+◌, ℕ, length};
ghost use Rattle.dch_types.specs.Parts.{channel_at, format_number};
ghost use Rattle.dch_mac.specs.Table.{IsRow, IsTable, row_at};

use crate::moment::Moment;
use crate::row::Row;

/// The most formats of a channel.
const FORMATS: usize = 32;

/// The rows of 8 channels.
pub(crate) const ROWS: usize = 256;

/// A row that says nothing.
pub(crate) fn no_row() -> Row {
    Row {
        kept: false,
        found: false,
        idle: false,
        carried: [0; 8],
        bits: 0,
    }
}

impl Moment<'_> {
    /// Writes the rows of all formats.
    pub(crate) fn fill(&self, rows: &mut [Row])
        requires { length rows.old ≡ 256 }
        ensures { IsTable self.now rows.new }
    {
        for i in 0..self.channels().len() {
            self.fill_channel(i, rows);
        }
    }

    /// Writes the rows of the formats of channel `i`.
    fn fill_channel(&self, i: usize, rows: &mut [Row])
        requires channel { i < length self.now.side.channels }
        requires size { length rows.old ≡ 256 }
        ensures size { length rows.new ≡ 256 }
        ensures written { (f : ℕ) → f < length (channel_at self.now.side i).formats →
            IsRow self.now i f (row_at rows.new i f) }
        ensures earlier { (j f : ℕ) → j < i → f < 32 → row_at rows.new j f ≡ row_at rows.old j f }
    {
        for f in 0..self.formats(i) {
            rows[self.place_of_row(i, f)] = self.row(i, f);
        }
    }

    /// The row of the format of channel `i` in a combination.
    pub(crate) fn row_in<'r>(&self, rows: &'r [Row], combination: usize, i: usize) -> &'r Row
        requires table { IsTable self.now rows.now }
        requires combination { combination < length self.now.side.combinations }
        requires channel { i < length self.now.side.channels }
        ensures { IsRow self.now i (format_number self.now.side combination i) result.now }
    {
        let tfi = self.side.tfi(combination, i);
        &rows[self.place_of_row(i, usize::from(tfi))]
    }

    /// The place of the row of format `f` of channel `i`.
    fn place_of_row(&self, i: usize, f: usize) -> usize
        requires channel { i < length self.now.side.channels }
        requires format { f < length (channel_at self.now.side i).formats }
        ensures value { result ≡ i * 32 + f }
        ensures inside { result < 256 }
        ensures few { f < 32 }
    {
        let _channels = self.channels();
        let _formats = self.formats(i);
        i * FORMATS + f
    }
}
