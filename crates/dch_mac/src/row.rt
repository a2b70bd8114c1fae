ghost use Rattle.std.specs.Prelude.{◌≡◌, ◌<◌, length, true, false};
ghost use Rattle.dch_types.specs.Parts.{channel_at};
ghost use Rattle.dch_mac.specs.Asked.{starts};
ghost use Rattle.dch_mac.specs.Table.{IsRow};

use crate::carried::bits;
use crate::moment::Moment;

/// What a combination needs of a format of a channel.
#[derive(Clone, Copy)]
pub(crate) struct Row {
    /// Whether the channel starts, or keeps its format.
    pub(crate) kept: bool,
    /// Whether the channel finds its blocks, if it starts.
    pub(crate) found: bool,
    /// Whether the format is the idle one, if the channel starts.
    pub(crate) idle: bool,
    /// The bits carried for priorities 1 to 8, if the channel starts.
    pub(crate) carried: [u32; 8],
    /// The bits of the format.
    pub(crate) bits: u32,
}

impl Moment<'_> {
    /// The row of format `f` of channel `i`.
    pub(crate) fn row(&self, i: usize, f: usize) -> Row
        requires channel { i < length self.now.side.channels }
        requires format { f < length (channel_at self.now.side i).formats }
        ensures { IsRow self.now i f result }
    {
        if self.starts(i) {
            self.row_of_starting(i, f)
        } else {
            self.row_of_running(i, f)
        }
    }

    fn row_of_starting(&self, i: usize, f: usize) -> Row
        requires channel { i < length self.now.side.channels }
        requires format { f < length (channel_at self.now.side i).formats }
        requires starting { starts self.now i ≡ true }
        ensures { IsRow self.now i f result }
    {
        let format = self.format(i, f);
        let mut carried = [0; 8];
        let missing = self.carry(i, format, &mut carried);
        Row {
            kept: true,
            found: format.is_idle() || missing == 0,
            idle: f == self.idle(i),
            carried,
            bits: bits(u32::from(format.number), format.size),
        }
    }

    fn row_of_running(&self, i: usize, f: usize) -> Row
        requires channel { i < length self.now.side.channels }
        requires format { f < length (channel_at self.now.side i).formats }
        requires going { starts self.now i ≡ false }
        ensures { IsRow self.now i f result }
    {
        let format = self.format(i, f);
        let running = self.running as usize;
        Row {
            kept: f == usize::from(self.side.tfi(running, i)),
            found: true,
            idle: true,
            carried: [0; 8],
            bits: bits(u32::from(format.number), format.size),
        }
    }
}
