ghost use Rattle.std.specs.Prelude.{◌≡◌, ◌<◌, ◌≤◌, ◌==◌, length, position, unwrap_or};
ghost use Rattle.dch_types.specs.Limits.{IsChannel, is_idle, idle_format};
ghost use Rattle.dch_types.specs.Parts.{channel_at, format_at};
ghost use Rattle.dch_mac.specs.Asked.{IsAsked, starts};
ghost use Rattle.dch_mac.specs.Offered.{offered, fits};
ghost use Rattle.dch_mac.specs.Table.{format_of};

use crate::head::Head;
use dch_types::{Bearer, Dir, Format, Side, Trch, starts};
use std::marker::Model;

/// A radio frame for which a combination is chosen.
#[derive(Drop)]
pub(crate) struct Moment<'a> {
    pub(crate) dir: Dir,
    pub(crate) side: &'a Side,
    pub(crate) bearers: &'a [Bearer],
    pub(crate) cfn: u8,
    pub(crate) running: u16,
    pub(crate) offers: &'a [Head],
    pub(crate) blocked: &'a [bool],
}

impl<'a> Model for Moment<'a> {
    ghost use Rattle.dch_mac.specs.Asked.{Asked, IsAsked};

    ghost Value = { Asked };

    ghost view = { λ m. record {
      dir = m.dir;
      side = m.side.now;
      bearers = m.bearers.now;
      cfn = m.cfn;
      running = m.running;
      offers = m.offers.now;
      blocked = m.blocked.now;
    } };

    ghost invariant = { λ m. IsAsked (record {
      dir = m.dir;
      side = m.side.now;
      bearers = m.bearers.now;
      cfn = m.cfn;
      running = m.running;
      offers = m.offers.now;
      blocked = m.blocked.now;
    }) };
}

impl Moment<'_> {
    /// The channels of the direction.
    pub(crate) fn channels(&self) -> &[Trch]
        ensures value { result.now ≡ self.now.side.channels }
        ensures few { length result.now ≤ 8 }
        ensures asked { IsAsked self.now }
    {
        self.side.channels.as_slice()
    }

    /// Whether a TTI of channel `i` starts.
    pub(crate) fn starts(&self, i: usize) -> bool
        requires { i < length self.now.side.channels }
        ensures { result ≡ starts self.now i }
    {
        starts(self.side.channel(i).frames, self.cfn)
    }

    /// The number of formats of channel `i`.
    pub(crate) fn formats(&self, i: usize) -> usize
        requires { i < length self.now.side.channels }
        ensures value { result ≡ length (channel_at self.now.side i).formats }
        ensures few { result ≤ 32 }
    {
        self.side.channel(i).formats.len()
    }

    /// Format `f` of channel `i`.
    pub(crate) fn format(&self, i: usize, f: usize) -> Format
        requires channel { i < length self.now.side.channels }
        requires format { f < length (channel_at self.now.side i).formats }
        ensures value { result ≡ format_of self.now i f }
        ensures few { result.number ≤ 64 }
        ensures short { result.size ≤ 5000 }
    {
        *self.side.channel(i).format(f)
    }

    /// The number of the idle format of channel `i`.
    pub(crate) fn idle(&self, i: usize) -> usize
        requires { i < length self.now.side.channels }
        ensures { result ≡ idle_format (channel_at self.now.side i) }
    {
        self.side.channel(i).idle_format()
    }

    /// The blocks of this size that a bearer has for channel `i`.
    #[tactic(auto, unfolding(crate::specs::Offered::offered))]
    pub(crate) fn offered(&self, i: usize, size: u16, bearer: usize) -> u16
        requires { bearer < length self.now.bearers }
        ensures { result ≡ offered self.now i size bearer }
    {
        if self.fits(i, size, bearer) {
            self.offers[bearer].count
        } else {
            0
        }
    }

    fn fits(&self, i: usize, size: u16, bearer: usize) -> bool
        requires { bearer < length self.now.bearers }
        ensures { result ≡ fits self.now i size bearer }
    {
        let number = match self.dir {
            Dir::Up => self.bearers[bearer].up,
            Dir::Down => self.bearers[bearer].down,
        };
        match number {
            None => false,
            Some(channel) => channel as usize == i && self.offers[bearer].size == size,
        }
    }
}
