ghost use Rattle.std.specs.Prelude.{◌≡◌, ◌<◌, ◌==◌, ◌&&◌, length};
ghost use Rattle.dch_types.specs.Parts.{side_of, channel_number};
ghost use Rattle.dch_config.specs.Bearers.{names};
ghost use Rattle.dch_config.specs.Good.{IsGood};
ghost use Rattle.dch_mac.specs.Asked.{priority_of, starts};
ghost use Rattle.dch_mac.specs.Best.{IsBest};
ghost use Rattle.dch_layer2.specs.Starting.{is_on};
ghost use Rattle.dch_layer2.specs.Sharing.{AreHeads, asked_by, head_in};

use crate::bearer::Bearer;
use dch_accept::Accepted;
use dch_mac::{Chooser, Head};
use dch_types::{Config, Dir, starts};
use std::marker::Model;

/// A radio frame at which TTIs start, with what each bearer offers and which combinations are blocked.
#[derive(Drop)]
pub(crate) struct Moment<'a> {
    pub(crate) accepted: &'a Accepted,
    pub(crate) out: Dir,
    pub(crate) cfn: u8,
    pub(crate) running: u16,
    pub(crate) heads: &'a [Head],
    pub(crate) blocked: &'a [bool],
}

impl<'a> Model for Moment<'a> {
    ghost use Rattle.dch_layer2.specs.Sharing.{IsMoment, Moment};

    ghost Value = { Moment };

    ghost view = { λ m. record {
      config = m.accepted.now.config;
      out = m.out;
      cfn = m.cfn;
      running = m.running;
      heads = m.heads.now;
      blocked = m.blocked.now;
    } };

    ghost invariant = { λ m. IsMoment (record {
      config = m.accepted.now.config;
      out = m.out;
      cfn = m.cfn;
      running = m.running;
      heads = m.heads.now;
      blocked = m.blocked.now;
    }) };
}

impl Moment<'_> {
    /// The combination that is chosen.
    pub(crate) fn choose(&self, chooser: &mut Chooser) -> u16
        ensures { IsBest (asked_by self.now) result }
    {
        chooser.choose(
            self.accepted,
            self.out,
            self.cfn,
            self.running,
            self.heads,
            self.blocked,
        )
    }

    /// The configuration, which keeps all limits.
    pub(crate) fn config(&self) -> &Config
        ensures value { result.now ≡ self.now.config }
        ensures good { IsGood result.now }
    {
        self.accepted.config()
    }

    /// What a bearer offers.
    pub(crate) fn head(&self, b: usize) -> Head
        requires { b < length self.now.config.bearers }
        ensures { result ≡ head_in self.now.heads b }
    {
        head_of(self.heads, b)
    }

    /// Whether a TTI of a channel starts.
    pub(crate) fn starts(&self, channel: u8) -> bool
        requires { channel < length (side_of self.now.config self.now.out).channels }
        ensures { result ≡ starts (asked_by self.now) channel }
    {
        starts(self.accepted.channel(self.out, channel).frames, self.cfn)
    }

    /// Whether a bearer is on a channel and has this priority.
    pub(crate) fn is_turn(&self, b: usize, channel: u8, priority: u8) -> bool
        requires { b < length self.now.config.bearers }
        ensures { result ≡ (priority_of (asked_by self.now) b == priority && is_on (asked_by self.now) channel b) }
    {
        let bearer = &self.config().bearers.as_slice()[b];
        bearer.priority == priority && is_on(bearer, self.out, channel)
    }
}

fn head_of(heads: &[Head], b: usize) -> Head
    requires { b < length heads.now }
    ensures { result ≡ head_in heads.now b }
{
    heads[b]
}

/// Whether a bearer has a channel in a direction.
fn is_on(bearer: &dch_types::Bearer, dir: Dir, channel: u8) -> bool
    ensures { result ≡ names (channel_number dir bearer.now) channel }
{
    match bearer.channel(dir) {
        None => false,
        Some(on) => on == channel,
    }
}

/// What each bearer offers.
pub(crate) fn take_heads(bearers: &[Bearer], heads: &mut [Head])
    requires { length heads.old ≡ length bearers.now }
    ensures { AreHeads (length bearers.now) bearers.now heads.new }
{
    for b in 0..bearers.len() {
        heads[b] = bearers[b].head();
    }
}
