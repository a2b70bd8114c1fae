ghost use Rattle.std.specs.Prelude.{◌≡◌, ◌<◌, ◌≤◌, ◌+◌, ◌-◌, ℕ, length, true};
ghost use Rattle.dch_types.specs.declared.channel.Dir.{Dir};
ghost use Rattle.dch_types.specs.declared.config.Config.{Config};
ghost use Rattle.dch_types.specs.Parts.{side_of};
ghost use Rattle.dch_accept.specs.Blocks.{HoldsTtis};
ghost use Rattle.dch_mac.specs.Asked.{starts};
ghost use Rattle.dch_mac.specs.Candidates.{IsCandidate};
ghost use Rattle.dch_layer2.specs.Bearings.{Bearing};
ghost use Rattle.dch_layer2.specs.BearerStanding.{Represents as StandsFor};
ghost use Rattle.dch_layer2.specs.Sharing.{AreAllServed, AreReady, CanShare, Fills, Offers, asked_by, share};
ghost use Rattle.dch_layer2.specs.Started.{CanStart, HaveStarted, IsChannelStarted};

use crate::bearer::Bearer;
use crate::choosing::Moment;
use dch_accept::TtiBlocks;
use dch_mac::Head;
use dch_types::Format;

impl Moment<'_> {
    /// The channels that start get the blocks of a combination.
    pub(crate) fn start_all(
        &self,
        combination: u16,
        bearers: &mut [Bearer],
        given: &mut [TtiBlocks],
    )
        requires may { IsCandidate (asked_by self.now) combination }
        requires can { CanStart self.now bearers.old given.old }
        ensures { HaveStarted self.now combination (length (side_of self.now.config self.now.out).channels)
            bearers.old bearers.new given.old given.new }
    {
        // There are at most 8 channels.
        let _side = self.accepted.side(self.out);
        for i in 0..given.len() {
            if self.starts(i as u8) {
                self.start_channel(combination, i as u8, bearers, &mut given[i]);
            }
        }
    }

    /// A channel starts: it takes its format in a combination, and gets the blocks of its bearers.
    fn start_channel(
        &self,
        combination: u16,
        channel: u8,
        bearers: &mut [Bearer],
        blocks: &mut TtiBlocks,
    )
        requires there { channel < length (side_of self.now.config self.now.out).channels }
        requires starts { starts (asked_by self.now) channel ≡ true }
        requires may { IsCandidate (asked_by self.now) combination }
        requires room { HoldsTtis (side_of self.now.config self.now.out) blocks.old.room }
        requires can { CanShare self.now channel bearers.old }
        ensures all { length bearers.new ≡ length bearers.old }
        ensures started { (into : Dir) (bearings : ℕ → Bearing) → AreReady self.now channel into bearings bearers.old →
            IsChannelStarted self.now into combination channel bearings bearers.new blocks.new }
    {
        let side = self.config().side(self.out);
        let number = side.tfi(combination as usize, channel as usize);
        let format = *side.channel(channel as usize).format(number as usize);
        blocks.shape(self.accepted, self.out, channel, number);
        self.give(channel, format, bearers, blocks);
    }

    /// The bearers of a channel build its blocks, by priority and then by their numbers, each as many as it has of the
    /// size.
    fn give(&self, channel: u8, format: Format, bearers: &mut [Bearer], blocks: &mut TtiBlocks)
        requires can { CanShare self.now channel bearers.old }
        requires size { blocks.old.size ≡ format.size }
        requires count { length blocks.old.good ≡ format.number }
        ensures { AreAllServed self.now channel format bearers.old bearers.new blocks.old blocks.new }
    {
        // Priorities are 1 to 8.
        let _config = self.config();
        let mut built = 0;
        for q in 0..8u8 {
            for b in 0..bearers.len() {
                if self.is_turn(b, channel, q + 1) {
                    let head = self.head(b);
                    built = fill(head, format.size, built, &mut bearers[b], blocks);
                }
            }
        }
    }
}

/// A bearer builds blocks behind the first ones, as many as it has of this size. Answers how many are built then.
fn fill(head: Head, size: u16, from: usize, bearer: &mut Bearer, blocks: &mut TtiBlocks) -> usize
    requires there { from ≤ length blocks.old.good }
    requires size { blocks.old.size ≡ size }
    requires offers { Offers bearer.old head }
    ensures value { result ≡ from + share head size (length blocks.old.good - from) }
    ensures filled { (config : Config) (out into : Dir) (b : ℕ) (old : Bearing) →
        StandsFor config out into b old bearer.old →
        Fills config out into b (share head size (length blocks.old.good - from))
        from old bearer.new blocks.old blocks.new }
{
    let count = share(head, size, blocks.count() - from);
    for k in 0..count {
        bearer.build(blocks.block_mut(from + k));
    }
    from + count
}

/// How many blocks of a size a bearer builds where so many are left.
fn share(head: Head, size: u16, left: usize) -> usize
    ensures value { result ≡ share head size left }
    ensures few { result ≤ left }
{
    if head.size == size {
        usize::from(head.count).min(left)
    } else {
        0
    }
}
