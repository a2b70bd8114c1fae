ghost use Rattle.std.specs.Prelude.{◌≡◌, ◌<◌, ℕ, length};
ghost use Rattle.dch_types.specs.declared.channel.Dir.TheVariants.{Up};
ghost use Rattle.dch_types.specs.Parts.{channel_at};
ghost use Rattle.dch_accept.specs.Blocks.{HoldsTtis};
ghost use Rattle.dch_accept.specs.HeldSets.{HasFormat, IsSetOf, held_at};
ghost use Rattle.dch_iub.specs.Shape.{ForSet};
ghost use Rattle.dch_combine.specs.Combined.{IsCombinedBlock, IsCombinedTti, IsLeading};
ghost use Rattle.dch_combine.specs.Legs.{blocks_in};
ghost use Rattle.dch_combine.specs.Opened.{AreLegsOf};
ghost use Rattle.dch_combine.specs.Steps.{HaveChannel, HaveFrame, HaveFormats, IsSameBlock, IsSameShape};
ghost use Rattle.dch_combine.specs.Values.{frames_in};

use crate::leg::LegBuffer;
use crate::legs::{first_good_block, leading};
use dch_accept::{Accepted, SetBlocks, TtiBlocks};
use dch_types::Dir;

/// Combines block `b` of a channel: it is that of the lowest leg in the format of the leading leg whose block `b` is
/// good, and else that of the leading leg, and bad.
fn combine_block(
    accepted: &Accepted,
    legs: &[LegBuffer],
    channel: u8,
    lead: usize,
    b: usize,
    tti: &mut TtiBlocks,
)
    requires channels { HaveChannel channel legs.now }
    requires formats { HaveFormats (channel_at accepted.now.config.uplink.side channel) channel legs.now }
    requires leading { IsLeading (frames_in legs.now) channel lead }
    requires lead { lead < length legs.now }
    requires format { tti.old.format ≡ (blocks_in (frames_in legs.now lead) channel).format }
    requires tti { HasFormat (channel_at accepted.now.config.uplink.side channel) tti.old }
    requires block { b < length tti.old.good }
    ensures combined { IsCombinedBlock (frames_in legs.now) channel lead b tti.new }
    ensures before { (j : ℕ) → j < b → IsSameBlock j tti.old tti.new }
    ensures shape { IsSameShape tti.old tti.new }
{
    let good = first_good_block(legs, channel, tti.format(), b);
    let from = &legs[good.unwrap_or(lead)].blocks;
    tti.block_mut(b)
        .copy_from_slice(from.channel(channel).block(b));
    tti.mark(b, good.is_some());
}

/// Combines the blocks of a channel.
fn combine_channel(accepted: &Accepted, legs: &[LegBuffer], channel: u8, tti: &mut TtiBlocks)
    requires channel { channel < length accepted.now.config.uplink.side.channels }
    requires channels { HaveChannel channel legs.now }
    requires formats { HaveFormats (channel_at accepted.now.config.uplink.side channel) channel legs.now }
    requires frame { HaveFrame (frames_in legs.now) }
    requires room { HoldsTtis accepted.now.config.uplink.side tti.old.room }
    ensures combined { IsCombinedTti (frames_in legs.now) channel tti.new }
    ensures format { HasFormat (channel_at accepted.now.config.uplink.side channel) tti.new }
    ensures room { tti.new.room ≡ tti.old.room }
{
    let lead = leading(legs, channel);
    let format = legs[lead].blocks.channel(channel).format();
    tti.shape(accepted, Dir::Up, channel, format);
    for b in 0..tti.count() {
        combine_block(accepted, legs, channel, lead, b, tti);
    }
}

/// Combines the blocks of the channels of a set.
pub fn combine(
    accepted: &Accepted,
    set: u8,
    legs: &[LegBuffer],
    tti: &mut TtiBlocks,
    out: &mut SetBlocks,
)
    requires legs { AreLegsOf accepted.now.config set legs.now }
    requires frame { HaveFrame (frames_in legs.now) }
    requires room { HoldsTtis accepted.now.config.uplink.side tti.old.room }
    requires out { IsSetOf accepted.now.config Up set out.old }
    ensures combined { ForSet accepted.now.config.uplink.side set
        (λ i. IsCombinedTti (frames_in legs.now) i (held_at out.new.blocks i)) }
    ensures out { IsSetOf accepted.now.config Up set out.new }
    ensures room { tti.new.room ≡ tti.old.room }
{
    let side = accepted.side(Dir::Up);
    for i in 0..side.channels.len() {
        let channel = i as u8;
        if side.channel(i).set == set {
            combine_channel(accepted, legs, channel, tti);
            out.add(channel, tti);
        }
    }
}
