ghost use Rattle.std.specs.Prelude.{◌≡◌, ◌<◌, ◌≤◌, drop, false, length, slice_index_or};
ghost use Rattle.dch_types.specs.Parts.{channel_at, side_of};
ghost use Rattle.dch_accept.specs.Blocks.{block_at};
ghost use Rattle.dch_accept.specs.HeldSets.{HasFormat};
ghost use Rattle.dch_types.specs.declared.config.Config.{Config};
ghost use Rattle.dch_indication.specs.Told.{Told};
ghost use Rattle.dch_mac.specs.Receivers.{receiver};
ghost use Rattle.dch_layer2.specs.Hearing.{hears};
ghost use Rattle.dch_layer2.specs.Layers.{Layer, goes, takes, takes_good, takes_one, with_bearing};
ghost use Rattle.dch_layer2.specs.BearerStanding.{CanTake};
ghost use Rattle.dch_layer2.specs.Coming.{IsBlockSize, came_of};
ghost use Rattle.dch_layer2.specs.Standing.{IsLayerOf, IsSameEnd, Represents};
ghost use Rattle.dch_layer2.specs.Values.{entity_at};

use crate::layer::Layer2;
use dch_accept::{Accepted, TtiBlocks};
use dch_bits::Bit;
use dch_indication::{Indication, Indications};
use dch_mac::{Demux, demux};

impl Layer2 {
    /// Takes the blocks of a TTI of a channel, in order: good ones go to their bearers, of bad ones the user is told.
    pub fn take<U: Indications>(
        &mut self,
        accepted: &Accepted,
        channel: u8,
        blocks: &TtiBlocks,
        user: &mut U,
    )
        requires channel { channel < length (side_of accepted.now.config self.old.into).channels }
        requires format { HasFormat (channel_at (side_of accepted.now.config self.old.into) channel) blocks.now }
        requires layer { IsLayerOf accepted.now.config self.old }
        ensures told { (layer : Layer) → Represents accepted.now.config layer self.old →
            Told U.shows user.old (takes accepted.now.config self.old.into channel 0 (came_of blocks.now)
            layer).lines user.new }
        ensures stands { (layer : Layer) → Represents accepted.now.config layer self.old →
            Represents accepted.now.config (takes accepted.now.config self.old.into channel 0 (came_of blocks.now)
            layer).layer self.new }
        ensures ends { IsSameEnd self.old self.new }
    {
        for k in 0..blocks.count() {
            self.take_one(accepted, channel, blocks, k, user);
        }
    }

    /// Takes block `k` of a TTI.
    fn take_one<U: Indications>(
        &mut self,
        accepted: &Accepted,
        channel: u8,
        blocks: &TtiBlocks,
        k: usize,
        user: &mut U,
    )
        requires channel { channel < length (side_of accepted.now.config self.old.into).channels }
        requires format { HasFormat (channel_at (side_of accepted.now.config self.old.into) channel) blocks.now }
        requires there { k < length blocks.now.good }
        requires layer { IsLayerOf accepted.now.config self.old }
        ensures told { (layer : Layer) → Represents accepted.now.config layer self.old →
            Told U.shows user.old (takes_one accepted.now.config self.old.into channel k (block_at blocks.now k)
            (slice_index_or blocks.now.good k false) layer).lines user.new }
        ensures stands { (layer : Layer) → Represents accepted.now.config layer self.old →
            Represents accepted.now.config (takes_one accepted.now.config self.old.into channel k
            (block_at blocks.now k) (slice_index_or blocks.now.good k false) layer).layer self.new }
        ensures ends { IsSameEnd self.old self.new }
    {
        // A format has at most 64 blocks.
        let _channel = accepted.channel(self.into, channel);
        if blocks.good(k) {
            self.take_good(accepted, channel, blocks.block(k), user);
        } else {
            user.indicate(Indication::Bad {
                dir: self.into,
                channel,
                block: k as u8,
            });
        }
    }

    /// Takes a good block of a channel: its bearer gets the PDU in it. A block without bits goes to nobody.
    fn take_good<U: Indications>(
        &mut self,
        accepted: &Accepted,
        channel: u8,
        bits: &[Bit],
        user: &mut U,
    )
        requires size { IsBlockSize accepted.now.config self.old.into channel (length bits.now) }
        requires layer { IsLayerOf accepted.now.config self.old }
        ensures told { (layer : Layer) → Represents accepted.now.config layer self.old →
            Told U.shows user.old (takes_good accepted.now.config self.old.into channel bits.now layer).lines user.new }
        ensures stands { (layer : Layer) → Represents accepted.now.config layer self.old →
            Represents accepted.now.config (takes_good accepted.now.config self.old.into channel bits.now layer).layer
            self.new }
        ensures ends { IsSameEnd self.old self.new }
    {
        if bits.is_empty() {
            return;
        }
        let to = demux(accepted, self.into, channel, bits);
        self.pass_on(accepted, channel, bits, to, user);
    }

    /// Passes a good block that has bits on to its receiver.
    fn pass_on<U: Indications>(
        &mut self,
        accepted: &Accepted,
        channel: u8,
        bits: &[Bit],
        to: Demux,
        user: &mut U,
    )
        requires some { 0 < length bits.now }
        requires receiver { to ≡ receiver accepted.now.config self.old.into channel bits.now }
        requires size { IsBlockSize accepted.now.config self.old.into channel (length bits.now) }
        requires layer { IsLayerOf accepted.now.config self.old }
        ensures told { (layer : Layer) → Represents accepted.now.config layer self.old →
            Told U.shows user.old (goes accepted.now.config self.old.into channel bits.now to layer).lines user.new }
        ensures stands { (layer : Layer) → Represents accepted.now.config layer self.old →
            Represents accepted.now.config (goes accepted.now.config self.old.into channel bits.now to layer).layer
            self.new }
        ensures ends { IsSameEnd self.old self.new }
    {
        match to {
            Demux::To { bearer, skip } => {
                // What a good configuration says of the bearer's PDUs.
                let _config = accepted.config();
                self.hear(bearer, skip, bits, user);
            }
            Demux::Reserved => user.indicate(Indication::Reserved {
                dir: self.into,
                channel,
            }),
            Demux::NoBearer(ct) => user.indicate(Indication::NoBearer {
                dir: self.into,
                channel,
                ct,
            }),
            Demux::Nobody => user.indicate(Indication::Nobody {
                dir: self.into,
                channel,
            }),
        }
    }

    /// A bearer gets the PDU behind so many bits of a block.
    #[tactic(auto, using(crate::proofs::Bits::heard_bits))]
    fn hear<U: Indications>(&mut self, bearer: u8, skip: u8, bits: &[Bit], user: &mut U)
        requires there { bearer < length self.old.bearers }
        requires unit { length self.old.unit ≡ 1500 }
        requires behind { skip ≤ length bits.now }
        requires comes { CanTake (entity_at self.old.bearers bearer) (length (drop skip bits.now)) }
        ensures told { (config : Config) (layer : Layer) → Represents config layer self.old →
            Told U.shows user.old (hears config self.old.into bearer (drop skip bits.now)
            (layer.bearings bearer)).lines user.new }
        ensures stands { (config : Config) (layer : Layer) → Represents config layer self.old →
            Represents config (with_bearing layer bearer (hears config self.old.into bearer (drop skip bits.now)
            (layer.bearings bearer)).bearing) self.new }
        ensures ends { IsSameEnd self.old self.new }
    {
        self.bearers[bearer as usize].take(&bits[skip as usize..], &mut self.unit, user);
    }
}
