ghost use Rattle.std.specs.Prelude.{◌≡◌, ◌<◌, ◌≤◌, ◌*◌, ℕ, length, slice_set, position, IfOk};
ghost use Rattle.dch_types.specs.declared.channel.Dir.{Dir};
ghost use Rattle.dch_types.specs.declared.config.Config.{Config};
ghost use Rattle.dch_types.specs.Limits.{IsChannel, IsSide, is_idle};
ghost use Rattle.dch_types.specs.Parts.{channel_at, side_of};
ghost use Rattle.dch_accept.specs.Blocks.{bits_of, HoldsFormats};
ghost use Rattle.dch_accept.specs.Padded.{IsUnpacked, format_octets};
ghost use Rattle.dch_accept.specs.HeldSets.{AreCleared, AreIdleFormats, AreQuiet, AreRooms, HasFormat, IsCleared, IsIdleOf, IsIdleSet, IsQuiet, IsSetOf, held_at};

use crate::accepted::Accepted;
use crate::blocks::{TtiBlocks, most_of_channel};
use dch_bits::NoMemory;
use dch_types::{Dir, Format, Side, Trch};
use std::alloc::Global;
use std::marker::Model;

/// The number of a channel's idle format, and that format.
#[derive(Clone, Copy)]
pub struct Idle {
    pub number: u8,
    pub format: Format,
}

/// The transport blocks of the channels of an Iub frame set, in one TTI of each (TS 25.427 6.2).
pub struct SetBlocks {
    set: u8,
    idle: Vec<Idle>,
    blocks: Vec<TtiBlocks>,
}

// By hand, so that whoever holds one drops it by one call.
impl Drop for SetBlocks {
    fn drop(self) {
        let SetBlocks {
            set: _set,
            idle: _idle,
            blocks: _blocks,
        } = self;
    }
}

impl Model for SetBlocks {
    ghost use Rattle.std.specs.Prelude.{◌≡◌, length};
    ghost use Rattle.dch_accept.specs.HeldSets.{AreQuiet, HeldSet};

    ghost Value = { HeldSet };

    ghost view = { λ b. record { set = b.set; idle = b.idle.items; blocks = b.blocks.items } };

    ghost invariant = { λ b. AreQuiet b.idle.items × (length b.blocks.items ≡ length b.idle.items) };
}

impl SetBlocks {
    /// Takes the memory for the TTIs of the channels of a set of a direction. Each channel has its idle format.
    pub fn open(
        alloc: Global,
        accepted: &Accepted,
        dir: Dir,
        set: u8,
    ) -> Result<SetBlocks, NoMemory>
        ensures { IfOk result (IsIdleSet accepted.now.config dir set) }
    {
        let side = accepted.config().side(dir);
        let idle = idle_formats(alloc, side, set)?;
        let blocks = rooms(alloc, side, set)?;
        let mut opened = SetBlocks { set, idle, blocks };
        opened.clear();
        Ok(opened)
    }

    /// The number of the set.
    pub fn set(&self) -> u8
        ensures { result ≡ self.now.set }
    {
        self.set
    }

    /// Gives each channel its idle format, whose blocks are zeros and good.
    pub fn clear(&mut self)
        ensures cleared { IsCleared self.old self.new }
        ensures idle { (config : Config) (dir : Dir) (set : ℕ) → IsSetOf config dir set self.old →
            IsIdleSet config dir set self.new }
    {
        clear_all(&self.idle, &mut self.blocks);
    }

    /// Takes a copy of a channel's blocks.
    pub fn add(&mut self, channel: u8, blocks: &TtiBlocks)
        requires channel { channel < length self.old.blocks }
        requires room { length blocks.now.bits ≤ (held_at self.old.blocks channel).room }
        ensures added { self.new ≡ record self.old {
          blocks =
              slice_set self.old.blocks channel (record blocks.now { room = (held_at self.old.blocks channel).room });
        } }
        ensures set { (config : Config) (dir : Dir) (set : ℕ) →
            HasFormat (channel_at (side_of config dir) channel) blocks.now →
            IsSetOf config dir set self.old → IsSetOf config dir set self.new }
    {
        self.blocks[channel as usize].copy_from(blocks);
    }

    /// The blocks of a channel.
    pub fn channel(&self, channel: u8) -> &TtiBlocks
        requires { channel < length self.now.blocks }
        ensures { result.now ≡ held_at self.now.blocks channel }
    {
        &self.blocks[channel as usize]
    }

    /// Takes the blocks of a channel, in format `number`, from octets in which each is padded to whole octets. All are
    /// good.
    pub fn unpack(&mut self, channel: u8, number: u8, format: &Format, octets: &[u8])
        requires channel { channel < length self.old.blocks }
        requires few { format.now.number ≤ 64 }
        requires room { bits_of format.now ≤ (held_at self.old.blocks channel).room }
        requires long { length octets.now ≡ format_octets format.now }
        ensures unpacked { IsUnpacked number format.now octets.now (held_at self.new.blocks channel) }
        ensures room { (held_at self.new.blocks channel).room ≡ (held_at self.old.blocks channel).room }
        ensures others { self.new ≡ record self.old {
          blocks =
              slice_set self.old.blocks channel (held_at self.new.blocks channel);
        } }
    {
        self.blocks[channel as usize].unpack(number, format, octets);
    }

    /// Marks block `i` of a channel as good or bad.
    pub fn mark(&mut self, channel: u8, i: usize, good: bool)
        requires channel { channel < length self.old.blocks }
        requires block { i < length (held_at self.old.blocks channel).good }
        ensures { self.new ≡ record self.old {
          blocks =
              slice_set self.old.blocks channel (record (held_at self.old.blocks channel)
              { good = slice_set (held_at self.old.blocks channel).good i good });
        } }
    {
        self.blocks[channel as usize].mark(i, good);
    }
}

/// Gives each channel its idle format.
fn clear_all(idle: &[Idle], blocks: &mut [TtiBlocks])
    requires quiet { AreQuiet idle.now }
    requires all { length blocks.old ≡ length idle.now }
    ensures cleared { AreCleared idle.now (length idle.now) blocks.new }
    ensures rooms { (i : ℕ) → i < length idle.now → (held_at blocks.new i).room ≡ (held_at blocks.old i).room }
{
    for i in 0..idle.len() {
        blocks[i].clear(idle[i].number, &idle[i].format);
    }
}

/// The idle formats of the channels of a set. Other channels have one without blocks.
fn idle_formats(alloc: Global, side: &Side, set: u8) -> Result<Vec<Idle>, NoMemory>
    requires { IsSide side.now }
    ensures { IfOk result (λ idle. AreIdleFormats side.now set (length side.now.channels) idle.items) }
{
    let mut idle = Vec::new(alloc);
    for i in 0..side.channels.len() {
        idle.push(idle_in(side.channel(i), set))?;
    }
    Ok(idle)
}

/// The idle format of a channel if it belongs to a set, or else one without blocks.
fn idle_in(channel: &Trch, set: u8) -> Idle
    requires { IsChannel channel.now }
    ensures quiet { IsQuiet result }
    ensures idle { channel.now.set ≡ set → IsIdleOf channel.now result }
{
    if channel.set == set {
        idle_of(channel)
    } else {
        Idle {
            number: 0,
            format: Format { number: 0, size: 0 },
        }
    }
}

fn idle_of(channel: &Trch) -> Idle
    requires { IsChannel channel.now }
    ensures quiet { IsQuiet result }
    ensures idle { IsIdleOf channel.now result }
{
    let at = first_idle(channel);
    Idle {
        number: at as u8,
        format: channel.formats.as_slice()[at],
    }
}

/// The first format of a channel in which no bit is sent.
fn first_idle(channel: &Trch) -> usize
    requires { IsChannel channel.now }
    ensures found { position is_idle channel.now.formats ≡ Some result }
    ensures inside { result < length channel.now.formats }
{
    match channel.first_idle() {
        Some(at) => at,
        None => 0,
    }
}

/// Room for the blocks of each channel of a set, and none for other channels.
fn rooms(alloc: Global, side: &Side, set: u8) -> Result<Vec<TtiBlocks>, NoMemory>
    requires { IsSide side.now }
    ensures { IfOk result (λ blocks. AreRooms side.now set (length side.now.channels) blocks.items) }
{
    let mut blocks = Vec::new(alloc);
    for i in 0..side.channels.len() {
        let room = room_in(side.channel(i), set);
        blocks.push(TtiBlocks::with_room(alloc, room)?)?;
    }
    Ok(blocks)
}

/// The most bits of a TTI of a channel if it belongs to a set, or else none.
fn room_in(channel: &Trch, set: u8) -> usize
    ensures { channel.now.set ≡ set → HoldsFormats channel.now (length channel.now.formats) result }
{
    if channel.set == set {
        most_of_channel(channel)
    } else {
        0
    }
}
