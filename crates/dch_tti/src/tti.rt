ghost use Rattle.std.specs.Prelude.{◌≡◌, ◌+◌, ◌*◌, ◌<◌, ◌≤◌, ◌↔◌, ℕ, List, Bool, length, take, slice_index_or, false, IsTrue};
ghost use Rattle.dch_bits.specs.declared.bit.Bit.{Bit};
ghost use Rattle.dch_bits.specs.declared.bit.Vote.{Vote};
ghost use Rattle.dch_types.specs.Lengths.{crc_size, joined_bits, tti_bits};
ghost use Rattle.dch_coding.specs.Parity.{IsAttached};
ghost use Rattle.dch_accept.specs.Blocks.{Held, bits_of};
ghost use Rattle.dch_coding.specs.Rooms.{searched_bits};
ghost use Rattle.dch_coding.specs.Ttis.{part};
ghost use Rattle.dch_tti.specs.Corrected.{ReadsCorrectable};
ghost use Rattle.dch_tti.specs.Received.{IsReceived};

use crate::decoder::{Decoder, decode_front};
use crate::transport::received;
use dch_accept::TtiBlocks;
use dch_bits::{Bit, Vote};
use dch_types::{Crc, Format, Trch};

impl Decoder {
    /// Reads the transport blocks of a TTI of a channel, in format `number`, from the votes for its coded bits
    /// (TS 25.212 4.2.1 to 4.2.3). A block is good exactly where its parity fits. The blocks are those that were sent
    /// where of each code block the wrong copies twice and the missing ones once are less than the copies in which two
    /// blocks differ.
    pub fn read(
        &mut self,
        channel: &Trch,
        number: u8,
        format: &Format,
        votes: &[Vote],
        out: &mut TtiBlocks,
    )
        requires blocks { format.now.number ≤ 64 }
        requires room { bits_of format.now ≤ out.old.room }
        requires coded { length votes.now ≡ tti_bits channel.now format.now }
        requires short { length votes.now ≤ 131072 }
        requires fits { length votes.now ≤ self.old.bits }
        requires block { searched_bits channel.now.coding (joined_bits channel.now format.now) ≤ self.old.code_block }
        requires few { (j : ℕ) (v : Vote) → j < length votes.now →
            (slice_index_or votes.now j v).zeros + (slice_index_or votes.now j v).ones ≤ 460800 }
        ensures read { IsReceived channel.now number format.now votes.now out.new }
        ensures corrected { ReadsCorrectable channel.now format.now votes.now out.new }
        ensures room { out.new.room ≡ out.old.room }
        ensures kept { self.new ≡ self.old }
    {
        let len = channel.joined_bits(format) as usize;
        decode_front(
            &mut self.trellis,
            &mut self.blocks,
            channel.coding,
            votes,
            len,
            &mut self.joined,
        );
        let joined = &self.joined[..len];
        let size = usize::from(format.size);
        out.resize(number, format);
        write_blocks(
            channel.crc,
            size,
            usize::from(format.number),
            joined,
            out.bits_mut(),
        );
        mark_blocks(channel.crc, size, joined, out);
    }
}

/// Writes the blocks of joined bits one after another, without their parity.
fn write_blocks(crc: Crc, size: usize, count: usize, joined: &[Bit], out: &mut [Bit])
    requires joined { length joined.now ≡ count * (size + crc_size crc) }
    requires room { length out.old ≡ count * size }
    ensures { (i : ℕ) → i < count → part i size out.new ≡ take size (part i (size + crc_size crc) joined.now) }
{
    for i in 0..count {
        let to = i * size;
        out[to..to + size].copy_from_slice(received(crc, size, joined, i).bits);
    }
}

/// Marks the blocks whose parity fits as good, and the others as bad.
fn mark_blocks(crc: Crc, size: usize, joined: &[Bit], out: &mut TtiBlocks)
    requires joined { length joined.now ≡ length out.old.good * (size + crc_size crc) }
    ensures marks { (i : ℕ) → i < length out.new.good →
        IsTrue (slice_index_or out.new.good i false) ↔
        IsAttached crc (take size (part i (size + crc_size crc) joined.now)) (part i (size + crc_size crc) joined.now) }
    ensures same { out.new ≡ record out.old { good = out.new.good } }
    ensures count { length out.new.good ≡ length out.old.good }
{
    for i in 0..out.count() {
        out.mark(i, received(crc, size, joined, i).good);
    }
}
