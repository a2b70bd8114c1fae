ghost use Rattle.std.specs.Prelude.{◌≡◌, ◌<◌, ◌≤◌, ◌*◌, ℕ, List, length, slice_index_or};
ghost use Rattle.dch_bits.specs.declared.bit.Trit.{Trit};
ghost use Rattle.dch_bits.specs.declared.bit.Trit.TheVariants.{Off};
ghost use Rattle.dch_types.specs.declared.channel.Dir.{Dir};
ghost use Rattle.dch_types.specs.Parts.{side_of};
ghost use Rattle.dch_accept.specs.Cells.{frame_cells};
ghost use Rattle.dch_accept.specs.Frames.{IsOpenedFor};
ghost use Rattle.dch_accept.specs.Plans.{Planned};
ghost use Rattle.dch_tti.specs.Frames.{IsFrameOf, multiplexed_place};
ghost use Rattle.dch_tti.specs.Loaded.{AreFormats, Loaded};

use crate::tti_buffer::TtiBuffer;
use dch_accept::{Accepted, PhyFrame};
use dch_bits::Trit;
use dch_tfci::send;
use dch_types::Dir;

/// How a direction multiplexes the radio frames of the TTIs that are loaded of its channels (TS 25.212 4.2.8).
pub trait MultiplexFrame {
    ghost dir: { Dir };

    // The loaded TTIs are those of the direction's channels.
    ghost fits: { Planned → List Loaded → Type 0 };

    // The cell at a place of the multiplexed frame of a CFN in a combination.
    ghost cell: { Planned → List Loaded → ℕ → ℕ → ℕ → Trit };

    /// The direction.
    fn dir() -> Dir
        ensures { result ≡ dir };

    /// Writes the multiplexed cells of the radio frame of a CFN in a combination.
    fn multiplex(
        accepted: &Accepted,
        tti_buffers: &[TtiBuffer],
        cfn: u8,
        combination: u16,
        out: &mut [Trit],
    )
        requires opened { fits accepted.now tti_buffers.now }
        requires combination { combination < length (side_of accepted.now.config dir).combinations }
        requires formats { AreFormats (side_of accepted.now.config dir) combination tti_buffers.now }
        requires room { length out.old ≡ frame_cells accepted.now dir combination }
        requires small { length out.old ≤ 57600 }
        ensures { (p : ℕ) → p < length out.new → slice_index_or out.new p Off ≡
            cell accepted.now tti_buffers.now cfn combination p };
}

/// Writes the radio frame of a CFN in a combination: its TFCI, and the multiplexed cells after the second interleaver
/// (TS 25.212 4.2.11, 4.3.3, 4.3.5).
pub fn write_frame<T: MultiplexFrame>(
    accepted: &Accepted,
    tti_buffers: &[TtiBuffer],
    cfn: u8,
    combination: u16,
    out: &mut PhyFrame,
)
    requires opened { T.fits accepted.now tti_buffers.now }
    requires frame { IsOpenedFor accepted.now.config T.dir out.old }
    requires combination { combination < length (side_of accepted.now.config T.dir).combinations }
    requires formats { AreFormats (side_of accepted.now.config T.dir) combination tti_buffers.now }
    ensures written { IsFrameOf accepted.now T.dir (T.cell accepted.now tti_buffers.now cfn combination)
        combination out.new }
    ensures frame { IsOpenedFor accepted.now.config T.dir out.new }
{
    // A direction has at most 128 combinations.
    let dir = T::dir();
    let _side = accepted.side(dir);
    out.resize(accepted.frame_cells(dir, combination));
    send(combination, out.tfci_mut());
    write_cells::<T>(accepted, tti_buffers, cfn, combination, out.workspace_mut());
}

/// Writes the cells of a radio frame, by way of the multiplexed cells behind them.
fn write_cells<T: MultiplexFrame>(
    accepted: &Accepted,
    tti_buffers: &[TtiBuffer],
    cfn: u8,
    combination: u16,
    out: &mut [Trit],
)
    requires opened { T.fits accepted.now tti_buffers.now }
    requires combination { combination < length (side_of accepted.now.config T.dir).combinations }
    requires formats { AreFormats (side_of accepted.now.config T.dir) combination tti_buffers.now }
    requires room { length out.old ≡ 2 * frame_cells accepted.now T.dir combination }
    ensures { (k : ℕ) → k < frame_cells accepted.now T.dir combination →
        slice_index_or out.new k Off ≡
        T.cell accepted.now tti_buffers.now cfn combination (multiplexed_place accepted.now T.dir combination k) }
{
    // It has at most 57,600 cells.
    let dir = T::dir();
    let _most = accepted.most_cells(dir);
    let (cells, stream) = out.split_at_mut(accepted.frame_cells(dir, combination));
    T::multiplex(accepted, tti_buffers, cfn, combination, stream);
    accepted.interleaver(dir, combination).write(stream, cells);
}
