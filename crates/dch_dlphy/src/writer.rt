ghost use Rattle.std.specs.Prelude.{◌≡◌, ◌<◌, ◌≤◌, ◌+◌, ◌*◌, ◌^◌, ℕ, length, slice_index_or};
ghost use Rattle.dch_bits.specs.declared.bit.Trit.TheVariants.{Off};
ghost use Rattle.dch_types.specs.declared.channel.Dir.TheVariants.{Down};
ghost use Rattle.dch_accept.specs.Frames.{IsOpenedFor};
ghost use Rattle.dch_tti.specs.Loaded.{AreFormats};
ghost use Rattle.dch_dlphy.specs.Loaded.{IsTtiOf};
ghost use Rattle.dch_dlphy.specs.Frames.{IsFrame, bits_per_frame, sent_cell};

use crate::fill::leave_off;
use crate::parts::bits_in_frame;
use crate::tti::DlTti;
use dch_accept::{Accepted, PhyFrame};
use dch_bits::Trit;
use dch_tti::{MultiplexFrame, TtiBuffer, write_frame};
use dch_types::Dir;

/// Writes the radio frame of a CFN in a combination: its TFCI, and of each channel the radio frame of its TTI that is
/// on (TS 25.212 4.2.6 to 4.2.12, 4.3.3, 4.3.5).
pub fn write(accepted: &Accepted, tti: &DlTti, cfn: u8, combination: u16, out: &mut PhyFrame)
    requires opened { IsTtiOf accepted.now tti.now }
    requires frame { IsOpenedFor accepted.now.config Down out.old }
    requires combination { combination < length accepted.now.config.downlink.side.combinations }
    requires formats { AreFormats accepted.now.config.downlink.side combination tti.now }
    ensures written { IsFrame accepted.now tti.now cfn combination out.new }
    ensures frame { IsOpenedFor accepted.now.config Down out.new }
{
    write_frame::<DlTti>(accepted, tti.tti_buffers(), cfn, combination, out);
}

/// The channels' cells follow one another. Nothing is sent in the places past the last of them (the second insertion of
/// DTX indications, TS 25.212 4.2.9.2).
impl MultiplexFrame for DlTti {
    ghost use Rattle.dch_types.specs.declared.channel.Dir.TheVariants.{Down};
    ghost use Rattle.dch_dlphy.specs.Frames.{multiplexed};
    ghost use Rattle.dch_dlphy.specs.Loaded.{IsTtiOf};

    ghost dir = { Down };

    ghost fits = { IsTtiOf };

    ghost cell = { multiplexed };

    fn dir() -> Dir {
        Dir::Down
    }

    fn multiplex(
        accepted: &Accepted,
        tti_buffers: &[TtiBuffer],
        cfn: u8,
        combination: u16,
        out: &mut [Trit],
    ) {
        let channels = accepted.config().downlink.side.channels.len();
        let mut at = 0;
        for i in 0..channels {
            let end = at + bits_in_frame(accepted, combination, i as u8);
            write_channel(
                accepted,
                tti_buffers,
                cfn,
                combination,
                i as u8,
                &mut out[at..end],
            );
            at = end;
        }
        let (_sent, rest) = out.split_at_mut(at);
        leave_off(rest);
    }
}

/// Writes what a channel sends: the segment of one radio frame.
fn write_channel(
    accepted: &Accepted,
    tti_buffers: &[TtiBuffer],
    cfn: u8,
    combination: u16,
    i: u8,
    out: &mut [Trit],
)
    requires opened { IsTtiOf accepted.now tti_buffers.now }
    requires combination { combination < length accepted.now.config.downlink.side.combinations }
    requires formats { AreFormats accepted.now.config.downlink.side combination tti_buffers.now }
    requires channel { i < length accepted.now.config.downlink.side.channels }
    requires room { length out.old ≡ bits_per_frame accepted.now combination i }
    ensures { (q : ℕ) → q < length out.new → slice_index_or out.new q Off ≡
        sent_cell accepted.now tti_buffers.now cfn combination i q }
{
    // A combination names a format of each channel.
    let _side = accepted.side(Dir::Down);
    let n = cfn % accepted.frames_of(Dir::Down, i);
    copy_segment(tti_buffers[i as usize].cells(), n, out);
}

/// Copies the cells of radio frame `n` of a TTI whose frames have so many cells as `out`.
fn copy_segment(cells: &[Trit], n: u8, out: &mut [Trit])
    requires { n * length out.old + length out.old ≤ length cells.now }
    ensures { (q : ℕ) → q < length out.new → slice_index_or out.new q Off ≡
        slice_index_or cells.now (n * length out.new + q) Off }
{
    let from = n as usize * out.len();
    out.copy_from_slice(&cells[from..from + out.len()]);
}
