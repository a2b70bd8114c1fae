ghost use Rattle.std.specs.Prelude.{◌≡◌, ◌<◌, ◌≤◌, ◌+◌, ◌*◌, ℕ, length, slice_index, slice_index_or};
ghost use Rattle.dch_bits.specs.declared.bit.Trit.TheVariants.{Off};
ghost use Rattle.dch_types.specs.declared.channel.Dir.TheVariants.{Up};
ghost use Rattle.dch_accept.specs.Frames.{IsOpenedFor};
ghost use Rattle.dch_collision.specs.Plans.{plan_at};
ghost use Rattle.dch_tti.specs.Loaded.{loaded_at, AreFormats};
ghost use Rattle.dch_ulphy.specs.Loaded.{IsTtiOf};
ghost use Rattle.dch_ulphy.specs.Frames.{IsFrame, sent_cell};

use crate::tti::UlTti;
use dch_accept::{Accepted, PhyFrame};
use dch_bits::Trit;
use dch_frame::{frame, rate_match};
use dch_tti::{MultiplexFrame, TtiBuffer, write_frame};
use dch_types::Dir;

/// Writes the radio frame of a CFN in a combination: its TFCI, and of each channel the radio frame of its TTI that is
/// on (TS 25.212 4.2.5 to 4.2.12, 4.3.3).
pub fn write(accepted: &Accepted, tti: &UlTti, cfn: u8, combination: u16, out: &mut PhyFrame)
    requires opened { IsTtiOf accepted.now tti.now }
    requires frame { IsOpenedFor accepted.now.config Up out.old }
    requires combination { combination < length accepted.now.config.uplink.side.combinations }
    requires formats { AreFormats accepted.now.config.uplink.side combination tti.now }
    ensures written { IsFrame accepted.now tti.now cfn combination out.new }
    ensures frame { IsOpenedFor accepted.now.config Up out.new }
{
    write_frame::<UlTti>(accepted, tti.tti_buffers(), cfn, combination, out);
}

/// The channels' cells follow one another.
impl MultiplexFrame for UlTti {
    ghost use Rattle.dch_types.specs.declared.channel.Dir.TheVariants.{Up};
    ghost use Rattle.dch_ulphy.specs.Frames.{multiplexed};
    ghost use Rattle.dch_ulphy.specs.Loaded.{IsTtiOf};

    ghost dir = { Up };

    ghost fits = { IsTtiOf };

    ghost cell = { multiplexed };

    fn dir() -> Dir {
        Dir::Up
    }

    fn multiplex(
        accepted: &Accepted,
        tti_buffers: &[TtiBuffer],
        cfn: u8,
        combination: u16,
        out: &mut [Trit],
    ) {
        let channels = accepted.config().uplink.side.channels.len();
        let plan = accepted.uplink_plan(combination);
        let mut at = 0;
        for i in 0..channels {
            let end = at + plan.sent[i] as usize;
            write_channel(
                accepted,
                tti_buffers,
                cfn,
                combination,
                i,
                &mut out[at..end],
            );
            at = end;
        }
    }
}

/// Writes what a channel sends: the segment of one radio frame, after rate matching.
fn write_channel(
    accepted: &Accepted,
    tti_buffers: &[TtiBuffer],
    cfn: u8,
    combination: u16,
    i: usize,
    out: &mut [Trit],
)
    requires opened { IsTtiOf accepted.now tti_buffers.now }
    requires combination { combination < length accepted.now.config.uplink.side.combinations }
    requires formats { AreFormats accepted.now.config.uplink.side combination tti_buffers.now }
    requires channel { i < length accepted.now.config.uplink.side.channels }
    requires room { length out.old ≡ slice_index (plan_at accepted.now.uplink combination).sent i }
    ensures { (q : ℕ) → q < length out.new → slice_index_or out.new q Off ≡
        sent_cell accepted.now tti_buffers.now cfn combination i q }
{
    let config = &accepted.config().uplink;
    let n = cfn % accepted.frames_of(Dir::Up, i as u8);
    let pattern = frame(
        config,
        combination,
        accepted.uplink_plan(combination),
        i as u8,
        n,
    );
    rate_match(
        &pattern,
        segment(buffer_of(tti_buffers, i), n, pattern.len),
        out,
    );
}

/// What is loaded of a channel.
fn buffer_of(tti_buffers: &[TtiBuffer], i: usize) -> &TtiBuffer
    requires { i < length tti_buffers.now }
    ensures { result.now ≡ loaded_at tti_buffers.now i }
{
    &tti_buffers[i]
}

/// The cells of radio frame `n` of a TTI whose frames have so many cells.
fn segment(buffer: &TtiBuffer, n: u8, cells: u32) -> &[Trit]
    requires { n * cells + cells ≤ length buffer.now.cells }
    ensures long { length result.now ≡ cells }
    ensures shown { (m : ℕ) → m < cells → slice_index_or result.now m Off ≡
        slice_index_or buffer.now.cells (n * cells + m) Off }
{
    let cells = cells as usize;
    let from = n as usize * cells;
    &buffer.cells()[from..from + cells]
}
