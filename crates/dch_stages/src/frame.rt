ghost use Rattle.std.specs.Prelude.{◌≡◌, ◌<◌, ◌≤◌, ℕ, length, map, slice_index_or, take};
ghost use Rattle.std.specs.List.{range_with_len};
ghost use Rattle.dch_bits.specs.declared.bit.Trit.TheVariants.{Off};
ghost use Rattle.dch_types.specs.declared.channel.Dir.TheVariants.{Down, Up};
ghost use Rattle.dch_types.specs.Parts.{side_of};
ghost use Rattle.dch_accept.specs.Cells.{frame_cells};
ghost use Rattle.dch_accept.specs.Frames.{most_cells};
ghost use Rattle.dch_tti.specs.Loaded.{AreFormats};
ghost use Rattle.dch_ulphy.specs.Loaded.{IsTtiOf as IsUplinkTti};
ghost use Rattle.dch_dlphy.specs.Loaded.{IsTtiOf as IsDownlinkTti};
ghost use Rattle.dch_stages.specs.FrameLines.{multiplexed_cells};

use dch_accept::Accepted;
use dch_bits::Trit;
use dch_dlphy::DlTti;
use dch_tti::{MultiplexFrame, TtiBuffer};
use dch_ulphy::UlTti;

/// Writes the multiplexed cells of the radio frame of a CFN in a combination to the front of `out`, and answers how
/// many there are (TS 25.212 4.2.6 to 4.2.9.2).
pub fn multiplex_front<T: MultiplexFrame>(
    accepted: &Accepted,
    tti_buffers: &[TtiBuffer],
    cfn: u8,
    combination: u16,
    out: &mut [Trit],
) -> usize
    requires opened { T.fits accepted.now tti_buffers.now }
    requires combination { combination < length (side_of accepted.now.config T.dir).combinations }
    requires formats { AreFormats (side_of accepted.now.config T.dir) combination tti_buffers.now }
    requires room { most_cells accepted.now.config T.dir ≤ length out.old }
    ensures cells { (p : ℕ) → p < result → slice_index_or out.new p Off ≡
        T.cell accepted.now tti_buffers.now cfn combination p }
    ensures list { take result out.new ≡ map (T.cell accepted.now tti_buffers.now cfn combination)
        (range_with_len 0 (frame_cells accepted.now T.dir combination)) }
    ensures long { result ≡ frame_cells accepted.now T.dir combination }
    ensures fits { result ≤ length out.new }
{
    let dir = T::dir();
    // It has at most 57,600 cells.
    let _most = accepted.most_cells(dir);
    let len = accepted.frame_cells(dir, combination);
    T::multiplex(accepted, tti_buffers, cfn, combination, &mut out[..len]);
    len
}

/// Writes the multiplexed cells of the uplink radio frame of a CFN to the front of `out`, and answers how many there
/// are.
#[tactic(auto, unfolding(crate::specs::FrameLines::multiplexed_cells))]
pub fn multiplex_uplink(
    accepted: &Accepted,
    tti: &UlTti,
    cfn: u8,
    combination: u16,
    out: &mut [Trit],
) -> usize
    requires opened { IsUplinkTti accepted.now tti.now }
    requires combination { combination < length accepted.now.config.uplink.side.combinations }
    requires formats { AreFormats accepted.now.config.uplink.side combination tti.now }
    requires room { most_cells accepted.now.config Up ≤ length out.old }
    ensures cells { take result out.new ≡
        multiplexed_cells accepted.now Up tti.now cfn combination (frame_cells accepted.now Up combination) }
    ensures long { result ≡ frame_cells accepted.now Up combination }
    ensures fits { result ≤ length out.new }
{
    multiplex_front::<UlTti>(accepted, tti.tti_buffers(), cfn, combination, out)
}

/// Writes the multiplexed cells of the downlink radio frame of a CFN to the front of `out`, with the places behind them
/// in which nothing is sent, and answers how many there are.
#[tactic(auto, unfolding(crate::specs::FrameLines::multiplexed_cells))]
pub fn multiplex_downlink(
    accepted: &Accepted,
    tti: &DlTti,
    cfn: u8,
    combination: u16,
    out: &mut [Trit],
) -> usize
    requires opened { IsDownlinkTti accepted.now tti.now }
    requires combination { combination < length accepted.now.config.downlink.side.combinations }
    requires formats { AreFormats accepted.now.config.downlink.side combination tti.now }
    requires room { most_cells accepted.now.config Down ≤ length out.old }
    ensures cells { take result out.new ≡
        multiplexed_cells accepted.now Down tti.now cfn combination (frame_cells accepted.now Down combination) }
    ensures long { result ≡ frame_cells accepted.now Down combination }
    ensures fits { result ≤ length out.new }
{
    multiplex_front::<DlTti>(accepted, tti.tti_buffers(), cfn, combination, out)
}
