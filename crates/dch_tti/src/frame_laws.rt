ghost use Rattle.std.specs.Prelude.{◌≡◌, ◌<◌, ◌≤◌, ◌%◌, ℕ, List, Some, Result, length};
ghost use Rattle.dch_bits.specs.declared.bit.Bit.{Bit};
ghost use Rattle.dch_bits.specs.declared.bit.Trit.{Trit};
ghost use Rattle.dch_types.specs.declared.channel.Dir.{Dir};
ghost use Rattle.dch_types.specs.declared.channel.Side.{Side};
ghost use Rattle.dch_types.specs.Limits.{IsSide};
ghost use Rattle.dch_types.specs.Parts.{channel_at, side_of};
ghost use Rattle.dch_frame.specs.Stages.{code_back};
ghost use Rattle.dch_accept.specs.Cells.{code_cells};
ghost use Rattle.dch_accept.specs.Frames.{Frame};
ghost use Rattle.dch_accept.specs.Plans.{Planned};
ghost use Rattle.dch_tti.specs.Damaged.{IsOneToOne, cell_at, changed, changed_among};
ghost use Rattle.dch_tti.specs.Frames.{IsFrameOf};
ghost use Rattle.dch_tti.specs.Loaded.{Loaded};
ghost use Rattle.dch_tti.specs.Formats.{FindsFormat};
ghost use Rattle.dch_tti.specs.Pushed.{AreSentAndPushed};
ghost use Rattle.dch_tti.specs.RxFrames.{AreBack, IsKept, RxFrame, RxFrames};
ghost use Rattle.dch_tti.specs.Sent.{AreSentFrames};

/// A law: two radio frames of a combination that show the same multiplexed cells have the same TFCI bits and cells.
pub fn one_radio_frame_law()
    ensures { (planned : Planned) (dir : Dir) (multiplexed : ℕ → Trit) (c : ℕ) (one other : Frame) →
        IsFrameOf planned dir multiplexed c one → IsFrameOf planned dir multiplexed c other → (one.tfci ≡ other.tfci) ×
        (one.cells ≡ other.cells) }
{}

/// A law: a frame that is kept as it was written is kept in the combination in which it was written, with its cells in
/// multiplexed order.
pub fn written_frame_law()
    ensures { (planned : Planned) (dir : Dir) (multiplexed : ℕ → Trit) (c : ℕ) (frame : Frame) (kept : RxFrame) →
        c < length (side_of planned.config dir).combinations → length (side_of planned.config dir).combinations ≤ 128 →
        IsFrameOf planned dir multiplexed c frame → IsKept planned dir frame.tfci frame.cells kept →
        (kept.combination ≡ Some c) × AreBack (code_cells planned dir (length frame.cells)) frame.cells kept.cells }
{}

/// A law: the radio frames of a channel's TTI are pushed as they were written, each in its combination, while what is
/// loaded of the channel stays. Then they all are kept as they were written when the last one was pushed.
pub fn pushed_tti_law()
    ensures { (planned : Planned) (dir : Dir) (multiplexed : List Loaded → ℕ → ℕ → ℕ →
        Trit) (i first : ℕ) (sequence : List ℕ) (loaded : Loaded) (readers : ℕ → RxFrames) →
        IsSide (side_of planned.config dir) → i < length (side_of planned.config dir).channels →
        first % (channel_at (side_of planned.config dir) i).frames ≡ 0 →
        AreSentAndPushed planned dir multiplexed i first sequence loaded readers →
        AreSentFrames planned dir multiplexed (readers (channel_at (side_of planned.config dir) i).frames)
        i sequence loaded }
{}

/// A law: what is kept of a radio frame is one: the same TFCI bits and cells give the same combination, and where there
/// is one the same cells.
pub fn one_kept_frame_law()
    ensures { (planned : Planned) (dir : Dir) (tfci : List Bit) (cells : List Trit) (one other : RxFrame) →
        IsKept planned dir tfci cells one → IsKept planned dir tfci cells other →
        (one.combination ≡ other.combination) × ((c : ℕ) → one.combination ≡ Some c → one.cells ≡ other.cells) }
{}

/// A law: the format that the radio frames of a TTI give a channel, or the first bad frame, is one.
pub fn one_format_law()
    ensures { (side : Side) (reader : RxFrames) (i : ℕ) (one other : Result ℕ ℕ) → 0 < (channel_at side i).frames →
        FindsFormat side reader i one → FindsFormat side reader i other → one ≡ other }
{}

/// A law: the second interleaver moves changed cells one to one. A frame of codes of one length is brought back to
/// multiplexed order, once as it was sent and once as it arrived. Then each place shows the change of one cell of the
/// frame, each cell of the frame is that of one place, and the changes of all places are as many as those of all cells.
pub fn moved_cells_law()
    ensures places { (code n : ℕ) → 0 < code → n % code ≡ 0 → IsOneToOne code n }
    ensures cells { (code p : ℕ) (sent received kept_sent kept : List Trit) → AreBack code sent kept_sent →
        AreBack code received kept → length received ≡ length sent → p < length sent →
        changed (cell_at kept_sent p) (cell_at kept p) ≡
        changed (cell_at sent (code_back code p)) (cell_at received (code_back code p)) }
    ensures all { (code : ℕ) (sent received kept_sent kept : List Trit) → AreBack code sent kept_sent →
        AreBack code received kept → length received ≡ length sent → 0 < code → length sent % code ≡ 0 →
        changed_among (cell_at kept_sent) (cell_at kept) 0 (length sent) ≡
        changed_among (cell_at sent) (cell_at received) 0 (length sent) }
{}
