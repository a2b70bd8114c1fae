ghost use Rattle.std.specs.Prelude.{◌≡◌, ◌<◌, ◌≤◌, ◌%◌, ℕ, List, Option, length};
ghost use Rattle.dch_bits.specs.declared.bit.Bit.{Bit};
ghost use Rattle.dch_bits.specs.declared.bit.Trit.{Trit};
ghost use Rattle.dch_types.specs.declared.channel.Coding.{Coding};
ghost use Rattle.dch_types.specs.declared.channel.Dir.{Dir};
ghost use Rattle.dch_types.specs.declared.channel.Dir.TheVariants.{Up, Down};
ghost use Rattle.dch_types.specs.declared.channel.Side.{Side};
ghost use Rattle.dch_types.specs.Parts.{channel_at, format_at, side_of};
ghost use Rattle.dch_tti.specs.Read.{coded_in};
ghost use Rattle.dch_coding.specs.Chain.{coded_as};
ghost use Rattle.dch_trellis.specs.Distance.{AreToldApart};
ghost use Rattle.dch_collision.specs.Collisions.{NoneCollide};
ghost use Rattle.dch_collision.specs.Sequences.{IsLegal, frames_of};
ghost use Rattle.dch_accept.specs.Blocks.{Held, bits_of};
ghost use Rattle.dch_accept.specs.Frames.{Frame};
ghost use Rattle.dch_tti.specs.Damaged.{AreFewChanged, AreLittleChanged, IsLittleDamaged};
ghost use Rattle.dch_tti.specs.Frames.{IsFrameOf};
ghost use Rattle.dch_tti.specs.Loaded.{Loaded};
ghost use Rattle.dch_tti.specs.Outcomes.{IsOutcome, IsSentBack};
ghost use Rattle.dch_tti.specs.declared.outcome.TtiOutcome.{TtiOutcome};
ghost use Rattle.dch_accept.specs.Plans.{IsPlanned, Planned};
ghost use Rattle.dch_dlphy.specs.Damaged.{WasDamaged as WasDamagedDown};
ghost use Rattle.dch_dlphy.specs.Loaded.{IsLoaded as IsLoadedDown};
ghost use Rattle.dch_dlphy.specs.Read.{IsTtiRead as IsDownlinkRead};
ghost use Rattle.dch_dlphy.specs.Sent.{AreSentAndPushed as AreSentAndPushedDown, WasSent as WasSentDown};
ghost use Rattle.dch_node.specs.RxFrames.{AreHeard};
ghost use Rattle.dch_node.specs.Values.{Radio};
ghost use Rattle.dch_tti.specs.RxFrames.{IsKept, IsReaderOf, RxFrame, RxFrames};
ghost use Rattle.dch_ulphy.specs.Damaged.{WasDamaged as WasDamagedUp};
ghost use Rattle.dch_ulphy.specs.Loaded.{IsLoaded as IsLoadedUp};
ghost use Rattle.dch_ulphy.specs.Read.{IsTtiRead as IsUplinkRead};
ghost use Rattle.dch_ulphy.specs.Sent.{AreSentAndPushed as AreSentAndPushedUp, WasSent as WasSentUp};
ghost use Rattle.dch_runlaw.specs.SentRead.{IsReadAsSent};

/// A law: of a TTI whose radio frames are kept just as they were sent no frame is bad, its format is the one in which
/// its blocks were sent, and just these blocks are read, all good. In the uplink its radio frames were sent in a legal
/// sequence of combinations.
pub fn sent_tti_law()
    ensures downlink { (planned : Planned) (cfn : ℕ) (frames : ℕ →
        Option Radio) (reader : RxFrames) (i f : ℕ) (blocks : List Bit) →
        IsPlanned planned → AreHeard planned Down cfn frames reader → i < length planned.config.downlink.side.channels →
        WasSentDown planned reader i f blocks → IsReadAsSent planned Down (IsDownlinkRead planned) reader i f blocks }
    ensures uplink { (planned : Planned) (reader : RxFrames) (i f : ℕ) (blocks : List Bit) →
        IsPlanned planned → i < length planned.config.uplink.side.channels →
        WasSentUp planned reader i f blocks → IsReadAsSent planned Up (IsUplinkRead planned) reader i f blocks }
{}

/// A law: blocks of a channel are loaded and stay so while all radio frames of a TTI are written, in the uplink in a
/// legal sequence of combinations, and each is pushed as it was written. Then whatever the reader answers for the
/// channel, it is just these blocks, all good, in the format in which they were loaded, and no bad frame.
pub fn read_after_write_law()
    ensures uplink { (planned : Planned) (i f first : ℕ) (sequence : List ℕ) (blocks : List Bit) (loaded : Loaded)
        (readers : ℕ → RxFrames) (before after : Held) (outcome : TtiOutcome) →
        IsPlanned planned → i < length planned.config.uplink.side.channels →
        first % frames_of planned.config.uplink.side i ≡ 0 →
        length blocks ≡ bits_of (format_at (channel_at planned.config.uplink.side i) f) →
        IsLoadedUp planned i f blocks loaded →
        IsLegal planned.config.uplink.side i f sequence → AreSentAndPushedUp planned i first sequence loaded readers →
        IsOutcome planned.config.uplink.side (IsUplinkRead planned)
        (readers (frames_of planned.config.uplink.side i)) i before outcome after → IsSentBack f blocks outcome after }
    ensures downlink { (planned : Planned) (i f first : ℕ) (sequence : List ℕ) (blocks : List Bit) (loaded : Loaded)
        (readers : ℕ → RxFrames) (before after : Held) (outcome : TtiOutcome) →
        IsPlanned planned → i < length planned.config.downlink.side.channels →
        first % frames_of planned.config.downlink.side i ≡ 0 →
        length blocks ≡ bits_of (format_at (channel_at planned.config.downlink.side i) f) →
        IsLoadedDown planned i f blocks loaded →
        AreSentAndPushedDown planned i first sequence loaded readers →
        IsReaderOf planned Down (readers (frames_of planned.config.downlink.side i)) →
        IsOutcome planned.config.downlink.side (IsDownlinkRead planned)
        (readers (frames_of planned.config.downlink.side i)) i before outcome after →
        IsSentBack f blocks outcome after }
{}

/// A law: a TTI whose radio frames are kept in the combinations in which they were sent is read as it was sent, where
/// few cells of each code block are changed: those that show the other bit twice and those that show none once are less
/// than the cells in which two blocks differ. One that is kept just as it was sent is the case of no changed cell.
pub fn damaged_tti_law()
    ensures uplink { (planned : Planned) (reader : RxFrames) (i f : ℕ) (blocks : List Bit) →
        IsPlanned planned → i < length planned.config.uplink.side.channels →
        WasDamagedUp planned reader i f blocks → IsReadAsSent planned Up (IsUplinkRead planned) reader i f blocks }
    ensures downlink { (planned : Planned) (cfn : ℕ) (frames : ℕ →
        Option Radio) (reader : RxFrames) (i f : ℕ) (blocks : List Bit) →
        IsPlanned planned → AreHeard planned Down cfn frames reader → i < length planned.config.downlink.side.channels →
        WasDamagedDown planned reader i f blocks →
        IsReadAsSent planned Down (IsDownlinkRead planned) reader i f blocks }
{}

/// A law: where each coded bit of a TTI is sent so many times at least, that many times the least distance of two coded
/// blocks is what tells code blocks apart. With one copy of each bit five cells of a code block may change at rate 1/2,
/// and eight at rate 1/3.
pub fn little_changed_law()
    ensures { (side : Side) (i f least : ℕ) (copies changes : ℕ → ℕ) →
        ((j : ℕ) → j < coded_in side i f → least ≤ copies j) →
        AreLittleChanged side i f least changes → AreFewChanged side i f copies changes }
{}

/// A law: code blocks that are not sent alike, as those of an accepted configuration, are told apart by a copy at
/// least.
pub fn told_apart_law()
    ensures { (coding : Coding) (size filler : ℕ) (sent : ℕ → ℕ) → NoneCollide coding size filler sent →
        AreToldApart (coded_as coding) size filler sent 1 }
{}

/// A law: a radio frame of which at most four of 30 TFCI bits are wrong, or 20 of 120, is kept in the combination in
/// which it was written.
pub fn damaged_frame_law()
    ensures { (planned : Planned) (dir : Dir) (multiplexed : ℕ →
        Trit) (c : ℕ) (frame : Frame) (tfci : List Bit) (cells : List Trit) (kept : RxFrame) →
        c < length (side_of planned.config dir).combinations → length (side_of planned.config dir).combinations ≤ 128 →
        IsFrameOf planned dir multiplexed c frame → IsLittleDamaged frame.tfci frame.cells tfci cells →
        IsKept planned dir tfci cells kept → kept.combination ≡ Some c }
{}
