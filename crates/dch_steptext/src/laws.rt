ghost use Rattle.std.specs.Prelude.{◌≡◌, ◌<◌, ◌≤◌, ◌+◌, ◌++◌, ◌*◌, ℕ, List, [], ◌∷◌, Bool, Ok, codes, length};
ghost use Rattle.dch_bits.specs.declared.bit.Bit.{Bit};
ghost use Rattle.dch_types.specs.declared.channel.Dir.{Dir};
ghost use Rattle.dch_types.specs.declared.config.Config.{Config};
ghost use Rattle.dch_types.specs.Parts.{side_of};
ghost use Rattle.dch_layer2.specs.ConfigGood.{IsGood};
ghost use Rattle.dch_indication.specs.Lines.{Line};
ghost use Rattle.dch_rlcpdu.specs.Am.{am_reading};
ghost use Rattle.dch_rlcpdu.specs.declared.am.AmView.{AmView};
ghost use Rattle.dch_am.specs.Entities.{pdu_of, receiver_by};
ghost use Rattle.dch_am.specs.Receiver.{Receiver};
ghost use Rattle.dch_am.specs.Rules.{Rules};
ghost use Rattle.dch_amlaw.specs.Bounded.{IsBoundedReceiver};
ghost use Rattle.dch_script.specs.LineText.{text_of, words_of};
ghost use Rattle.dch_layer2.specs.BoundedBearers.{AreBounded};
ghost use Rattle.dch_layer2.specs.FormatBlocks.{AreBlocks};
ghost use Rattle.dch_layer2.specs.Layers.{Came, Layer, blocks, offers, opened_layer, takes, ticks};
ghost use Rattle.dch_layer2.specs.Starting.{IsStart};
ghost use Rattle.dch_steptext.specs.Bytes.{layer_bytes};
ghost use Rattle.dch_steptext.specs.Limits.{AreLimited, HasFewWords};
ghost use Rattle.dch_steptext.specs.ReceiverBytes.{Takes, receiver_bytes};

/// A law: the text of lines is their texts, one after another.
pub fn text_law()
    ensures one { (line : Line) → text_of (line ∷ []) ≡ words_of line ++ codes "\n" }
    ensures append { (lines more : List Line) → text_of (lines ++ more) ≡ text_of lines ++ text_of more }
{}

/// A law: a line of a few words has at most 40 bytes.
pub fn few_law()
    ensures { (line : Line) → HasFewWords line → length (text_of (line ∷ [])) ≤ 40 }
{}

/// A law: each of so many lines, which are short or on frames of a good configuration, has at most 300,000 bytes.
pub fn limited_law()
    ensures { (count : ℕ) (lines : List Line) → AreLimited count lines → length (text_of lines) ≤ count * 300000 }
{}

/// A law: a PDU of at most 126 octets pays for the report on the SDUs that it ends out of what a receiver of the
/// acknowledged mode held, and of 1,116 bytes. So at most 3,009 bytes of report, and 1,116 for each PDU of the window,
/// can still come of it.
pub fn receiver_law()
    ensures takes { (rules : Rules) (r : Receiver) (octets : List ℕ) (view : AmView) → length octets ≤ 126 →
        am_reading octets ≡ Ok view → IsBoundedReceiver rules.window r →
        Takes rules.window r (receiver_by rules (pdu_of view) r) 1116 }
    ensures most { (window : ℕ) (r : Receiver) → IsBoundedReceiver window r →
        receiver_bytes window r ≤ 3009 + window * 1116 }
{}

/// A law: the report on blocks that come is paid out of what the bearers held, and of 5,200 bytes for each block. An
/// offer is answered by a line of at most 40 bytes.
pub fn report_law()
    ensures offers { (config : Config) (out : Dir) (b : ℕ) (octets : List ℕ) (bits : List Bit) (layer : Layer) →
        b < 1000 →
        length (text_of (offers config out b octets bits layer).lines) ≤ 40 }
    ensures takes { (config : Config) (into : Dir) (channel k : ℕ) (came : List Came) (layer : Layer) → IsGood config →
        channel < length (side_of config into).channels → k + length came ≤ 1000 → AreBlocks config into channel came →
        AreBounded config layer →
        length (text_of (takes config into channel k came layer).lines) +
        layer_bytes config (takes config into channel k came layer).layer
        ≤ layer_bytes config layer + length came * 5200 }
{}

/// A law: what the bearers of an end hold comes to at most 2,400,000 bytes of report for each.
pub fn held_law()
    ensures { (config : Config) (layer : Layer) → IsGood config → AreBounded config layer →
        layer_bytes config layer ≤ length config.bearers * 2400000 }
{}

/// A law: nothing else changes what the bearers hold.
pub fn still_law()
    ensures opened { (config : Config) (out : Dir) → layer_bytes config (opened_layer config out) ≡ 0 }
    ensures offers { (config : Config) (out : Dir) (b : ℕ) (octets : List ℕ) (bits : List Bit) (layer : Layer) →
        layer_bytes config (offers config out b octets bits layer).layer ≡ layer_bytes config layer }
    ensures blocks { (config : Config) (c : ℕ) (on : Bool) (layer : Layer) →
        layer_bytes config (blocks c on layer) ≡ layer_bytes config layer }
    ensures ticks { (config : Config) (layer : Layer) →
        layer_bytes config (ticks config layer) ≡ layer_bytes config layer }
    ensures starts { (config : Config) (out : Dir) (cfn : ℕ) (old new : Layer) → IsStart config out cfn old new →
        layer_bytes config new ≡ layer_bytes config old }
{}
