ghost use Rattle.std.specs.Prelude.{◌≡◌, ◌<◌, ◌≤◌, ◌+◌, ◌-◌, ℕ, List, Bool, Option, drop, length};
ghost use Rattle.dch_bits.specs.declared.bit.Bit.{Bit};
ghost use Rattle.dch_config.specs.Good.{IsGood};
ghost use Rattle.dch_types.specs.declared.channel.Dir.{Dir};
ghost use Rattle.dch_types.specs.declared.config.Config.{Config};
ghost use Rattle.dch_types.specs.Parts.{side_of};
ghost use Rattle.dch_am.specs.Building.{available};
ghost use Rattle.dch_am.specs.Discards.{mrw_due};
ghost use Rattle.dch_am.specs.Entities.{one_if};
ghost use Rattle.dch_am.specs.Receiver.{Receiver};
ghost use Rattle.dch_am.specs.Rules.{Rules};
ghost use Rattle.dch_am.specs.Sender.{Sender};
ghost use Rattle.dch_am.specs.Telling.{is_due};
ghost use Rattle.dch_mac.specs.Field.{field_bits};
ghost use Rattle.dch_layer2.specs.BoundedBearers.{AreBounded};
ghost use Rattle.dch_layer2.specs.Building.{CanBuild};
ghost use Rattle.dch_layer2.specs.FormatBlocks.{AreBlocks};
ghost use Rattle.dch_layer2.specs.Layers.{Came, Layer, blocks, offers, opened_layer, takes, ticks};
ghost use Rattle.dch_layer2.specs.Octets.{AreOctets, block_of, octets_of};
ghost use Rattle.dch_layer2.specs.Starting.{IsStart};

/// A law: behind its C/T field a transport block reads as the octets of its PDU.
pub fn block_law()
    ensures { (ct : Option ℕ) (octets : List ℕ) → AreOctets octets →
        octets_of (drop (field_bits ct) (block_of ct octets)) ≡ octets }
{}

/// A law: an acknowledged bearer can build as many blocks one after another as it offers: those that its sender has,
/// and one more each for a due status and a due MRW.
pub fn count_law()
    ensures { (rules : Rules) (size n : ℕ) (s : Sender) (r : Receiver) →
        n ≤ one_if (is_due r) + one_if (mrw_due s.discard) + available rules (size - 2) s → CanBuild rules size n s r }
{}

/// A law: what the bearers of an end hold is limited at opening, and stays so.
pub fn bounded_law()
    ensures opened { (config : Config) (out : Dir) → AreBounded config (opened_layer config out) }
    ensures offers { (config : Config) (out : Dir) (b : ℕ) (octets : List ℕ) (bits : List Bit) (layer : Layer) →
        AreBounded config layer →
        AreBounded config (offers config out b octets bits layer).layer }
    ensures blocks { (config : Config) (c : ℕ) (on : Bool) (layer : Layer) → AreBounded config layer →
        AreBounded config (blocks c on layer) }
    ensures ticks { (config : Config) (layer : Layer) → AreBounded config layer →
        AreBounded config (ticks config layer) }
    ensures starts { (config : Config) (out : Dir) (cfn : ℕ) (old new : Layer) → IsStart config out cfn old new →
        AreBounded config old → AreBounded config new }
    ensures takes { (config : Config) (into : Dir) (channel k : ℕ) (came : List Came) (layer : Layer) → IsGood config →
        channel < length (side_of config into).channels → AreBlocks config into channel came → AreBounded config layer →
        AreBounded config (takes config into channel k came layer).layer }
{}
