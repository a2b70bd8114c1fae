ghost use Rattle.std.specs.Prelude.{ℕ, List};
ghost use Rattle.dch_types.specs.declared.channel.Dir.{Dir};
ghost use Rattle.dch_types.specs.declared.config.Config.{Config};
ghost use Rattle.dch_types.specs.Parts.{side_of};
ghost use Rattle.dch_accept.specs.HeldSets.{HeldSet};
ghost use Rattle.dch_iub.specs.Back.{IsReadBack};
ghost use Rattle.dch_iub.specs.Forms.{IsReadForm, IsWrittenForm};

/// A law: a frame has one reading. What is read of a frame that was written is what was written to it.
pub fn one_reading()
    ensures one { (config : Config) (dir : Dir) (set cfn qe other_cfn other_qe : ℕ) (frame : List ℕ)
        (held other : HeldSet) →
        IsReadForm config dir set frame cfn qe held → IsReadForm config dir set frame other_cfn other_qe other →
        IsReadBack dir (side_of config dir) set cfn other_cfn qe other_qe held other }
    ensures back { (config : Config) (dir : Dir) (set cfn qe other_cfn other_qe : ℕ) (frame : List ℕ)
        (held other : HeldSet) →
        IsWrittenForm config dir set frame cfn qe held → IsReadForm config dir set frame other_cfn other_qe other →
        IsReadBack dir (side_of config dir) set cfn other_cfn qe other_qe held other }
{}
