ghost use Rattle.std.specs.Prelude.{◌≡◌, ℕ, List};
ghost use Rattle.dch_types.specs.declared.channel.Dir.{Dir};
ghost use Rattle.dch_types.specs.declared.config.Config.{Config};
ghost use Rattle.dch_types.specs.Parts.{side_of};
ghost use Rattle.dch_accept.specs.HeldSets.{HeldSet};
ghost use Rattle.dch_iub.specs.Answers.{IsCause};
ghost use Rattle.dch_iub.specs.Forms.{IsReadForm};
ghost use Rattle.dch_iub.specs.declared.error.IubError.{IubError};
ghost use Rattle.dch_node.specs.IubFrames.{IsSameReading, refusal_number};

/// A law: an Iub frame is taken in one way. It is refused by one number, or read as one CFN and the same blocks, and
/// never both.
pub fn one_answer_law()
    ensures number { (config : Config) (dir : Dir) (set : ℕ) (frame : List ℕ) (error other : IubError) →
        IsCause config dir set frame error → IsCause config dir set frame other →
        refusal_number other ≡ refusal_number error }
    ensures apart { (config : Config) (dir : Dir) (set cfn qe : ℕ) (frame : List ℕ) (error : IubError)
        (held : HeldSet) →
        IsCause config dir set frame error → ¬ IsReadForm config dir set frame cfn qe held }
    ensures reading { (config : Config) (dir : Dir) (set cfn qe other_cfn other_qe : ℕ) (frame : List ℕ)
        (held other : HeldSet) →
        IsReadForm config dir set frame cfn qe held → IsReadForm config dir set frame other_cfn other_qe other →
        IsSameReading (side_of config dir) set cfn other_cfn held other }
{}
