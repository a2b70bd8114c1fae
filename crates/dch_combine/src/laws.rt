ghost use Rattle.std.specs.Prelude.{◌≡◌, ℕ, List, Option};
ghost use Rattle.dch_types.specs.declared.channel.Trch.{Trch};
ghost use Rattle.dch_types.specs.declared.config.Config.{Config};
ghost use Rattle.dch_accept.specs.Blocks.{Held};
ghost use Rattle.dch_accept.specs.HeldSets.{HasFormat};
ghost use Rattle.dch_combine.specs.Combined.{IsCombinedFrame, IsCombinedTti};
ghost use Rattle.dch_combine.specs.Legs.{LegFrame, blocks_in};
ghost use Rattle.dch_combine.specs.Sent.{AreSent, HasAll, TakesSent};

/// A law: the frames of the legs and a CFN say which octets the combined frame has, all of them.
pub fn one_frame_law()
    ensures { (config : Config) (set cfn : ℕ) (legs : ℕ → Option LegFrame) (frame other : List ℕ) →
        IsCombinedFrame config set legs cfn frame → IsCombinedFrame config set legs cfn other → other ≡ frame }
{}

/// A law: where one leg has all blocks of a channel that were sent, and each good block of any leg is the one that was
/// sent at its place and in its format, the good blocks of the combined frame are just those that were sent.
pub fn sent_blocks_law()
    ensures { (channel : Trch) (legs : ℕ → Option LegFrame) (i leg : ℕ) (sent new : Held) → HasFormat channel sent →
        HasFormat channel new →
        IsCombinedTti legs i new → AreSent legs i sent → HasAll sent (blocks_in (legs leg) i) → TakesSent sent new }
{}
