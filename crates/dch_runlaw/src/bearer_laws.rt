ghost use Rattle.std.specs.Prelude.{◌≡◌, ◌++◌, ℕ, List, []};
ghost use Rattle.dch_bits.specs.declared.bit.Bit.{Bit};
ghost use Rattle.dch_types.specs.declared.channel.Dir.{Dir};
ghost use Rattle.dch_types.specs.declared.config.Config.{Config};
ghost use Rattle.dch_config.specs.Changes.{KeepsBearer};
ghost use Rattle.dch_runlaw.specs.Calls.{run_calls};
ghost use Rattle.dch_runlaw.specs.Worlds.{AreFaithful, AreWholeSoFar, At, IsFaithful, Runs, RunsInTwo, World, opened_world};
ghost use Rattle.dch_runlaw.specs.History.{IsAmBearer, IsHistory, IsHistoryOver, IsWholeHistory};
ghost use Rattle.dch_runlaw.specs.UmHistory.{Any, IsKnownHistory, IsUmBearer, IsUmCarried, pdus_in};
ghost use Rattle.dch_runlaw.specs.TmHistory.{IsTmBearer, IsTmCarried, IsTmSome, units_in};

/// A law. Two ends do with their layers 2 whatever they like, in any order: units are offered, TTIs start, and any
/// blocks are taken of any channel. After each event the good blocks that were taken of the two channels of an
/// acknowledged bearer are some of those that were given to them, in order. Other bearers may share these channels.
///
/// Then the calls that its two ends got are a history of two ends of this bearer alone, with blocks in flight in order,
/// some of which are lost: its units that were offered, the ticks, a PDU that arrives in each good block for it, and a
/// build for each block that it gave. With losses on the way between them they lead to just the senders and receivers
/// that it has at the two ends. So what holds after every history holds of it: handed up are the accepted units in
/// order, each once, as far as they came without a gap, but for those that were discarded, and no answer is Outside.
///
/// And so where another configuration that keeps the bearer becomes active in between, with other channels perhaps:
/// what is in flight then is lost, and the history goes on.
pub fn am_history_law()
    ensures one { (config : Config) (out into : Dir) (b up down : ℕ) (events : List At) (w : World) →
        IsAmBearer config out into b up down →
        (run : Runs config out into (AreFaithful up down) (opened_world config out into) events w) →
        IsHistory config out into b (run_calls config out into b (AreFaithful up down)
        (opened_world config out into) events w run) w }
    ensures two { (first second : Config) (out into : Dir) (b up down up_later down_later : ℕ)
        (earlier later : List At) (w : World) →
        KeepsBearer first second b → IsAmBearer first out into b up down →
        IsAmBearer second out into b up_later down_later →
        (run : RunsInTwo first second out into (AreFaithful up down)
        (AreFaithful up_later down_later) earlier later w) →
        IsHistoryOver second out into b (run_calls first out into b (AreFaithful up down)
        (opened_world first out into) earlier run.mid run.before)
        (run_calls second out into b (AreFaithful up_later down_later) run.next later w run.behind) run.mid w }
{}

/// A law. Where besides, after each event, what was taken of the two channels begins what was given to them, the calls
/// alone are that history, and nothing is lost in it: handed up at each end are just the accepted units of the other
/// one, in order, whose length indicator was sent in the blocks that were taken.
///
/// And so over two parts where all that was given to the two channels in the first part was taken there.
pub fn whole_law()
    ensures one { (config : Config) (out into : Dir) (b up down : ℕ) (events : List At) (w : World) →
        IsAmBearer config out into b up down →
        (run : Runs config out into (AreWholeSoFar up down) (opened_world config out into) events w) →
        IsWholeHistory config out into b up down (run_calls config out into b (AreWholeSoFar up down)
        (opened_world config out into) events w run) w }
    ensures two { (first second : Config) (out into : Dir) (b up down up_later down_later : ℕ)
        (earlier later : List At) (w : World) →
        KeepsBearer first second b → IsAmBearer first out into b up down →
        IsAmBearer second out into b up_later down_later →
        (run : RunsInTwo first second out into (AreWholeSoFar up down)
        (AreWholeSoFar up_later down_later) earlier later w) →
        (run.mid.out up).given ≡ (run.mid.out up).taken → (run.mid.back down).given ≡ (run.mid.back down).taken →
        IsWholeHistory second out into b up_later down_later (run_calls first out into b (AreWholeSoFar up down)
        (opened_world first out into) earlier run.mid run.before ++
        run_calls second out into b (AreWholeSoFar up_later down_later) run.next later w run.behind) w }
{}

/// A law. Two ends do whatever they like, and at last the good blocks that were taken of a channel of an unacknowledged
/// bearer are some of those that were given to it, in order. Then some of the PDUs that its sender built were taken, in
/// order; and where fewer than 128 successive ones were lost before each that came, all lines on the bearer are, in
/// order, the units whose octets and length indicator all came and whose start is known.
///
/// And so of its channels in two parts: PDUs that were given in the first part and not taken there are lost.
pub fn um_law()
    ensures one { (config : Config) (out into : Dir) (b i : ℕ) (events : List At) (w : World) →
        IsUmBearer config out b i →
        Runs config out into Any (opened_world config out into) events w →
        IsFaithful (w.out i) → IsKnownHistory config out b i [] [] w }
    ensures two { (first second : Config) (out into : Dir) (b i j : ℕ) (earlier later : List At) (w : World) →
        IsUmBearer first out b i → IsUmBearer second out b j →
        (run : RunsInTwo first second out into Any Any earlier later w) → IsFaithful (run.mid.out i) →
        IsFaithful (w.out j) →
        IsKnownHistory second out b j (pdus_in first out b i (run.mid.out i).given)
        (pdus_in first out b i (run.mid.out i).taken) w }
{}

/// A law. Where all blocks that were given to the channel of an unacknowledged bearer were taken but the last ones,
/// which are on their way, all lines on the bearer are, in order, the accepted units whose length indicator lies in the
/// PDUs that came, which are all but those on their way. In two parts all blocks of the first one were taken there.
pub fn um_whole_law()
    ensures one { (config : Config) (out into : Dir) (b i : ℕ) (events : List At) (w : World)
        (running : List (List Bit)) →
        IsUmBearer config out b i → Runs config out into Any (opened_world config out into) events w →
        (w.out i).given ≡ (w.out i).taken ++ running → IsUmCarried config out b i w.near.layer w.far.said running }
    ensures two { (first second : Config) (out into : Dir) (b i j : ℕ) (earlier later : List At) (w : World)
        (running : List (List Bit)) →
        IsUmBearer first out b i → IsUmBearer second out b j →
        (run : RunsInTwo first second out into Any Any earlier later w) →
        (run.mid.out i).given ≡ (run.mid.out i).taken → (w.out j).given ≡ (w.out j).taken ++ running →
        IsUmCarried second out b j w.near.layer w.far.said running }
{}

/// A law. Where the good blocks that were taken of a transparent bearer's channel are some of those that were given to
/// it, in order, all lines on the bearer are the units of the blocks that came, which are some of its accepted units,
/// in order; and where all blocks were taken but those on their way, they are all accepted units, in order, but for
/// those in these blocks and those that wait. And so of its channels in two parts.
pub fn tm_law()
    ensures some { (config : Config) (out into : Dir) (b i : ℕ) (events : List At) (w : World) →
        IsTmBearer config out b i →
        Runs config out into Any (opened_world config out into) events w →
        IsFaithful (w.out i) → IsTmSome config out b i [] [] w }
    ensures all { (config : Config) (out into : Dir) (b i : ℕ) (events : List At) (w : World)
        (running : List (List Bit)) →
        IsTmBearer config out b i → Runs config out into Any (opened_world config out into) events w →
        (w.out i).given ≡ (w.out i).taken ++ running → IsTmCarried config out b i w.near.layer w.far.said running }
    ensures some_of_two { (first second : Config) (out into : Dir) (b i j : ℕ) (earlier later : List At) (w : World) →
        IsTmBearer first out b i → IsTmBearer second out b j →
        (run : RunsInTwo first second out into Any Any earlier later w) → IsFaithful (run.mid.out i) →
        IsFaithful (w.out j) →
        IsTmSome second out b j (units_in first out b i (run.mid.out i).given)
        (units_in first out b i (run.mid.out i).taken) w }
    ensures all_of_two { (first second : Config) (out into : Dir) (b i j : ℕ) (earlier later : List At) (w : World)
        (running : List (List Bit)) →
        IsTmBearer first out b i → IsTmBearer second out b j →
        (run : RunsInTwo first second out into Any Any earlier later w) →
        (run.mid.out i).given ≡ (run.mid.out i).taken → (w.out j).given ≡ (w.out j).taken ++ running →
        IsTmCarried second out b j w.near.layer w.far.said running }
{}
