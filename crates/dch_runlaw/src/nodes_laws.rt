ghost use Rattle.std.specs.Prelude.{◌++◌, ℕ, List};
ghost use Rattle.dch_types.specs.declared.channel.Dir.TheVariants.{Down, Up};
ghost use Rattle.dch_config.specs.Changes.{KeepsBearer};
ghost use Rattle.dch_accept.specs.Plans.{Planned};
ghost use Rattle.dch_runlaw.specs.History.{IsAmBearer};
ghost use Rattle.dch_runlaw.specs.TmHistory.{IsTmBearer};
ghost use Rattle.dch_runlaw.specs.UmHistory.{IsUmBearer};
ghost use Rattle.dch_runlaw.specs.Worlds.{IsFaithful};
ghost use Rattle.dch_runlaw.specs.NodesCalls.{nodes_calls};
ghost use Rattle.dch_runlaw.specs.Nodes.{Any, AreAllTaken, AreFaithful, AreWhole, Event, IsAmHistory, IsAmHistoryOver, IsDownKnown, IsDownKnownOver, IsDownSome, IsDownSomeOver, IsUpKnown, IsUpKnownOver, IsUpSome, IsUpSomeOver, IsWholeAmHistory, Nodes, Runs, RunsInTwo, opened_nodes};

/// A law: any events happen at a terminal and a network controller, in any order and with any frames. After each event
/// the good blocks taken so far of the two channels of an acknowledged bearer are some of the blocks given to them so
/// far, in order.
///
/// Then the calls that its two ends got are a history of two ends with blocks in flight, in order: its units that were
/// offered, the ticks, a PDU that arrives in each good block for it, and a build for each block that it gave. With
/// losses on the way between them they lead to just their senders and receivers. It is safe; and all lines on PDUs and
/// units of the bearer are the units that it hands up.
///
/// And so in two parts, where another configuration that keeps the bearer becomes active at both nodes, one after the
/// other, and in each part this holds of the channels that the bearer has there, with what was given and taken in the
/// part. The blocks that were given in the first part and not taken there are lost, and the history goes on.
pub fn nodes_law()
    ensures one { (planned : Planned) (ue_first rnc_first b up down : ℕ) (events : List Event) (nodes : Nodes) →
        IsAmBearer planned.config Up Down b up down →
        (run : Runs (AreFaithful up down) (opened_nodes planned ue_first rnc_first) events nodes) →
        IsAmHistory planned b (nodes_calls planned.config b (AreFaithful up down)
        (opened_nodes planned ue_first rnc_first) events nodes run) nodes }
    ensures two { (first second : Planned) (ue_first rnc_first b up down up_later down_later : ℕ)
        (earlier later : List Event) (nodes : Nodes) →
        KeepsBearer first.config second.config b → IsAmBearer first.config Up Down b up down →
        IsAmBearer second.config Up Down b up_later down_later →
        (run : RunsInTwo first second (AreFaithful up down)
        (AreFaithful up_later down_later) ue_first rnc_first earlier later nodes) →
        IsAmHistoryOver second b (nodes_calls first.config b (AreFaithful up down)
        (opened_nodes first ue_first rnc_first) earlier run.mid run.before)
        (nodes_calls second.config b (AreFaithful up_later down_later) run.next later nodes run.behind) run.mid nodes }
{}

/// A law: where besides, after each event, what was taken of the two channels begins what was given to them, the calls
/// alone are that history, and nothing is lost in it. Handed up at each end are just the accepted units of the other
/// one, in order, whose length indicator was sent in the blocks that were taken. And so in two parts where all that was
/// given to the two channels in the first part was taken there.
pub fn whole_nodes_law()
    ensures one { (planned : Planned) (ue_first rnc_first b up down : ℕ) (events : List Event) (nodes : Nodes) →
        IsAmBearer planned.config Up Down b up down →
        (run : Runs (AreWhole up down) (opened_nodes planned ue_first rnc_first) events nodes) →
        IsWholeAmHistory planned b up down (nodes_calls planned.config b (AreWhole up down)
        (opened_nodes planned ue_first rnc_first) events nodes run) nodes }
    ensures two { (first second : Planned) (ue_first rnc_first b up down up_later down_later : ℕ)
        (earlier later : List Event) (nodes : Nodes) →
        KeepsBearer first.config second.config b → IsAmBearer first.config Up Down b up down →
        IsAmBearer second.config Up Down b up_later down_later →
        (run : RunsInTwo first second (AreWhole up down)
        (AreWhole up_later down_later) ue_first rnc_first earlier later nodes) →
        AreAllTaken up down run.mid →
        IsWholeAmHistory second b up_later down_later (nodes_calls first.config b (AreWhole up down)
        (opened_nodes first ue_first rnc_first) earlier run.mid run.before ++
        nodes_calls second.config b (AreWhole up_later down_later) run.next later nodes run.behind) nodes }
{}

/// A law: any events happen at a terminal and a network controller, and at last what was taken of the channel of an
/// unacknowledged bearer is some of what was given to it, in order; nothing is asked of any other channel. Then some of
/// the PDUs that its sender built were taken, in order; and where fewer than 128 successive ones were lost before each
/// that came, all lines on the bearer are the units that are known, in order. And so in two parts, where PDUs that were
/// given in the first part and not taken there are lost.
pub fn um_nodes_law()
    ensures up { (planned : Planned) (ue_first rnc_first b up : ℕ) (events : List Event) (nodes : Nodes) →
        IsUmBearer planned.config Up b up →
        Runs Any (opened_nodes planned ue_first rnc_first) events nodes → IsFaithful (nodes.up up) →
        IsUpKnown planned b up nodes }
    ensures down { (planned : Planned) (ue_first rnc_first b down : ℕ) (events : List Event) (nodes : Nodes) →
        IsUmBearer planned.config Down b down →
        Runs Any (opened_nodes planned ue_first rnc_first) events nodes → IsFaithful (nodes.down down) →
        IsDownKnown planned b down nodes }
    ensures up_in_two { (first second : Planned) (ue_first rnc_first b up up_later : ℕ) (earlier later : List Event)
        (nodes : Nodes) →
        IsUmBearer first.config Up b up → IsUmBearer second.config Up b up_later →
        (run : RunsInTwo first second Any Any ue_first rnc_first earlier later nodes) →
        IsFaithful (run.mid.up up) → IsFaithful (nodes.up up_later) →
        IsUpKnownOver first second b up up_later run.mid nodes }
    ensures down_in_two { (first second : Planned) (ue_first rnc_first b down down_later : ℕ)
        (earlier later : List Event) (nodes : Nodes) →
        IsUmBearer first.config Down b down → IsUmBearer second.config Down b down_later →
        (run : RunsInTwo first second Any Any ue_first rnc_first earlier later nodes) →
        IsFaithful (run.mid.down down) → IsFaithful (nodes.down down_later) →
        IsDownKnownOver first second b down down_later run.mid nodes }
{}

/// A law: and of a transparent bearer, where what was taken of its channel is some of what was given to it, all lines
/// on the bearer are the units of the blocks that were taken, which are some of those that were accepted, in order,
/// each at most once. And so in two parts, of what was taken and accepted in both.
pub fn tm_nodes_law()
    ensures up { (planned : Planned) (ue_first rnc_first b up : ℕ) (events : List Event) (nodes : Nodes) →
        IsTmBearer planned.config Up b up →
        Runs Any (opened_nodes planned ue_first rnc_first) events nodes → IsFaithful (nodes.up up) →
        IsUpSome planned b up nodes }
    ensures down { (planned : Planned) (ue_first rnc_first b down : ℕ) (events : List Event) (nodes : Nodes) →
        IsTmBearer planned.config Down b down →
        Runs Any (opened_nodes planned ue_first rnc_first) events nodes → IsFaithful (nodes.down down) →
        IsDownSome planned b down nodes }
    ensures up_in_two { (first second : Planned) (ue_first rnc_first b up up_later : ℕ) (earlier later : List Event)
        (nodes : Nodes) →
        IsTmBearer first.config Up b up → IsTmBearer second.config Up b up_later →
        (run : RunsInTwo first second Any Any ue_first rnc_first earlier later nodes) →
        IsFaithful (run.mid.up up) → IsFaithful (nodes.up up_later) →
        IsUpSomeOver first second b up up_later run.mid nodes }
    ensures down_in_two { (first second : Planned) (ue_first rnc_first b down down_later : ℕ)
        (earlier later : List Event) (nodes : Nodes) →
        IsTmBearer first.config Down b down → IsTmBearer second.config Down b down_later →
        (run : RunsInTwo first second Any Any ue_first rnc_first earlier later nodes) →
        IsFaithful (run.mid.down down) → IsFaithful (nodes.down down_later) →
        IsDownSomeOver first second b down down_later run.mid nodes }
{}
