ghost use Rattle.std.specs.Prelude.{◌≡◌, ◌<◌, ◌+◌, ℕ, List};
ghost use Rattle.dch_node.specs.Lines.{Line, joined};
ghost use Rattle.dch_lines.specs.LineTexts.{HandlesLines};
ghost use Rattle.dch_linkcmd.specs.LinkLink.{LinkState};
ghost use Rattle.dch_linkcmd.specs.LinkStages.{AtStage};
ghost use Rattle.dch_linkcmd.specs.Rules.{link_lines};
ghost use Rattle.dch_linkcmd.specs.Run.{Run};
ghost use Rattle.dch_runlaw.specs.Frames.{IsFrame, stage_at};
ghost use Rattle.dch_runlaw.specs.Scripts.{IsAtRest, IsRunOf};

/// A law: the twenty stages of a radio frame of 10 ms, one after another, are one frame: the network controller's tick,
/// its Iub frames to the Node B set by set, the downlink radio frame to the terminal and its tick, the uplink radio
/// frame to the Node B, and its Iub frames to the network controller set by set, each after the damage that waits, with
/// the lines of all in this order.
pub fn frame_law()
    ensures { (states : ℕ → LinkState) (lines : ℕ → List Line) →
        ((k : ℕ) → k < 20 → AtStage (stage_at k) (states k) (states (k + 1)) (lines k)) →
        IsFrame (states 0) (states 20) (joined lines 20) × ((states 20).damage ≡ (states 0).damage) }
{}

/// A law: what the lines of `link` do, stage by stage, is a run of what they say, each in the configuration that is
/// active before it: events between radio frames, and whole radio frames, with the text that is shown of the lines of
/// all. Where a second configuration is to come and its radio frame passes, the run has two parts: the configuration
/// becomes active just before that radio frame.
pub fn run_law()
    ensures { (old : Run) (lines : List (List ℕ)) (new : Run) (text : List ℕ) → IsAtRest old →
        HandlesLines link_lines old lines new text → IsRunOf old lines new text }
{}
