ghost use Rattle.std.specs.Prelude.{◌≡◌, ◌≤◌, ◌%◌, [], true, false, IfErr, IfOk, IfSome, OnOk};
ghost use Rattle.dch_accept.specs.Plans.{Planned};
ghost use Rattle.dch_lines.specs.Semantics.{Adds, Leads};
ghost use Rattle.dch_lines.specs.declared.stop.LineFault.TheVariants.{Malformed};
ghost use Rattle.dch_script.specs.declared.event.LineError.TheVariants.{When};
ghost use Rattle.dch_script.specs.Good.{IsGood, IsWithin};
ghost use Rattle.dch_script.specs.ParsedLine.{parsed_of};
ghost use Rattle.dch_nodecmd.specs.Overlong.{refuses_long};
ghost use Rattle.dch_nodecmd.specs.Rules.{MakesChange, node_lines};
ghost use Rattle.dch_lines.specs.LineTexts.{closing};
ghost use Rattle.dch_nodecmd.specs.Run.{Run, opened_run};
ghost use Rattle.dch_lines.specs.Coming.{IsDue, CanFollow};
ghost use Rattle.dch_nodecmd.specs.Handlers.{CanChange, Changes, IsReady, RepresentsHistory, RepresentsRun, ShowsLines, TakesAs, frames_of, ready_stands};
ghost use Rattle.dch_lines.specs.declared.later.Later.{Later as Coming};

use crate::node::CommandNode;
use crate::node_filter;
use crate::rooms::Rooms;
use crate::taken::Taken;
use dch_accept::Accepted;
use dch_bits::NoMemory;
use dch_lines::{Filter, Later, LineFault, LineHandler, Page, put_line};
use dch_script::{Event, Line, LineError, parse_in};
use std::alloc::Global;
use std::marker::Model;

/// The handler of a command with one node, which takes each line as an event. All memory is taken at opening.
#[derive(Drop)]
pub struct NodeHandler<N: CommandNode> {
    accepted: Accepted,
    later: Option<Later>,
    node: N,
    rooms: Rooms,
    quiet: bool,
    frames: u64,
}

impl<N: CommandNode> Model for NodeHandler<N> {
    ghost use Rattle.dch_nodecmd.specs.Handlers.{Handler};

    ghost Value = { Handler N };

    ghost view = { λ h. record {
      accepted = h.accepted;
      later = h.later;
      node = h.node;
      quiet = h.quiet;
      frames = h.frames;
    } };
}

impl<N: CommandNode + Drop> NodeHandler<N> {
    /// Opens a node for a configuration, and for a second one where one is to come, in which every bearer goes on. The
    /// first radio frame has this CFN. With `quiet` the lines of frames are left out of the text.
    pub fn open(
        alloc: Global,
        accepted: Accepted,
        later: Option<Later>,
        first_cfn: u8,
        quiet: bool,
    ) -> Result<NodeHandler<N>, NoMemory>
        requires cfn { first_cfn % 8 ≡ 0 }
        requires follows { IfSome later (CanFollow accepted) }
        ensures ready { IfOk result (IsReady N.rules N.is_opened N.has_next N.represents N.shows) }
        ensures stands { IfOk result (RepresentsRun N.rules N.represents N.shows
            (opened_run N.rules accepted later first_cfn quiet)) }
        ensures new { IfOk result (λ handler. (handler.accepted ≡ accepted) × (handler.later ≡ later) ×
            (handler.quiet ≡ quiet) × (handler.frames ≡ 0)) }
    {
        let Ok(node) = open_node(alloc, &accepted, &later, first_cfn) else {
            return Err(NoMemory);
        };
        Ok(NodeHandler {
            accepted,
            later,
            node,
            rooms: Rooms::open(alloc)?,
            quiet,
            frames: 0,
        })
    }

    /// The node, after the work. It stands for what happened in the run.
    pub fn into_node(self) -> N
        ensures node { result ≡ self.node }
        ensures opened { IsReady N.rules N.is_opened N.has_next N.represents N.shows self →
            N.is_opened self.accepted result }
        ensures history { (run : Run N.State N.Event) → RepresentsRun N.rules N.represents N.shows run self →
            RepresentsHistory N.rules N.represents N.shows run.began self.accepted run.first run.events
            run.lines result }
    {
        self.node
    }
}

/// Opens a node for one configuration or two.
fn open_node<N: CommandNode>(
    alloc: Global,
    accepted: &Accepted,
    later: &Option<Later>,
    first_cfn: u8,
) -> Result<N, NoMemory>
    requires cfn { first_cfn % 8 ≡ 0 }
    requires follows { IfSome later.now (CanFollow accepted.now) }
    ensures opened { IfOk result (N.is_opened accepted.now) }
    ensures next { IfOk result (λ node. IfSome later.now (λ later. N.has_next accepted.now later.accepted node)) }
    ensures stands { IfOk result (RepresentsHistory N.rules N.represents N.shows accepted.now accepted.now first_cfn []
        []) }
{
    match later {
        Some(later) => N::open_both(alloc, accepted, &later.accepted, first_cfn),
        None => N::open(alloc, accepted, first_cfn),
    }
}

impl<N: CommandNode> NodeHandler<N> {
    /// Makes the second configuration active, where that is due.
    fn change<P: Page>(&mut self, page: &mut P) -> Result<(), LineFault>
        requires { IsReady N.rules N.is_opened N.has_next N.represents N.shows self.old }
        ensures ok { OnOk result (Leads (RepresentsRun N.rules N.represents N.shows) self.old self.new
            (λ run next. Adds P.writes (MakesChange N.rules run next) page.old page.new)) }
        ensures err { IfErr result (λ fault. (fault ≡ Malformed When) ×
            ((later : Coming) → ¬ IsDue self.old.later self.old.frames later)) }
        ensures same { IfErr result (λ _. (self.new ≡ self.old) × (page.new ≡ page.old)) }
        ensures stands { IsReady N.rules N.is_opened N.has_next N.represents N.shows self.new }
        ensures frames { self.new.frames ≡ self.old.frames }
    {
        if !is_due(&self.later, self.frames) {
            return Err(LineFault::Malformed(LineError::When));
        }
        if let Some(later) = self.later.take() {
            self.accepted = later.into_accepted();
            make_change(&self.accepted, self.quiet, &mut self.node, page);
        }
        Ok(())
    }
}

/// Whether a second configuration is to come, and is due after so many radio frames.
fn is_due(later: &Option<Later>, frames: u64) -> bool
    ensures due { result ≡ true → (coming : Coming) × IsDue later.now frames coming }
    ensures undue { result ≡ false → (coming : Coming) → ¬ IsDue later.now frames coming }
{
    match later {
        Some(later) => u64::from(later.frame) == frames,
        None => false,
    }
}

impl<N: CommandNode> LineHandler for NodeHandler<N> {
    ghost State = { Run N.State N.Event };

    ghost semantics = { node_lines N.rules };

    ghost represents = { RepresentsRun N.rules N.represents N.shows };

    ghost stands = { IsReady N.rules N.is_opened N.has_next N.represents N.shows };

    ghost handled = { λ h. h.frames };

    fn handle_line<P: Page>(&mut self, line: &[u8], page: &mut P) -> Result<(), LineFault> {
        let event = match parse_in(N::command(), self.accepted.config(), line) {
            Ok(event) => event,
            Err(why) => return Err(LineFault::Malformed(why)),
        };
        let (accepted, rooms) = (&self.accepted, &mut self.rooms);
        match take(accepted, event, self.quiet, rooms, &mut self.node, page) {
            Taken::Event(frames) => {
                self.frames += frames;
                Ok(())
            }
            Taken::Change => self.change(page),
        }
    }

    #[tactic(auto, unfolding(dch_lines::specs::LineTexts::closing))]
    fn close<P: Page>(&self, _nonempty_lines: u64, page: &mut P) {
        put_line(page, &Line::EndFrames(self.frames));
    }

    ghost overlong = { refuses_long N.rules };

    ghost stood = { ready_stands N.rules N.is_opened N.has_next N.represents N.shows };
}

/// Takes the event of a line, and writes what is shown of the lines of the step.
fn take<N: CommandNode, P: Page>(
    accepted: &Accepted,
    event: Event<'_>,
    quiet: bool,
    rooms: &mut Rooms,
    node: &mut N,
    page: &mut P,
) -> Taken
    requires opened { N.is_opened accepted.now node.old }
    requires good { IsGood N.rules.command accepted.now.config (parsed_of event) }
    requires within { IsWithin (parsed_of event) }
    ensures took { TakesAs N.rules N.represents N.shows accepted.now (parsed_of event.entry) node.old node.new
        (ShowsLines P.writes quiet page.old page.new) (page.new ≡ page.old) result }
    ensures at_most { frames_of result ≤ 1 }
    ensures opened { N.is_opened accepted.now node.new }
    ensures next { (second : Planned) → N.has_next accepted.now second node.old →
        N.has_next accepted.now second node.new }
{
    let mut filter = Filter {
        quiet,
        lead: &[],
        page,
    };
    node_filter::take(&mut filter, accepted, event, rooms, node)
}

/// Makes the second configuration active, and writes what is shown of the lines of the step.
fn make_change<N: CommandNode, P: Page>(
    accepted: &Accepted,
    quiet: bool,
    node: &mut N,
    page: &mut P,
)
    requires { CanChange N.rules N.is_opened N.has_next N.represents accepted.now node.old }
    ensures steps { Changes N.rules N.represents N.has_next N.shows accepted.now node.old node.new
        (ShowsLines P.writes quiet page.old page.new) }
    ensures opened { N.is_opened accepted.now node.new }
{
    let mut filter = Filter {
        quiet,
        lead: &[],
        page,
    };
    node_filter::change(&mut filter, accepted, node);
}
