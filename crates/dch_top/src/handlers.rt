ghost use Rattle.std.specs.Prelude.{◌≡◌, [], ◌∷◌, Some};
ghost use Rattle.dch_check.specs.declared.front.FrontKind.TheVariants.{Both, Single};
ghost use Rattle.dch_top.specs.Benches.{Nodes, no_nodes};
ghost use Rattle.dch_top.specs.LinkRuns.{HoldsLink, run_of as link_of};
ghost use Rattle.dch_top.specs.NodeRuns.{HoldsNode, later_of, run_of};
ghost use Rattle.dch_top.specs.Parses.{AreLegs};
ghost use Rattle.dch_top.specs.SoftRuns.{HoldsLegs, run_of as soft_of};

use crate::arguments::Arguments;
use crate::bench::Bench;
use crate::nodes::NodesHandler;
use dch_bits::NoMemory;
use dch_check::{Configurations, FrontKind, Second};
use dch_lines::Later;
use dch_nodecmd::dch_rnc::Rnc;
use dch_nodecmd::dch_ue::Ue;
use dch_nodecmd::{CommandNode, NodeB, NodeHandler};
use dch_runlaw::{LinkHandler, SoftHandler};
use std::alloc::Global;

/// A node that a bench can hold alone.
pub trait Benched {
    /// What a bench then holds.
    ghost alone: { Self → Nodes };

    /// Hands the node over to an empty bench.
    fn put(self, bench: &mut Bench)
        requires { bench.old ≡ no_nodes }
        ensures { bench.new ≡ alone self };
}

impl Benched for NodeB {
    ghost alone = { λ node. record no_nodes { node_bs = node ∷ [] } };

    fn put(self, bench: &mut Bench) {
        bench.hold_node_b(self);
    }
}

impl Benched for Rnc {
    ghost alone = { λ node. record no_nodes { rnc = Some node } };

    fn put(self, bench: &mut Bench) {
        bench.hold_rnc(self);
    }
}

impl Benched for Ue {
    ghost alone = { λ node. record no_nodes { ue = Some node } };

    fn put(self, bench: &mut Bench) {
        bench.hold_ue(self);
    }
}

impl<N: CommandNode + Benched + Drop> NodesHandler for NodeHandler<N> {
    ghost kind = { Both };

    ghost can = { λ arguments. Unit {0} };

    ghost opens = { λ arguments accepted. Self.represents (run_of N.rules arguments.start arguments.quiet accepted) };

    ghost hands = { λ handler nodes. (run : Self.State) → Self.represents run handler →
        HoldsNode N.rules N.represents N.shows N.alone nodes run };

    fn front() -> FrontKind {
        FrontKind::Both
    }

    fn open(
        alloc: Global,
        accepted: Configurations,
        arguments: Arguments,
    ) -> Result<NodeHandler<N>, NoMemory> {
        let Configurations { first, second } = accepted;
        let Arguments { start, quiet, .. } = arguments;
        NodeHandler::open(alloc, first, later_of(second), 8 * start, quiet)
    }

    fn hold(self, bench: &mut Bench) {
        self.into_node().put(bench);
    }

    ghost memory = { λ run line wants. wants };
}

impl NodesHandler for LinkHandler {
    ghost kind = { Both };

    ghost can = { λ arguments. Unit {0} };

    ghost opens = { λ arguments accepted. Self.represents (link_of arguments.start arguments.quiet accepted) };

    ghost hands = { λ handler nodes. (run : Self.State) → Self.represents run handler → HoldsLink nodes run };

    fn front() -> FrontKind {
        FrontKind::Both
    }

    fn open(
        alloc: Global,
        accepted: Configurations,
        arguments: Arguments,
    ) -> Result<LinkHandler, NoMemory> {
        let Configurations { first, second } = accepted;
        let Arguments { start, quiet, .. } = arguments;
        LinkHandler::open(alloc, first, later_of(second), 8 * start, quiet)
    }

    fn hold(self, bench: &mut Bench) {
        let (ue, node_b, rnc) = self.into_nodes();
        bench.hold_ue(ue);
        bench.hold_node_b(node_b);
        bench.hold_rnc(rnc);
    }

    ghost memory = { λ run line wants. wants };
}

/// The count of the arguments is that of the legs.
impl NodesHandler for SoftHandler {
    ghost kind = { Single };

    ghost can = { λ arguments. AreLegs arguments.count };

    ghost opens = { λ arguments accepted. Self.represents
        (soft_of arguments.count arguments.start arguments.quiet accepted) };

    ghost hands = { λ handler nodes. (run : Self.State) → Self.represents run handler → HoldsLegs nodes run };

    fn front() -> FrontKind {
        FrontKind::Single
    }

    fn open(
        alloc: Global,
        accepted: Configurations,
        arguments: Arguments,
    ) -> Result<SoftHandler, NoMemory> {
        let Configurations {
            first,
            second: _second,
        } = accepted;
        let Arguments {
            count,
            start,
            quiet,
            ..
        } = arguments;
        SoftHandler::open(alloc, first, 8 * start, count as u8, quiet)
    }

    fn hold(self, bench: &mut Bench) {
        let (ue, legs, rnc) = self.into_nodes();
        bench.hold_ue(ue);
        bench.hold_legs(legs);
        bench.hold_rnc(rnc);
    }

    ghost memory = { λ run line wants. wants };
}

/// The second configuration of an input, which is still to come.
fn later_of(second: Option<Second>) -> Option<Later>
    ensures { result ≡ later_of second }
{
    match second {
        Some(Second { frame, accepted }) => Some(Later { frame, accepted }),
        None => None,
    }
}
