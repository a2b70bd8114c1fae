ghost use Rattle.std.specs.Prelude.{◌≡◌, ◌≤◌, ℕ, List, length, IfOk};
ghost use Rattle.dch_io.specs.Ends.{end_of};
ghost use Rattle.dch_io.specs.Pieces.{PIECE};
ghost use Rattle.dch_check.specs.Configured.{WantsNone};
ghost use Rattle.dch_check.specs.Fronts.{AdmitsFront};
ghost use Rattle.dch_check.specs.declared.both.Configurations.{Configurations as Both};
ghost use Rattle.dch_check.specs.declared.front.FrontKind.{FrontKind as Kind};
ghost use Rattle.dch_top.specs.Benches.{Nodes, no_nodes};
ghost use Rattle.dch_top.specs.NodeRuns.{HeldBy, OpensAs, RunsWith};
ghost use Rattle.dch_top.specs.declared.arguments.Arguments.{Arguments as Words};

use crate::arguments::Arguments;
use crate::bench::Bench;
use dch_bits::NoMemory;
use dch_check::{Configurations, FrontKind, Status, follow_script, take_configuration};
use dch_io::{Sink, Source, new_piece};
use dch_lines::LineHandler;
use std::alloc::Global;

/// The handler of a command with nodes, which are opened for what stands in front of its lines.
pub trait NodesHandler: LineHandler {
    /// What may stand in front of the lines.
    ghost kind: { Kind };

    /// What the words of the command may ask for.
    ghost can: { Words → Type 0 };

    /// What a handler is that was just opened for what the words ask and what stands in front of the lines.
    ghost opens: { Words → Both → Self → Type 0 };

    /// What a bench holds to which a handler handed its nodes over.
    ghost hands: { Self → Nodes → Type 0 };

    /// What may stand in front of the lines.
    fn front() -> FrontKind
        ensures { result ≡ kind };

    /// Opens the nodes for what stands in front of the lines. They start at a CFN of 8 times `start`; with `quiet` the
    /// lines of frames are left out.
    fn open(alloc: Global, accepted: Configurations, arguments: Arguments) -> Result<Self, NoMemory>
        requires start { arguments.start ≤ 31 }
        requires can { can arguments }
        requires front { (text : List ℕ) × AdmitsFront kind text accepted }
        ensures stands { IfOk result Self.stands }
        ensures handled { IfOk result (λ handler. Self.handled handler ≡ 0) }
        ensures opened { IfOk result (opens arguments accepted) };

    /// Hands the nodes over to an empty bench.
    fn hold(self, bench: &mut Bench)
        requires { bench.old ≡ no_nodes }
        ensures { hands self bench.new };

    /// No line wants memory.
    ghost memory: { WantsNone Self.semantics };
}

/// Runs a command with nodes, by the lines behind what stands in front of them. The bench holds the nodes where all
/// went well.
pub fn run_nodes<H: NodesHandler + Drop, S: Source, K: Sink>(
    alloc: Global,
    arguments: Arguments,
    source: &mut S,
    sink: &mut K,
    bench: &mut Bench,
) -> Status
    requires start { arguments.start ≤ 31 }
    requires can { H.can arguments }
    requires bench { bench.old ≡ no_nodes }
    ensures { (opened : Both → H.State) → OpensAs H.represents (H.opens arguments) opened →
        RunsWith H.kind H.semantics opened (HeldBy H.represents H.hands) (end_of S.left S.faults source.old source.new)
        (end_of K.taken K.faults sink.old sink.new) bench.new result }
{
    let Ok(mut piece) = new_piece(alloc) else {
        return Status::NoMemory;
    };
    run_pieces::<H, S, K>(alloc, arguments, source, sink, bench, &mut piece)
}

fn run_pieces<H: NodesHandler + Drop, S: Source, K: Sink>(
    alloc: Global,
    arguments: Arguments,
    source: &mut S,
    sink: &mut K,
    bench: &mut Bench,
    piece: &mut [u8],
) -> Status
    requires start { arguments.start ≤ 31 }
    requires can { H.can arguments }
    requires bench { bench.old ≡ no_nodes }
    requires piece { length piece.old ≡ PIECE }
    ensures { (opened : Both → H.State) → OpensAs H.represents (H.opens arguments) opened →
        RunsWith H.kind H.semantics opened (HeldBy H.represents H.hands) (end_of S.left S.faults source.old source.new)
        (end_of K.taken K.faults sink.old sink.new) bench.new result }
{
    let (front, accepted) = match take_configuration(alloc, source, sink, piece, H::front()) {
        Ok(taken) => taken,
        Err(status) => return status,
    };
    let Ok(handler) = H::open(alloc, accepted, arguments) else {
        return Status::NoMemory;
    };
    match follow_script(alloc, source, sink, piece, &front, handler) {
        Ok(handler) => {
            handler.hold(bench);
            Status::Ok
        }
        Err(status) => status,
    }
}
