ghost use Rattle.std.specs.Prelude.{◌≡◌, ◌≤◌, ◌⊎◌, ℕ, List, IfSome, length, []};
ghost use Rattle.dch_io.specs.Causes.{Rose};
ghost use Rattle.dch_io.specs.Ends.{end_of};
ghost use Rattle.dch_script.specs.Lines.{lines_of, rest_of};
ghost use Rattle.dch_check.specs.ConfigSection.{configuration_of, script_of};
ghost use Rattle.dch_check.specs.Both.{AreAccepted, RefusesBoth};
ghost use Rattle.dch_check.specs.declared.both.Configurations.{Configurations};
ghost use Rattle.dch_io.specs.Pieces.{LIMIT};
ghost use Rattle.dch_top.specs.Parses.{AreLegs};
ghost use Rattle.dch_top.specs.declared.arguments.Subcommand.TheVariants.{Check, Encode, Gen, Link, Pair, Soft};
ghost use Rattle.dch_top.specs.declared.arguments.Arguments.{Arguments};
ghost use Rattle.dch_top.specs.Benches.{no_nodes};
ghost use Rattle.dch_check.specs.Fronts.{AdmitsFront};
ghost use Rattle.dch_top.specs.LinkHandled.{CarriesSoFar};
ghost use Rattle.dch_top.specs.LinkUnits.{CarriesUnits};
ghost use Rattle.dch_top.specs.PairRuns.{ArePairLines};
ghost use Rattle.dch_top.specs.Encoded.{AreGood};
ghost use Rattle.dch_top.specs.Ran.{AreEventsFor, Asks, IsNoCommand, Misuses, Ran, Runs, Says, front_kind};

use crate::arguments::{Arguments, Subcommand, parse_arguments};
use crate::bench::Bench;
use crate::check::run_check;
use crate::generate::run_generate;
use crate::lines::{run_encode, run_pair};
use crate::nodes::run_nodes;
use dch_bits::NoMemory;
use dch_check::Status;
use dch_io::{CleanSink, CleanSource, Sink, Source, write_all};
use dch_nodecmd::dch_rnc::Rnc;
use dch_nodecmd::dch_ue::Ue;
use dch_nodecmd::{NodeB, NodeHandler};
use dch_runlaw::{LinkHandler, SoftHandler};
use std::alloc::Global;

/// Runs the command that the words name: reads from the source and writes to the sink. The words don't hold the
/// program's name. The bench is empty; where the status is 0 it then holds just the nodes of the command.
pub fn run<S: Source, K: Sink>(
    alloc: Global,
    words: &[String],
    source: &mut S,
    sink: &mut K,
    bench: &mut Bench,
) -> Status
    requires bench { bench.old ≡ no_nodes }

    // What was read and written, what the status says of it, and what the bench holds.
    ensures ran { Ran words.now (end_of S.left S.faults source.old source.new)
        (end_of K.taken K.faults sink.old sink.new) bench.new result }

    // Faults are never made up.
    ensures read_fault { result ≡ Status.ReadFault → Rose (S.faults source.old) (S.faults source.new) }
    ensures write_fault { result ≡ Status.WriteFault → Rose (K.faults sink.old) (K.faults sink.new) }
    ensures usage { result ≡ Status.Usage → IsNoCommand words.now }

    // A run of the three nodes that went well hands up the units of the bearers in order, as far as they came without a
    // gap, whatever damage came between the nodes, also where they went over to a second configuration.
    ensures headline { (arguments : Arguments) → Says words.now arguments → arguments.subcommand ≡ Link →
        result ≡ Status.Ok
        → CarriesUnits arguments.start arguments.quiet (end_of S.left S.faults source.old source.new)
        (end_of K.taken K.faults sink.old sink.new) }

    // Whatever the status, so does the text of the lines that were handled, where the line `open` was written whole: up
    // to a malformed line, a failed read or the limit, or up to the line in whose text a write failed.
    ensures handled { (arguments : Arguments) → Says words.now arguments → arguments.subcommand ≡ Link
        → CarriesSoFar arguments.start arguments.quiet (end_of S.left S.faults source.old source.new)
        (end_of K.taken K.faults sink.old sink.new) result }

    // Good lines without a fault are all answered.
    ensures complete { Asks words.now Encode → IfSome (S.left source.old) (λ input. AreGood (lines_of input) →
        rest_of input ≡ [] → length input ≤ LIMIT
        → ¬ Rose (S.faults source.old) (S.faults source.new) → ¬ Rose (K.faults sink.old) (K.faults sink.new)
        → (result ≡ Status.Ok) ⊎ (result ≡ Status.NoMemory)) }

    // So are the lines of a command with nodes behind an accepted configuration.
    ensures events { (arguments : Arguments) → Says words.now arguments →
        IfSome (S.left source.old) (λ input. (accepted : Configurations) →
        AdmitsFront (front_kind arguments.subcommand) (configuration_of input) accepted
        → AreEventsFor arguments.subcommand arguments accepted (lines_of (script_of input)) →
        rest_of (script_of input) ≡ [] → length input ≤ LIMIT
        → ¬ Rose (S.faults source.old) (S.faults source.new) → ¬ Rose (K.faults sink.old) (K.faults sink.new)
        → (result ≡ Status.Ok) ⊎ (result ≡ Status.NoMemory)) }

    // Lines of `pair` of which none is refused where those before it lead are all answered.
    ensures paired { Asks words.now Pair → IfSome (S.left source.old) (λ input. ArePairLines (lines_of input) →
        rest_of input ≡ [] → length input ≤ LIMIT
        → ¬ Rose (S.faults source.old) (S.faults source.new) → ¬ Rose (K.faults sink.old) (K.faults sink.new)
        → (result ≡ Status.Ok) ⊎ (result ≡ Status.NoMemory)) }

    // `gen` reads nothing, and a sink without a fault takes its summary.
    ensures summed { Asks words.now Gen → ¬ Rose (K.faults sink.old) (K.faults sink.new) → (result ≡ Status.Ok) ⊎
        (result ≡ Status.NoMemory) }

    // A configuration without a fault is judged.
    ensures good { Asks words.now Check → IfSome (S.left source.old) (λ input. (lines : List ℕ) →
        AreAccepted (configuration_of input) lines → length input ≤ LIMIT
        → ¬ Rose (S.faults source.old) (S.faults source.new) → ¬ Rose (K.faults sink.old) (K.faults sink.new)
        → (result ≡ Status.Ok) ⊎ (result ≡ Status.NoMemory)) }
    ensures refused { Asks words.now Check → IfSome (S.left source.old) (λ input. (line : List ℕ) →
        RefusesBoth (configuration_of input) line → length input ≤ LIMIT
        → ¬ Rose (S.faults source.old) (S.faults source.new) → ¬ Rose (K.faults sink.old) (K.faults sink.new)
        → (result ≡ Status.Refused) ⊎ (result ≡ Status.NoMemory)) }
{
    follow_words(alloc, words, source, sink, bench)
}

/// A law: the faults of `CleanSource` and `CleanSink` never rise. So `run` over these two never answers that a read or
/// a write failed.
pub fn clean_law()
    ensures read { (old new : List ℕ) → ¬ Rose (⟦<CleanSource<'static> as Source>⟧.faults old)
        (⟦<CleanSource<'static> as Source>⟧.faults new) }
    ensures write { (old new : CleanSink) → ¬ Rose (⟦<CleanSink as Sink>⟧.faults old)
        (⟦<CleanSink as Sink>⟧.faults new) }
{}

fn follow_words<S: Source, K: Sink>(
    alloc: Global,
    words: &[String],
    source: &mut S,
    sink: &mut K,
    bench: &mut Bench,
) -> Status
    requires { bench.old ≡ no_nodes }
    ensures { Ran words.now (end_of S.left S.faults source.old source.new)
        (end_of K.taken K.faults sink.old sink.new) bench.new result }
{
    match parse_arguments(alloc, words) {
        Ok(Some(arguments)) => run_command(alloc, arguments, source, sink, bench),
        Ok(None) => refuse_words(source, sink),
        Err(NoMemory) => Status::NoMemory,
    }
}

fn run_command<S: Source, K: Sink>(
    alloc: Global,
    arguments: Arguments,
    source: &mut S,
    sink: &mut K,
    bench: &mut Bench,
) -> Status
    requires start { arguments.start ≤ 31 }
    requires count { arguments.count ≤ 100000 }
    requires legs { arguments.subcommand ≡ Soft → AreLegs arguments.count }
    requires bench { bench.old ≡ no_nodes }
    ensures { Runs arguments.subcommand arguments (end_of S.left S.faults source.old source.new)
        (end_of K.taken K.faults sink.old sink.new) bench.new result }
{
    match arguments.subcommand {
        Subcommand::Check => run_check(alloc, source, sink),
        Subcommand::Encode => run_encode(alloc, source, sink),
        Subcommand::NodeB => run_nodes::<NodeHandler<NodeB>, S, K>(
            alloc, arguments, source, sink, bench,
        ),
        Subcommand::Rnc => run_nodes::<NodeHandler<Rnc>, S, K>(
            alloc, arguments, source, sink, bench,
        ),
        Subcommand::Ue => run_nodes::<NodeHandler<Ue>, S, K>(alloc, arguments, source, sink, bench),
        Subcommand::Link => run_nodes::<LinkHandler, S, K>(alloc, arguments, source, sink, bench),
        Subcommand::Soft => run_nodes::<SoftHandler, S, K>(alloc, arguments, source, sink, bench),
        Subcommand::Gen => run_generate(alloc, arguments.start, arguments.count, sink, bench),
        Subcommand::Pair => run_pair(alloc, source, sink),
    }
}

fn refuse_words<S: Source, K: Sink>(_source: &mut S, sink: &mut K) -> Status
    ensures { Misuses (end_of S.left S.faults _source.old _source.new)
        (end_of K.taken K.faults sink.old sink.new) result }
{
    match write_all(sink, b"usage: dch COMMAND [COUNT] [--start N] [--quiet]\n") {
        Ok(()) => Status::Usage,
        Err(_failed) => Status::WriteFault,
    }
}
