ghost use Rattle.std.specs.Prelude.{◌≡◌, ◌≤◌, length, option_map};
ghost use Rattle.dch_io.specs.Ends.{end_of};
ghost use Rattle.dch_io.specs.Pieces.{LIMIT, PIECE};
ghost use Rattle.dch_accept.specs.Answers.{count_of};
ghost use Rattle.dch_check.specs.ConfigSection.{settled};
ghost use Rattle.dch_top.specs.Checked.{Answers, Checks, Judged, JudgesText, PassesOver, answer_line};

use dch_bits::NoMemory;
use dch_check::{
    ConfigSection, Judgement, Second, Status, accepted_lines, judge_both, status_of, take_config,
};
use dch_io::{ReadStop, Sink, Source, new_piece, read_next, write_all};
use std::alloc::Global;

/// The answer to a configuration, or to two: the lines that accept them, or the one that refuses them.
#[derive(Drop)]
pub enum Answer {
    Accepted(String),
    Refused(String),
}

impl Answer {
    /// The lines, each with its line feed.
    fn line(&self) -> &[u8]
        ensures { result.now ≡ answer_line self.now }
    {
        match self {
            Answer::Accepted(line) | Answer::Refused(line) => line.as_bytes(),
        }
    }
}

/// Runs `check`: judges the configuration, and the second one where there is one, as soon as they are complete, and
/// takes the rest of the input where they are accepted.
pub fn run_check<S: Source, K: Sink>(alloc: Global, source: &mut S, sink: &mut K) -> Status
    ensures { Checks (end_of S.left S.faults source.old source.new) (end_of K.taken K.faults sink.old sink.new) result }
{
    match judge_input(alloc, source) {
        Ok(answer) => write_answer(&answer, sink),
        Err(status) => status,
    }
}

/// Writes the lines of an answer.
fn write_answer<K: Sink>(answer: &Answer, sink: &mut K) -> Status
    ensures { Answers (end_of K.taken K.faults sink.old sink.new) answer.now result }
{
    match write_all(sink, answer.line()) {
        Ok(()) => match answer {
            Answer::Accepted(_) => Status::Ok,
            Answer::Refused(_) => Status::Refused,
        },
        Err(_failed) => Status::WriteFault,
    }
}

/// Judges the configurations of an input.
fn judge_input<S: Source>(alloc: Global, source: &mut S) -> Result<Answer, Status>
    ensures { Judged (end_of S.left S.faults source.old source.new) result }
{
    let Ok(mut piece) = new_piece(alloc) else {
        return Err(Status::NoMemory);
    };
    judge_taken(alloc, source, &mut piece)
}

#[tactic(auto, using(crate::proofs::Judging::judged_lacks, crate::proofs::Judging::judged_refused, crate::proofs::Judging::judged_whole))]
fn judge_taken<S: Source>(alloc: Global, source: &mut S, piece: &mut [u8]) -> Result<Answer, Status>
    requires { length piece.old ≡ PIECE }
    ensures { Judged (end_of S.left S.faults source.old source.new) result }
{
    let front = match take_config(alloc, source, piece) {
        Ok(front) => front,
        Err(fault) => return Err(status_of(fault)),
    };
    match judge_section(alloc, &front.section) {
        Ok(Answer::Accepted(line)) if front.pending.at_end => Ok(Answer::Accepted(line)),
        Ok(Answer::Accepted(line)) => match pass_over(source, piece, front.read) {
            Ok(()) => Ok(Answer::Accepted(line)),
            Err(status) => Err(status),
        },
        Ok(Answer::Refused(line)) => Ok(Answer::Refused(line)),
        Err(status) => Err(status),
    }
}

/// Judges configurations that are complete.
fn judge_section(alloc: Global, section: &ConfigSection) -> Result<Answer, Status>
    ensures { JudgesText (settled section.now) result }
{
    match judge_both(alloc, section.text()) {
        Ok(Judgement::Accepted(accepted)) => {
            // Their memory is given back before the lines are made.
            let first = accepted.first.count();
            let second = second_count(&accepted.second);
            drop(accepted);
            match accepted_lines(alloc, first, second) {
                Ok(lines) => Ok(Answer::Accepted(lines)),
                Err(NoMemory) => Err(Status::NoMemory),
            }
        }
        Ok(Judgement::Refused(line)) => Ok(Answer::Refused(line)),
        Err(NoMemory) => Err(Status::NoMemory),
    }
}

/// The count of a second configuration, if there is one.
fn second_count(second: &Option<Second>) -> Option<u128>
    ensures { result ≡ option_map (λ second. count_of second.accepted.config) second.now }
{
    second.as_ref().map(|second| second.accepted.count())
}

/// Takes the rest of an input after so many bytes.
fn pass_over<S: Source>(source: &mut S, piece: &mut [u8], mut count: usize) -> Result<(), Status>
    requires piece { length piece.old ≡ PIECE }
    requires within { count ≤ LIMIT }
    ensures passes { PassesOver (end_of S.left S.faults source.old source.new) count result }
    ensures later { S.faults source.old ≤ S.faults source.new }
{
    'pieces: loop {
        match read_next(source, piece, count) {
            Ok(0) => return Ok(()),
            Ok(read) => count += read,
            Err(ReadStop::Failed) => return Err(Status::ReadFault),
            Err(ReadStop::TooLong) => return Err(Status::TooLong),
        }
    }
}
