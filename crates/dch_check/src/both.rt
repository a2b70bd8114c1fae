ghost use Rattle.std.specs.Prelude.{◌≡◌, ◌<◌, ℕ, List, true, false, IfOk, IfSome, IfNone, length, position};
ghost use Rattle.std.specs.List.{before_first, after_first};
ghost use Rattle.dch_check.specs.Both.{AreAccepted, IsChangeFrame, JudgesBoth, JudgesSecond, RefusesBoth, behind_mark, is_feed};
ghost use Rattle.dch_check.specs.Singles.{IsSecondAt, first_of, has_second};
ghost use Rattle.dch_check.specs.Verdicts.{IsAcceptedAs};

use crate::refusal::bearer_line;
use crate::single::{second_at, second_line};
use crate::verdict::{Verdict, judge, judge_as};
use crate::which::Which;
use dch_accept::Accepted;
use dch_bits::NoMemory;
use dch_config::{ChangeError, change};
use dch_script::read_number;
use std::alloc::Global;

/// The configurations of an input that are accepted: the first, and maybe a second one that follows it.
#[derive(Drop)]
pub struct Configurations {
    pub first: Accepted,
    pub second: Option<Second>,
}

/// A second configuration.
#[derive(Drop)]
pub struct Second {
    /// The radio frame from which it is active, counted from 0: a multiple of 8 from 8 to 100,000.
    pub frame: u32,
    pub accepted: Accepted,
}

/// The judgement of one configuration or two.
#[derive(Drop)]
pub enum Judgement {
    /// They are accepted.
    Accepted(Configurations),
    /// They are refused, by this line, which has its line feed.
    Refused(String),
}

/// Judges a text with a configuration and, behind a line `--- N`, maybe a second one that is active from radio frame N
/// on and in which every bearer goes on. The first one is judged before N, N before the second one, and that before its
/// bearers.
pub fn judge_both(alloc: Global, text: &[u8]) -> Result<Judgement, NoMemory>
    ensures { IfOk result (JudgesBoth text.now) }
{
    let Some(at) = second_at(text) else {
        return judge_alone(alloc, text);
    };
    match judge(alloc, &text[..at])? {
        Verdict::Accepted(first) => judge_behind(alloc, first, text, at),
        Verdict::Refused(line) => Ok(Judgement::Refused(line)),
    }
}

/// Judges a text without a second configuration.
fn judge_alone(alloc: Global, text: &[u8]) -> Result<Judgement, NoMemory>
    requires { has_second text.now ≡ false }
    ensures { IfOk result (JudgesBoth text.now) }
{
    match judge(alloc, text)? {
        Verdict::Accepted(first) => Ok(Judgement::Accepted(Configurations {
            first,
            second: None,
        })),
        Verdict::Refused(line) => Ok(Judgement::Refused(line)),
    }
}

/// Judges what stands behind a first configuration that is accepted.
fn judge_behind(
    alloc: Global,
    first: Accepted,
    text: &[u8],
    at: usize,
) -> Result<Judgement, NoMemory>
    requires at { IsSecondAt text.now at }
    requires accepted { IsAcceptedAs (first_of text.now) first }
    ensures { IfOk result (JudgesBoth text.now) }
{
    let (word, second) = cut_line(part_behind(text, at));
    match read_frame(word) {
        None => Ok(Judgement::Refused(second_line(alloc)?)),
        Some(frame) => judge_second(alloc, first, frame, second),
    }
}

/// Judges the text of a second configuration that is to be active from a radio frame on.
fn judge_second(
    alloc: Global,
    first: Accepted,
    frame: u32,
    text: &[u8],
) -> Result<Judgement, NoMemory>
    ensures { IfOk result (JudgesSecond text.now first frame) }
{
    match judge_as(alloc, Which::Second, text)? {
        Verdict::Accepted(accepted) => judge_change(alloc, text, first, Second { frame, accepted }),
        Verdict::Refused(line) => Ok(Judgement::Refused(line)),
    }
}

/// Judges whether a second configuration of this text can follow the first one.
fn judge_change(
    alloc: Global,
    text: &[u8],
    first: Accepted,
    second: Second,
) -> Result<Judgement, NoMemory>
    requires { IsAcceptedAs text.now second.accepted }
    ensures { IfOk result (JudgesSecond text.now first second.frame) }
{
    match change(first.config(), second.accepted.config()) {
        Ok(()) => Ok(Judgement::Accepted(Configurations {
            first,
            second: Some(second),
        })),
        Err(ChangeError::Change(bearer)) => {
            let line = bearer_line(alloc, Which::First, 29, bearer)?;
            Ok(Judgement::Refused(line))
        }
    }
}

/// What stands behind `--- ` in a line, and in the lines after it.
fn part_behind(text: &[u8], at: usize) -> &[u8]
    requires { IsSecondAt text.now at }
    ensures { result.now ≡ behind_mark true text.entry.now }
{
    &text[at + 4..]
}

/// The line at the front of some bytes, without its line feed, and what follows it.
fn cut_line(bytes: &[u8]) -> (&[u8], &[u8])
    ensures line { result.0.now ≡ before_first is_feed bytes.entry.now }
    ensures rest { result.1.now ≡ after_first is_feed bytes.entry.now }
{
    match feed_at(bytes) {
        Some(at) => (&bytes[..at], &bytes[at + 1..]),
        None => (bytes, &[]),
    }
}

/// Where the first line feed is.
fn feed_at(bytes: &[u8]) -> Option<usize>
    ensures value { result ≡ position is_feed bytes.now }
    ensures within { IfSome result (λ at. at < length bytes.now) }
{
    bytes.iter().position(|c| *c == b'\n')
}

/// The radio frame that a word names: a multiple of 8 from 8 to 100,000.
fn read_frame(word: &[u8]) -> Option<u32>
    ensures some { IfSome result (IsChangeFrame word.now) }
    ensures none { IfNone result ((frame : ℕ) → ¬ IsChangeFrame word.now frame) }
{
    match read_number(word, 100_000) {
        Some(frame) if 8 <= frame && frame % 8 == 0 => Some(frame),
        Some(_) | None => None,
    }
}

/// A law: no text is both accepted and refused.
pub fn one_both_law()
    ensures { (text lines other : List ℕ) → AreAccepted text lines → ¬ RefusesBoth text other }
{}
