ghost use Rattle.std.specs.Prelude.{◌≡◌, ◌<◌, ◌≤◌, IfOk, length, string_bytes};
ghost use Rattle.dch_types.specs.Parts.{channel_at};
ghost use Rattle.dch_collision.specs.Directions.{IsPlanned, copies_in, side_in};
ghost use Rattle.dch_collision.specs.Plans.{AreAllPlans};
ghost use Rattle.dch_margin.specs.Worst.{carriers_in};
ghost use Rattle.dch_margin.specs.Reports.{AreChannelLines, AreParts, AreLines, IsFormatLine, at_least_text, margin_line, margin_text};

use crate::format::side_of;
use crate::margin::{Margin, margin_of};
use crate::telling::Telling;
use crate::worst::worst_of;
use crate::worst_line::worst_line;
use dch_accept::Accepted;
use dch_bits::NoMemory;
use dch_collision::Direction;
use dch_frame::UplinkPlan;
use dch_script::dir_word;
use dch_trellis::Trellis;
use dch_types::Dir;
use std::alloc::Global;

/// The lines of an accepted configuration: of the uplink and then of the downlink, by channel and format.
pub fn lines_of(alloc: Global, telling: Telling, accepted: &Accepted) -> Result<String, NoMemory>
    ensures { IfOk result (λ lines. AreLines telling accepted.now.config (string_bytes lines)) }
{
    let mut trellis = Trellis::open(alloc, MOST_BLOCK)?;
    let config = accepted.config();
    let plans = plans_of(alloc, accepted)?;
    let up = Direction::Up {
        config: &config.uplink,
        plans: &plans,
    };
    let down = Direction::Down {
        config: &config.downlink,
        plan: accepted.downlink_plan(),
    };
    let mut lines = direction_lines(alloc, &mut trellis, telling, up, Dir::Up)?;
    let more = direction_lines(alloc, &mut trellis, telling, down, Dir::Down)?;
    lines.push_str(&more)?;
    Ok(lines)
}

/// The bits of the longest code block (TS 25.212 4.2.2.2).
const MOST_BLOCK: usize = 504;

/// The plans of all uplink combinations.
#[tactic(auto, using(crate::proofs::Parts::plan_more))]
fn plans_of(alloc: Global, accepted: &Accepted) -> Result<Vec<UplinkPlan>, NoMemory>
    ensures { IfOk result (λ plans. AreAllPlans accepted.now.config.uplink plans.items) }
{
    let mut plans = Vec::new(alloc);
    for c in 0..accepted.config().uplink.side.combinations.len() {
        plans.push(*accepted.uplink_plan(c as u16))?;
    }
    Ok(plans)
}

/// The lines of a direction.
#[tactic(auto, using(crate::proofs::Parts::part_more))]
fn direction_lines(
    alloc: Global,
    trellis: &mut Trellis,
    telling: Telling,
    direction: Direction<'_>,
    dir: Dir,
) -> Result<String, NoMemory>
    requires room { 504 ≤ trellis.old }
    requires planned { IsPlanned direction }
    ensures lines { IfOk result (λ lines. AreParts
        (AreChannelLines telling (side_in direction.entry) (copies_in direction.entry)
        (carriers_in direction.entry) dir)
        (length (side_in direction.entry).channels) (string_bytes lines)) }
    ensures kept { trellis.new ≡ trellis.old }
{
    let mut lines = String::new(alloc);
    for i in 0..side_of(direction).channels.len() {
        let more = channel_lines(alloc, trellis, telling, direction, dir, i as u8)?;
        lines.push_str(&more)?;
    }
    Ok(lines)
}

/// The lines of a channel.
#[tactic(auto, using(crate::proofs::Parts::part_more))]
fn channel_lines(
    alloc: Global,
    trellis: &mut Trellis,
    telling: Telling,
    direction: Direction<'_>,
    dir: Dir,
    i: u8,
) -> Result<String, NoMemory>
    requires room { 504 ≤ trellis.old }
    requires planned { IsPlanned direction }
    requires channel { i < length (side_in direction).channels }
    ensures lines { IfOk result (λ lines. AreChannelLines telling (side_in direction.entry)
        (copies_in direction.entry) (carriers_in direction.entry) dir i (string_bytes lines)) }
    ensures kept { trellis.new ≡ trellis.old }
{
    let mut lines = String::new(alloc);
    let channel = side_of(direction).channel(usize::from(i));
    for f in 0..channel.formats.len() {
        let more = format_line(alloc, trellis, telling, direction, dir, i, f as u8)?;
        lines.push_str(&more)?;
    }
    Ok(lines)
}

/// The line of a format.
fn format_line(
    alloc: Global,
    trellis: &mut Trellis,
    telling: Telling,
    direction: Direction<'_>,
    dir: Dir,
    i: u8,
    f: u8,
) -> Result<String, NoMemory>
    requires room { 504 ≤ trellis.old }
    requires planned { IsPlanned direction }
    requires channel { i < length (side_in direction).channels }
    requires format { f < length (channel_at (side_in direction) i).formats }
    ensures line { IfOk result (λ line. IsFormatLine telling (side_in direction.entry) (copies_in direction.entry)
        (carriers_in direction.entry) dir i f (string_bytes line)) }
    ensures kept { trellis.new ≡ trellis.old }
{
    match telling {
        Telling::Margins => {
            let margin = margin_of(alloc, trellis, direction, i, f)?;
            margin_line(alloc, dir, i, f, margin)
        }
        Telling::WorstCases => {
            let worst = worst_of(alloc, trellis, direction, i, f)?;
            worst_line(alloc, dir, i, f, &worst)
        }
    }
}

fn margin_line(alloc: Global, dir: Dir, i: u8, f: u8, margin: Margin) -> Result<String, NoMemory>
    ensures { IfOk result (λ line. string_bytes line ≡ margin_line dir i f margin) }
{
    let dir = dir_word(dir);
    let text = margin_text(alloc, margin)?;
    let line = format!(in alloc; "corrects {dir} channel={i} format={f}{text}")?;
    Ok(line)
}

fn margin_text(alloc: Global, margin: Margin) -> Result<String, NoMemory>
    ensures { IfOk result (λ text. string_bytes text ≡ margin_text margin) }
{
    let text = match margin {
        Margin::Cells(cells) => format!(in alloc; " cells={cells}\n")?,
        Margin::Unsent => format!(in alloc; " cells=none\n")?,
        Margin::AtLeast { cells, sequences } => at_least_text(alloc, cells, sequences)?,
    };
    Ok(text)
}

fn at_least_text(alloc: Global, cells: u32, sequences: u64) -> Result<String, NoMemory>
    ensures { IfOk result (λ text. string_bytes text ≡ at_least_text cells sequences) }
{
    let text = format!(in alloc; " at-least={cells} sequences={sequences}\n")?;
    Ok(text)
}
