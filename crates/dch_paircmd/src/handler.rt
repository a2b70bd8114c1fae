ghost use Rattle.std.specs.Prelude.{◌≡◌, None, Some, IfErr, IfOk, OnOk, not};
ghost use Rattle.dch_script.specs.Pair.{IsOfPair, is_opening, pair_of, parsed_pair};
ghost use Rattle.dch_lines.specs.Semantics.{Adds, IsFault, Leads};
ghost use Rattle.dch_paircmd.specs.Ends.{Ends};
ghost use Rattle.dch_paircmd.specs.Overlong.{pair_refuses_long};
ghost use Rattle.dch_paircmd.specs.Rules.{pair_lines, pair_meaning_at};
ghost use Rattle.dch_paircmd.specs.Handlers.{AreEnds, AreKnown, IsReady, RepresentsRun, ready_stands};

use crate::ends::PairEnds;
use crate::events::Rooms;
use dch_bits::NoMemory;
use dch_lines::{LineFault, LineHandler, Page, put_line};
use dch_script::{Line, LineError, PairLine, begins_with_ends, parse_pair};
use std::alloc::Global;
use std::marker::Model;

/// The handler of the command `pair`. The first line opens the two ends, and takes their memory; each later line is an
/// event at one of them.
pub struct PairHandler {
    alloc: Global,
    ends: Option<PairEnds>,
    rooms: Rooms,
}

// By hand, so that whoever holds one drops it by one call.
impl Drop for PairHandler {
    fn drop(self) {
        let PairHandler {
            alloc: _alloc,
            ends: _ends,
            rooms: _rooms,
        } = self;
    }
}

impl Model for PairHandler {
    ghost use Rattle.std.specs.Prelude.{Option};
    ghost use Rattle.dch_paircmd.specs.Handlers.{EndsValue};

    ghost Value = { Option EndsValue };

    ghost view = { λ h. h.ends };
}

impl PairHandler {
    /// A handler before the first line. The rest of its memory is taken here.
    pub fn open(alloc: Global) -> Result<PairHandler, NoMemory>
        ensures { IfOk result (λ handler. handler ≡ None) }
    {
        let rooms = Rooms::open(alloc)?;
        Ok(PairHandler {
            alloc,
            ends: None,
            rooms,
        })
    }
}

/// Reads a line in its place: `ends` opens the ends, so it stands first, and nowhere else. A line that is out of place
/// is refused for that, whatever its further words.
#[tactic(auto, unfolding(crate::specs::Rules::pair_meaning_at))]
fn read_line(opened: bool, line: &[u8]) -> Result<PairLine<'_>, LineError>
    ensures says { parsed_pair result ≡ pair_meaning_at opened line.entry.now }
    ensures good { IfOk result (λ parsed. IsOfPair (pair_of parsed)) }
    ensures place { IfOk result (λ parsed. is_opening (pair_of parsed) ≡ not opened) }
{
    match (opened, begins_with_ends(line)?) {
        (false, true) | (true, false) => parse_pair(line),
        (false, false) | (true, true) => Err(LineError::Word),
    }
}

/// Takes the first line, which opens the ends.
fn start<P: Page>(alloc: Global, line: &[u8], page: &mut P) -> Result<PairEnds, LineFault>
    ensures ok { IfOk result (λ ends. (e : Ends) × AreEnds ends e ×
        Adds P.writes (pair_lines.handles None line.now (Some e)) page.old page.new) }
    ensures err { IfErr result (λ fault. IsFault pair_lines None line.now fault) }
    ensures same { IfErr result (λ _. page.new ≡ page.old) }
{
    match read_line(false, line) {
        Ok(
            PairLine::Ends {
                first,
                second,
                buffer,
                window,
            },
        ) => match PairEnds::open(alloc, first, second, buffer, window) {
            Ok(ends) => {
                put_line(page, &Line::Open);
                Ok(ends)
            }
            Err(NoMemory) => Err(LineFault::NoMemory),
        },
        Ok(_) => unreachable!(),
        Err(why) => Err(LineFault::Malformed(why)),
    }
}

/// Takes a later line, the event of which happens.
fn pass<P: Page>(
    ends: &mut PairEnds,
    line: &[u8],
    rooms: &mut Rooms,
    page: &mut P,
) -> Result<(), LineFault>
    requires known { AreKnown ends.old }
    ensures ok { OnOk result (Leads (λ e v. AreEnds v e) ends.old ends.new (λ old new.
        Adds P.writes (pair_lines.handles (Some old) line.now (Some new)) page.old page.new)) }
    ensures err { IfErr result (λ fault. (e : Ends) → AreEnds ends.old e → IsFault pair_lines (Some e) line.now fault) }
    ensures same { IfErr result (λ _. (ends.new ≡ ends.old) × (page.new ≡ page.old)) }
    ensures known { AreKnown ends.new }
{
    let event = match read_line(true, line) {
        Ok(event) => event,
        Err(why) => return Err(LineFault::Malformed(why)),
    };
    match ends.happen(event, rooms, page) {
        Ok(()) => Ok(()),
        Err(why) => Err(LineFault::Malformed(why)),
    }
}

impl LineHandler for PairHandler {
    ghost use Rattle.std.specs.Prelude.{Option};

    ghost State = { Option Ends };

    ghost semantics = { pair_lines };

    ghost represents = { RepresentsRun };

    ghost stands = { IsReady };

    ghost handled = { λ _. 0 };

    fn handle_line<P: Page>(&mut self, line: &[u8], page: &mut P) -> Result<(), LineFault> {
        match &mut self.ends {
            Some(ends) => pass(ends, line, &mut self.rooms, page),
            None => {
                self.ends = Some(start(self.alloc, line, page)?);
                Ok(())
            }
        }
    }

    fn close<P: Page>(&self, nonempty_lines: u64, page: &mut P) {
        put_line(page, &Line::EndLines(nonempty_lines));
    }

    ghost overlong = { pair_refuses_long };

    ghost stood = { ready_stands };
}
