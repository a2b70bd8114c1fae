ghost use Rattle.std.specs.Prelude.{◌≡◌, ◌≤◌, IfErr, IfOk};
ghost use Rattle.dch_script.specs.Pair.{pair_of};
ghost use Rattle.dch_paircmd.specs.Ends.{Ends, opened_ends};
ghost use Rattle.dch_paircmd.specs.Rules.{end_in};
ghost use Rattle.dch_paircmd.specs.Handlers.{AnswersEvent, AreEnds, IsEvent};

use crate::events::{Rooms, happen};
use crate::side::Side;
use dch_bits::NoMemory;
use dch_lines::Page;
use dch_script::{LineError, PairLine};
use dch_types::AmRules;
use std::alloc::Global;
use std::marker::Model;

/// Two ends of an acknowledged bearer. What one builds has the size of what comes to the other.
#[derive(Drop)]
pub struct PairEnds {
    first: Side,
    second: Side,
}

impl Model for PairEnds {
    ghost use Rattle.dch_paircmd.specs.Handlers.{EndsValue, Match};

    ghost Value = { EndsValue };

    ghost view = { λ e. record { first = e.first; second = e.second } };

    ghost invariant = { λ e. Match e.first e.second };
}

impl PairEnds {
    /// Opens the two ends, which build PDUs of `first` and of `second` octets, each 6 to 126. Units hold at most
    /// `buffer` blocks of 64 octets, and `window` PDUs may be in flight, at most 2,048. All memory is taken here.
    pub fn open(
        alloc: Global,
        first: u16,
        second: u16,
        buffer: u16,
        window: u16,
    ) -> Result<PairEnds, NoMemory>
        requires first { (6 ≤ first) × (first ≤ 126) }
        requires second { (6 ≤ second) × (second ≤ 126) }
        requires window { window ≤ 2048 }
        ensures { IfOk result (λ ends. AreEnds ends (opened_ends first second buffer window)) }
    {
        let rules = AmRules {
            window,
            ..AmRules::standard()
        };
        let (a, b) = (first as usize, second as usize);
        let first = Side::open(alloc, a, b, buffer, rules)?;
        let second = Side::open(alloc, b, a, buffer, rules)?;
        Ok(PairEnds { first, second })
    }

    /// The event of a line happens, and its text is written. `When` where nothing is due, 1,024 PDUs are in flight, or
    /// none is, and nothing changes then.
    pub fn happen<P: Page>(
        &mut self,
        line: PairLine<'_>,
        rooms: &mut Rooms,
        page: &mut P,
    ) -> Result<(), LineError>
        requires { IsEvent (pair_of line) }
        ensures answers { (e : Ends) → AreEnds self.old e →
            AnswersEvent P.writes result e (pair_of line.entry) self.new page.old page.new }
        ensures same { IfErr result (λ _. (self.new ≡ self.old) × (page.new ≡ page.old)) }
    {
        if end_in(&line) == 0 {
            happen(&mut self.first, &mut self.second, line, rooms, page)
        } else {
            happen(&mut self.second, &mut self.first, line, rooms, page)
        }
    }
}

/// The end at which a line is an event, 0 or 1.
fn end_in(line: &PairLine<'_>) -> u8
    ensures { result ≡ end_in (pair_of line.now) }
{
    match *line {
        PairLine::Ends { .. } => 0,
        PairLine::Offer { end, .. }
        | PairLine::Build { end }
        | PairLine::Arrive { end }
        | PairLine::Lose { end }
        | PairLine::Tick { end }
        | PairLine::Reset { end } => end,
    }
}
