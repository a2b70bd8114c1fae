ghost use Rattle.std.specs.Prelude.{◌<◌, ◌↔◌, IsTrue, length};
ghost use Rattle.dch_mac.specs.Candidates.{KeepsRunning, FindsBlocks, StartsIdle, IsServed, IsCandidate};
ghost use Rattle.dch_mac.specs.Table.{IsTable};

use crate::moment::Moment;
use crate::row::Row;

impl Moment<'_> {
    /// Whether a combination may be chosen.
    pub(crate) fn is_candidate(&self, rows: &[Row], combination: usize) -> bool
        requires table { IsTable self.now rows.now }
        requires combination { combination < length self.now.side.combinations }
        ensures { IsTrue result ↔ IsCandidate self.now combination }
    {
        self.keeps_running(rows, combination)
            && (self.is_served(rows, combination) || self.starts_idle(rows, combination))
    }

    fn is_served(&self, rows: &[Row], combination: usize) -> bool
        requires table { IsTable self.now rows.now }
        requires combination { combination < length self.now.side.combinations }
        ensures { IsTrue result ↔ IsServed self.now combination }
    {
        !self.blocked[combination] && self.finds_blocks(rows, combination)
    }

    fn keeps_running(&self, rows: &[Row], combination: usize) -> bool
        requires table { IsTable self.now rows.now }
        requires combination { combination < length self.now.side.combinations }
        ensures { IsTrue result ↔ KeepsRunning self.now combination }
    {
        for i in 0..self.channels().len() {
            if !self.row_in(rows, combination, i).kept {
                return false;
            }
        }
        true
    }

    fn finds_blocks(&self, rows: &[Row], combination: usize) -> bool
        requires table { IsTable self.now rows.now }
        requires combination { combination < length self.now.side.combinations }
        ensures { IsTrue result ↔ FindsBlocks self.now combination }
    {
        for i in 0..self.channels().len() {
            if !self.row_in(rows, combination, i).found {
                return false;
            }
        }
        true
    }

    fn starts_idle(&self, rows: &[Row], combination: usize) -> bool
        requires table { IsTable self.now rows.now }
        requires combination { combination < length self.now.side.combinations }
        ensures { IsTrue result ↔ StartsIdle self.now combination }
    {
        for i in 0..self.channels().len() {
            if !self.row_in(rows, combination, i).idle {
                return false;
            }
        }
        true
    }
}
