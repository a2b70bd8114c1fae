ghost use Rattle.std.specs.Prelude.{◌≡◌, ◌<◌, Some, length, slice_get};
ghost use Rattle.dch_reset.specs.Running.{record_of};

use crate::peer::Record;
use dch_pair::End;
use std::marker::Model;

/// What two ends that can be reset have done with units.
#[derive(Drop)]
pub struct ResetRun {
    first: Record,
    second: Record,
}

impl Model for ResetRun {
    ghost use Rattle.dch_reset.specs.Running.{Outcome};

    ghost Value = { Outcome };

    ghost view = { λ v. record { first = v.first; second = v.second } };
}

impl ResetRun {
    pub(crate) fn new(first: Record, second: Record) -> ResetRun
        ensures { result ≡ record { first = first; second = second } }
    {
        ResetRun { first, second }
    }

    /// How many units an end accepted.
    pub fn accepted(&self, end: End) -> usize
        ensures { result ≡ (record_of end self.now).accepted }
    {
        self.record(end).accepted
    }

    /// How often both sides of an end began anew since opening. The count ends at the greatest number.
    pub fn restarts(&self, end: End) -> u64
        ensures { result ≡ (record_of end self.now).restarts }
    {
        self.record(end).restarts
    }

    /// How many units were handed up at an end.
    pub fn handed(&self, end: End) -> usize
        ensures { result ≡ length (record_of end self.now).units }
    {
        self.record(end).units.len()
    }

    /// Unit `i` of those that were handed up at an end.
    pub fn unit(&self, end: End, i: usize) -> &[u8]
        requires { i < length (record_of end self.now).units }
        ensures { slice_get (record_of end self.now).units i ≡ Some result.now }
    {
        self.record(end).units.unit(i)
    }

    fn record(&self, end: End) -> &Record
        ensures { result.now ≡ record_of end self.now }
    {
        match end {
            End::First => &self.first,
            End::Second => &self.second,
        }
    }
}
