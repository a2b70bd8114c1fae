ghost use Rattle.std.specs.Prelude.{IfOk};
ghost use Rattle.dch_layer2.specs.Changing.{AllGoOn, CanAllGoOn, IsNextLayer};

use crate::bearer::Bearer;
use crate::opening::open_given;
use dch_accept::{Accepted, TtiBlocks};
use dch_bits::NoMemory;
use dch_types::Dir;
use std::alloc::Global;
use std::marker::Model;

/// What layer 2 of an end needs for a configuration that is to follow another one (TS 25.331 8.2.2).
pub struct NextLayer {
    pub(crate) blocked: Vec<bool>,
    pub(crate) given: Vec<TtiBlocks>,
}

// By hand, so that whoever holds one drops it by one call.
impl Drop for NextLayer {
    fn drop(self) {
        let NextLayer {
            blocked: _blocked,
            given: _given,
        } = self;
    }
}

impl Model for NextLayer {
    ghost use Rattle.dch_layer2.specs.Values.{NextLayer};

    ghost Value = { NextLayer };

    ghost view = { λ n. record { blocked = n.blocked.items; given = n.given.items } };
}

impl NextLayer {
    /// Takes the memory for a configuration, at an end that sends in the direction `out`. No combination is blocked,
    /// and every channel has its idle format.
    pub fn open(alloc: Global, accepted: &Accepted, out: Dir) -> Result<NextLayer, NoMemory>
        ensures { IfOk result (IsNextLayer accepted.now.config out) }
    {
        let combinations = accepted.side(out).combinations.len();
        Ok(NextLayer {
            blocked: vec![in alloc; false; combinations]?,
            given: open_given(alloc, accepted, out)?,
        })
    }
}

/// Each bearer goes on in another configuration.
pub fn change_bearers(accepted: &Accepted, out: Dir, bearers: &mut [Bearer])
    requires { CanAllGoOn accepted.now.config out bearers.old }
    ensures { AllGoOn accepted.now.config out bearers.old bearers.new }
{
    for b in 0..bearers.len() {
        bearers[b].change(accepted, out);
    }
}
