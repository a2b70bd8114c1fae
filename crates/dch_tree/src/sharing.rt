ghost use Rattle.std.specs.Prelude.{◌≡◌, ◌<◌, ◌||◌, ◌&&◌, ◌==◌, length, take, OnOk};
ghost use Rattle.std.specs.List.{list_any};
ghost use Rattle.dch_tree.specs.Faults.{first_found};
ghost use Rattle.dch_tree.specs.Tables.{indexed};
ghost use Rattle.dch_tree.specs.Bearers.{same_channel, shares, repeats, is_transparent, bearer_at, has_partner, fault_if, sharing_faults, together_faults};

use crate::fault::Faults;
use crate::path::element;
use dch_bits::NoMemory;
use dch_types::{Bearer, Mode};

/// The most bearers of a configuration.
const MOST_BEARERS: usize = 16;

fn is_same_channel(a: Option<u8>, b: Option<u8>) -> bool
    ensures { result ≡ same_channel a b }
{
    match (a, b) {
        (Some(i), Some(j)) => i == j,
        (Some(_i), None) => false,
        (None, _j) => false,
    }
}

/// Whether two bearers name one channel of a direction.
fn shares(a: &Bearer, b: &Bearer) -> bool
    ensures { result ≡ shares a.now b.now }
{
    is_same_channel(a.up, b.up) || is_same_channel(a.down, b.down)
}

/// Whether they have the same logical channel on it besides.
fn repeats(a: &Bearer, b: &Bearer) -> bool
    ensures { result ≡ repeats a.now b.now }
{
    shares(a, b) && a.logical == b.logical && a.logical > 0
}

fn is_transparent(mode: Mode) -> bool
    ensures { result ≡ is_transparent mode }
{
    mode == Mode::Tm
}

fn some_shares(bearer: &Bearer, others: &[Bearer]) -> bool
    ensures { result ≡ list_any (shares bearer.now) others.now }
{
    others.iter().any(|other| shares(bearer, other))
}

fn some_repeats(bearer: &Bearer, others: &[Bearer]) -> bool
    ensures { result ≡ list_any (repeats bearer.now) others.now }
{
    others.iter().any(|other| repeats(bearer, other))
}

fn has_partner(bearers: &[Bearer], b: usize) -> bool
    requires { b < length bearers.now }
    ensures { result ≡ has_partner bearers.now b }
{
    some_shares(&bearers[b], &bearers[..b]) || some_shares(&bearers[b], &bearers[b + 1..])
}

fn lacks_logical(bearers: &[Bearer], b: usize) -> bool
    requires { b < length bearers.now }
    ensures { result ≡ (has_partner bearers.now b && (bearer_at bearers.now b).logical == 0) }
{
    has_partner(bearers, b) && bearers[b].logical == 0
}

fn is_shared_transparent(bearers: &[Bearer], b: usize) -> bool
    requires { b < length bearers.now }
    ensures { result ≡ (has_partner bearers.now b && is_transparent (bearer_at bearers.now b).mode) }
{
    has_partner(bearers, b) && is_transparent(bearers[b].mode)
}

fn repeats_earlier(bearers: &[Bearer], b: usize) -> bool
    requires { b < length bearers.now }
    ensures { result ≡ list_any (repeats (bearer_at bearers.now b)) (take b bearers.now) }
{
    some_repeats(&bearers[b], &bearers[..b])
}

impl Faults {
    /// More than 16 bearers, or bearers that share a channel as they may not.
    #[tactic(auto, unfolding(crate::specs::Faults::first_found))]
    pub fn together(&mut self, bearers: &[Bearer]) -> Result<(), NoMemory>
        ensures { OnOk result (self.new.first ≡ first_found self.old.first (together_faults bearers.now)) }
    {
        if bearers.len() > MOST_BEARERS {
            self.add_range("", "bearer")?;
            return Ok(());
        }
        self.sharing(bearers)?;
        Ok(())
    }

    fn sharing(&mut self, bearers: &[Bearer]) -> Result<(), NoMemory>
        ensures { OnOk result (self.new.first ≡ first_found self.old.first (indexed (sharing_faults bearers.now)
            (length bearers.now))) }
    {
        for b in 0..bearers.len() {
            self.sharing_of(bearers, b)?;
        }
        Ok(())
    }

    fn sharing_of(&mut self, bearers: &[Bearer], b: usize) -> Result<(), NoMemory>
        requires { b < length bearers.now }
        ensures { OnOk result (self.new.first ≡ first_found self.old.first (sharing_faults bearers.now b)) }
    {
        self.add_if(lacks_logical(bearers, b), "logical", b)?;
        self.add_if(repeats_earlier(bearers, b), "logical", b)?;
        self.add_if(is_shared_transparent(bearers, b), "mode", b)?;
        Ok(())
    }

    #[tactic(auto, unfolding(crate::specs::Faults::first_found))]
    fn add_if(&mut self, wrong: bool, key: &str, b: usize) -> Result<(), NoMemory>
        ensures { OnOk result (self.new.first ≡ first_found self.old.first (fault_if wrong key.now b)) }
    {
        if wrong {
            let path = element(self.alloc, "", "bearer", b)?;
            self.add_range(path.as_str(), key)?;
        }
        Ok(())
    }
}
