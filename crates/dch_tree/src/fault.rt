ghost use Rattle.std.specs.Prelude.{◌≡◌, ◌++◌, OnOk, IfOk};
ghost use Rattle.dch_tree.specs.Faults.{is_before, earlier, first_found};
ghost use Rattle.dch_tree.specs.Tables.{value_or, required, optional};

use crate::path::KeyPath;
use dch_bits::NoMemory;
use std::alloc::Global;

/// What is wrong with a key.
#[derive(Drop)]
pub enum Fault {
    /// It is required and missing, or it is there and unknown.
    Key(KeyPath),
    /// Its value has the wrong kind or breaks its rule.
    Range(KeyPath),
}

impl Fault {
    fn is_before(&self, other: &Fault) -> bool
        ensures { result ≡ is_before self.now other.now }
    {
        match (self, other) {
            (Fault::Key(path), Fault::Key(second)) => path.as_str() < second.as_str(),
            (Fault::Key(_), Fault::Range(_)) => true,
            (Fault::Range(_), Fault::Key(_)) => false,
            (Fault::Range(path), Fault::Range(second)) => path.as_str() < second.as_str(),
        }
    }
}

/// The first of the faults found so far.
#[derive(Drop)]
pub(crate) struct Faults {
    pub alloc: Global,
    pub first: Option<Fault>,
}

impl Faults {
    fn add(&mut self, fault: Fault)
        ensures { self.new.first ≡ earlier self.old.first fault }
    {
        let earlier = match &self.first {
            None => true,
            Some(first) => fault.is_before(first),
        };
        if earlier {
            self.first = Some(fault);
        }
    }

    /// A key that is missing or unknown.
    pub fn add_key(&mut self, table: &str, key: &str) -> Result<(), NoMemory>
        ensures { OnOk result (self.new.first ≡ earlier self.old.first (Fault.Key (table.now ++ key.now))) }
    {
        let path = KeyPath::of_key(self.alloc, table, key)?;
        self.add(Fault::Key(path));
        Ok(())
    }

    /// A key whose value breaks its rule.
    pub fn add_range(&mut self, table: &str, key: &str) -> Result<(), NoMemory>
        ensures { OnOk result (self.new.first ≡ earlier self.old.first (Fault.Range (table.now ++ key.now))) }
    {
        let path = KeyPath::of_key(self.alloc, table, key)?;
        self.add(Fault::Range(path));
        Ok(())
    }

    /// The value of a key that must be there, or another value.
    #[tactic(auto, unfolding(crate::specs::Faults::first_found))]
    pub fn required<T: Drop>(
        &mut self,
        table: &str,
        key: &str,
        found: Option<Option<T>>,
        other: T,
    ) -> Result<T, NoMemory>
        ensures first { OnOk result (self.new.first ≡
            first_found self.old.first (required (table.now ++ key.now) found)) }
        ensures value { IfOk result (λ value. value ≡ value_or other found) }
    {
        match found {
            None => {
                self.add_key(table, key)?;
                Ok(other)
            }
            Some(None) => {
                self.add_range(table, key)?;
                Ok(other)
            }
            Some(Some(value)) => Ok(value),
        }
    }

    /// The value of a key that may be missing, or another value.
    #[tactic(auto, unfolding(crate::specs::Faults::first_found))]
    pub fn optional<T: Drop>(
        &mut self,
        table: &str,
        key: &str,
        found: Option<Option<T>>,
        other: T,
    ) -> Result<T, NoMemory>
        ensures first { OnOk result (self.new.first ≡
            first_found self.old.first (optional (table.now ++ key.now) found)) }
        ensures value { IfOk result (λ value. value ≡ value_or other found) }
    {
        match found {
            None => Ok(other),
            Some(None) => {
                self.add_range(table, key)?;
                Ok(other)
            }
            Some(Some(value)) => Ok(value),
        }
    }
}
