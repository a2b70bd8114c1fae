ghost use Rattle.std.specs.Prelude.{◌≡◌, ◌++◌, IfOk, string_bytes};
ghost use Rattle.dch_tree.specs.Faults.{element_path};

use dch_bits::NoMemory;
use std::alloc::Global;
use std::fmt;
use std::marker::Model;

/// The path of a key, as `uplink.channel.0.tti`. A key stands in it as its text is.
#[derive(Drop)]
pub struct KeyPath {
    text: String,
}

impl Model for KeyPath {
    ghost use Rattle.std.specs.Prelude.{List, ℕ, string_bytes};

    ghost Value = { List ℕ };

    ghost view = { λ path. string_bytes path.text };
}

impl KeyPath {
    /// The path of a key in a table. The path of the table comes with its dot at the end.
    pub fn of_key(alloc: Global, table: &str, key: &str) -> Result<Self, NoMemory>
        ensures { IfOk result (λ path. path ≡ table.now ++ key.now) }
    {
        let text = format!(in alloc; "{table}{key}")?;
        Ok(KeyPath { text })
    }

    pub fn as_str(&self) -> &str
        ensures { result.now ≡ self.now }
    {
        self.text.as_str()
    }
}

/// The path of a table in a list, with the dot at its end.
pub(crate) fn element(
    alloc: Global,
    table: &str,
    key: &str,
    index: usize,
) -> Result<String, NoMemory>
    ensures { IfOk result (λ path. string_bytes path ≡ element_path table.now key.now index) }
{
    let text = format!(in alloc; "{table}{key}.{index}.")?;
    Ok(text)
}

impl fmt::Debug for KeyPath {
    fn fmt<W: fmt::Write>(&self, f: &mut fmt::Formatter<W>) -> fmt::Result {
        f.write_str(self.text.as_str())
    }
}

impl PartialEq for KeyPath {
    ghost use Rattle.std.specs.Prelude.{nat_eq};
    ghost use Rattle.std.specs.Cmp.Lexicographic.{pointwise};
    ghost use Rattle.std.specs.Cmp.Rules.{comparing};
    ghost use Rattle.std.proofs.Common.{rules};

    ghost eq = { pointwise nat_eq };

    ghost laws = { Prim.search (comparing, rules) };

    fn eq(&self, other: &Self) -> bool {
        self.text.as_bytes() == other.text.as_bytes()
    }
}
