ghost use Rattle.std.specs.Prelude.{◌≡◌, OnOk, IfOk};
ghost use Rattle.toml.specs.Data.{no_members, as_table};
ghost use Rattle.toml.specs.View.{view, table_view};
ghost use Rattle.dch_tree.specs.Faults.{first_found};
ghost use Rattle.dch_tree.specs.Channels.{channel_faults, channel_of};

use crate::fault::Faults;
use crate::table::{coding_at, crc_at, formats_at, frames_at, number_at, octet_at};
use dch_bits::NoMemory;
use dch_types::{Coding, Crc, Sequence, Trch};
use std::alloc::Global;
use toml::Table;

impl Faults {
    /// The channel of a table.
    #[tactic(auto, unfolding(crate::specs::Channels::channel_of))]
    pub fn channel(&mut self, path: &str, table: &Table) -> Result<Trch, NoMemory>
        ensures first { OnOk result (self.new.first ≡
            first_found self.old.first (channel_faults path.now (table_view table.now))) }
        ensures value { IfOk result (λ channel. channel ≡ channel_of (table_view table.now)) }
    {
        self.unknown(path, table, &["tti", "code", "crc", "rm", "set", "formats"])?;
        let frames = self.required(path, "tti", frames_at(table, "tti"), 1)?;
        let coding = self.required(path, "code", coding_at(table, "code"), Coding::Uncoded)?;
        let crc = self.required(path, "crc", crc_at(table, "crc"), Crc::C0)?;
        let rm = self.required(path, "rm", number_at(table, "rm", 1, 256), 1)?;
        let set = self.required(path, "set", octet_at(table, "set", 0, 7), 0)?;
        let formats = formats_at(self.alloc, table, "formats")?;
        let formats = self.required(path, "formats", formats, Sequence::new(self.alloc))?;
        Ok(Trch {
            frames,
            coding,
            crc,
            rm,
            set,
            formats,
        })
    }
}
