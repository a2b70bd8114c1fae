ghost use Rattle.std.specs.Prelude.{◌≡◌, ◌<◌, ◌+◌, ◌%◌, ℕ, IfNone, IfOk, IfSome, None, Some, false, length, replicate, true};
ghost use Rattle.dch_types.specs.Limits.{IsSide};
ghost use Rattle.dch_types.specs.Parts.{format_number};
ghost use Rattle.dch_stages.specs.Handlers.{format_in};

use dch_bits::NoMemory;
use dch_types::Side;
use std::alloc::Global;

/// Which format is loaded of each channel of a direction, if one is, and the CFN of the radio frame that comes.
#[derive(Drop)]
pub struct Loads {
    pub formats: Vec<Option<u8>>,
    pub cfn: u8,
}

impl Loads {
    /// Nothing is loaded of so many channels, and radio frame 0 comes.
    pub fn open(alloc: Global, channels: usize) -> Result<Loads, NoMemory>
        ensures formats { IfOk result (λ loads. loads.formats.items ≡ replicate channels None) }
        ensures cfn { IfOk result (λ loads. loads.cfn ≡ 0) }
    {
        Ok(Loads {
            formats: vec![in alloc; None; channels]?,
            cfn: 0,
        })
    }

    /// The CFN of a radio frame in a combination, if the loaded formats are those of it. That of the next one follows.
    pub fn send(&mut self, side: &Side, combination: u16) -> Option<u8>
        requires side { IsSide side.now }
        requires combination { combination < length side.now.combinations }
        requires all { length self.old.formats.items ≡ length side.now.channels }
        ensures some { IfSome result (λ cfn. (cfn ≡ self.old.cfn) × (self.new.cfn ≡ (self.old.cfn + 1) % 256)) }
        ensures are { IfSome result (λ _. (i : ℕ) → i < length side.now.channels → format_in self.old.formats.items i ≡
            Some (format_number side.now combination i)) }
        ensures none { result ≡ None → ((i : ℕ) → i < length side.now.channels → format_in self.old.formats.items i ≡
            Some (format_number side.now combination i)) → ⊥ }
        ensures unsent { result ≡ None → self.new ≡ self.old }
        ensures same { self.new.formats.items ≡ self.old.formats.items }
    {
        if !are_of(&self.formats, side, combination) {
            return None;
        }
        let cfn = self.cfn;
        self.cfn = cfn.wrapping_add(1);
        Some(cfn)
    }
}

/// Whether the loaded formats are those of a combination.
fn are_of(formats: &[Option<u8>], side: &Side, combination: u16) -> bool
    requires side { IsSide side.now }
    requires combination { combination < length side.now.combinations }
    requires all { length formats.now ≡ length side.now.channels }
    ensures yes { result ≡ true → (i : ℕ) → i < length side.now.channels → format_in formats.now i ≡
        Some (format_number side.now combination i) }
    ensures no { result ≡ false → ((i : ℕ) → i < length side.now.channels → format_in formats.now i ≡
        Some (format_number side.now combination i)) → ⊥ }
{
    for i in 0..formats.len() {
        if !is_loaded(formats, i, side.tfi(combination as usize, i)) {
            return false;
        }
    }
    true
}

/// Whether this format is loaded of a channel.
fn is_loaded(formats: &[Option<u8>], i: usize, format: u8) -> bool
    requires { i < length formats.now }
    ensures yes { result ≡ true → format_in formats.now i ≡ Some format }
    ensures no { result ≡ false → format_in formats.now i ≡ Some format → ⊥ }
{
    match formats[i] {
        Some(loaded) => loaded == format,
        None => false,
    }
}
