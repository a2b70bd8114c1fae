ghost use Rattle.std.specs.Prelude.{◌≡◌, ◌<◌, ℕ, List, length};
ghost use Rattle.dch_bits.specs.declared.bit.Bit.{Bit};
ghost use Rattle.dch_types.specs.Limits.{IsSide};
ghost use Rattle.dch_accept.specs.Blocks.{Held};
ghost use Rattle.dch_accept.specs.Plans.{Planned};
ghost use Rattle.dch_tti.specs.RxFrames.{RxFrames};
ghost use Rattle.dch_tti.specs.Loaded.{Loaded};
ghost use Rattle.dch_ulphy.specs.Loaded.{IsLoaded};
ghost use Rattle.dch_ulphy.specs.Read.{IsTtiRead};

/// A law: what is loaded of the same blocks of a channel in a format is the same.
pub fn one_load_law()
    ensures { (planned : Planned) (i f : ℕ) (blocks : List Bit) (one other : Loaded) →
        IsLoaded planned i f blocks one → IsLoaded planned i f blocks other → one ≡ other }
{}

/// A law: what is read of a channel's TTI of the same kept radio frames is the same, in whatever room.
pub fn one_reading_law()
    ensures { (planned : Planned) (reader : RxFrames) (i : ℕ) (one other : Held) →
        IsSide planned.config.uplink.side → i < length planned.config.uplink.side.channels →
        IsTtiRead planned reader i one → IsTtiRead planned reader i other → one ≡ record other { room = one.room } }
{}
