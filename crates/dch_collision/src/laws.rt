ghost use Rattle.std.specs.Prelude.{◌<◌, ◌↔◌, ℕ, IsTrue, length};
ghost use Rattle.dch_types.specs.declared.config.Uplink.{Uplink};
ghost use Rattle.dch_types.specs.declared.config.Downlink.{Downlink};
ghost use Rattle.dch_types.specs.Limits.{IsUplink, IsDownlink};
ghost use Rattle.dch_collision.specs.Copies.{uplink_copies, downlink_copies};
ghost use Rattle.dch_collision.specs.Counted.{uplink_punctures, downlink_punctures};
ghost use Rattle.dch_collision.specs.Removed.{IsPunctured};

/// A law: the formats whose code blocks are counted are those of which some legal sequence of combinations removes a
/// coded bit.
pub fn counted_formats()
    ensures uplink { (uplink : Uplink) (i f : ℕ) → IsUplink uplink → i < length uplink.side.channels →
        IsTrue (uplink_punctures uplink i f) ↔ IsPunctured uplink.side (uplink_copies uplink) i f }
    ensures downlink { (downlink : Downlink) (i f : ℕ) → IsDownlink downlink → i < length downlink.side.channels →
        IsTrue (downlink_punctures downlink i f) ↔ IsPunctured downlink.side (downlink_copies downlink) i f }
{}
