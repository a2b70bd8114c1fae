ghost use Rattle.std.specs.Prelude.{◌*◌, ◌<◌, ◌≤◌, ℕ};
ghost use Rattle.dch_coding.specs.declared.rate.Rate.{Rate};
ghost use Rattle.dch_coding.specs.Conv.{coded_length, encoded};
ghost use Rattle.dch_trellis.specs.Distance.{free_distance, AreApart, AreToldApart, IsAttained};

/// A law: the coded bits of two different blocks of one length differ in 12 places at least at rate 1/2, and in 18 at
/// rate 1/3. Some blocks come as near.
pub fn free_distance_law()
    ensures apart { (rate : Rate) → AreApart rate }
    ensures attained { (rate : Rate) → IsAttained rate }
{}

/// A law: where each coded bit is sent so many times at least, that many times the free distance of the copies tell two
/// different blocks apart.
pub fn copies_law()
    ensures { (rate : Rate) (sent : ℕ → ℕ) (size filler least : ℕ) →
        ((j : ℕ) → j < coded_length rate size → least ≤ sent j) →
        AreToldApart (encoded rate) size filler sent (least * free_distance rate) }
{}
