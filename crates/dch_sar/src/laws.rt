ghost use Rattle.std.specs.Prelude.{◌≡◌, ◌+◌, ◌-◌, ◌≤◌, ℕ, List, Bool, length, map};
ghost use Rattle.dch_sar.specs.Filling.{total, AreSome, IsCarried, is_owed, indicators_of};
ghost use Rattle.dch_sar.specs.Pdus.{Front, lead, reach, ends_marked, next_front, left_from};

/// A law: the most octets of what is left of the units that cost no more than the room behind the indicator that stands
/// first are those of the PDU of the list, with its indicators and its debt.
pub fn filled_law()
    ensures { (size : ℕ) (starts : Bool) (ns : List ℕ) (f : Front) (o : ℕ) →
        AreSome ns → f.from ≤ total ns → length (lead starts ns f) ≤ size →
        IsCarried (size - length (lead starts ns f)) 0 (left_from f.from ns) o →
        (reach size starts ns f ≡ f.from + o) ×
        ((indicators_of (size - length (lead starts ns f)) 0 (left_from f.from ns) o ≡ map (λ e. e - f.from)
        (ends_marked size starts ns f)) × ((next_front size starts ns f).owed ≡
        is_owed (size - length (lead starts ns f)) 0 (left_from f.from ns) o)) }
{}
