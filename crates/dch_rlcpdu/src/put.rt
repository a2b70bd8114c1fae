ghost use Rattle.std.specs.Prelude.{◌≡◌, ◌+◌, ◌*◌, ◌<◌, ◌≤◌, ◌++◌, ◌∷◌, [], ℕ, List, All, length, slice_set};
ghost use Rattle.dch_rlcpdu.specs.Fields.{fifteens};
ghost use Rattle.dch_rlcpdu.specs.Halves.{halves};
ghost use Rattle.dch_rlcpdu.specs.Writing.{IsText, ack_text, digits, list_text, lists_text, mrw_ack_text, mrw_text, pairs_text, status_text};

/// Empties a PDU and writes the half octet in front of the fields of a status.
pub(crate) fn start(out: &mut [u8])
    requires { 0 < length out.old }
    ensures { IsText out.new (0 ∷ []) }
{
    out.fill(0);
}

fn set_half(out: &mut [u8], at: usize, value: u8)
    requires place { at < 2 * length out.old }
    requires value { value < 16 }
    ensures { halves out.new ≡ slice_set (halves out.old) at value }
{
    let octet = out[at / 2];
    if at % 2 == 0 {
        out[at / 2] = 16 * value + octet % 16;
    } else {
        out[at / 2] = octet / 16 * 16 + value;
    }
}

/// Writes a half octet behind what stands already.
pub(crate) fn put(out: &mut [u8], at: usize, value: u8)
    requires place { at < 2 * length out.old }
    requires value { value < 16 }
    ensures { (text : List ℕ) → length text ≡ at → IsText out.old text → IsText out.new (text ++ value ∷ []) }
{
    set_half(out, at, value);
}

/// Writes a number of twelve bits behind what stands already.
fn put_number(out: &mut [u8], at: usize, number: u16)
    requires place { at + 3 ≤ 2 * length out.old }
    requires number { number < 4096 }
    ensures { (text : List ℕ) → length text ≡ at → IsText out.old text → IsText out.new (text ++ digits number) }
{
    put(out, at, (number / 256) as u8);
    put(out, at + 1, (number / 16 % 16) as u8);
    put(out, at + 2, (number % 16) as u8);
}

fn put_pair(out: &mut [u8], at: usize, pair: (u16, u8))
    requires place { at + 4 ≤ 2 * length out.old }
    requires number { pair.0 < 4096 }
    requires more { pair.1 < 16 }
    ensures { (text : List ℕ) → length text ≡ at → IsText out.old text →
        IsText out.new (text ++ pairs_text (pair ∷ [])) }
{
    put_number(out, at, pair.0);
    put(out, at + 3, pair.1);
}

fn put_pairs(out: &mut [u8], at: usize, pairs: &[(u16, u8)])
    requires place { at + 4 * length pairs.now ≤ 2 * length out.old }
    requires pairs { All (λ p. (p.0 < 4096) × (p.1 < 16)) pairs.now }
    ensures { (text : List ℕ) → length text ≡ at → IsText out.old text → IsText out.new (text ++ pairs_text pairs.now) }
{
    for i in 0..pairs.len() {
        put_pair(out, at + 4 * i, pairs[i]);
    }
}

fn put_list(out: &mut [u8], at: usize, pairs: &[(u16, u8)])
    requires place { at + 2 + 4 * length pairs.now ≤ 2 * length out.old }
    requires few { length pairs.now < 16 }
    requires pairs { All (λ p. (p.0 < 4096) × (p.1 < 16)) pairs.now }
    ensures { (text : List ℕ) → length text ≡ at → IsText out.old text → IsText out.new (text ++ list_text pairs.now) }
{
    put(out, at, 3);
    put(out, at + 1, pairs.len() as u8);
    put_pairs(out, at + 2, pairs);
}

/// Writes LISTs of fifteen pairs each, the last with the rest, behind what stands already, and answers where they end.
fn put_lists(out: &mut [u8], at: usize, pairs: &[(u16, u8)]) -> usize
    requires place { at + length (lists_text (fifteens (length pairs.now) pairs.now)) ≤ 2 * length out.old }
    requires pairs { All (λ p. (p.0 < 4096) × (p.1 < 16)) pairs.now }
    ensures end { result ≡ at + length (lists_text (fifteens (length pairs.now) pairs.now)) }
    ensures text { (text : List ℕ) → length text ≡ at → IsText out.old text →
        IsText out.new (text ++ lists_text (fifteens (length pairs.now) pairs.now)) }
{
    let mut end = at;
    let mut rest = pairs;
    while rest.len() > 0 {
        let (list, others) = rest.split_at(15usize.min(rest.len()));
        put_list(out, end, list);
        end += 2 + 4 * list.len();
        rest = others;
    }
    end
}

/// Writes the LISTs of all pairs, and ACK, behind what stands already.
pub(crate) fn put_status(out: &mut [u8], at: usize, pairs: &[(u16, u8)], lsn: u16)
    requires place { at + length (status_text pairs.now lsn) ≤ 2 * length out.old }
    requires pairs { All (λ p. (p.0 < 4096) × (p.1 < 16)) pairs.now }
    requires number { lsn < 4096 }
    ensures { (text : List ℕ) → length text ≡ at → IsText out.old text →
        IsText out.new (text ++ status_text pairs.now lsn) }
{
    let end = put_lists(out, at, pairs);
    put(out, end, 2);
    put_number(out, end + 1, lsn);
}

pub(crate) fn put_mrw(out: &mut [u8], at: usize, sn: u16, n: u8)
    requires place { at + 6 ≤ 2 * length out.old }
    requires number { sn < 4096 }
    requires end { n < 16 }
    ensures { (text : List ℕ) → length text ≡ at → IsText out.old text → IsText out.new (text ++ mrw_text sn n) }
{
    put(out, at, 6);
    put(out, at + 1, 1);
    put_number(out, at + 2, sn);
    put(out, at + 5, n);
}

pub(crate) fn put_mrw_ack(out: &mut [u8], at: usize, n: u8, sn: u16)
    requires place { at + 5 ≤ 2 * length out.old }
    requires number { sn < 4096 }
    requires end { n < 16 }
    ensures { (text : List ℕ) → length text ≡ at → IsText out.old text → IsText out.new (text ++ mrw_ack_text n sn) }
{
    put(out, at, 7);
    put(out, at + 1, n);
    put_number(out, at + 2, sn);
}
