ghost use Rattle.std.specs.Prelude.{◌≡◌, ◌<◌, IfSome};
ghost use Rattle.dch_am.specs.Moves.{move_in};
ghost use Rattle.dch_rlcpdu.specs.Sufis.{IsInRange};
ghost use Rattle.dch_amrecv.specs.Moves.{seen};

use dch_rlcpdu::{MrwPlace, StatusView, Sufi};

/// Where the last MRW of a status moves the window.
pub fn last_move(status: &StatusView<'_>) -> Option<MrwPlace>
    ensures value { result ≡ move_in status.now }
    ensures range { IfSome result (λ p. (p.0 < 4096) × (p.1 < 16)) }
{
    let mut cursor = status.cursor();
    let mut found = None;
    while !cursor.is_done() {
        found = seen(found, cursor.field());
        cursor.advance();
    }
    found
}

/// What was found, where a field more is looked at.
fn seen(found: Option<MrwPlace>, field: Sufi) -> Option<MrwPlace>
    requires found { IfSome found (λ p. (p.0 < 4096) × (p.1 < 16)) }
    requires field { IsInRange field }
    ensures value { result ≡ seen found field }
    ensures range { IfSome result (λ p. (p.0 < 4096) × (p.1 < 16)) }
{
    match field {
        Sufi::Mrw { last, n } => Some(MrwPlace { sn: last, n }),
        _ => found,
    }
}
