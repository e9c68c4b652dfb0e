// Refusal 15 of a history: the buffers hold one, and it is well formed.
ghost use Rattle.std.specs.Prelude.{◌≡◌, ◌&&◌, [], ◌++◌, ◌*◌, ◌≤◌, length};
ghost use Rattle.span.specs.Units.{expand};
ghost use Rattle.store.specs.Row.{rows};
ghost use Rattle.store.specs.Limits.{ROWS, EDITS};
ghost use Rattle.units.specs.Lists.{every};
ghost use Rattle.rope.specs.Spans.{Stored};
ghost use Rattle.history.specs.Arrive.{start};
ghost use Rattle.history.specs.Valid.{edits_fit, edit_units, same_units, targets_fit};
ghost use Rattle.tracker.specs.Rows.{held, used, is_history};

use crate::held::edits_fit;
use crate::open::EDIT_BYTES;
use crate::row::{edit_count, placeholder, target_room};
use crate::same::same_units;
use crate::taken::targets_fit;
use crate::used::used_len;
use store::header;
use store::limits::EDITS;

// Whether the edits fit each other and the list.
fn log_fits(s: &[u8], n: usize, e: &[u8], h: usize, t: &[u8], p: u64) -> bool
    requires { Stored n s.now × (h * 256 ≤ length e.now) × (h ≤ EDITS) × (used h e.now * 16 ≤ length t.now) × (used h e.now ≤ ROWS) }
    ensures { result ≡ (edits_fit [] (held h e.now t.now) && (same_units (expand (rows n s.now)) ((start p).list ++ edit_units (held h e.now t.now)) && every (targets_fit (expand (rows n s.now))) (held h e.now t.now))) }
{
    edits_fit(e, h) && same_units(s, n, e, h, p) && targets_fit(s, n, e, h, t)
}

// Whether the buffers hold a well formed history: spans in s, target ranges in t, edits in e.
pub fn check(s: &[u8], t: &[u8], e: &[u8]) -> bool
    ensures { result ≡ is_history s.now t.now e.now }
{
    if e.len() < EDIT_BYTES {
        return false;
    }
    let count = edit_count(e);
    if count > EDITS as u64 {
        return false;
    }
    let h = count as usize;
    if target_room(t) < used_len(&e[64..], h) {
        return false;
    }
    if !rope::state::check(s) {
        return false;
    }
    let n = header::count(s);
    log_fits(&s[72..], n as usize, &e[64..], h, t, placeholder(e))
}
