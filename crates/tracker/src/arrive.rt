// An edit arrives: the list goes to its context, the edit is done there, and the log has it more.
ghost use Rattle.std.specs.Prelude.{◌≡◌, true, ◌≤◌, length};
ghost use Rattle.span.specs.Refusal.{code_of};
ghost use Rattle.span.specs.Units.{join};
ghost use Rattle.store.specs.Header.{room};
ghost use Rattle.rope.specs.Edits.{WrittenIn};
ghost use Rattle.history.specs.Checkout.{units_at};
ghost use Rattle.history.specs.Codes.{on_units};
ghost use Rattle.history.specs.Run.{arrive_rest};
ghost use Rattle.tracker.specs.Rows.{to_edit, edit_in, target_room, history_in, is_history};
ghost use Rattle.tracker.specs.Entries.{version_of, Leaves, arrive_number, arrived};

use crate::check::check;
use crate::columns::put_edit;
use crate::held::fit_code;
use crate::refuse::refuse_act;
use crate::row::{Head, edit_count, get_head, get_pairs, target_room};
use crate::seen::count_seen;
use crate::stand::stand;
use crate::take::{log_edit, take_act};
use crate::used::used_len;
use span::refusal::Refusal;
use store::header;

// An edit arrives, with its context in two columns: peers, and counts by their bits.
pub fn arrive(
    s: &mut [u8],
    t: &mut [u8],
    e: &mut [u8],
    x: Head,
    peers: &[u64],
    counts: &[u32],
) -> Result<(), Refusal>
    ensures { Leaves (arrive_number s.old t.old e.old (to_edit x (version_of peers.now counts.now))) (arrived s.old t.old e.old (to_edit x (version_of peers.now counts.now))) (code_of result) s.old t.old e.old s.new t.new e.new }
{
    if !check(s, t, e) {
        return Err(Refusal::Store);
    }
    let mut row = [0u8; 256];
    put_edit(&mut row, x, peers, counts);
    arrive_row(s, t, e, &row)
}

// The same of an edit in a row, where the history is well formed.
pub fn arrive_row(s: &mut [u8], t: &mut [u8], e: &mut [u8], row: &[u8]) -> Result<(), Refusal>
    requires { (is_history s.old t.old e.old ≡ true) × (256 ≤ length row.now) }
    ensures { Leaves (arrive_number s.old t.old e.old (edit_in row.now)) (arrived s.old t.old e.old (edit_in row.now)) (code_of result) s.old t.old e.old s.new t.new e.new }
{
    refuse(s, t, e, row)?;
    go_to(s, t, e, row);
    let h = edit_count(e) as usize;
    let had = used_len(&e[64..], h);
    let took = take_act(s, t, had, get_head(row));
    log_edit(e, h, row, took as u32);
    Ok(())
}

// The list goes to the context of an edit that is not refused.
pub fn go_to(s: &mut [u8], t: &[u8], e: &[u8], row: &[u8])
    requires { (is_history s.old t.now e.now ≡ true) × (256 ≤ length row.now) × (arrive_rest (room s.old) (target_room t.now) (history_in s.old t.now e.now) (edit_in row.now) ≡ 0) }
    ensures { WrittenIn (join (units_at (edit_in row.now).context (on_units (history_in s.old t.now e.now)))) s.old s.new }
{
    let h = edit_count(e) as usize;
    let n = header::count(s) as usize;
    let m = get_pairs(row) as usize;
    let k = count_seen(
        &s[72..],
        n,
        &e[64..],
        h,
        t,
        &row[64..],
        m,
        &row[64..],
        m,
        false,
    );
    stand(s, n, k, &e[64..], h, t, &row[64..], m, &row[64..], m, false)
}

// What refuses the edit of a row in a well formed history: 1, 2, 4 to 10.
pub fn refuse(s: &[u8], t: &[u8], e: &[u8], row: &[u8]) -> Result<(), Refusal>
    requires { (is_history s.now t.now e.now ≡ true) × (256 ≤ length row.now) }
    ensures { code_of result ≡ arrive_rest (room s.now) (target_room t.now) (history_in s.now t.now e.now) (edit_in row.now) }
{
    let h = edit_count(e) as usize;
    fit_code(&e[64..], h, row)?;
    let n = header::count(s) as usize;
    let m = get_pairs(row) as usize;
    let x = get_head(row);
    let most = header::room(s);
    let places = target_room(t);
    refuse_act(&s[72..], n, &e[64..], h, t, &row[64..], m, x, most, places)
}
