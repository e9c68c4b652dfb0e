// What an accepted edit does, where the list stands at its context.
ghost use Rattle.std.specs.Prelude.{◌≡◌, ◌+◌, ◌*◌, ◌≤◌, length};
ghost use Rattle.span.specs.Span.{new_span};
ghost use Rattle.span.specs.Units.{expand, join};
ghost use Rattle.store.specs.Header.{spans_of};
ghost use Rattle.units.specs.Change.{delete_units};
ghost use Rattle.rope.specs.Edits.{WrittenIn, insert_list};
ghost use Rattle.tracker.specs.Rows.{pairs_in, EDIT_BYTES};
ghost use Rattle.tracker.specs.Targets.{targets_of};
ghost use Rattle.tracker.specs.Arrivals.{does_list, does_took, Takes, Gives, CanTake, Ranged, Logged};

use crate::row::{Does, Head, append_edit, set_edit_count};
use crate::targets::put_targets;
use rope::change::Delete;
use rope::delete::write_delete;
use rope::edit::insert_span;
use span::chunk::RichtextChunk;
use span::ids::Id;
use span::span::FugueSpan;
use store::header;

// An insert that was not refused.
pub fn take_insert(s: &mut [u8], at: u32, id: Id, lamport: u32, content: RichtextChunk)
    requires { Takes s.old at id lamport content }
    ensures { WrittenIn (insert_list s.old at (new_span id lamport content)) s.old s.new }
{
    if let Ok(x) = FugueSpan::new(id, lamport, content) {
        let _ = insert_span(s, at, x);
    }
}

// A delete that was not refused: its target ranges go behind the first `had`. The answer is their number.
pub fn take_delete(s: &mut [u8], t: &mut [u8], had: usize, d: Delete) -> usize
    requires { Gives s.old t.old had d }
    ensures { WrittenIn (join (delete_units d.at d.len d.start (expand (spans_of s.old)))) s.old s.new × Ranged (targets_of d (expand (spans_of s.old))) had result t.old t.new }
{
    let n = header::count(s) as usize;
    let k = put_targets(&s[72..], n, t, had, d);
    write_delete(s, n, d);
    k
}

// Either. The answer is the number of target ranges.
pub fn take_act(s: &mut [u8], t: &mut [u8], had: usize, x: Head) -> usize
    requires { CanTake s.old t.old had x.id x.at x.act }
    ensures { WrittenIn (join (does_list x.act x.id x.at (expand (spans_of s.old)))) s.old s.new × Ranged (does_took x.act x.at (expand (spans_of s.old))) had result t.old t.new }
{
    match x.act {
        Does::Insert(lamport, content) => {
            take_insert(s, x.at, x.id, lamport, content);
            0
        }
        Does::Delete(len, _, start) => {
            let d = Delete {
                at: x.at,
                len,
                start,
            };
            take_delete(s, t, had, d)
        }
    }
}

// The edit of a row goes into the log, as edit h, with its target ranges.
pub fn log_edit(e: &mut [u8], h: usize, row: &[u8], took: u32)
    requires { (EDIT_BYTES ≤ length e.old) × (h + 1 ≤ 2000) × (256 ≤ length row.now) × (pairs_in row.now ≤ 16) }
    ensures { Logged h row.now took e.old e.new }
{
    append_edit(&mut e[64..], h, row, took);
    set_edit_count(e, h as u64 + 1)
}
