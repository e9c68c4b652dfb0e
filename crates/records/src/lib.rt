// get_diff into entry records: the delta of a store as one record for each entry, at the front of a lent slice of records.
//
// A record has the numbers of one entry that rope::diff's columns have, side by side (kind 0 Retain, 1 Delete, 2 Insert, 3 Insert without lamport). All
// refusals are decided and the entries are counted before the first record is written, by the function that does so for the columns, and the loop is
// one over the same step.
#![tactic(auto)]

ghost use Rattle.std.specs.Prelude.{◌≡◌, ◌≤◌, length};
ghost use Rattle.store.specs.Row.{rows};
ghost use Rattle.units.specs.Lists.{over};
ghost use Rattle.units.specs.Delta.{entries};
ghost use Rattle.rope.specs.Spans.{Stored};
ghost use Rattle.records.specs.Records.{records, answer_of, records_after};

use rope::diff::{EntryNumbers, diff_len, next_entry, numbers_of};
use rope::state::check;
use span::refusal::Refusal;
use store::header;

// All entries, at the front of the slice.
fn write_records(s: &[u8], n: usize, out: &mut [EntryNumbers])
    requires { Stored n s.now × (length (entries (rows n s.now)) ≤ length out.old) }
    ensures { out.new ≡ over (records (entries (rows n s.now))) out.old }
{
    let mut i = 0;
    let mut gap = 0;
    let mut k = 0;
    while let Some(next) = next_entry(s, n, i, gap) {
        out[k] = numbers_of(next.entry);
        i = next.row;
        gap = next.gap;
        k += 1;
    }
}

// The delta of a store from its spans' status to their diff_status: a record for each entry, and how many there are.
pub fn get_diff_records(s: &[u8], out: &mut [EntryNumbers]) -> Result<usize, Refusal>
    ensures { (result ≡ answer_of (length out.old) s.now) × (out.new ≡ records_after s.now out.old) }
{
    if !check(s) {
        return Err(Refusal::Store);
    }
    let n = header::count(s) as usize;
    let rows = &s[72..];
    let many = diff_len(rows, n, out.len())?;
    write_records(rows, n, out);
    Ok(many)
}
