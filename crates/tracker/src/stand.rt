// The list of a store put at a version, or with one version as status and another as diff_status: its rows and their number.
ghost use Rattle.std.specs.Prelude.{◌≡◌};
ghost use Rattle.span.specs.Units.{expand, join};
ghost use Rattle.store.specs.Header.{spans_of};
ghost use Rattle.rope.specs.Edits.{WrittenIn};
ghost use Rattle.tracker.specs.Rows.{pairs, held};
ghost use Rattle.tracker.specs.Looks.{seen};
ghost use Rattle.tracker.specs.Entries.{Stands};

use crate::restate::restate;
use rope::edit::room_end;
use store::header;

// Of a well formed store of n rows; k is the number of rows that the list becomes, and there is room for them, as the entries asked.
pub fn stand(
    s: &mut [u8],
    n: usize,
    k: usize,
    e: &[u8],
    h: usize,
    t: &[u8],
    a: &[u8],
    ka: usize,
    b: &[u8],
    kb: usize,
    both: bool,
)
    requires { Stands both n k s.old h e.now t.now ka a.now kb b.now }
    ensures { WrittenIn (join (seen both (pairs ka a.now) (pairs kb b.now) (held h e.now t.now) (expand (spans_of s.old)))) s.old s.new }
{
    let end = room_end(s);
    restate(&mut s[72..end], n, k, e, h, t, a, ka, b, kb, both);
    header::set_count(s, k as u64)
}
