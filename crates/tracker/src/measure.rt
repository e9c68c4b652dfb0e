// The entries of a delta, counted before anything is written: the list with both statuses is read piece by piece, and what joins waits in a queue.
ghost use Rattle.std.specs.Prelude.{◌≡◌, true, ◌&&◌, ◌+◌, ◌-◌, ◌*◌, ◌≤◌, length};
ghost use Rattle.span.specs.Span.{len_span};
ghost use Rattle.span.specs.Units.{expand, join};
ghost use Rattle.store.specs.Row.{rows};
ghost use Rattle.units.specs.Delta.{is_real};
ghost use Rattle.tracker.specs.Rows.{pairs, held};
ghost use Rattle.tracker.specs.Looks.{Sees, seen};
ghost use Rattle.tracker.specs.Measures.{changed, measured, measured_all, Measures};

use crate::seen::next_piece;
use rope::apply::keep_last;
use rope::stream::push;
use span::span::{DiffStatus, FugueSpan};

// Whether each insert has a real id, how many rows and entries there are, and the visible units since the last change.
#[derive(Clone, Copy)]
pub struct Measure {
    pub fine: bool,
    pub rows: usize,
    pub entries: usize,
    pub gap: u32,
}

impl Measure {
    // One change more. A list has few enough rows to count.
    #[tactic(auto, unfolding(crate::specs::Measures::changed))]
    pub fn change(self, real: bool) -> Self
        requires { (self.rows ≤ 1000000) × (self.entries ≤ 1000000) }
        ensures { result ≡ changed self real }
    {
        // The units passed since the last change are an entry of their own.
        let new = if self.gap == 0 { 1 } else { 2 };
        Measure {
            fine: self.fine && real,
            rows: self.rows + 1,
            entries: self.entries + new,
            gap: 0,
        }
    }

    // One row more. A list has few enough rows and units to count.
    #[tactic(auto, using(crate::proofs::Measuring::some_real, rope::proofs::Seeks::active_most), unfolding(crate::specs::Measures::measured))]
    pub fn on(self, row: FugueSpan) -> Self
        requires { (self.rows ≤ 1000000) × (self.entries ≤ 1000000) × (self.gap + len_span row ≤ 1000000) }
        ensures { result ≡ measured self row }
    {
        match row.diff() {
            DiffStatus::NotChanged => Measure {
                rows: self.rows + 1,
                gap: self.gap + row.activated_len(),
                ..self
            },
            DiffStatus::Created => self.change(row.real_id.is_some()),
            DiffStatus::Deleted => self.change(true),
        }
    }
}

// The first of at most two rows, if there are two. The list has few enough rows and units to count.
pub fn pass(q: &[u8], m: usize, x: Measure) -> Measure
    requires { (m ≤ 2) × (m * 72 ≤ length q.now) × (x.rows ≤ 1000000) × (x.entries ≤ 1000000) × (x.gap + length (expand (rows (m - 1) q.now)) ≤ 1000000) }
    ensures { result ≡ measured_all x (rows (m - 1) q.now) }
{
    if 1 < m { x.on(store::get_row(q, 0)) } else { x }
}

// The delta from a to b, with a queue of two rows, of a well formed list, as the entry asked.
pub fn measure_with(
    q: &mut [u8],
    s: &[u8],
    n: usize,
    e: &[u8],
    h: usize,
    t: &[u8],
    a: &[u8],
    ka: usize,
    b: &[u8],
    kb: usize,
) -> Measure
    requires { Sees n s.now h e.now t.now ka a.now kb b.now × (144 ≤ length q.old) }
    ensures { Measures (join (seen true (pairs ka a.now) (pairs kb b.now) (held h e.now t.now) (expand (rows n s.now)))) result }
{
    let mut i = 0;
    let mut from = 0;
    let mut m = 0;
    let mut x = Measure {
        fine: true,
        rows: 0,
        entries: 0,
        gap: 0,
    };
    while i < n {
        let step = next_piece(s, n, i, from, e, h, t, a, ka, b, kb, true);
        m = push(q, m, step.piece);
        x = pass(q, m, x);
        let k = keep_last(q, m);
        m -= k;
        i = step.row;
        from = step.from;
    }
    pass(q, m + 1, x)
}

// The delta from a to b, of a well formed list, as the entry asked.
pub fn measure_delta(
    s: &[u8],
    n: usize,
    e: &[u8],
    h: usize,
    t: &[u8],
    a: &[u8],
    ka: usize,
    b: &[u8],
    kb: usize,
) -> Measure
    requires { Sees n s.now h e.now t.now ka a.now kb b.now }
    ensures { Measures (join (seen true (pairs ka a.now) (pairs kb b.now) (held h e.now t.now) (expand (rows n s.now)))) result }
{
    let mut q = [0u8; 144];
    measure_with(&mut q, s, n, e, h, t, a, ka, b, kb)
}
