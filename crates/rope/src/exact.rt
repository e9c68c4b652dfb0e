// How many rows an update would leave (refusal 10), also where a count would leave i16: sums are exact. The rows are cut into their pieces
// as the update cuts them, and each piece that does not join the one before is a row. Nothing is written.
ghost use Rattle.std.specs.Prelude.{◌≡◌, ◌*◌, ◌≤◌, ◌<◌, pos, ◌+ℤ◌, length};
ghost use Rattle.span.specs.Span.{span_code, len_span};
ghost use Rattle.span.specs.Units.{expand, join};
ghost use Rattle.store.specs.Row.{rows};
ghost use Rattle.rope.specs.declared.change.Change.TheVariants as Ch;
ghost use Rattle.units.specs.Change.{update_unit, update_units};
ghost use Rattle.rope.specs.Pieces.{part_of, changed_of, pieces_of};
ghost use Rattle.rope.specs.Spans.{AllOk};
ghost use Rattle.rope.specs.Exact.{uncounted_diff, bare, exact_of, joins_exact, follows, step_of, tail_of};

use crate::change::Update;
use span::span::FugueSpan;
use span::status::Status;

// A span in two: the count that an update works on, as it may be no i16 any more, and the rest, where it is 0.
#[derive(Clone, Copy)]
pub struct Exact {
    pub times: i32,
    pub rest: FugueSpan,
}

// The number of rows so far, and the last piece of them.
#[derive(Clone, Copy)]
pub struct Tail {
    pub rows: usize,
    pub last: Exact,
}

// The exact sum of two counts.
pub fn sum(a: i16, b: i16) -> i32
    ensures { result ≡ a +ℤ b }
{
    i32::from(a) + i32::from(b)
}

// A diff_status with a count of 0.
pub fn uncounted(diff: Option<Status>) -> Option<Status>
    ensures { result ≡ uncounted_diff diff }
{
    diff.map(|status| Status {
        delete_times: 0,
        ..status
    })
}

// A span without the count.
#[tactic(auto, unfolding(crate::specs::Exact::bare, units::specs::Change::with_state))]
pub fn bare(diff: bool, x: FugueSpan) -> FugueSpan
    ensures { result ≡ bare diff x }
{
    if diff {
        FugueSpan {
            diff_status: uncounted(x.diff_status),
            ..x
        }
    } else {
        FugueSpan {
            status: Status {
                delete_times: 0,
                ..x.status
            },
            ..x
        }
    }
}

// A changed piece without the count.
#[tactic(auto, unfolding(crate::specs::Exact::bare, units::specs::Change::with_state, units::specs::Change::update_unit, units::specs::Change::change_status))]
pub fn changed_bare(u: Update, piece: FugueSpan) -> FugueSpan
    ensures { result ≡ bare u.diff (update_unit u.set u.change u.diff piece) }
{
    let status = Status {
        future: u.set.apply(u.base(piece).future),
        delete_times: 0,
    };
    if u.diff {
        FugueSpan {
            diff_status: Some(status),
            ..piece
        }
    } else {
        FugueSpan { status, ..piece }
    }
}

// A piece that stays, in two.
#[tactic(auto, unfolding(crate::specs::Exact::exact_of))]
pub fn kept_piece(u: Update, piece: FugueSpan) -> Exact
    ensures { result ≡ exact_of u.diff piece }
{
    Exact {
        times: i32::from(u.base(piece).delete_times),
        rest: bare(u.diff, piece),
    }
}

// A piece that changes, in two.
pub fn changed_piece(u: Update, piece: FugueSpan) -> Exact
    ensures { result ≡ exact_of u.diff (update_unit u.set u.change u.diff piece) }
{
    Exact {
        times: sum(u.base(piece).delete_times, u.change),
        rest: changed_bare(u, piece),
    }
}

impl Exact {
    // Whether the two join.
    pub fn joins(self, other: Self) -> bool
        ensures { result ≡ joins_exact self other }
    {
        self.times == other.times && self.rest.can_merge(other.rest)
    }
}

impl Tail {
    // Whether a piece joins the last one.
    #[tactic(auto, unfolding(crate::specs::Exact::follows))]
    pub fn follows(self, x: Exact) -> bool
        ensures { result ≡ follows self x }
    {
        0 < self.rows && self.last.joins(x)
    }

    // One more piece. (The number has room for it, as a list has at most 65,536 rows, of at most three pieces each.)
    #[tactic(auto, unfolding(crate::specs::Exact::step_of))]
    pub fn step(self, x: Exact) -> Self
        requires { self.rows ≤ 4294967295 }
        ensures { result ≡ step_of self x }
    {
        let rows = if self.follows(x) {
            self.rows
        } else {
            self.rows + 1
        };
        Tail { rows, last: x }
    }

    // The units from..to of a row, if there are any. (The row is well formed, which the entries asked.)
    #[tactic(auto, using(span::proofs::Unique::in_range_lem, crate::proofs::Exacts::part_step, crate::proofs::Exacts::part_stay))]
    pub fn part(self, u: Update, row: FugueSpan, from: u32, to: u32) -> Self
        requires { (self.rows ≤ 4294967295) × (span_code row ≡ 0) × (to ≤ len_span row) }
        ensures { result ≡ tail_of u.diff self (part_of row from to) }
    {
        if from < to {
            self.step(kept_piece(u, row.piece(from, to)))
        } else {
            self
        }
    }

    // The same of units that change, in such a row.
    #[tactic(auto, using(span::proofs::Unique::in_range_lem, crate::proofs::Exacts::changed_step, crate::proofs::Exacts::changed_stay))]
    pub fn changed(self, u: Update, row: FugueSpan, from: u32, to: u32) -> Self
        requires { (self.rows ≤ 4294967295) × (span_code row ≡ 0) × (to ≤ len_span row) }
        ensures { result ≡ tail_of u.diff self (changed_of (Ch.Update u) row from to) }
    {
        if from < to {
            self.step(changed_piece(u, row.piece(from, to)))
        } else {
            self
        }
    }

    // The pieces of such a row.
    pub fn row(self, u: Update, row: FugueSpan) -> Self
        requires { (self.rows ≤ 4294967000) × (span_code row ≡ 0) }
        ensures { result ≡ tail_of u.diff self (pieces_of (Ch.Update u) row) }
    {
        let cut = u.cut(row);
        let before = self.part(u, row, 0, cut.from);
        let changed = before.changed(u, row, cut.from, cut.to);
        changed.part(u, row, cut.to, row.rle_len())
    }
}

// The number of rows that an update would leave, in a well formed list, which the entries asked.
#[tactic(auto, using(crate::proofs::Exacts::going_none, crate::proofs::Exacts::going_start, crate::proofs::Exacts::going_turn, crate::proofs::Exacts::going_done, crate::proofs::Rights::row_ok))]
pub fn rows_after(s: &[u8], n: usize, u: Update) -> usize
    requires { (n * 72 ≤ length s.now) × AllOk (rows n s.now) × (n ≤ 65536) × (u.from ≤ u.to) }
    ensures { result ≡ length (join (update_units u.peer (pos u.from) (pos u.to) u.set u.change u.diff (expand (rows n s.now)))) }
{
    if n == 0 {
        return 0;
    }
    let mut t = Tail {
        rows: 0,
        last: kept_piece(u, store::get_row(s, 0)),
    };
    for i in 0..n {
        t = t.row(u, store::get_row(s, i));
    }
    t.rows
}
