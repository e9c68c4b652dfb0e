// The pieces that a delete removes, as they were before it, written to a lent output of rows. Forward there is one piece for each row
// that it touches; reversed there are single units, the last first.
ghost use Rattle.std.specs.Prelude.{◌≡◌, ◌+◌, ◌-◌, ◌*◌, ◌≤◌, ◌<◌, min, length, reverse};
ghost use Rattle.span.specs.Span.{span_code, len_span};
ghost use Rattle.store.specs.Row.{rows};
ghost use Rattle.span.specs.Units.{expand};
ghost use Rattle.units.specs.Change.{touched, pieces};
ghost use Rattle.rope.specs.Reports.{PutPart, PutUnits, Taken, Report, Listed};

use crate::change::Delete;
use span::span::FugueSpan;

// Whether from..to has a unit, as a number.
pub fn some(from: u32, to: u32) -> usize
    ensures { result ≡ min 1 (to - from) }
{
    usize::from(from < to)
}

// How many rows a delete touches.
pub fn touched_len(s: &[u8], n: usize, d: Delete) -> usize
    requires { Taken d n s.now }
    ensures { result ≡ length (touched (rows n s.now) d.at d.len) }
{
    let mut left = d;
    let mut k = 0;
    for i in 0..n {
        let row = store::get_row(s, i);
        let part = left.cut(row);
        k += some(part.from, part.to);
        left = left.after(row);
    }
    k
}

// The units from..to of a row go to row k of the output, if there are any. The answer is the number of rows that are written.
#[tactic(auto, using(span::proofs::Unique::in_range_lem))]
pub fn put_part(out: &mut [u8], k: usize, row: FugueSpan, from: u32, to: u32) -> usize
    requires { (span_code row ≡ 0) × (to ≤ len_span row) × (k ≤ 65536) × ((k + min 1 (to - from)) * 72 ≤ length out.old) }
    ensures { PutPart k row from to result out.old out.new }
{
    if from < to {
        store::put_row(out, k, row.piece(from, to));
        k + 1
    } else {
        k
    }
}

// One piece for each row that the delete touches, in list order. The answer is their number.
pub fn report_rows(s: &[u8], n: usize, out: &mut [u8], d: Delete) -> usize
    requires { Taken d n s.now × (length (touched (rows n s.now) d.at d.len) * 72 ≤ length out.old) }
    ensures { Listed (touched (rows n s.now) d.at d.len) result out.old out.new }
{
    let mut left = d;
    let mut k = 0;
    for i in 0..n {
        let row = store::get_row(s, i);
        let part = left.cut(row);
        k = put_part(out, k, row, part.from, part.to);
        left = left.after(row);
    }
    k
}

// The units from..to of a row go to the rows of the output below row `top`, the first to the row right below it.
pub fn put_units(out: &mut [u8], top: usize, row: FugueSpan, from: u32, to: u32)
    requires { (span_code row ≡ 0) × (from ≤ to) × (to ≤ len_span row) × (to - from ≤ top) × (top * 72 ≤ length out.old) }
    ensures { PutUnits top row from to out.old out.new }
{
    let mut t = top;
    for u in from..to {
        t -= 1;
        store::put_row(out, t, row.piece(u, u + 1));
    }
}

// Each unit that the delete takes, the last first. The answer is their number.
pub fn report_units(s: &[u8], n: usize, out: &mut [u8], d: Delete) -> usize
    requires { Report d n s.now × (d.len * 72 ≤ length out.old) }
    ensures { Listed (reverse (expand (touched (rows n s.now) d.at d.len))) result out.old out.new }
{
    let mut left = d;
    for i in 0..n {
        let row = store::get_row(s, i);
        let part = left.cut(row);
        put_units(out, left.len as usize, row, part.from, part.to);
        left = left.after(row);
    }
    d.len as usize
}

// How many pieces the delete removes.
#[tactic(auto, using(crate::proofs::Reporting::back_length, crate::proofs::Reporting::pieces_single, crate::proofs::Reporting::pieces_forward))]
pub fn removed_len(s: &[u8], n: usize, d: Delete, reversed: bool) -> usize
    requires { Report d n s.now }
    ensures { result ≡ length (pieces (rows n s.now) d.at d.len reversed) }
{
    if reversed && 1 < d.len {
        d.len as usize
    } else {
        touched_len(s, n, d)
    }
}

// The pieces that the delete removes. The answer is their number.
#[tactic(auto, using(crate::proofs::Reporting::back_length, crate::proofs::Reporting::pieces_back, crate::proofs::Reporting::pieces_single, crate::proofs::Reporting::pieces_forward))]
pub fn report(s: &[u8], n: usize, out: &mut [u8], d: Delete, reversed: bool) -> usize
    requires { Report d n s.now × (length (pieces (rows n s.now) d.at d.len reversed) * 72 ≤ length out.old) }
    ensures { Listed (pieces (rows n s.now) d.at d.len reversed) result out.old out.new }
{
    if reversed && 1 < d.len {
        report_units(s, n, out, d)
    } else {
        report_rows(s, n, out, d)
    }
}
