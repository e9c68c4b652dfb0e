// Target ranges, taken from left to right: ids that follow the last range join it.
ghost use Rattle.std.specs.Prelude.{◌≡◌, true, [], ◌+◌, ◌-◌, ◌<◌, ◌≤◌};
ghost use Rattle.span.specs.Ids.{room_of, inc_id, same_id};
ghost use Rattle.span.specs.Span.{span_code, len_span};
ghost use Rattle.store.specs.Limits.{UNITS};
ghost use Rattle.tracker.specs.Takes.{LastOk, ids_most, ranges_with, TakesOn};

use crate::row::Target;
use rope::change::Part;
use span::ids::Id;
use span::span::FugueSpan;

// The ranges taken so far: how many before the last one, and the last one.
#[derive(Clone, Copy)]
pub struct Taken {
    pub before: usize,
    pub last: Option<Target>,
}

// Whether an id is the next one after a range. Only for callers that know that the range's end is a counter.
#[tactic(auto, using(span::proofs::Derived::id_derived))]
pub fn follows(last: Target, id: Id) -> bool
    requires { room_of last.id last.len ≡ true }
    ensures { result ≡ same_id (inc_id last.id last.len) id }
{
    last.id.inc(last.len) == id
}

// Inner functions: their callers know that the ids have counters, and that there are no more than a list has units.
impl Taken {
    // One more range is taken: it joins the last one, or is one of its own.
    pub fn on(self, next: Target) -> Self
        requires { LastOk self.last × (ids_most self + next.len ≤ UNITS) × (0 < next.len) × (room_of next.id next.len ≡ true) }
        ensures { TakesOn self next.id next.len result }
    {
        let Some(last) = self.last else {
            return Taken {
                last: Some(next),
                ..self
            };
        };
        if follows(last, next.id) {
            Taken {
                last: Some(Target {
                    len: last.len + next.len,
                    ..last
                }),
                ..self
            }
        } else {
            Taken {
                before: self.before + 1,
                last: Some(next),
            }
        }
    }

    // The ids of a part of a span are taken, if there are any.
    pub fn on_part(self, piece: FugueSpan, part: Part) -> Self
        requires { LastOk self.last × (ids_most self + len_span piece ≤ UNITS) × (span_code piece ≡ 0) × (part.to ≤ len_span piece) }
        ensures { TakesOn self (inc_id piece.id part.from) (part.to - part.from) result }
    {
        if part.from < part.to {
            self.on(Target {
                id: piece.id.inc(part.from),
                len: part.to - part.from,
            })
        } else {
            self
        }
    }

    // How many ranges there are.
    #[tactic(auto, using(crate::proofs::Taking::before_most, crate::proofs::Taking::many_none, crate::proofs::Taking::many_some))]
    pub fn many(self) -> usize
        requires { LastOk self.last × (ids_most self ≤ UNITS) }
        ensures { result ≡ ranges_with self [] }
    {
        match self.last {
            None => self.before,
            Some(_) => self.before + 1,
        }
    }
}
