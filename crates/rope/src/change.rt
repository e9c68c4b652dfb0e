// A change of some of a list's units: a delete by visible positions, or an update by ids. What it does to one span, by value.
// A span has at most three pieces in it: units that stay, units that change, units that stay.
ghost use Rattle.std.specs.Prelude.{◌≡◌, true, ◌+ℤ◌};
ghost use Rattle.span.specs.Status.{activated, in_i16};
ghost use Rattle.units.specs.Change.{with_state, delete_unit, change_status, base_of, update_unit};
ghost use Rattle.rope.specs.Pieces.{delete_cut, delete_after, CanDelete, part_at, update_cut, cut_of, after_of, change_span, CanCut, CanChange};

use span::ids::Id;
use span::span::FugueSpan;
use span::status::{Status, counter_of};
use units::change::SetFuture;

// The delete of `len` visible units after `at` visible ones. The first of them is offered the real id `start`.
#[derive(Clone, Copy)]
pub struct Delete {
    pub at: u32,
    pub len: u32,
    pub start: Id,
}

// The update of the counters from..to of a peer: future is set as asked, and `change` is added to the count, of the status or of the
// diff_status.
#[derive(Clone, Copy)]
pub struct Update {
    pub peer: u64,
    pub from: u32,
    pub to: u32,
    pub set: SetFuture,
    pub change: i16,
    pub diff: bool,
}

#[derive(Clone, Copy)]
pub enum Change {
    Delete(Delete),
    Update(Update),
}

// The units from..to of a span.
#[derive(Clone, Copy, Default)]
pub struct Part {
    pub from: u32,
    pub to: u32,
}

// A span with other statuses and another real id.
#[tactic(auto, unfolding(units::specs::Change::with_state))]
pub fn with_state(u: FugueSpan, status: Status, diff: Option<Status>, real: Option<Id>) -> FugueSpan
    ensures { result ≡ with_state u status diff real }
{
    FugueSpan {
        real_id: real,
        status,
        diff_status: diff,
        ..u
    }
}

impl Delete {
    // The units of a row that it takes.
    #[tactic(auto, unfolding(crate::specs::Pieces::delete_cut))]
    pub fn cut(self, row: FugueSpan) -> Part
        requires { CanDelete self }
        ensures { result ≡ delete_cut self row }
    {
        let len = row.activated_len();
        Part {
            from: self.at.min(len),
            to: (self.at + self.len).min(len),
        }
    }

    // What is left of it for the rows after.
    #[tactic(auto, unfolding(crate::specs::Pieces::delete_after, crate::specs::Pieces::took_of, crate::specs::Pieces::delete_cut), using(crate::proofs::Cuts::own_room, crate::proofs::Cuts::took_most))]
    pub fn after(self, row: FugueSpan) -> Self
        requires { CanDelete self }
        ensures { result ≡ delete_after self row }
    {
        let part = self.cut(row);
        let took = part.to - part.from;
        Delete {
            at: self.at - part.from,
            len: self.len - took,
            start: self.start.inc(took),
        }
    }

    // A piece that it takes.
    #[tactic(auto, unfolding(units::specs::Change::delete_unit, units::specs::Change::with_state), using(crate::proofs::Cuts::gone))]
    pub fn changed(self, piece: FugueSpan) -> FugueSpan
        requires { activated piece.status ≡ true }
        ensures { result ≡ delete_unit self.start piece }
    {
        let gone = Status {
            future: false,
            delete_times: 1,
        };
        FugueSpan {
            status: gone,
            real_id: piece.real_id.or(Some(self.start)),
            ..piece
        }
    }
}

impl Update {
    // The units of a row that it changes.
    #[tactic(auto, unfolding(crate::specs::Pieces::update_cut))]
    pub fn cut(self, row: FugueSpan) -> Part
        ensures { result ≡ update_cut self row }
    {
        match counter_of(row.id.counter) {
            Some(c) if row.id.peer == self.peer => self.part_at(c, row.rle_len()),
            _ => Part::default(),
        }
    }

    // The same of len units of its peer from counter c on.
    #[tactic(auto, unfolding(crate::specs::Pieces::part_at))]
    pub fn part_at(self, c: u32, len: u32) -> Part
        ensures { result ≡ part_at self c len }
    {
        Part {
            from: self.from.saturating_sub(c).min(len),
            to: self.to.saturating_sub(c).min(len),
        }
    }

    // The status of a piece that it works on.
    #[tactic(auto, unfolding(units::specs::Change::base_of))]
    pub fn base(self, piece: FugueSpan) -> Status
        ensures { result ≡ base_of self.diff piece }
    {
        if self.diff {
            piece.diff_status.unwrap_or(piece.status)
        } else {
            piece.status
        }
    }

    // That status, changed.
    #[tactic(auto, unfolding(units::specs::Change::change_status, span::specs::Status::in_i16))]
    pub fn status(self, base: Status) -> Status
        requires { in_i16 (base.delete_times +ℤ self.change) ≡ true }
        ensures { result ≡ change_status self.set self.change base }
    {
        Status {
            future: self.set.apply(base.future),
            delete_times: base.delete_times + self.change,
        }
    }

    // A piece that it changes.
    #[tactic(auto, unfolding(units::specs::Change::update_unit, units::specs::Change::with_state))]
    pub fn changed(self, piece: FugueSpan) -> FugueSpan
        requires { in_i16 ((base_of self.diff piece).delete_times +ℤ self.change) ≡ true }
        ensures { result ≡ update_unit self.set self.change self.diff piece }
    {
        let new = self.status(self.base(piece));
        if self.diff {
            FugueSpan {
                diff_status: Some(new),
                ..piece
            }
        } else {
            FugueSpan {
                status: new,
                ..piece
            }
        }
    }
}

impl Change {
    // The units of a row that change.
    #[tactic(auto, unfolding(crate::specs::Pieces::cut_of, crate::specs::Pieces::CanCut))]
    pub fn cut(self, row: FugueSpan) -> Part
        requires { CanCut self }
        ensures { result ≡ cut_of self row }
    {
        match self {
            Change::Delete(d) => d.cut(row),
            Change::Update(u) => u.cut(row),
        }
    }

    // What is left of the change for the rows after.
    #[tactic(auto, unfolding(crate::specs::Pieces::after_of, crate::specs::Pieces::CanCut))]
    pub fn after(self, row: FugueSpan) -> Self
        requires { CanCut self }
        ensures { result ≡ after_of self row }
    {
        match self {
            Change::Delete(d) => Change::Delete(d.after(row)),
            Change::Update(_) => self,
        }
    }

    // A piece that changes.
    #[tactic(auto, unfolding(crate::specs::Pieces::change_span, crate::specs::Pieces::CanChange))]
    pub fn changed(self, piece: FugueSpan) -> FugueSpan
        requires { CanChange self piece }
        ensures { result ≡ change_span self piece }
    {
        match self {
            Change::Delete(d) => d.changed(piece),
            Change::Update(u) => u.changed(piece),
        }
    }
}
