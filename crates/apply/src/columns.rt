// A delta's entries as they are lent: columns of numbers, of which entry i has those in place i. There are as many as the shortest column has.
ghost use Rattle.std.specs.Prelude.{◌≡◌, ◌<◌, length};
ghost use Rattle.rope.specs.Columns.{Hold, least};

use crate::given::given_at;
use rope::diff::shortest;
use units::diff::Entry;

#[derive(Clone, Copy)]
pub(crate) struct Columns<'a> {
    kind: &'a [u8],
    a: &'a [u32],
    b: &'a [u32],
    peer: &'a [u64],
    counter: &'a [u32],
    lamport: &'a [u32],
    pub(crate) len: usize,
    ghost hold: { Hold len kind.now a.now b.now peer.now counter.now lamport.now },
}

impl<'a> Columns<'a> {
    ghost use Rattle.apply.specs.Said.{entry_at, said};
    ghost use Rattle.apply.specs.Given.{givens};

    // The columns, with as many entries as the shortest has.
    #[tactic(auto, unfolding(crate::specs::Given::givens))]
    pub(crate) fn new(
        kind: &'a [u8],
        a: &'a [u32],
        b: &'a [u32],
        peer: &'a [u64],
        counter: &'a [u32],
        lamport: &'a [u32],
    ) -> Self
        ensures { said result ≡ givens kind.now a.now b.now peer.now counter.now lamport.now }
    {
        Columns {
            kind,
            a,
            b,
            peer,
            counter,
            lamport,
            len: shortest(
                kind.len(),
                a.len(),
                b.len(),
                peer.len(),
                counter.len(),
                lamport.len(),
            ),
        }
    }

    // The entry in place i.
    pub(crate) fn get(self, i: usize) -> Option<Entry>
        requires { i < self.len }
        ensures { result ≡ entry_at self.entry i }
    {
        given_at(
            self.kind,
            self.a,
            self.b,
            self.peer,
            self.counter,
            self.lamport,
            i,
        )
    }
}
