// What a unit that the scan meets does to the placement, by value.
ghost use Rattle.std.specs.Prelude.{◌≡◌, nat_lt, ◌==◌};
ghost use Rattle.units.specs.Place.{by_pos, is_stop, after};

// What a scanned span does to the placement: it ends it, sets or clears "holding", or leaves it.
#[derive(Clone, Copy, Debug, PartialEq, Eq)]
pub enum Verdict {
    Stop,
    Hold,
    Clear,
    Keep,
}

impl Verdict {
    #[tactic(auto, unfolding(crate::specs::Place::is_stop))]
    pub fn is_stop(self) -> bool
        ensures { result ≡ is_stop self }
    {
        matches!(self, Verdict::Stop)
    }

    // What holding is after it.
    #[tactic(auto, unfolding(crate::specs::Place::after))]
    pub fn after(self, holding: bool) -> bool
        ensures { result ≡ after self holding }
    {
        match self {
            Verdict::Stop | Verdict::Keep => holding,
            Verdict::Hold => true,
            Verdict::Clear => false,
        }
    }
}

// The verdict by the positions of the two parent rights, theirs and ours, and by the two peers, ours and theirs.
#[tactic(auto, unfolding(crate::specs::Place::by_pos))]
pub fn by_pos(p: usize, m: usize, q: u64, peer: u64) -> Verdict
    ensures { result ≡ by_pos (nat_lt p m) (p == m) (nat_lt q peer) }
{
    if p < m {
        Verdict::Hold
    } else if p == m && q < peer {
        Verdict::Stop
    } else {
        Verdict::Clear
    }
}
