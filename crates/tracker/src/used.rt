// How many target ranges the edits of a log have.
ghost use Rattle.std.specs.Prelude.{◌≡◌, ◌*◌, ◌≤◌, length};
ghost use Rattle.store.specs.Limits.{EDITS};
ghost use Rattle.tracker.specs.Rows.{used};

use crate::taken::took_at;

// The ranges of the first h edits. So many rows are there, and so few that the sum fits.
#[tactic(auto, using(crate::proofs::Logs::used_one), unfolding(crate::specs::Rows::used))]
pub fn used_len(e: &[u8], h: usize) -> usize
    requires { (h * 256 ≤ length e.now) × (h ≤ EDITS) }
    ensures { result ≡ used h e.now }
{
    let mut sum = 0;
    for i in 0..h {
        sum += took_at(e, i) as usize;
    }
    sum
}
