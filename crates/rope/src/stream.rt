// A list written again in place, from left to right: no more rows are written than were read.
ghost use Rattle.rope.specs.Streams.{Pushable, Pushed};

use span::span::FugueSpan;

// The span y goes after the first w rows: it joins the last of them, or is a row of its own. The answer is the number of these rows.
pub fn push(s: &mut [u8], w: usize, y: FugueSpan) -> usize
    requires { Pushable w y s.old }
    ensures { Pushed w y result s.old s.new }
{
    if 0 < w {
        let left = store::get_row(s, w - 1);
        if left.can_merge(y) {
            store::put_row(s, w - 1, left.joined(y));
            return w;
        }
    }
    store::put_row(s, w, y);
    w + 1
}
