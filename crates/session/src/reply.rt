// The words of an answer, put into the answer buffer, and the buffer written out.
ghost use Rattle.std.specs.Prelude.{◌≡◌, [], ◌∷◌};
ghost use Rattle.io.specs.Counts.{IsPrefixLen};
ghost use Rattle.span.specs.Refusal.{number_of, code_of};
ghost use Rattle.span.specs.Span.{len_span};
ghost use Rattle.script.specs.Print.{head_line, unit_line, span_line, item_line};
ghost use Rattle.session.specs.Say.{line_start, Says};
ghost use Rattle.session.specs.Lines.{ok_lines, error_lines, refused_lines, done_lines};

use crate::console::Output;
use script::print;
use span::chunk::RichtextChunk;
use span::ids::Id;
use span::refusal::Refusal;
use span::span::FugueSpan;
use text::puts::put;

// The first n bytes of a buffer, or all of it.
pub fn within(n: usize, buffer: &[u8]) -> usize
    ensures { IsPrefixLen result buffer.now }
{
    n.min(buffer.len())
}

// Writes the answer out, and answers where the next one starts.
pub fn flush(output: &mut Output, text: &[u8], at: usize) -> usize
    ensures { result ≡ 0 }
{
    let n = within(at, text);
    output.write(&text[..n]);
    0
}

// Writes the answer out where the buffer might not take another line, of 1,024 bytes at most.
#[tactic(auto, unfolding(crate::specs::Say::line_start))]
pub fn make_room(output: &mut Output, text: &[u8], at: usize) -> usize
    ensures { result ≡ line_start at }
{
    if at < 64512 {
        at
    } else {
        flush(output, text, at)
    }
}

#[tactic(auto, unfolding(crate::specs::Say::said_at, crate::specs::Say::said_text))]
pub fn ok(output: &mut Output, text: &mut [u8], at: usize) -> usize
    ensures { Says at ok_lines text.old result text.new }
{
    let at = make_room(output, text, at);
    put(text, at, b"ok\n")
}

#[tactic(auto, unfolding(crate::specs::Say::said_at, crate::specs::Say::said_text))]
pub fn error(output: &mut Output, text: &mut [u8], at: usize) -> usize
    ensures { Says at error_lines text.old result text.new }
{
    let at = make_room(output, text, at);
    put(text, at, b"error\n")
}

pub fn refused(output: &mut Output, text: &mut [u8], at: usize, code: u8) -> usize
    ensures { Says at (refused_lines code) text.old result text.new }
{
    counted(output, text, at, b"no", u64::from(code))
}

// ok, or the refusal
#[tactic(auto, unfolding(crate::specs::Lines::done_lines))]
pub fn done(output: &mut Output, text: &mut [u8], at: usize, code: u8) -> usize
    ensures { Says at (done_lines code) text.old result text.new }
{
    if code == 0 {
        ok(output, text, at)
    } else {
        refused(output, text, at, code)
    }
}

// A name and a number.
#[tactic(auto, unfolding(crate::specs::Say::said_at, crate::specs::Say::said_text))]
pub fn counted(output: &mut Output, text: &mut [u8], at: usize, name: &[u8], n: u64) -> usize
    ensures { Says at (head_line name.now n ∷ []) text.old result text.new }
{
    let at = make_room(output, text, at);
    print::head(text, at, name, n)
}

// unit UNIT
#[tactic(auto, unfolding(crate::specs::Say::said_at, crate::specs::Say::said_text))]
pub fn unit(output: &mut Output, text: &mut [u8], at: usize, x: FugueSpan) -> usize
    ensures { Says at (unit_line x ∷ []) text.old result text.new }
{
    let at = make_room(output, text, at);
    print::unit_line(text, at, x)
}

// span LEN SPAN, and piece LEN SPAN
#[tactic(auto, unfolding(crate::specs::Say::said_at, crate::specs::Say::said_text))]
pub fn span(output: &mut Output, text: &mut [u8], at: usize, name: &[u8], x: FugueSpan) -> usize
    ensures { Says at (span_line name.now (len_span x) x ∷ []) text.old result text.new }
{
    let at = make_room(output, text, at);
    print::span_line(text, at, name, x.rle_len(), x)
}

// item ID CHUNK
#[tactic(auto, unfolding(crate::specs::Say::said_at, crate::specs::Say::said_text))]
pub fn item(
    output: &mut Output,
    text: &mut [u8],
    at: usize,
    id: Id,
    content: RichtextChunk,
) -> usize
    ensures { Says at (item_line id content ∷ []) text.old result text.new }
{
    let at = make_room(output, text, at);
    print::item_line(text, at, id, content)
}
