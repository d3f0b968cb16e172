// The lines of a text, without their comments.
ghost use Rattle.std.specs.Prelude.{◌≤◌, ◌-◌, length};
ghost use Rattle.std.specs.Iterator.{at_most};

// Yields what stands on each line before its comment, `--` and what follows it. Both ends are looked for at once: that is quicker than to split
// the text at its newlines and then each line at its comment.
#[derive(Clone, Copy, Debug)]
pub(crate) struct Lines<'a> {
    rest: &'a [u8],
}

impl<'a> Lines<'a> {
    pub(crate) fn new(text: &'a [u8]) -> Lines<'a> {
        Lines { rest: text }
    }
}

// Returns where the content of a text's first line ends: at its newline, at its comment, or at the end of the text.
fn content_size(text: &[u8]) -> usize
    ensures { result ≤ length text.now }
{
    for at in 0..text.len() {
        match text[at] {
            b'\n' => return at,
            b'-' if matches!(text.get(at + 1), Some(b'-')) => return at,
            _ => {}
        }
    }
    text.len()
}

// Returns what stands behind the line whose comment a text begins with, `--` and what follows it; nothing, where the text is at its end. Not
// inlined: beside the loop over a line's content LLVM carries the start of this one through that loop, two more steps for each byte.
#[inline(never)]
fn behind_comment(text: &[u8]) -> &[u8]
    ensures { length result.now ≤ length text.now - 1 }
{
    let Some(comment) = text.get(2..) else {
        return &[];
    };
    match comment.iter().position(|byte| *byte == b'\n') {
        Some(end) => &comment[end + 1..],
        None => &[],
    }
}

impl<'a> Iterator for Lines<'a> {
    type Item = &'a [u8];

    ghost remaining = { λ s. at_most (length s.rest.now) };

    fn next(&mut self) -> Option<&'a [u8]> {
        if self.rest.is_empty() {
            return None;
        }
        let (line, rest) = self.rest.split_at(content_size(self.rest));
        self.rest = match rest {
            [b'\n', next @ ..] => next,
            comment => behind_comment(comment),
        };
        Some(line)
    }
}
