// The words that a record lists, for any plan.
ghost use Rattle.std.specs.Prelude.{◌≡◌, ◌+◌, ◌-◌, ◌≤◌};

use plan::SINGLES;

// The range of c words from index lo on.
#[derive(Clone, Copy)]
pub struct Span {
    pub lo: usize,
    pub c: usize,
    ghost words: { lo + c ≤ 16384 },
}

// Of a list ix of single words the first low, then the words of a span, then the single words from mid up to end.
#[derive(Clone, Copy)]
pub struct Outline {
    pub ix: [u32; SINGLES],
    pub span: Span,
    pub low: usize,
    pub mid: usize,
    pub end: usize,
    ghost singles: { (low ≤ 16) × (mid ≤ end) × (end ≤ 16) },
}

impl Outline {
    // Counts the words.
    pub fn count(&self) -> usize
        ensures { result ≡ self.now.low + self.now.span.c + (self.now.end - self.now.mid) }
    {
        self.low + self.span.c + (self.end - self.mid)
    }
}
