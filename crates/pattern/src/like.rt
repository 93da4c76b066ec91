ghost use Rattle.std.specs.Prelude.{◌≡◌, ◌≢◌, ℕ, List, ◌∷◌, MatchOption};
ghost use Rattle.pattern.specs.Like.{matches};

// The number in a pattern that stands for any run of bytes, also the empty one. Patterns are numbers and no enum, since a
// number above it is allowed too, and matches nothing.
pub const ANY_RUN: u16 = 256;

// What follows a run in the pattern, and the text from which it is tried.
#[derive(Clone, Copy)]
struct AfterRun<'p, 't> {
    pattern: &'p [u16],
    text: &'t [u8],
}

// Whether a pattern matches a whole text.
// Each run takes as little as it can, and a byte more each time that what follows it fails. Only the last run that was
// met is tried again: where an earlier one with more bytes leads to a match, so does the last one.
pub fn wildcard_match(pattern: &[u16], text: &[u8]) -> bool
    ensures { result ≡ matches pattern.now text.now }
{
    let mut numbers = pattern;
    let mut bytes = text;
    let mut after_run: Option<AfterRun> = None;
    while let [byte, rest @ ..] = bytes {
        if let Some(more) = after(ANY_RUN, numbers) {
            numbers = more;
            after_run = Some(AfterRun {
                pattern: numbers,
                text: bytes,
            });
        } else if let Some(more) = after(u16::from(*byte), numbers) {
            numbers = more;
            bytes = rest;
        } else if let Some(run) = after_run {
            numbers = run.pattern;
            bytes = &run.text[1..];
            after_run = Some(AfterRun {
                pattern: numbers,
                text: bytes,
            });
        } else {
            return false;
        }
    }
    numbers.iter().all(|number| *number == ANY_RUN)
}

// What follows this number in a pattern that begins with it.
fn after(number: u16, pattern: &[u16]) -> Option<&[u16]>
    ensures { MatchOption result ((more : List ℕ) → pattern.now ≢ number ∷ more) (λ more. pattern.now ≡ number ∷ more.now) }
{
    match pattern {
        [first, more @ ..] if *first == number => Some(more),
        _ => None,
    }
}
