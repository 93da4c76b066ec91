ghost use Rattle.std.specs.Prelude.{◌≡◌};
ghost use Rattle.tables.specs.Spans.{part as part_of};

use crate::span::*;

// What a span names of a slice, as far as the slice goes.
pub(crate) fn part<T>(items: &[T], span: Span) -> &[T]
    ensures { result.now ≡ part_of items.now span }
{
    let first = usize::from(span.first).min(items.len());
    let end = (first + usize::from(span.count)).min(items.len());
    &items[first..end]
}
