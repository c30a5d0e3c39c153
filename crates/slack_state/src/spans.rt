// Sums and bounds of spans.

ghost use Rattle.std.specs.Prelude.{◌≡◌, ◌+ℤ◌, ◌-ℤ◌, ◌||◌, ◌&&◌, Some, None, if◌then◌else◌};
ghost use Rattle.slack_meaning.specs.Spans.{exactly, is_near, lies_near, is_number, span_less, span_max, span_sum};

use slack_meaning::Span;

/// The farthest that a span may reach, in machine units (mu).
pub const FARTHEST: i64 = 1 << 62;

/// The span of one number.
pub fn exactly(number: i64) -> Span
    ensures { result ≡ exactly number }
{
    Span {
        least: number,
        greatest: number,
    }
}

/// Whether a span is a number.
pub fn is_number(span: Span) -> bool
    ensures { result ≡ is_number span }
{
    span.least == span.greatest
}

/// Whether two spans are numbers.
pub fn are_both_numbers(a: Span, b: Span) -> bool
    ensures { result ≡ (is_number a && is_number b) }
{
    is_number(a) && is_number(b)
}

// Whether a number lies near enough.
fn lies_near(number: i64) -> bool
    ensures { result ≡ lies_near number }
{
    -FARTHEST <= number && number <= FARTHEST
}

/// Whether a span is a number or doesn't reach too far.
pub fn is_near_or_number(span: Span) -> bool
    ensures { result ≡ (is_number span || is_near span) }
{
    is_number(span) || lies_near(span.least) && lies_near(span.greatest)
}

// The sum of two numbers, if it lies near enough.
fn near_sum(a: i64, b: i64) -> Option<i64>
    ensures { result ≡ (if lies_near (a +ℤ b) then Some (a +ℤ b) else None) }
{
    let number = a.checked_add(b)?;
    if lies_near(number) {
        Some(number)
    } else {
        None
    }
}

// A number less another, if it lies near enough.
fn near_difference(a: i64, b: i64) -> Option<i64>
    ensures { result ≡ (if lies_near (a -ℤ b) then Some (a -ℤ b) else None) }
{
    let number = a.checked_sub(b)?;
    if lies_near(number) {
        Some(number)
    } else {
        None
    }
}

/// The sum of two spans, end by end, if it doesn't reach too far.
pub fn sum(a: Span, b: Span) -> Option<Span>
    ensures { result ≡ (if is_near (span_sum a b) then Some (span_sum a b) else None) }
{
    let least = near_sum(a.least, b.least)?;
    let greatest = near_sum(a.greatest, b.greatest)?;
    Some(Span { least, greatest })
}

/// A span less a number, end by end, if it doesn't reach too far.
pub fn less(a: Span, number: i64) -> Option<Span>
    ensures { result ≡ (if is_near (span_less a number) then Some (span_less a number) else None) }
{
    let least = near_difference(a.least, number)?;
    let greatest = near_difference(a.greatest, number)?;
    Some(Span { least, greatest })
}

/// The greater of two spans at each end.
pub fn greatest(a: Span, b: Span) -> Span
    ensures { result ≡ span_max a b }
{
    Span {
        least: a.least.max(b.least),
        greatest: a.greatest.max(b.greatest),
    }
}
