// Names, byte by byte: they are short, and the comparison of slices goes by groups of bytes, which takes longer.

ghost use Rattle.std.specs.Prelude.{◌≡◌, ◌<◌, bytes_eq, length, nat_eq, slice_index};

/// Whether two names are the same.
#[inline(always)]
pub fn is_same(a: &[u8], b: &[u8]) -> bool
    ensures { result ≡ bytes_eq a.now b.now }
{
    if !are_as_long(a, b) {
        return false;
    }
    for i in 0..a.len() {
        if !is_same_at(a, b, i) {
            return false;
        }
    }
    true
}

// Whether one has as many bytes as the other.
fn are_as_long(a: &[u8], b: &[u8]) -> bool
    ensures { result ≡ nat_eq (length a.now) (length b.now) }
{
    a.len() == b.len()
}

// Whether they have the same byte at a place.
fn is_same_at(a: &[u8], b: &[u8], i: usize) -> bool
    requires first { i < length a.now }
    requires second { i < length b.now }
    ensures { result ≡ nat_eq (slice_index a.now i) (slice_index b.now i) }
{
    a[i] == b[i]
}
