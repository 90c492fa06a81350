//! Tests of equality that don't use the order.
ghost use Rattle.std.specs.Prelude.{◌≡◌, ◌↔◌, IsTrue};

/// Equality of all data. It stops at the first difference, and needs no canonical line.
pub(crate) trait Same {
    fn is_same(&self, other: &Self) -> bool
        ensures { IsTrue result ↔ (self.now ≡ other.now) };
}

/// Whether two lists have equal items in the same order.
pub(crate) fn are_same<T: Same>(left: &[T], right: &[T]) -> bool
    ensures { IsTrue result ↔ (left.now ≡ right.now) }
{
    if left.len() != right.len() {
        return false;
    }
    for (i, item) in left.iter().enumerate() {
        if !item.is_same(&right[i]) {
            return false;
        }
    }
    true
}
