//! Comparing memory reservations.

ghost use Rattle.std.specs.Prelude.{◌≡◌, ◌↔◌, IsTrue};

use bi_fdt::Blob;

/// Returns whether both blobs have the same memory reservations in the same order.
pub(super) fn have_same_reservations(own: &Blob<'_>, other: &Blob<'_>) -> bool
    ensures { IsTrue result ↔ (own.now.reservations ≡ other.now.reservations) }
{
    if own.reservation_count() != other.reservation_count() {
        return false;
    }
    for index in 0..own.reservation_count() {
        if own.reservation(index) != other.reservation(index) {
            return false;
        }
    }
    true
}
