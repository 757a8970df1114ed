//! The memory reservation block (Devicetree Specification, 5.3).

ghost use Rattle.std.specs.Prelude.{◌≤◌, ◌<◌, ◌^◌, length, IfOk, IfErr};
ghost use Rattle.bi_blob.specs.BlobFaults.{HasReservations, IsReservationsFault};

use bi_base::{Cause, Fault, refuse, two_cells_at};

/// The bytes of a reservation: two cells of its address and two of its size.
pub(crate) const PAIR_SIZE: usize = 16;

/// Returns the number of the reservations in the block at offset `at`. Fails with Truncated at the
/// first pair, up to and including the end pair, that ends after `total`. Requires: the block
/// begins no later than `total`, which is at most the length of the file and less than 2^32.
pub(crate) fn count_reservations(file: &[u8], at: usize, total: usize) -> Result<usize, Fault>
    requires begins { at ≤ total }
    requires within { total ≤ length file.now }
    requires small { total < 2 ^ 32 }
    ensures ok { IfOk result (HasReservations file.now at total) }
    ensures fault { IfErr result (IsReservationsFault file.now at total) }
{
    let mut count = 0;
    while at + PAIR_SIZE * (count + 1) <= total {
        let place = at + PAIR_SIZE * count;
        if two_cells_at(file, place) == 0 && two_cells_at(file, place + 8) == 0 {
            return Ok(count);
        }
        count += 1;
    }
    refuse(Cause::Truncated, (at + PAIR_SIZE * count) as u32)
}
