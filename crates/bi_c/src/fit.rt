//! The fields and the memory reservations of a flattened image tree.

ghost use Rattle.std.specs.Prelude.{◌≡◌, map};
ghost use Rattle.bi_fit.specs.Reading.{IsFitReadError};
ghost use Rattle.bi_c.specs.Answers.{FillsBuffer, IsThisOutput, Sets};
ghost use Rattle.bi_c.specs.Calls.{IsFailureOfOne};
ghost use Rattle.bi_c.specs.FitElements.{AreFitFields, AreReservationElements};
ghost use Rattle.bi_c.specs.FitElements.{element_of_reservation};

use crate::answer::{Answer, DONE, NO_ROOM, answer_with, fail, succeed};
use crate::argument::wrong_limit;
use crate::arguments::limits_of;
use crate::failure::{Failure, failure_of};
use bi_fdt::Blob;
use bi_fit::Fit;
use std::alloc::Global;

/// The fields of the blob of a flattened image tree.
#[repr(C)]
#[derive(Clone, Copy, Debug, PartialEq, Eq)]
pub struct FitFields {
    /// The physical number of the boot processor.
    pub boot_cpu: u32,
    /// The length of the blob in bytes.
    pub total_size: u32,
}

/// A memory reservation.
#[repr(C)]
#[derive(Clone, Copy, Debug, PartialEq, Eq)]
pub struct ReservationElement {
    /// The address of the first byte.
    pub address: u64,
    /// The number of bytes.
    pub size: u64,
}

/// Sets a struct to the fields of the blob of a flattened image tree. Returns the status.
#[unsafe(no_mangle)]
pub extern "C" fn bootimg_fit(
    alloc: Global,
    file: &[u8],
    limit: u32,
    depth: u32,
    fields: &mut FitFields,
    answer: &mut Answer,
) -> u32
    ensures { Sets (AreFitFields limit depth file.now)
        (IsFailureOfOne limit depth (λ limits. IsFitReadError limits file.now))
        fields.old fields.new answer.new result }
{
    let Some(limits) = limits_of(limit, depth) else {
        return fail(Failure::WrongArgument(wrong_limit(limit), 0), answer);
    };
    match Fit::read(alloc, file, limits) {
        Ok(fit) => {
            *fields = fit_fields(&fit);
            succeed(0, 0, answer)
        }
        Err(error) => fail(failure_of(error), answer),
    }
}

/// Returns the fields of the blob of a flattened image tree that was read.
fn fit_fields(fit: &Fit<'_>) -> FitFields
    ensures cpu { result.boot_cpu ≡ fit.now.blob.cpu }
    ensures size { result.total_size ≡ fit.now.blob.total_size }
{
    let blob = fit.blob();
    FitFields {
        boot_cpu: blob.boot_cpu(),
        total_size: blob.total_size(),
    }
}

/// Writes the memory reservations of a flattened image tree, in their order, to the beginning of an
/// array. Returns the status.
#[unsafe(no_mangle)]
pub extern "C" fn bootimg_reservations(
    alloc: Global,
    file: &[u8],
    limit: u32,
    depth: u32,
    reservations: &mut [ReservationElement],
    answer: &mut Answer,
) -> u32
    ensures { FillsBuffer (AreReservationElements limit depth file.now)
        (IsFailureOfOne limit depth (λ limits. IsFitReadError limits file.now))
        reservations.old reservations.new answer.new result }
{
    let Some(limits) = limits_of(limit, depth) else {
        return fail(Failure::WrongArgument(wrong_limit(limit), 0), answer);
    };
    match Fit::read(alloc, file, limits) {
        Ok(fit) => fill_reservations(fit.blob(), reservations, answer),
        Err(error) => fail(failure_of(error), answer),
    }
}

/// Writes the memory reservations of a blob to an array, and the answer. Returns the status.
fn fill_reservations(
    blob: &Blob<'_>,
    elements: &mut [ReservationElement],
    answer: &mut Answer,
) -> u32
    ensures { FillsBuffer (IsThisOutput (map element_of_reservation blob.now.reservations) 0)
        (λ failure. ⊥) elements.old elements.new answer.new result }
{
    let count = blob.reservation_count();
    *answer = answer_with(count, 0);
    if elements.len() < count {
        return NO_ROOM;
    }
    let mut index = 0;
    while let Some((address, size)) = blob.reservation(index) {
        elements[index] = ReservationElement { address, size };
        index += 1;
    }
    DONE
}
