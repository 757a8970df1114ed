//! Appending the normal text of a legacy image that was read.

ghost use Rattle.std.specs.Prelude.{◌≡◌, ℕ, List, map, OnOk, IfOk, IfErr};
ghost use Rattle.bi_base.specs.Commands.{AppendFailed};
ghost use Rattle.bi_base.specs.declared.fault.Error.TheVariants.{OutOfMemory};
ghost use Rattle.bi_legacy.specs.Meaning.{with_new_time};
ghost use Rattle.bi_legacy.specs.Reading.{IsReadLegacy};
ghost use Rattle.bi_legacy.specs.Text.{legacy_text};

use bi_base::{Error, Limits, Sink};
use bi_legacy::{Legacy, emit_updated_image};
use std::alloc::{AllocError, Global};

/// Appends the normal text of a legacy image that was read under the limits, with another time of
/// creation: `time`, in seconds since 1970.
///
/// Errors: OutOfMemory, and the sink is then unchanged; those of the sink, and the sink is then as
/// a failed `put` of the text leaves it. All allocations, except those of the sink, are made before
/// the first byte is appended.
pub fn append_legacy<S: Sink>(
    alloc: Global,
    image: &Legacy<'_>,
    time: u32,
    limits: Limits,
    sink: &mut S,
) -> Result<(), Error>
    ensures appended { (file : List ℕ) → IsReadLegacy limits file image.now →
        let text = legacy_text (with_new_time time image.now.image) in
        OnOk result (S.appends sink.old text sink.new) }
    ensures failed { (file : List ℕ) → IsReadLegacy limits file image.now →
        let text = legacy_text (with_new_time time image.now.image) in
        IfErr result (AppendFailed S.fails (λ appended. appended ≡ text)
        (λ error. error ≡ OutOfMemory) sink.old sink.new) }
{
    let parts = parts_of(alloc, image)?;
    emit_updated_image(image, time, &parts, limits, sink)
}

/// Returns the parts of a legacy image, in their order.
fn parts_of<'a>(alloc: Global, image: &Legacy<'a>) -> Result<Vec<&'a [u8]>, AllocError>
    ensures { IfOk result (λ parts. map (λ part. part.now) parts.items
        ≡ image.now.image.parts) }
{
    let mut parts = Vec::with_capacity(alloc, image.part_count())?;
    for part in image.parts() {
        parts.push(part.bytes)?;
    }
    Ok(parts)
}
