//! Building a legacy image.

ghost use Rattle.std.specs.Prelude.{IfOk, IfErr};
ghost use Rattle.bi_legacy.specs.Emitting.{image_of_parts};
ghost use Rattle.bi_norm.specs.LegacyBuilding.{IsBuiltLegacy, IsBuildLegacyError};

use bi_base::{Error, Limits, VecSink, are_bytes};
use bi_legacy::{Fields, emit};
use std::alloc::Global;

/// Returns the normal text of a legacy image with these fields and parts: `bi_legacy::emit` into
/// memory.
///
/// Fails with the first of these errors that applies:
///
/// - BadField at 32, if the name is longer than 32 bytes or has a zero byte;
/// - BadField at 30, if the image is neither a multi-file image nor a script and does not have
///   exactly one part;
/// - TooLarge at the limit, if the text is longer than that;
/// - EmptyPart at `64 + 4 * index`, for the first empty part of a multi-file image or script;
/// - OutOfMemory, which occurs only for an image without any of these faults.
///
/// # Example
///
/// ```
/// use bi_base::Limits;
/// use bi_legacy::{Fields, Legacy};
/// use bi_norm::build_legacy;
///
/// let limits = Limits::new(0x7fff_ffff, 64).unwrap();
/// let fields = Fields { name: b"copy", ..Legacy::read(kernel, limits)?.fields() };
/// let text = build_legacy(rt.alloc(), fields, &[b"123456789"], limits)?;
/// assert_eq!(rt; text.len(), 73);
/// ```
pub fn build_legacy(
    alloc: Global,
    fields: Fields<'_>,
    parts: &[&[u8]],
    limits: Limits,
) -> Result<Vec<u8>, Error>
    ensures built { let image = image_of_parts fields.entry parts.now in
        IfOk result (λ text. IsBuiltLegacy limits image text.items) }
    ensures failed { let image = image_of_parts fields.entry parts.now in
        IfErr result (IsBuildLegacyError limits image) }
{
    let mut sink = VecSink::new(alloc);
    emit(fields, parts, limits, &mut sink)?;
    let text = sink.into_vec();
    are_bytes(&text);
    Ok(text)
}
