//! Converting a legacy image to a flattened image tree.

ghost use Rattle.std.specs.Prelude.{OnOk, IfOk, IfErr};
ghost use Rattle.bi_norm.specs.Converting.{IsConvertedFile, IsConvertError, CanBeConverted};
ghost use Rattle.bi_norm.specs.Converting.{IsConvertFault};
ghost use Rattle.bi_norm.specs.CodeNames.{AreCodeNames};
ghost use Rattle.bi_base.specs.Commands.{Appended, AppendFailed};

mod images;

use crate::keys::keys_of_type;
use bi_base::{Cause, Error, Fault, Limits, Sink, VecSink, refuse};
use bi_fit::{Form, Head, append_built_by_types};
use bi_hash::Algo;
use bi_legacy::codes::{arch_name, compression_name, os_name, type_name};
use bi_legacy::offsets::{IH_ARCH, IH_COMP, IH_OS, IH_TYPE};
use bi_legacy::{HEADER_SIZE, Legacy};
use images::{CodeNames, images_of};
use std::alloc::Global;

/// Returns the flattened image tree of a legacy image, with its payloads embedded.
///
/// Fails with the first of these errors that applies:
///
/// - those of `Legacy::read`;
/// - NoCodeName at 28, 29, 30 or 31, if the operating system, the architecture, the type or the
///   compression has no name;
/// - EmptyPart at 64, if there are no parts;
/// - TooManyParts at 64, if a multi-file image has more than three parts or a script more than one;
/// - TooLarge at the limit, if the flattened image tree is longer.
///
/// OutOfMemory occurs only for a legacy image that passes all checks but the last.
pub fn convert(alloc: Global, file: &[u8], limits: Limits) -> Result<Vec<u8>, Error>
    ensures converted { IfOk result (λ text. IsConvertedFile limits file.now text.items) }
    ensures failed { IfErr result (IsConvertError limits file.now) }
{
    let mut sink = VecSink::new(alloc);
    convert_into(alloc, file, limits, &mut sink)?;
    Ok(sink.into_vec())
}

/// Appends the flattened image tree of a legacy image, with its payloads embedded, to a sink.
///
/// The errors are those of `convert`, and those of the sink. After an error of the sink, the sink
/// is as a failed `put` of the text leaves it. After any other error, the sink is unchanged. All
/// allocations, except those of the sink, are made before the first byte is appended.
pub fn convert_into<S: Sink>(
    alloc: Global,
    file: &[u8],
    limits: Limits,
    sink: &mut S,
) -> Result<(), Error>
    ensures appended { OnOk result (Appended S.appends (IsConvertedFile limits file.now)
        sink.old sink.new) }
    ensures failed { IfErr result (AppendFailed S.fails (IsConvertedFile limits file.now)
        (IsConvertError limits file.now) sink.old sink.new) }
{
    let image = Legacy::read(file, limits)?;
    let names = check(&image)?;
    let images = images_of(alloc, &image, names)?;
    let fields = image.fields();
    let head = Head {
        description: fields.name,
        time: fields.time,
    };
    let algorithms = &[Algo::Sha256];
    append_built_by_types(
        alloc,
        head,
        &images,
        algorithms,
        Form::Embedded,
        limits,
        sink,
    )
}

/// Checks that a legacy image can be converted, and returns the names of its codes. Fails with
/// NoCodeName at the first code without a name, EmptyPart at 64 if there are no parts, or
/// TooManyParts at 64.
fn check(image: &Legacy<'_>) -> Result<CodeNames, Fault>
    ensures can { OnOk result (CanBeConverted image.now.image) }
    ensures names { IfOk result (AreCodeNames image.now.image) }
    ensures fault { IfErr result (IsConvertFault image.now.image) }
{
    let fields = image.fields();
    let Some(os) = os_name(fields.os) else {
        return refuse(Cause::NoCodeName, IH_OS as u32);
    };
    let Some(arch) = arch_name(fields.arch) else {
        return refuse(Cause::NoCodeName, IH_ARCH as u32);
    };
    if type_name(fields.image_type).is_none() {
        return refuse(Cause::NoCodeName, IH_TYPE as u32);
    }
    let Some(compression) = compression_name(fields.compression) else {
        return refuse(Cause::NoCodeName, IH_COMP as u32);
    };
    if image.part_count() == 0 {
        return refuse(Cause::EmptyPart, HEADER_SIZE as u32);
    }
    if image.part_count() > keys_of_type(fields.image_type).len() {
        return refuse(Cause::TooManyParts, HEADER_SIZE as u32);
    }
    Ok(CodeNames {
        os,
        arch,
        compression,
    })
}
