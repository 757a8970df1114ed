//! The concerns about a boot image: a text with a line for each thing in it that is not protected.

ghost use Rattle.std.specs.Prelude.{◌≡◌, ⊤, IfOk, IfErr, string_bytes};
ghost use Rattle.bi_base.specs.Commands.{Appended, AppendFailed};
ghost use Rattle.bi_base.specs.Pipes.{IsPiped};
ghost use Rattle.bi_common.specs.declared.format.Format.TheVariants.{Lines, Json};
ghost use Rattle.bi_report.specs.CheckedFiles.{IsChecked, IsCheckError, IsCheckOutput};
ghost use Rattle.bi_report.specs.CheckedFiles.{check_promise, check_laws};
ghost use Rattle.bi_report.specs.Checking.{allowed_under, kind_word, allows as allows_kind};

mod addresses;
mod checked_image;
mod concern;
mod concerns;
mod configurations;
mod fit_coverage;
mod images;
mod signatures;
mod text;
mod trailing;

use bi_base::{Command, Error, Limits, Sink, VecSink, pipe_to};
use bi_common::format::Format;
pub use checked_image::CheckedImage;
pub use concern::Concern;
pub use concerns::{Concerns, KeptConcerns};
pub use fit_coverage::FitCoverage;
use std::alloc::Global;
use std::io::{Read, Write};
pub use text::{put_concerns, put_concerns_member};
pub use trailing::content_end;

/// The kind of a concern.
#[derive(Clone, Copy, Debug, PartialEq, Eq)]
pub enum ConcernKind {
    /// The verdict on a hash node is other than Good.
    BadHash,
    /// U-Boot skips a hash node: it has a property `uboot-ignore` of four bytes that are not all
    /// zero.
    SkippedHash,
    /// An image with a payload has no Good verdict, apart from hash nodes that U-Boot skips.
    Unhashed,
    /// An image with a payload has Good verdicts, and none of them is of SHA-256, SHA-384 or
    /// SHA-512, apart from hash nodes that U-Boot skips.
    WeakHash,
    /// The value of a key of a configuration is not a list of names.
    BadList,
    /// A configuration lists a name that no image has.
    Missing,
    /// A configuration has no signed node, or there is no configuration.
    Unsigned,
    /// A signed node of a configuration records no list of paths in `hashed-nodes`.
    NoNodes,
    /// The configuration of a signed node names no image.
    NoImages,
    /// A signed node does not record a path that it must cover.
    Uncovered,
    /// A signed node records a path that it does not have to cover.
    Foreign,
    /// The `hashed-strings` of a signed node do not reach the end of the names of the properties of
    /// the nodes that it records.
    Strings,
    /// A configuration has a signed node, and the name of a node has a unit address.
    UnitAddress,
    /// There are configurations, and the default names none of them.
    BadDefault,
    /// A byte after the image is not zero.
    Trailing,
}

impl ConcernKind {
    /// Returns the word for the kind: the first word of the line of a concern.
    pub fn word(self) -> &'static str
        ensures { result.now ≡ kind_word self }
    {
        match self {
            ConcernKind::BadHash => "bad-hash",
            ConcernKind::SkippedHash => "skipped-hash",
            ConcernKind::Unhashed => "unhashed",
            ConcernKind::WeakHash => "weak-hash",
            ConcernKind::BadList => "bad-list",
            ConcernKind::Missing => "missing",
            ConcernKind::Unsigned => "unsigned",
            ConcernKind::NoNodes => "no-nodes",
            ConcernKind::NoImages => "no-images",
            ConcernKind::Uncovered => "uncovered",
            ConcernKind::Foreign => "foreign",
            ConcernKind::Strings => "strings",
            ConcernKind::UnitAddress => "unit-address",
            ConcernKind::BadDefault => "bad-default",
            ConcernKind::Trailing => "trailing",
        }
    }
}

/// The kinds of concerns that are allowed: their lines are left out. No other line changes.
#[derive(Clone, Copy, Debug, Default, PartialEq, Eq)]
pub struct Allowed {
    /// Whether `ConcernKind::BadHash` is allowed.
    pub bad_hash: bool,
    /// Whether `ConcernKind::SkippedHash` is allowed.
    pub skipped_hash: bool,
    /// Whether `ConcernKind::Unhashed` is allowed.
    pub unhashed: bool,
    /// Whether `ConcernKind::WeakHash` is allowed.
    pub weak_hash: bool,
    /// Whether `ConcernKind::BadList` is allowed.
    pub bad_list: bool,
    /// Whether `ConcernKind::Missing` is allowed.
    pub missing: bool,
    /// Whether `ConcernKind::Unsigned` is allowed.
    pub unsigned: bool,
    /// Whether `ConcernKind::NoNodes` is allowed.
    pub no_nodes: bool,
    /// Whether `ConcernKind::NoImages` is allowed.
    pub no_images: bool,
    /// Whether `ConcernKind::Uncovered` is allowed.
    pub uncovered: bool,
    /// Whether `ConcernKind::Foreign` is allowed.
    pub foreign: bool,
    /// Whether `ConcernKind::Strings` is allowed.
    pub strings: bool,
    /// Whether `ConcernKind::UnitAddress` is allowed.
    pub unit_address: bool,
    /// Whether `ConcernKind::BadDefault` is allowed.
    pub bad_default: bool,
    /// Whether `ConcernKind::Trailing` is allowed.
    pub trailing: bool,
}

impl Allowed {
    /// Returns whether a kind is allowed.
    pub fn allows(self, kind: ConcernKind) -> bool
        ensures { result ≡ allows_kind self kind }
    {
        match kind {
            ConcernKind::BadHash => self.bad_hash,
            ConcernKind::SkippedHash => self.skipped_hash,
            ConcernKind::Unhashed => self.unhashed,
            ConcernKind::WeakHash => self.weak_hash,
            ConcernKind::BadList => self.bad_list,
            ConcernKind::Missing => self.missing,
            ConcernKind::Unsigned => self.unsigned,
            ConcernKind::NoNodes => self.no_nodes,
            ConcernKind::NoImages => self.no_images,
            ConcernKind::Uncovered => self.uncovered,
            ConcernKind::Foreign => self.foreign,
            ConcernKind::Strings => self.strings,
            ConcernKind::UnitAddress => self.unit_address,
            ConcernKind::BadDefault => self.bad_default,
            ConcernKind::Trailing => self.trailing,
        }
    }
}

/// What is asked of a boot image, and what is not.
#[derive(Clone, Copy, Debug, Default, PartialEq, Eq)]
pub struct Policy {
    /// The kinds of concerns that are allowed.
    pub allowed: Allowed,
    /// Whether there must be a configuration, and a signed node in each. If not, `unsigned` is
    /// allowed too.
    pub signed: bool,
}

impl Policy {
    /// Returns the kinds of concerns whose lines are left out.
    pub fn allowed_kinds(self) -> Allowed
        ensures { result ≡ allowed_under self }
    {
        Allowed {
            unsigned: self.allowed.unsigned || !self.signed,
            ..self.allowed
        }
    }
}

/// Returns a line for each concern about a boot image that the policy does not allow. The text is
/// empty if and only if the image is clean, except for what is allowed.
///
/// Of a flattened image tree, for each image: the hash nodes whose verdict is not Good, or that
/// U-Boot skips, and then, if the image has a payload, that no verdict is Good, or that no Good one
/// is of a strong algorithm, apart from hash nodes that U-Boot skips. For each configuration: the
/// keys that do not list images that are there. For each again: that it has no signed node, if the
/// policy asks for that, and what each of its signed nodes does not cover. No signature is
/// verified. Then the nodes whose names have unit addresses, if there is a signed node, and the
/// default, if there are configurations and it names none of them. If there is no configuration,
/// there is a line for that instead, if the policy asks for signatures, also for a legacy image. Of
/// any image, at the end: the number of the bytes of the file after it, if one of them is not zero.
///
/// Errors, the first that applies: those of `BootImage::read`; TooLarge at the limit, if the
/// payloads of a flattened image tree together are longer than that, each counted for each image
/// that has it; TooLarge at the limit, if the paths that the signed nodes must cover are longer
/// together than that, for each of them those of its configuration. OutOfMemory may come instead of
/// any of these, but only after the checks of a legacy image, or of the header and the memory
/// reservation block of a blob. No payload is hashed before the lengths of the payloads are
/// checked: this is tested, and in no clause.
pub fn check(alloc: Global, file: &[u8], policy: Policy, limits: Limits) -> Result<String, Error>
    ensures checked { IfOk result (λ text. IsChecked Lines (allowed_under policy) limits file.now
        (string_bytes text)) }
    ensures failed { IfErr result (IsCheckError limits file.now) }
{
    let checker = Checker {
        policy,
        format: Format::Lines,
    };
    check_as(alloc, file, checker, limits)
}

/// Returns the concerns about a boot image that the policy does not allow, as one text of JSON and
/// a newline. It says what the lines of `check` say, and the errors are those of `check`.
pub fn check_json(
    alloc: Global,
    file: &[u8],
    policy: Policy,
    limits: Limits,
) -> Result<String, Error>
    ensures checked { IfOk result (λ text. IsChecked Json (allowed_under policy) limits file.now
        (string_bytes text)) }
    ensures failed { IfErr result (IsCheckError limits file.now) }
{
    let checker = Checker {
        policy,
        format: Format::Json,
    };
    check_as(alloc, file, checker, limits)
}

/// Returns the text of the concerns about a boot image that are not allowed.
fn check_as(alloc: Global, file: &[u8], checker: Checker, limits: Limits) -> Result<String, Error>
    ensures checked { IfOk result (λ text. IsChecked checker.format (allowed_under checker.policy)
        limits file.now (string_bytes text)) }
    ensures failed { IfErr result (IsCheckError limits file.now) }
{
    let mut sink = VecSink::new(alloc);
    let _clean = check_into(alloc, file, checker, limits, &mut sink)?;
    match String::from_utf8(sink.into_vec()) {
        Ok(text) => Ok(text),
        Err(_) => unreachable!(),
    }
}

/// Appends the text of the concerns about a boot image that are not allowed, piece by piece, and
/// returns whether there are none. Each refusal and each allocation comes before the first byte,
/// and no memory is taken for the text.
///
/// The errors are those of `check`, and those of the sink.
pub fn check_into<S: Sink>(
    alloc: Global,
    file: &[u8],
    checker: Checker,
    limits: Limits,
    sink: &mut S,
) -> Result<bool, Error>
    ensures appended { IfOk result (λ clean. Appended S.appends
        (IsCheckOutput checker.format (allowed_under checker.policy) limits clean file.now)
        sink.old sink.new) }
    ensures failed { IfErr result (AppendFailed S.fails
        (IsChecked checker.format (allowed_under checker.policy) limits file.now)
        (IsCheckError limits file.now) sink.old sink.new) }
{
    let image = CheckedImage::read(alloc, file, limits)?;
    let clean = put_concerns(image.concerns(), checker, sink)?;
    Ok(clean)
}

/// Checking, as a command: `check`, or `check_json`. Its value is whether no concern is left after
/// those that are allowed.
#[derive(Clone, Copy, Debug, PartialEq, Eq)]
pub struct Checker {
    /// What is asked of the image.
    pub policy: Policy,
    /// The form of the text.
    pub format: Format,
}

impl Command for Checker {
    type Value = bool;

    type Failure = Error;

    ghost can_run = { λ _. ⊤ };

    ghost promise = { λ checker. check_promise checker.format (allowed_under checker.policy) };

    /// Appends the text piece by piece. Each refusal and each allocation comes before the first
    /// byte.
    fn run<S: Sink>(
        &self,
        alloc: Global,
        input: &[u8],
        limits: Limits,
        sink: &mut S,
    ) -> Result<bool, Error> {
        let clean = check_into(alloc, input, *self, limits, sink)?;
        Ok(clean)
    }

    ghost wraps_from = { λ _ _ _ _ same. same };

    ghost laws = { λ checker. check_laws checker.format (allowed_under checker.policy) };
}

/// Reads a boot image to its end, writes the lines of the concerns about it that the policy does
/// not allow, and flushes: `pipe_to` with a `Checker`. Returns whether there is no line.
///
/// The errors are those of `pipe_to`, and of the file those of `check`.
pub fn check_to<R: Read, W: Write>(
    alloc: Global,
    reader: &mut R,
    writer: &mut W,
    policy: Policy,
    limits: Limits,
) -> Result<bool, Error>
    ensures { IsPiped (check_promise Lines (allowed_under policy) limits) limits
        (R.remaining reader.old) (R.remaining reader.new)
        (W.contents writer.old) (W.contents writer.new) result }
{
    let checker = Checker {
        policy,
        format: Format::Lines,
    };
    pipe_to(alloc, &checker, reader, writer, limits)
}

/// Reads a boot image to its end, writes the concerns about it that the policy does not allow as
/// one text of JSON and a newline, and flushes. Its value and its errors are those of `check_to`.
pub fn check_json_to<R: Read, W: Write>(
    alloc: Global,
    reader: &mut R,
    writer: &mut W,
    policy: Policy,
    limits: Limits,
) -> Result<bool, Error>
    ensures { IsPiped (check_promise Json (allowed_under policy) limits) limits
        (R.remaining reader.old) (R.remaining reader.new)
        (W.contents writer.old) (W.contents writer.new) result }
{
    let checker = Checker {
        policy,
        format: Format::Json,
    };
    pipe_to(alloc, &checker, reader, writer, limits)
}
