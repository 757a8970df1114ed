//! Paths and names of properties, read back from how they are printed.

ghost use Rattle.std.specs.Prelude.{◌≡◌, ◌==◌, ◌<◌, IfOk, IfErr, IfSome, IfNone, length};
ghost use Rattle.std.specs.List.{position};
ghost use Rattle.bi_base.specs.declared.fault.Error.TheVariants.{OutOfMemory};
ghost use Rattle.bi_values.specs.NameWords.{BeginsWithStep, HasNoStep, IsEmptyOrBeginsWithSlash};
ghost use Rattle.bi_values.specs.NameWords.{IsNoPath, AreStepsOf, IsShownChildName};
ghost use Rattle.bi_values.specs.NameWords.{IsShownPropertyName, IsPathWord};
ghost use Rattle.bi_values.specs.NameWords.{IsNoChildName, IsNoPropertyName, AreNoSteps};
ghost use Rattle.bi_values.specs.ValueNames.{names_of_path};

use bi_base::Error;
use bi_blob::{is_child_name, is_property_name};
use bi_common::unshown::name_shown_as;
use std::alloc::Global;

/// The greatest number of nodes on the way from the root to a node.
const MOST_STEPS: usize = 63;

/// Returns the names of the nodes on the way from the root to a node, by its path as it is printed.
/// Returns None if the text is not such a path: for example if a name is printed otherwise, or if
/// there are more than 63 names.
///
/// Fails only with OutOfMemory.
pub fn path_shown_as(alloc: Global, text: &[u8]) -> Result<Option<Vec<Vec<u8>>>, Error>
    ensures some { IfOk result (λ found. IfSome found (λ names.
        IsPathWord text.now (names_of_path names.items))) }
    ensures none { IfOk result (λ found. IfNone found (IsNoPath text.now)) }
    ensures failed { IfErr result (λ error. error ≡ OutOfMemory) }
{
    if text == b"/".as_slice() {
        return Ok(Some(Vec::new(alloc)));
    }
    if !text.starts_with(b"/") {
        return Ok(None);
    }
    let Some(names) = names_shown_as(alloc, text)? else {
        return Ok(None);
    };
    Ok(if names.len() > MOST_STEPS {
        None
    } else {
        Some(names)
    })
}

/// Returns the names that a text has, each as it is printed and after a slash. Returns None if the
/// text does not consist of such names. Fails if memory runs out. Requires: the text is empty or
/// begins with a slash.
fn names_shown_as(alloc: Global, text: &[u8]) -> Result<Option<Vec<Vec<u8>>>, Error>
    requires { IsEmptyOrBeginsWithSlash text.now }
    ensures some { IfOk result (λ found. IfSome found (λ names.
        AreStepsOf text.now (names_of_path names.items))) }
    ensures none { IfOk result (λ found. IfNone found (AreNoSteps text.now)) }
    ensures failed { IfErr result (λ error. error ≡ OutOfMemory) }
{
    let mut names = Vec::new(alloc);
    let mut rest = text;
    while let Some((step, later)) = split_step(rest) {
        let Some(name) = child_name_shown_as(alloc, step)? else {
            return Ok(None);
        };
        names.push(name)?;
        rest = later;
    }
    Ok(Some(names))
}

/// Returns the bytes between the slash that a text begins with and the next one, and the rest of
/// the text from that one on. Returns None if the text begins with no slash.
fn split_step(text: &[u8]) -> Option<(&[u8], &[u8])>
    ensures some { IfSome result (λ split. BeginsWithStep text.now split.0.now split.1.now) }
    ensures shorter { IfSome result (λ split. length split.1.now < length text.now) }
    ensures none { IfNone result (HasNoStep text.now) }
{
    let [first, rest @ ..] = text else {
        return None;
    };
    if *first != b'/' {
        return None;
    }
    match position_of_slash(rest) {
        Some(end) => Some((&rest[..end], &rest[end..])),
        None => Some((rest, &[])),
    }
}

/// Returns the index of the first slash, if there is one.
fn position_of_slash(text: &[u8]) -> Option<usize>
    ensures { result ≡ position (λ byte. byte == 47) text.now }
{
    text.iter().position(|&byte| byte == b'/')
}

/// Returns the name of a child that is printed as this text. Returns None if no such name is
/// printed so.
///
/// Fails only with OutOfMemory.
pub fn child_name_shown_as(alloc: Global, text: &[u8]) -> Result<Option<Vec<u8>>, Error>
    ensures some { IfOk result (λ found. IfSome found (λ name.
        IsShownChildName text.now name.items)) }
    ensures none { IfOk result (λ found. IfNone found (IsNoChildName text.now)) }
    ensures failed { IfErr result (λ error. error ≡ OutOfMemory) }
{
    let Some(name) = name_shown_as(alloc, text)? else {
        return Ok(None);
    };
    Ok(if is_child_name(&name) {
        Some(name)
    } else {
        None
    })
}

/// Returns the name of a property that is printed as this text. Returns None if no such name is
/// printed so.
///
/// Fails only with OutOfMemory.
pub fn property_name_shown_as(alloc: Global, text: &[u8]) -> Result<Option<Vec<u8>>, Error>
    ensures some { IfOk result (λ found. IfSome found (λ name.
        IsShownPropertyName text.now name.items)) }
    ensures none { IfOk result (λ found. IfNone found (IsNoPropertyName text.now)) }
    ensures failed { IfErr result (λ error. error ≡ OutOfMemory) }
{
    let Some(name) = name_shown_as(alloc, text)? else {
        return Ok(None);
    };
    Ok(if is_property_name(&name) {
        Some(name)
    } else {
        None
    })
}
