//! Names as they are printed.

ghost use Rattle.std.specs.Prelude.{◌≡◌, ℕ, List, IfOk, IfErr, IfSome, IfNone};
ghost use Rattle.bi_base.specs.declared.fault.Error.TheVariants.{OutOfMemory};
ghost use Rattle.bi_edit.specs.EditWords.{IsChildWord, IsPropertyWord};

use bi_base::{Error, are_bytes};
use bi_blob::{is_child_name, is_property_name};
use bi_common::unshown::name_shown_as;
use std::alloc::Global;

/// Returns the name of a child that is printed as this text. Returns None if there is none.
///
/// Fails only with OutOfMemory.
pub fn child_name(alloc: Global, text: &[u8]) -> Result<Option<Vec<u8>>, Error>
    ensures some { IfOk result (λ found. IfSome found (λ name. IsChildWord text.now name.items)) }
    ensures none { IfOk result (λ found. IfNone found
        ((name : List ℕ) → IsChildWord text.now name → ⊥)) }
    ensures failed { IfErr result (λ error. error ≡ OutOfMemory) }
{
    match name_shown_as(alloc, text)? {
        Some(name) if is_child_name(&name) => {
            are_bytes(&name);
            Ok(Some(name))
        }
        _ => Ok(None),
    }
}

/// Returns the name of a property that is printed as this text. Returns None if there is none.
///
/// Fails only with OutOfMemory.
pub fn property_name(alloc: Global, text: &[u8]) -> Result<Option<Vec<u8>>, Error>
    ensures some { IfOk result (λ found. IfSome found
        (λ name. IsPropertyWord text.now name.items)) }
    ensures none { IfOk result (λ found. IfNone found
        ((name : List ℕ) → IsPropertyWord text.now name → ⊥)) }
    ensures failed { IfErr result (λ error. error ≡ OutOfMemory) }
{
    match name_shown_as(alloc, text)? {
        Some(name) if is_property_name(&name) => {
            are_bytes(&name);
            Ok(Some(name))
        }
        _ => Ok(None),
    }
}
