//! The names of the properties of a tree to be built.

ghost use Rattle.std.specs.Prelude.{◌≡◌, IsTrue, IfOk};
ghost use Rattle.bi_base.specs.Slices.{bytes_of};
ghost use Rattle.bi_blob.specs.Layout.{is_among};
ghost use Rattle.bi_fdt.specs.Numbers.{IsNumberOf};
ghost use Rattle.bi_fit.specs.BuiltNames.{built_names as built_names_of};

use crate::property_names::{ChangedNumbers, PropertyNames};
use std::alloc::{AllocError, Global};

/// Returns the names of the properties of a tree to be built. Fails if memory runs out.
pub(super) fn built_names<'a>(alloc: Global) -> Result<PropertyNames<'a>, AllocError>
    ensures { IfOk result (λ names. names ≡ built_names_of) }
{
    let names: [&'a [u8]; 23] = [
        b"#address-cells",
        b"algo",
        b"arch",
        b"compatible",
        b"compression",
        b"data",
        b"data-offset",
        b"data-position",
        b"data-size",
        b"default",
        b"description",
        b"entry",
        b"fdt",
        b"firmware",
        b"kernel",
        b"load",
        b"loadables",
        b"os",
        b"ramdisk",
        b"script",
        b"timestamp",
        b"type",
        b"value",
    ];
    let ranks = ChangedNumbers {
        payload: 5,
        offset: 6,
        position: 7,
        size: 8,
        time: 20,
        digest: 22,
    };
    Ok(PropertyNames::new(Vec::from_array(alloc, names)?, ranks))
}

/// Returns the index of a name among these names. Requires: it is one of them.
pub(super) fn index_of(names: &[&[u8]], name: &[u8]) -> usize
    requires { IsTrue (is_among name.now (bytes_of names.now)) }
    ensures { IsNumberOf (bytes_of names.now) name.now result }
{
    for (index, other) in names.iter().enumerate() {
        if *other == name {
            return index;
        }
    }
    unreachable!();
}
