//! The long names of the properties of a file. A text has each of them in full.

ghost use Rattle.std.specs.Prelude.{◌≡◌, ◌<◌, ◌≤◌, length, flat_map, OnOk, IfErr};
ghost use Rattle.bi_base.specs.Reading.{too_large};
ghost use Rattle.bi_base.specs.Slices.{bytes_of};
ghost use Rattle.bi_fit.specs.LongNames.{name_if_long};

use bi_base::{Cause, Fault, refuse};

/// The length from which on a name is long.
const LEAST_LENGTH: usize = 64;

/// Checks that the long names among these are together no longer than a limit. Reads no byte of a
/// name, and takes time linear in the number of names.
///
/// Error: TooLarge at the limit, if they are longer.
pub(crate) fn check_long_names(names: &[&[u8]], limit: u32) -> Result<(), Fault>
    ensures ok { let long = flat_map name_if_long (bytes_of names.now) in
        OnOk result (length long ≤ limit) }
    ensures fault { let long = flat_map name_if_long (bytes_of names.now) in
        IfErr result (λ fault. (fault ≡ too_large limit) × (limit < length long)) }
{
    let mut room = limit as usize;
    for name in names {
        let length = long_name(name).len();
        if length > room {
            return refuse(Cause::TooLarge, limit);
        }
        room -= length;
    }
    Ok(())
}

/// Returns a name of 64 bytes or more, and no bytes for a shorter name. Names may share bytes, so
/// long names can have more bytes together than the file, and comparing them can take long.
fn long_name(name: &[u8]) -> &[u8]
    ensures { result.now ≡ name_if_long name.entry.now }
{
    if name.len() < LEAST_LENGTH {
        return &[];
    }
    name
}
