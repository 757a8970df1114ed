//! Reading a devicetree that is a payload.

ghost use Rattle.std.specs.Prelude.{◌≡◌, ◌+◌, ◌<◌, IfOk, IfErr, IfNone, IfSome, OnOk, None};
ghost use Rattle.std.specs.Prelude.{flat_map, length, map};
ghost use Rattle.bi_base.specs.Reading.{too_large};
ghost use Rattle.bi_base.specs.Slices.{bytes_of};
ghost use Rattle.bi_blob.specs.Blob.{IsBlob};
ghost use Rattle.bi_fdt.specs.Content.{root_of};
ghost use Rattle.bi_fit.specs.LongNames.{name_if_long};
ghost use Rattle.bi_describe.specs.Devicetrees.{HasInside};
ghost use Rattle.bi_describe.specs.InsideTrees.{IsBlobInside, devicetree_entries, devicetree_of};
ghost use Rattle.bi_describe.specs.PropertyOrders.{IsByName};
ghost use Rattle.bi_describe.specs.TreeEntries.{as_entry};

use super::super::entries::Entry;
use super::super::nodes::add_children;
use super::super::properties::add_properties;
use bi_base::{Cause, Error, Fault, Limits, refuse};
use bi_fdt::{Blob, PropertyOrder, keys_at, rank_names};
use std::alloc::{AllocError, Global};

/// The length from which on a name is long.
const LEAST_LENGTH: usize = 64;

/// Returns the devicetree inside a payload, if it is one within the limits. Fails if memory runs
/// out.
pub(crate) fn read_blob<'a>(
    alloc: Global,
    payload: &'a [u8],
    limits: Limits,
) -> Result<Option<Blob<'a>>, AllocError>
    ensures some { IfOk result (λ found.
        IfSome found (IsBlobInside limits payload.entry.now)) }
    ensures none { IfOk result (λ found.
        IfNone found (HasInside limits payload.entry.now None)) }
{
    let blob = match Blob::read(alloc, payload, limits) {
        Ok(blob) => blob,
        Err(Error::Refused(_)) => return Ok(None),
        Err(_) => return Err(AllocError),
    };
    if blob.root().child(b"images").is_some() {
        return Ok(None);
    }
    Ok(Some(blob))
}

/// Counts the bytes of the long names among these: there is as much less room for more of them.
/// Reads no byte of a name.
///
/// Error: TooLarge at the limit, if they are longer than the room.
pub(super) fn count_names(names: &[&[u8]], room: &mut usize, limit: u32) -> Result<(), Fault>
    ensures ok { let long = flat_map name_if_long (bytes_of names.now) in
        OnOk result (room.new + length long ≡ room.old) }
    ensures fault { let long = flat_map name_if_long (bytes_of names.now) in
        IfErr result (λ fault. (fault ≡ too_large limit) × (room.old < length long)) }
{
    for name in names {
        let length = long_name(name).len();
        if length > *room {
            return refuse(Cause::TooLarge, limit);
        }
        *room -= length;
    }
    Ok(())
}

/// Returns a name of 64 bytes or more, and no bytes for a shorter name. Names may share bytes, so
/// long names can have more bytes together than the payload, and comparing them can take long.
fn long_name(name: &[u8]) -> &[u8]
    ensures { result.now ≡ name_if_long name.entry.now }
{
    if name.len() < LEAST_LENGTH {
        return &[];
    }
    name
}

/// Returns the entries of the tree of a blob: those of the properties of the root, and those of all
/// nodes below it. Fails if memory runs out. Requires: the blob was read.
pub(super) fn entries_of_blob<'a>(
    alloc: Global,
    blob: &Blob<'a>,
) -> Result<Vec<Entry<'a>>, AllocError>
    requires { IsBlob blob.now.file blob.now.cpu blob.now.reservations (root_of blob.now) }
    ensures { IfOk result (λ entries. map as_entry entries.items
        ≡ devicetree_entries (devicetree_of blob.now)) }
{
    let order = order_by_name(alloc, blob)?;
    let mut entries = Vec::new(alloc);
    add_properties(&mut entries, blob.root(), &order)?;
    add_children(&mut entries, blob.root(), &order)?;
    Ok(entries)
}

/// Puts the properties of each node of a blob in byte order of their names. Makes n log n
/// comparisons of names, for n different names. Fails if memory runs out.
fn order_by_name(alloc: Global, blob: &Blob<'_>) -> Result<PropertyOrder, AllocError>
    ensures { IfOk result (IsByName blob.now.table) }
{
    let ranked = rank_names(alloc, blob.names())?;
    let keys = keys_at(alloc, &ranked.ranks, &blob.name_numbers(alloc)?)?;
    let order = PropertyOrder::new(alloc, blob, &keys)?;
    Ok(order)
}
