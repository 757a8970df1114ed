//! Whether the innermost open node has a child with a given name.

ghost use Rattle.std.specs.Prelude.{◌≡◌, ◌≢◌, ◌+◌, ◌<◌, ◌^◌, ◌↔◌, length, IsTrue, true};
ghost use Rattle.bi_blob.specs.Tree.{IsNew};
ghost use Rattle.bi_blob.specs.Stages.{Stage, next_stage, open_nodes, child_names};
ghost use Rattle.bi_blob.specs.Following.{stage_of_events};
ghost use Rattle.bi_lay.specs.Items.{event_of, events_of_items};
ghost use Rattle.bi_lay.specs.Siblings.{IsScan};

use crate::items::Item;

/// The state of a search for a child.
#[derive(Clone, Copy)]
struct Scan {
    /// How many nodes are open.
    depth: usize,
    /// Whether the node in question, if it is open, has no child with the name so far.
    is_new: bool,
}

/// Returns whether no child of the innermost open node has the given name. Requires: after these
/// items, `depth` nodes are open, at least one.
pub(crate) fn is_new_child(items: &[Item<'_>], depth: usize, name: &[u8]) -> bool
    requires open { depth ≡ length (open_nodes (stage_of_events (events_of_items items.now))) }
    requires some { 0 < depth }
    ensures { let stage = stage_of_events (events_of_items items.now) in
        IsTrue result ↔ IsNew name.now (child_names stage) }
{
    let mut scan = Scan {
        depth: 0,
        is_new: true,
    };
    for item in items {
        scan = scan_after(scan, item, depth, name);
    }
    scan.is_new
}

/// Returns the scan after one more item, for the children of the innermost of `depth` open nodes.
/// Requires: the depth is less than the greatest `usize`.
fn scan_after(scan: Scan, item: &Item<'_>, depth: usize, name: &[u8]) -> Scan
    requires { scan.depth + 1 < 2 ^ 64 }
    ensures { (stage : Stage) → IsScan name.now depth scan stage →
        IsScan name.now depth result (next_stage stage (event_of item.now)) }
{
    match item {
        Item::Begin(child) => Scan {
            depth: scan.depth + 1,
            is_new: is_new_after(scan, child, depth, name),
        },
        Item::Property(_) => scan,
        Item::End => Scan {
            depth: scan.depth.saturating_sub(1),
            is_new: scan.is_new,
        },
    }
}

/// Returns whether the name is still new after a node with the name `child` begins. Requires: the
/// depth is less than the greatest `usize`.
fn is_new_after(scan: Scan, child: &[u8], depth: usize, name: &[u8]) -> bool
    requires { scan.depth + 1 < 2 ^ 64 }
    ensures child { scan.depth ≡ depth →
        IsTrue result ↔ ((scan.is_new ≡ true) × (child.now ≢ name.now)) }
    ensures node { scan.depth + 1 ≡ depth → IsTrue result }
    ensures other { scan.depth ≢ depth → scan.depth + 1 ≢ depth → result ≡ scan.is_new }
{
    if scan.depth == depth {
        scan.is_new && child != name
    } else {
        scan.is_new || scan.depth + 1 == depth
    }
}
