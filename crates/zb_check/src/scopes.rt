// Faults of scopes: each finds the id of its first offender.
ghost use Rattle.std.specs.Prelude.{◌≡◌, [], ◌||◌, not, is_some, option_map, IfOk};
ghost use Rattle.std.specs.Option.{option_copied};
ghost use Rattle.std.specs.Str.{bytes_eq};
ghost use Rattle.zb_faults.specs.Faults.{find_behind, starts_badly, bad_start, lacks_parent, is_too_deep, too_large};
ghost use Rattle.zb_check.specs.Notes.{noted};

use crate::finding::{NodeTest, first_node};
use crate::naming::is_empty;
use crate::notes::{Notes, note_where};
use crate::parts::Parts;
use std::alloc::{AllocError, Global};
use zb_base::Text;
use zb_faults::is_subprocess;
use zb_process::Node;

// How many nodes a model may have.
const MOST_NODES: usize = 1000;

// How many flows a model may have.
const MOST_FLOWS: usize = 2000;

// How many subprocesses may stand one in the other.
const MOST_NESTED: usize = 16;

/// The first node whose parent is no subprocess in front of it.
pub fn bad_parent<'a>(alloc: Global, nodes: &'a [Node]) -> Result<Option<&'a Text>, AllocError>
    ensures { IfOk result (λ found. option_copied found
        ≡ option_map (λ n. n.id) (find_behind lacks_parent [] nodes.now)) }
{
    let mut subprocesses = Notes::empty(alloc);
    for node in nodes {
        if lacks_parent(&subprocesses, node) {
            return Ok(Some(&node.id));
        }
        note_where(&mut subprocesses, &node.id, is_subprocess(node.kind))?;
    }
    Ok(None)
}

// Whether a node neither stands at the top nor in one of these subprocesses.
fn lacks_parent(subprocesses: &Notes<'_, ()>, node: &Node) -> bool
    ensures { result ≡ not (bytes_eq node.now.parent [] || is_some (noted subprocesses.now node.now.parent)) }
{
    !(is_empty(&node.parent) || subprocesses.get(&node.parent).is_some())
}

/// The process, where it hasn't exactly one start event, or else the first subprocess that hasn't, or has one that
/// a message triggers.
pub fn bad_start<'a>(alloc: Global, parts: &Parts<'a>) -> Option<&'a Text>
    ensures { option_copied result ≡ bad_start parts.now }
{
    if parts.starts(&Text::empty(alloc)) != 1 {
        return Some(parts.process());
    }
    first_node(parts, NodeTest::StartsBadly)
}

/// Whether this is a subprocess without exactly one start event, or with one that a message triggers.
pub fn starts_badly(parts: &Parts<'_>, node: &Node) -> bool
    ensures { result ≡ starts_badly parts.now node.now }
{
    is_subprocess(node.kind) && (parts.starts(&node.id) != 1 || parts.message_starts(&node.id) > 0)
}

/// The process, where it has more than 1,000 nodes, 2,000 flows or 16 subprocesses one in the other.
pub fn too_large<'a>(alloc: Global, parts: &Parts<'a>) -> Result<Option<&'a Text>, AllocError>
    ensures { IfOk result (λ found. option_copied found ≡ too_large parts.now) }
{
    let nodes = parts.nodes();
    if nodes.len() > MOST_NODES || parts.flows().len() > MOST_FLOWS || is_deep(alloc, nodes)? {
        return Ok(Some(parts.process()));
    }
    Ok(None)
}

// Whether a subprocess stands in too many others.
fn is_deep(alloc: Global, nodes: &[Node]) -> Result<bool, AllocError>
    ensures { IfOk result (λ deep. deep ≡ is_some (find_behind is_too_deep [] nodes.now)) }
{
    let mut depths = Notes::empty(alloc);
    for node in nodes {
        let depth = depths.count(&node.parent) + 1;
        if is_subprocess(node.kind) && depth > MOST_NESTED {
            return Ok(true);
        }
        depths.put(&node.id, depth)?;
    }
    Ok(false)
}
