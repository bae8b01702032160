ghost use Rattle.std.specs.Prelude.{◌≡◌, List, IfOk, OnOk, option_map, option_and_then};
ghost use Rattle.serde_json.specs.Data.{Data};
ghost use Rattle.serde_json.specs.View.{view, items_view};
ghost use Rattle.serde_json.specs.Find.{get};
ghost use Rattle.zb_reader.specs.Kinds.{text_in};
ghost use Rattle.zb_reader.specs.Leaves as sources;
ghost use Rattle.zb_reader.specs.Shapes.{multi_instance};
ghost use Rattle.zb_reader.specs.Layout as spec;

use crate::kinds::kind_in;
use crate::shapes::{COMPENSATE, ERROR, MESSAGE, MULTI_INSTANCE, TIMER, shape_of};
use crate::sources::source_of;
use crate::table::{Part, has_row};
use crate::values::{flag_in, text_in, text_within};
use serde_json::Value as Json;
use std::alloc::{AllocError, Global};
use zb_base::{List, Text};
use zb_process::{Expr, ExprNode, Flow, Mapping, Model, Multi, Node, NodeKind};

/// What an object is read as.
pub trait FromJson: Drop {
    /// What an object is that doesn't fail.
    ghost made: { Data → Self };

    /// What an object is, if it doesn't fail.
    fn make(alloc: Global, value: &Json) -> Result<Self, AllocError>
        ensures { IfOk result (λ item. item ≡ made (view value.now)) };
}

impl FromJson for Model {
    ghost made = { spec.model_in };

    fn make(alloc: Global, value: &Json) -> Result<Model, AllocError> {
        Ok(Model {
            process: text_at(alloc, value, "process")?,
            tag: text_at(alloc, value, "versionTag")?,
            nodes: list_at::<Node>(alloc, value, "nodes")?,
            flows: list_at::<Flow>(alloc, value, "flows")?,
        })
    }
}

impl FromJson for Node {
    ghost made = { spec.node_in };

    fn make(alloc: Global, value: &Json) -> Result<Node, AllocError> {
        let mut node = bare_node(alloc, value);
        match fill_node(alloc, value, &mut node) {
            Ok(()) => Ok(node),
            Err(AllocError) => {
                drop(node);
                Err(AllocError)
            }
        }
    }
}

// A node with what wants no memory, and with no text, expression or list.
fn bare_node(alloc: Global, value: &Json) -> Node
    ensures kind { result.kind ≡ (spec.node_in (view value.now)).kind }
    ensures cancel { result.cancel ≡ (spec.node_in (view value.now)).cancel }
    ensures retries { result.retries ≡ (spec.node_in (view value.now)).retries }
    ensures handler { result.handler ≡ (spec.node_in (view value.now)).handler }
{
    Node {
        id: Text::empty(alloc),
        kind: kind_in(value).unwrap_or(NodeKind::EndEvent),
        parent: Text::empty(alloc),
        attached: Text::empty(alloc),
        cancel: flag_in(value, "cancelActivity", may_hold(value, "cancelActivity")),
        otherwise: Text::empty(alloc),
        name: Text::empty(alloc),
        expr: None,
        retries: retries_in(value),
        handler: flag_in(value, "isForCompensation", false),
        multi: None,
        inputs: List::empty(alloc),
        outputs: List::empty(alloc),
    }
}

// Fills in its texts, its expression and its lists. After a refusal the node is only dropped.
fn fill_node(alloc: Global, value: &Json, node: &mut Node) -> Result<(), AllocError>
    ensures { OnOk result (node.new ≡ record (spec.node_in (view value.now)) {
      kind = node.old.kind;
      cancel = node.old.cancel;
      retries = node.old.retries;
      handler = node.old.handler;
    }) }
{
    node.id = text_at(alloc, value, "id")?;
    node.parent = text_at(alloc, value, "parent")?;
    node.attached = text_at(alloc, value, "attachedToRef")?;
    node.otherwise = text_at(alloc, value, "default")?;
    node.name = Text::of(alloc, name_in(value))?;
    node.expr = source_in(alloc, expr_text(value))?;
    node.multi = multi_at(alloc, value)?;
    node.inputs = list_at::<Mapping>(alloc, value, "inputs")?;
    node.outputs = list_at::<Mapping>(alloc, value, "outputs")?;
    Ok(())
}

impl FromJson for Flow {
    ghost made = { spec.flow_in };

    fn make(alloc: Global, value: &Json) -> Result<Flow, AllocError> {
        Ok(Flow {
            id: text_at(alloc, value, "id")?,
            from: text_at(alloc, value, "sourceRef")?,
            to: text_at(alloc, value, "targetRef")?,
            condition: source_in(alloc, text_within(value, &["conditionExpression"]))?,
        })
    }
}

impl FromJson for Mapping {
    ghost made = { spec.mapping_in };

    fn make(alloc: Global, value: &Json) -> Result<Mapping, AllocError> {
        Ok(Mapping {
            source: expr_at(alloc, value, "source")?,
            target: text_at(alloc, value, "target")?,
        })
    }
}

impl FromJson for Multi {
    ghost made = { spec.multi_in };

    fn make(alloc: Global, value: &Json) -> Result<Multi, AllocError> {
        Ok(Multi {
            sequential: flag_in(value, "isSequential", false),
            collection: expr_at(alloc, value, "inputCollection")?,
            element: text_at(alloc, value, "inputElement")?,
        })
    }
}

// The text of a field, and the empty one where it isn't there.
fn text_at(alloc: Global, value: &Json, field: &str) -> Result<Text, AllocError>
    ensures { IfOk result (λ text. text ≡ text_in field.now (view value.now)) }
{
    Text::of(alloc, text_in(value, field))
}

// The expression that the text of a field stands for, and that of the empty text where it stands for none.
fn expr_at(alloc: Global, value: &Json, field: &str) -> Result<Expr, AllocError>
    ensures { IfOk result (λ expr. expr ≡ spec.tree_in field.now (view value.now)) }
{
    let source = source_of(alloc, text_in(value, field))?;
    Ok(source.unwrap_or(Expr {
        node: ExprNode::Text(Text::empty(alloc)),
    }))
}

// The expression that a text stands for, if there is one.
fn source_in(alloc: Global, text: Option<&str>) -> Result<Option<Expr>, AllocError>
    ensures { IfOk result
        (λ expr. expr ≡ option_and_then sources.source_of (option_map (λ t. t.now) text.entry)) }
{
    match text {
        Some(found) => source_of(alloc, found),
        None => Ok(None),
    }
}

// The job type, the message name, the error code or the handler.
fn name_in(value: &Json) -> &str
    ensures { result.now ≡ spec.name_in (view value.now) }
{
    text_within(value, &["type"])
        .or(text_within(value, &[MESSAGE, "name"]))
        .or(text_within(value, &[ERROR, "errorCode"]))
        .or(text_within(value, &[COMPENSATE, "handler"]))
        .unwrap_or("")
}

// The text of the correlation key or the time.
fn expr_text(value: &Json) -> Option<&str>
    ensures { option_map (λ text. text.now) result ≡ spec.expr_text (view value.now) }
{
    text_within(value, &[MESSAGE, "correlationKey"])
        .or(text_within(value, &[TIMER, "timeDate"]))
        .or(text_within(value, &[TIMER, "timeDuration"]))
}

// How many retries a node's job has.
fn retries_in(value: &Json) -> u32
    ensures { result ≡ spec.retries_in (view value.now) }
{
    let otherwise = if may_hold(value, "retries") { 3 } else { 0 };
    let retries = value
        .get("retries")
        .and_then(Json::as_u64)
        .unwrap_or(otherwise);
    u32::try_from(retries).unwrap_or(u32::MAX)
}

// Whether a node's element has a field of this name.
fn may_hold(value: &Json, field: &str) -> bool
    ensures { result ≡ spec.may_hold field.now (view value.now) }
{
    has_row(shape_of(Part::Node, value).rows, field)
}

// The runs of an activity.
fn multi_at(alloc: Global, value: &Json) -> Result<Option<Multi>, AllocError>
    ensures { IfOk result
        (λ multi. multi ≡ option_map spec.multi_in (get multi_instance (view value.now))) }
{
    match value.get(MULTI_INSTANCE) {
        Some(found) => Ok(Some(Multi::make(alloc, found)?)),
        None => Ok(None),
    }
}

// The list of a field, and the empty one where it isn't there.
fn list_at<F: FromJson>(alloc: Global, value: &Json, field: &str) -> Result<List<F>, AllocError>
    ensures { IfOk result (λ list. list ≡ spec.list_at F.made field.now (view value.now)) }
{
    match value.get(field).and_then(Json::as_array) {
        Some(items) => made_of::<F>(alloc, items.as_slice()),
        None => Ok(List::empty(alloc)),
    }
}

// What the items are, in order.
fn made_of<F: FromJson>(alloc: Global, items: &[Json]) -> Result<List<F>, AllocError>
    ensures { IfOk result (λ list. list ≡ spec.made_of F.made (items_view items.now)) }
{
    let mut list = List::empty(alloc);
    for item in items {
        list.push(F::make(alloc, item)?)?;
    }
    Ok(list)
}
