ghost use Rattle.std.specs.Prelude.{◌≡◌, map, is_some, option_map, option_and_then};
ghost use Rattle.serde_json.specs.Find.{as_str};
ghost use Rattle.serde_json.specs.View.{view};
ghost use Rattle.zb_reader.specs.Rows.{row_of, shape_in};
ghost use Rattle.zb_reader.specs.Shapes as spec;

use crate::table::{Choice, Content, Leaf, Part, Row, Shape};
use serde_json::Value as Json;

// An id or a name has at most so many bytes, and another text.
const LONGEST_ID: usize = 255;

const LONGEST_OTHER: usize = 32_768;

const ID: Content = Content::Leaf(Leaf::Text(LONGEST_ID));

const OTHER: Content = Content::Leaf(Leaf::Text(LONGEST_OTHER));

const FLAG: Content = Content::Leaf(Leaf::Flag);

const SOURCE: Content = Content::Leaf(Leaf::Source(LONGEST_OTHER));

const RETRIES: Content = Content::Leaf(Leaf::Number(1, 1_000_000));

// The fields that have an event's definition, and the one that has an activity's runs.
pub const TIMER: &str = "timerEventDefinition";

pub const MESSAGE: &str = "messageEventDefinition";

pub const ERROR: &str = "errorEventDefinition";

pub const COMPENSATE: &str = "compensateEventDefinition";

pub const TERMINATE: &str = "terminateEventDefinition";

pub const MULTI_INSTANCE: &str = "multiInstanceLoopCharacteristics";

// What each node has.
const NODE_ID: Row = Row::Must("id", ID);

const NODE_KIND: Row = Row::Must("kind", Content::Leaf(Leaf::Element));

const PARENT: Row = Row::May("parent", ID);

// What each activity has.
const INPUTS: Row = Row::May("inputs", Content::Items(Part::Mapping));

const OUTPUTS: Row = Row::May("outputs", Content::Items(Part::Mapping));

const RUNS: Row = Row::May(MULTI_INSTANCE, Content::Object(Part::Multi));

const NODE: [Row; 3] = [NODE_ID, NODE_KIND, PARENT];

const START_EVENT: [Row; 4] = [
    NODE_ID,
    NODE_KIND,
    PARENT,
    Row::May(MESSAGE, Content::Object(Part::NamedMessage)),
];

const END_EVENT: [Row; 5] = [
    NODE_ID,
    NODE_KIND,
    PARENT,
    Row::OneOf(TERMINATE, Content::Object(Part::Nothing)),
    Row::OneOf(COMPENSATE, Content::Object(Part::Nothing)),
];

const SERVICE_TASK: [Row; 9] = [
    NODE_ID,
    NODE_KIND,
    PARENT,
    Row::Must("type", ID),
    Row::May("retries", RETRIES),
    Row::May("isForCompensation", FLAG),
    INPUTS,
    OUTPUTS,
    RUNS,
];

const RECEIVE_TASK: [Row; 7] = [
    NODE_ID,
    NODE_KIND,
    PARENT,
    Row::Must(MESSAGE, Content::Object(Part::KeyedMessage)),
    INPUTS,
    OUTPUTS,
    RUNS,
];

const SUB_PROCESS: [Row; 6] = [NODE_ID, NODE_KIND, PARENT, INPUTS, OUTPUTS, RUNS];

const EXCLUSIVE_GATEWAY: [Row; 4] = [NODE_ID, NODE_KIND, PARENT, Row::May("default", ID)];

const CATCH_EVENT: [Row; 5] = [
    NODE_ID,
    NODE_KIND,
    PARENT,
    Row::OneOf(TIMER, Content::Object(Part::Timer)),
    Row::OneOf(MESSAGE, Content::Object(Part::KeyedMessage)),
];

const THROW_EVENT: [Row; 4] = [
    NODE_ID,
    NODE_KIND,
    PARENT,
    Row::May(COMPENSATE, Content::Object(Part::Nothing)),
];

const BOUNDARY_EVENT: [Row; 9] = [
    NODE_ID,
    NODE_KIND,
    PARENT,
    Row::Must("attachedToRef", ID),
    Row::May("cancelActivity", FLAG),
    Row::OneOf(TIMER, Content::Object(Part::Timer)),
    Row::OneOf(MESSAGE, Content::Object(Part::KeyedMessage)),
    Row::OneOf(ERROR, Content::Object(Part::Error)),
    Row::OneOf(COMPENSATE, Content::Object(Part::Handler)),
];

const MODEL: [Row; 4] = [
    Row::Must("process", ID),
    Row::May("versionTag", OTHER),
    Row::Must("nodes", Content::Items(Part::Node)),
    Row::Must("flows", Content::Items(Part::Flow)),
];

const FLOW: [Row; 4] = [
    Row::Must("id", ID),
    Row::Must("sourceRef", ID),
    Row::Must("targetRef", ID),
    Row::May("conditionExpression", SOURCE),
];

const MAPPING: [Row; 2] = [Row::Must("source", SOURCE), Row::Must("target", ID)];

const MULTI: [Row; 3] = [
    Row::May("isSequential", FLAG),
    Row::Must("inputCollection", SOURCE),
    Row::Must("inputElement", ID),
];

const NAMED_MESSAGE: [Row; 1] = [Row::Must("name", ID)];

const KEYED_MESSAGE: [Row; 2] = [
    Row::Must("name", ID),
    Row::Must("correlationKey", Content::Leaf(Leaf::Source(LONGEST_ID))),
];

const TIMER_ROWS: [Row; 2] = [
    Row::OneOf("timeDate", SOURCE),
    Row::OneOf("timeDuration", SOURCE),
];

const ERROR_ROWS: [Row; 1] = [Row::May("errorCode", ID)];

const HANDLER: [Row; 1] = [Row::Must("handler", ID)];

const NOTHING: [Row; 0] = [];

/// The fields of a part that this value is to be.
pub fn shape_of(part: Part, value: &Json) -> Shape
    ensures { shape_in result ≡ spec.shape_of part (view value.now) }
{
    match part {
        Part::Model => shape(&MODEL, Choice::Free),
        Part::Node => node_shape(value),
        Part::Flow => shape(&FLOW, Choice::Free),
        Part::Mapping => shape(&MAPPING, Choice::Free),
        Part::Multi => shape(&MULTI, Choice::Free),
        Part::NamedMessage => shape(&NAMED_MESSAGE, Choice::Free),
        Part::KeyedMessage => shape(&KEYED_MESSAGE, Choice::Free),
        Part::Timer => shape(&TIMER_ROWS, Choice::One),
        Part::Error => shape(&ERROR_ROWS, Choice::Free),
        Part::Handler => shape(&HANDLER, Choice::Free),
        Part::Nothing => shape(&NOTHING, Choice::Free),
    }
}

// The fields of a node, by the element that it names.
fn node_shape(value: &Json) -> Shape
    ensures { shape_in result ≡ spec.node_shape (spec.shape_at_kind (view value.now)) }
{
    match value.get("kind") {
        Some(kind) => element_shape(kind).unwrap_or(shape(&NODE, Choice::Free)),
        None => shape(&NODE, Choice::Free),
    }
}

// The fields of a node that is the element of this name, if the value is one.
fn element_shape(name: &Json) -> Option<Shape>
    ensures { option_map shape_in result
        ≡ option_and_then spec.shape_named (as_str (view name.now)) }
{
    shape_named(name.as_str()?)
}

/// Whether a value is the name of an element.
pub fn is_element(value: &Json) -> bool
    ensures { result ≡ is_some (option_and_then spec.shape_named (as_str (view value.now))) }
{
    element_shape(value).is_some()
}

// The fields of a node that is the element of this name, where there is one.
#[tactic(auto, unfolding(crate::specs::Shapes::shape_named))]
fn shape_named(name: &str) -> Option<Shape>
    ensures { option_map shape_in result ≡ spec.shape_named name.now }
{
    match name {
        "startEvent" => Some(shape(&START_EVENT, Choice::Free)),
        "endEvent" => Some(shape(&END_EVENT, Choice::AtMostOne)),
        "serviceTask" => Some(shape(&SERVICE_TASK, Choice::Free)),
        "receiveTask" => Some(shape(&RECEIVE_TASK, Choice::Free)),
        "subProcess" => Some(shape(&SUB_PROCESS, Choice::Free)),
        "exclusiveGateway" => Some(shape(&EXCLUSIVE_GATEWAY, Choice::Free)),
        "parallelGateway" => Some(shape(&NODE, Choice::Free)),
        "eventBasedGateway" => Some(shape(&NODE, Choice::Free)),
        "intermediateCatchEvent" => Some(shape(&CATCH_EVENT, Choice::One)),
        "intermediateThrowEvent" => Some(shape(&THROW_EVENT, Choice::Free)),
        "boundaryEvent" => Some(shape(&BOUNDARY_EVENT, Choice::One)),
        _ => None,
    }
}

// These fields, with a choice among them.
fn shape(rows: &'static [Row], choice: Choice) -> Shape
    ensures { shape_in result ≡ record { rows = map row_of rows.now; choice = choice } }
{
    Shape { rows, choice }
}
