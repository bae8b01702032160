ghost use Rattle.std.specs.Prelude.{◌≡◌, map};
ghost use Rattle.serde_json.specs.View.{view};
ghost use Rattle.zb_reader.specs.Rows as spec;

use serde_json::Value as Json;

/// What a field holds that is neither an object nor a list.
#[derive(Clone, Copy)]
pub enum Leaf {
    /// A text of at most so many bytes.
    Text(usize),
    /// A truth value.
    Flag,
    /// A whole number from the first of these to the second.
    Number(u64, u64),
    /// An expression behind the sign `=`, or a text of at most so many bytes.
    Source(usize),
    /// The name of an element.
    Element,
}

/// An object that a model has within.
#[derive(Clone, Copy)]
pub enum Part {
    Model,
    Node,
    Flow,
    Mapping,
    Multi,
    /// A message with its name.
    NamedMessage,
    /// A message with its name and a correlation key.
    KeyedMessage,
    Timer,
    Error,
    /// A compensation with its handler.
    Handler,
    /// An object without fields.
    Nothing,
}

/// What a field holds.
#[derive(Clone, Copy)]
pub enum Content {
    Leaf(Leaf),
    Object(Part),
    Items(Part),
}

/// A field of an object: its name, and what it holds.
#[derive(Clone, Copy)]
pub enum Row {
    /// The object must have it.
    Must(&'static str, Content),
    /// The object may have it.
    May(&'static str, Content),
    /// It is one of those among which the object's choice is.
    OneOf(&'static str, Content),
}

/// How many an object has of the fields among which its choice is.
#[derive(Clone, Copy)]
pub enum Choice {
    Free,
    AtMostOne,
    One,
}

/// The fields of an object, in order, and its choice.
#[derive(Clone, Copy)]
pub struct Shape {
    pub rows: &'static [Row],
    pub choice: Choice,
}

impl Row {
    /// Its name.
    pub fn name(self) -> &'static str
        ensures { result.now ≡ (spec.row_of self).name }
    {
        match self {
            Row::Must(name, _) | Row::May(name, _) | Row::OneOf(name, _) => name,
        }
    }

    /// What it holds.
    pub fn content(self) -> Content
        ensures { result ≡ (spec.row_of self).content }
    {
        match self {
            Row::Must(_, content) | Row::May(_, content) | Row::OneOf(_, content) => content,
        }
    }

    /// Whether an object fails that hasn't the field.
    pub fn is_needed(self) -> bool
        ensures { result ≡ (spec.row_of self).needed }
    {
        matches!(self, Row::Must(_, _))
    }

    /// Whether it is one of those of the choice, and there.
    pub fn is_chosen(self, value: &Json) -> bool
        ensures { result ≡ spec.is_chosen (view value.now) (spec.row_of self) }
    {
        match self {
            Row::OneOf(name, _) => value.get(name).is_some(),
            Row::Must(_, _) | Row::May(_, _) => false,
        }
    }
}

/// Whether one of the fields has this name.
pub fn has_row(rows: &[Row], name: &str) -> bool
    ensures { result ≡ spec.has_row (map spec.row_of rows.now) name.now }
{
    for row in rows {
        if name == row.name() {
            return true;
        }
    }
    false
}
