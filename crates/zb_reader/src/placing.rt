ghost use Rattle.std.specs.Prelude.{◌≡◌, IfOk, map};
ghost use Rattle.std.specs.List.{count_by};
ghost use Rattle.serde_json.specs.View.{view, members_view, items_view};
ghost use Rattle.zb_reader.specs.Rows as spec;
ghost use Rattle.zb_reader.specs.Place as places;
ghost use Rattle.zb_reader.specs.Shapes.{place_in_content, place_in_part};

use crate::leaves::is_leaf;
use crate::place::{behind, behind_item, here_unless};
use crate::shapes::shape_of;
use crate::table::{Choice, Content, Part, Row, Shape, has_row};
use serde_json::{Map, Value as Json};
use std::alloc::{AllocError, Global};
use zb_base::Text;

/// Where a value fails first to be a part that has so few parts within one another.
#[cycle(places)]
#[tactic(auto, unfolding(crate::specs::Shapes::place_in_part))]
pub fn place_in_part(
    alloc: Global,
    levels: u32,
    part: Part,
    value: &Json,
) -> Result<Option<Text>, AllocError>
    ensures { IfOk result (λ place. place ≡ place_in_part levels part (view value.now)) }
{
    if levels == 0 {
        return Ok(None);
    }
    place_in_object(alloc, levels - 1, shape_of(part, value), value)
}

// Where a value fails first to be an object with these fields.
#[cycle(places)]
fn place_in_object(
    alloc: Global,
    room: u32,
    shape: Shape,
    value: &Json,
) -> Result<Option<Text>, AllocError>
    ensures { IfOk result (λ place. place ≡ spec.place_in_object
        (place_in_content (place_in_part room)) (spec.shape_in shape) (view value.now)) }
{
    let Some(members) = value.as_object() else {
        return Ok(Some(Text::empty(alloc)));
    };
    if !is_met(shape.choice, chosen(shape.rows, value)) {
        return Ok(Some(Text::empty(alloc)));
    }
    match first_place(alloc, room, shape.rows, value)? {
        Some(place) => Ok(Some(place)),
        None => unknown_place(alloc, shape.rows, members),
    }
}

// Where an object fails at the first of these fields.
#[cycle(places)]
fn first_place(
    alloc: Global,
    room: u32,
    rows: &[Row],
    value: &Json,
) -> Result<Option<Text>, AllocError>
    ensures { IfOk result (λ place. place ≡ spec.first_place
        (place_in_content (place_in_part room)) (view value.now) (map spec.row_of rows.now)) }
{
    for row in rows {
        if let Some(place) = place_at(alloc, room, *row, value)? {
            return Ok(Some(place));
        }
    }
    Ok(None)
}

// Where an object fails at a field.
#[cycle(places)]
fn place_at(alloc: Global, room: u32, row: Row, value: &Json) -> Result<Option<Text>, AllocError>
    ensures { IfOk result (λ place. place ≡ spec.place_at
        (place_in_content (place_in_part room)) (view value.now) (spec.row_of row)) }
{
    match value.get(row.name()) {
        Some(found) => {
            let inner = place_in_content(alloc, room, row.content(), found)?;
            behind(alloc, row.name(), inner)
        }
        None => behind(alloc, row.name(), here_unless(alloc, !row.is_needed())),
    }
}

// Where a value fails first to be such a content.
#[cycle(places)]
fn place_in_content(
    alloc: Global,
    room: u32,
    content: Content,
    value: &Json,
) -> Result<Option<Text>, AllocError>
    ensures { IfOk result (λ place. place
        ≡ place_in_content (place_in_part room) content (view value.now)) }
{
    match content {
        Content::Leaf(leaf) => Ok(here_unless(alloc, is_leaf(alloc, leaf, value)?)),
        Content::Object(part) => place_in_part(alloc, room, part, value),
        Content::Items(part) => match value.as_array() {
            Some(items) => place_in_items(alloc, room, part, items.as_slice()),
            None => Ok(Some(Text::empty(alloc))),
        },
    }
}

// Where the items fail first.
#[cycle(places)]
fn place_in_items(
    alloc: Global,
    room: u32,
    part: Part,
    items: &[Json],
) -> Result<Option<Text>, AllocError>
    ensures { IfOk result
        (λ place. place ≡ places.place_from (place_in_part room part) 0 (items_view items.now)) }
{
    for (index, item) in items.iter().enumerate() {
        if let Some(place) = place_in_part(alloc, room, part, item)? {
            return behind_item(alloc, index, place);
        }
    }
    Ok(None)
}

// How many there are of the fields among which the choice is.
fn chosen(rows: &[Row], value: &Json) -> usize
    ensures { result ≡ count_by (spec.is_chosen (view value.now)) (map spec.row_of rows.now) }
{
    rows.iter().filter(|row| row.is_chosen(value)).count()
}

// Whether a choice is met by so many.
fn is_met(choice: Choice, count: usize) -> bool
    ensures { result ≡ spec.is_met choice count }
{
    match choice {
        Choice::Free => true,
        Choice::AtMostOne => count <= 1,
        Choice::One => count == 1,
    }
}

// The first member, in byte order, that is none of the fields.
fn unknown_place(
    alloc: Global,
    rows: &[Row],
    members: &Map<String, Json>,
) -> Result<Option<Text>, AllocError>
    ensures { IfOk result (λ place. place
        ≡ spec.unknown_place (map spec.row_of rows.now) (members_view members.now.entries)) }
{
    for (name, _) in members.iter() {
        if !has_row(rows, name.as_str()) {
            return behind(alloc, name.as_str(), Some(Text::empty(alloc)));
        }
    }
    Ok(None)
}
