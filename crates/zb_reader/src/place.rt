ghost use Rattle.std.specs.Prelude.{◌≡◌, ◌++◌, Some, IfOk, OnOk, string_bytes, encode_utf8};
ghost use Rattle.std.specs.Fmt.{decimal};
ghost use Rattle.zb_reader.specs.Place as spec;

use std::alloc::{AllocError, Global};
use zb_base::Text;

/// No place where the value is good, and else its own.
pub fn here_unless(alloc: Global, good: bool) -> Option<Text>
    ensures { result ≡ spec.here_unless good }
{
    if good { None } else { Some(Text::empty(alloc)) }
}

/// The place that is reached by a name first.
pub fn behind(alloc: Global, name: &str, place: Option<Text>) -> Result<Option<Text>, AllocError>
    ensures { IfOk result (λ found. found ≡ spec.behind name.now place) }
{
    match place {
        Some(rest) => Ok(Some(joined(alloc, name, rest.as_str())?)),
        None => Ok(None),
    }
}

/// The place in a list that is reached by the item of this number first.
pub fn behind_item(alloc: Global, index: usize, place: Text) -> Result<Option<Text>, AllocError>
    ensures { IfOk result (λ found. found ≡ spec.behind (decimal index) (Some place)) }
{
    behind(alloc, index.to_string(alloc)?.as_str(), Some(place))
}

// The pointer that has this name first.
fn joined(alloc: Global, name: &str, rest: &str) -> Result<Text, AllocError>
    ensures { IfOk result (λ path. Some path ≡ spec.behind name.now (Some rest.now)) }
{
    let mut path = String::new(alloc);
    path.push_str("/")?;
    push_escaped(&mut path, name)?;
    path.push_str(rest)?;
    Text::of(alloc, path.as_str())
}

// Appends a name as it stands in a pointer.
fn push_escaped(path: &mut String, name: &str) -> Result<(), AllocError>
    ensures { OnOk result (string_bytes path.new ≡ string_bytes path.old ++ spec.escaped name.now) }
{
    for c in name.chars() {
        push_char(path, c)?;
    }
    Ok(())
}

// Appends a character as it stands in a pointer.
#[tactic(auto, using(crate::proofs::PointerLemmas::escaped_encode))]
fn push_char(path: &mut String, c: char) -> Result<(), AllocError>
    ensures { OnOk result
        (string_bytes path.new ≡ string_bytes path.old ++ spec.escaped (encode_utf8 c)) }
{
    match c {
        '~' => path.push_str("~0"),
        '/' => path.push_str("~1"),
        _ => path.push(c),
    }
}
