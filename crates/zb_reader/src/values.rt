ghost use Rattle.std.specs.Prelude.{◌≡◌, option_map, map};
ghost use Rattle.serde_json.specs.View.{view};
ghost use Rattle.zb_reader.specs.Kinds as spec;
ghost use Rattle.zb_reader.specs.Layout.{flag_in};

use serde_json::Value as Json;

/// The text of a field, and the empty one where it isn't there.
pub fn text_in<'v>(value: &'v Json, field: &str) -> &'v str
    ensures { result.now ≡ spec.text_in field.now (view value.now) }
{
    value.get(field).and_then(Json::as_str).unwrap_or("")
}

/// The truth value of a field, and this one where it isn't there.
pub fn flag_in(value: &Json, field: &str, otherwise: bool) -> bool
    ensures { result ≡ flag_in field.now otherwise (view value.now) }
{
    value
        .get(field)
        .and_then(Json::as_bool)
        .unwrap_or(otherwise)
}

/// The value that fields lead to, one within the other.
pub fn value_within<'v>(value: &'v Json, path: &[&str]) -> Option<&'v Json>
    ensures { option_map (λ found. view found.now) result
        ≡ spec.value_within (map (λ name. name.now) path.now) (view value.now) }
{
    let mut found = value;
    for name in path {
        match found.get(*name) {
            Some(inner) => found = inner,
            None => return None,
        }
    }
    Some(found)
}

/// The text that fields lead to.
pub fn text_within<'v>(value: &'v Json, path: &[&str]) -> Option<&'v str>
    ensures { option_map (λ text. text.now) result
        ≡ spec.text_within (map (λ name. name.now) path.now) (view value.now) }
{
    value_within(value, path).and_then(Json::as_str)
}
