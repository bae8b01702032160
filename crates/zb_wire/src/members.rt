ghost use Rattle.std.specs.Prelude.{◌≡◌, IfOk};
ghost use Rattle.serde_json.specs.Find.{get};
ghost use Rattle.serde_json.specs.View.{members_view};
ghost use Rattle.zb_wire.specs.Listed.{members_listed, object_of};
ghost use Rattle.zb_wire.specs.Reading.{data_of};

use serde_json::{Map, Value as Json};
use std::alloc::{AllocError, Global};

/// A member of an object.
#[derive(Clone, Copy)]
pub struct Member<'m> {
    pub name: &'m str,
    pub value: &'m Json,
}

/// The members of an object, side by side: among a few of them a walk finds one sooner than the object does.
pub fn list_members<'m>(
    alloc: Global,
    members: &'m Map<String, Json>,
) -> Result<Vec<Member<'m>>, AllocError>
    ensures { IfOk result (λ listed. members_listed listed.items ≡ members_view members.now.entries) }
{
    let mut listed = Vec::with_capacity(alloc, members.len())?;
    for (name, value) in members.iter() {
        listed.push(Member {
            name: name.as_str(),
            value,
        })?;
    }
    Ok(listed)
}

/// The value of the member of this name. It takes a step for each member.
pub fn value_at<'m>(members: &[Member<'m>], name: &str) -> Option<&'m Json>
    ensures { data_of result ≡ get name.now (object_of members.now) }
{
    for member in members {
        if name == member.name {
            return Some(member.value);
        }
    }
    None
}
