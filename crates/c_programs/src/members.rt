//! The members of one struct by name, while its braces are passed (C99 6.7.2.1).
#![tactic(auto)]

ghost use Rattle.std.specs.Prelude.{◌≡◌, IfOk, OnOk};
ghost use Rattle.c_programs.specs.Declarators as spec;
ghost use Rattle.c_types.specs.Scopes.{with_name};
ghost use Rattle.c_programs.specs.Members.{shown_members};

use c_names::Members;
use c_types::ObjectType;
use std::alloc::AllocError;

/// Whether a member has the name.
fn has_member(members: &Members, name: &[u8]) -> bool
    ensures { result ≡ spec.has_member (shown_members members.now.entries) name.now }
{
    members.contains_key(name)
}

/// Adds a member after the others, or says that one of its name is there, which stays.
pub fn add_member<'a>(
    members: &mut Members<'a>,
    name: &'a [u8],
    of: Option<ObjectType>,
) -> Result<bool, AllocError>
    ensures members { OnOk result (shown_members members.new.entries ≡ with_name (shown_members members.old.entries) name.now of) }
    ensures is_there { IfOk result (λ is_there. is_there ≡ spec.has_member (shown_members members.old.entries) name.now) }
{
    if has_member(members, name) {
        return Ok(true);
    }
    members.insert(name, of)?;
    Ok(false)
}
