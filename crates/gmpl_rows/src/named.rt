// The names of columns and rows.
ghost use Rattle.std.specs.Prelude.{◌≡◌, IfOk, OnOk};
ghost use Rattle.gmpl_member_names.specs.Names.{member_name};
ghost use Rattle.gmpl_member_names.specs.Narrow.{AreNarrow};
ghost use Rattle.gmpl_rows.specs.Problem.{name_of};

use crate::declared::Declared;
use crate::draft::RowHead;
use gmpl_member_names::member_name;
use gmpl_text::Text;
use gmpl_value::Tuple;
use instance::Name;
use std::alloc::{AllocError, Global};

// The name of a member, as an instance has it.
pub(crate) fn instance_name(
    alloc: Global,
    object: &Text,
    subscripts: &Tuple,
) -> Result<Name, AllocError>
    ensures name { IfOk result (λ name. name ≡ member_name object.now subscripts.now) }
    ensures narrow { OnOk result (AreNarrow subscripts.now) }
{
    let name = member_name(alloc, object.as_str(), subscripts)?;
    Name::new(alloc, &name)
}

// The name of a row.
pub(crate) fn row_name(
    alloc: Global,
    declared: &[Declared],
    head: &RowHead,
) -> Result<Name, AllocError>
    ensures name { IfOk result (λ name. name ≡ member_name (name_of declared.now head.now.statement) head.now.subscripts) }
    ensures narrow { OnOk result (AreNarrow head.now.subscripts) }
{
    match declared.get(head.statement) {
        Some(object) => instance_name(alloc, &object.name, &head.subscripts),
        None => instance_name(alloc, &Text::new(alloc, "")?, &head.subscripts),
    }
}
