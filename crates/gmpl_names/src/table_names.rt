// The names of tables: they are no names of objects, and have no place among them.
ghost use Rattle.gmpl_names.specs.Statements as spec;
ghost use Rattle.gmpl_names.specs.Statements.{Declares};

use crate::{Names, NamesError};
use gmpl_syntax::SyntaxFaultKind;
use gmpl_text::Text;
use std::alloc::Global;

/// One more name, which is new.
pub(crate) fn declare(alloc: Global, names: &mut Names, name: &Text) -> Result<(), NamesError>
    ensures { Declares (spec.declare name.now names.old) result names.new }
{
    if names.insert(name.as_str().to_string(alloc)?)? {
        Ok(())
    } else {
        Err(NamesError::Fault(SyntaxFaultKind::Declared))
    }
}

/// The name of a table, which is none of an object or of another table.
pub(crate) fn declare_table(
    alloc: Global,
    objects: &Names,
    tables: &mut Names,
    name: &Text,
) -> Result<(), NamesError>
    ensures { Declares (spec.declare_table objects.now name.now tables.old) result tables.new }
{
    if objects.has(name.as_str()) {
        Err(NamesError::Fault(SyntaxFaultKind::Declared))
    } else {
        declare(alloc, tables, name)
    }
}

/// The name of an object is none of a table.
pub(crate) fn apart(tables: &Names, name: &Text) -> Result<(), NamesError>
    ensures { Declares (spec.apart name.now tables.now) result tables.now }
{
    if tables.has(name.as_str()) {
        Err(NamesError::Fault(SyntaxFaultKind::Declared))
    } else {
        Ok(())
    }
}
