// Columns by their mention.
ghost use Rattle.std.specs.Prelude.{◌≡◌, ◌<◌, length, OnOk};
ghost use Rattle.model_text.specs.Profile.{IsWithinInstance};
ghost use Rattle.model_text.specs.Follows.{Follows};
ghost use Rattle.cplex_lp_draft.specs.Declaration.{mentioned, column_place};
ghost use Rattle.cplex_lp_reader.specs.Bounds.{with_mentioned};

use crate::faults::fault_at;
use cplex_lp_draft::{ColumnChange, Draft, Expecting};
use cplex_lp_tokens::Token;
use model_text::{FaultKind, FileFault, Profile, ReadError};

// A column is there, since its name is mentioned.
pub(crate) fn mention<'a>(
    profile: &Profile,
    draft: &mut Draft<'a>,
    token: &Token<'a>,
) -> Result<(), ReadError<FileFault>>
    requires { IsWithinInstance profile.now }
    ensures follows { Follows result draft.new (mentioned profile.now token.now draft.old) }
    ensures there { OnOk result (column_place token.now.text draft.old.columns < length draft.new.columns) }
{
    if (draft.column_place(token.text()) as usize) < draft.column_count() {
        return Ok(());
    }
    if draft.column_count() >= profile.columns {
        return Err(fault_at(token.line(), FaultKind::TooMany));
    }
    draft.push_column(token.text())?;
    Ok(())
}

// The column of a name is there and changed, and another token comes.
pub(crate) fn mention_changed<'a>(
    profile: &Profile,
    draft: &mut Draft<'a>,
    token: &Token<'a>,
    next: Expecting,
    change: ColumnChange,
) -> Result<(), ReadError<FileFault>>
    requires { IsWithinInstance profile.now }
    ensures { Follows result draft.new (with_mentioned profile.now draft.old token.now next change) }
{
    let column = draft.column_place(token.text());
    mention(profile, draft, token)?;
    draft.change_column(column, change);
    draft.set_expecting(next);
    Ok(())
}
