// What a search leaves that came to a limit: what it has shown, in the file that the task names for a certificate.
ghost use Rattle.std.specs.Prelude.{◌≡◌, IfOk, Some};
ghost use Rattle.partial_certificate.specs.Text.{partial_text};
ghost use Rattle.glpsol_cli.specs.Asked.{certificate_file};
ghost use Rattle.glpsol_cli.specs.Pieces.{WrittenTo};
ghost use Rattle.glpsol_cli.specs.Meaning.{saved_in};
ghost use Rattle.glpsol_cli.specs.Cause.{reached_of, reached_left};
ghost use Rattle.glpsol_cli.specs.Written.{extent_of, extent_left};
ghost use Rattle.glpsol_cli.specs.Stages.{EndsWriting, IsLeaving, IsUnsolvedAnswer, left_pieces, pieces_of, saved_pieces_of};

use crate::publish::{Piece, PublishFault, add_file, write_pieces};
use crate::stop::no_memory;
use crate::{Answer, Leftover, Limit, OverflowSite, Reached};
use branch_search::VerdictFault;
use command_line::Task;
use instance::Name;
use outside::{Sink, Store};
use partial_certificate::{PartialCertificate, text};
use sqlite_items::Boxed;
use std::alloc::{AllocError, Global};
use stopped_search::Unsolved;

/// The answer of a search without a verdict. What one that came to a limit has shown goes to the file that the task names for a
/// certificate; where that fails the answer stays.
pub fn unsolved_answer<S: Store, O: Sink>(
    alloc: Global,
    task: &Task,
    unsolved: Unsolved,
    files: &mut S,
    out: &mut O,
) -> Answer
    ensures answer { IsUnsolvedAnswer (certificate_file task.now) unsolved.fault unsolved.shown result }
    ensures written { WrittenTo (extent_of result) (left_pieces task.now (reached_of result)) (record { taken = O.taken out.old; told = S.told files.old }) (record { taken = O.taken out.new; told = S.told files.new }) }
{
    let Unsolved { fault, shown } = unsolved;
    match fault {
        VerdictFault::NoFit(wanted, site) => Answer::Overflow {
            at: OverflowSite::AtNode {
                wanted,
                node: site.node,
            },
            fault: site.fault,
        },
        VerdictFault::PivotLimit(wanted, bases, board) => {
            let left = leave(alloc, task, shown, files, out);
            Answer::Undecided(Limit::Pivots(wanted, bases, board, left))
        }
        VerdictFault::SplitLimit(wanted, board) => {
            let left = leave(alloc, task, shown, files, out);
            Answer::Undecided(Limit::Splits(wanted, board, left))
        }
        VerdictFault::NoMemory => no_memory(Reached::Executed),
    }
}

// What is shown goes to the file that the task names for a certificate.
fn leave<S: Store, O: Sink>(
    alloc: Global,
    task: &Task,
    shown: Option<Boxed<PartialCertificate>>,
    files: &mut S,
    out: &mut O,
) -> Leftover
    ensures leaving { IsLeaving (certificate_file task.now) shown result }
    ensures written { WrittenTo (extent_left result) (left_pieces task.now (reached_left result)) (record { taken = O.taken out.old; told = S.told files.old }) (record { taken = O.taken out.new; told = S.told files.new }) }
{
    match task {
        Task::Solve(outputs) => leave_in(alloc, &outputs.certificate, shown, files, out),
        Task::Translate | Task::CheckCertificate { .. } => Leftover::Unasked,
    }
}

// The same, to this file.
fn leave_in<S: Store, O: Sink>(
    alloc: Global,
    file: &Option<Name>,
    shown: Option<Boxed<PartialCertificate>>,
    files: &mut S,
    out: &mut O,
) -> Leftover
    ensures leaving { IsLeaving file.now shown result }
    ensures written { WrittenTo (extent_left result) (saved_pieces_of file.now (reached_left result)) (record { taken = O.taken out.old; told = S.told files.old }) (record { taken = O.taken out.new; told = S.told files.new }) }
{
    match file {
        None => Leftover::Unasked,
        Some(name) => match shown {
            None => Leftover::Unmade,
            Some(shown) => match save(alloc, name, shown.get(), files, out) {
                Ok(()) => Leftover::Saved(shown),
                Err(_) => Leftover::Unsaved(shown),
            },
        },
    }
}

fn save<S: Store, O: Sink>(
    alloc: Global,
    name: &Name,
    shown: &PartialCertificate,
    files: &mut S,
    out: &mut O,
) -> Result<(), PublishFault>
    ensures { EndsWriting (saved_in (Some name.now) (partial_text shown.now)) (record { taken = O.taken out.old; told = S.told files.old }) (record { taken = O.taken out.new; told = S.told files.new }) result }
{
    match shown_pieces(alloc, name, shown) {
        Ok(pieces) => write_pieces(files, out, pieces),
        Err(_) => Err(PublishFault::NoMemory),
    }
}

// The text of what is shown, to this file.
fn shown_pieces(
    alloc: Global,
    name: &Name,
    shown: &PartialCertificate,
) -> Result<Vec<Piece>, AllocError>
    ensures { IfOk result (λ pieces. pieces_of pieces.items ≡ saved_in (Some name.now) (partial_text shown.now)) }
{
    let text = text(alloc, shown)?;
    let mut pieces = Vec::new(alloc);
    add_file(alloc, &mut pieces, name, text)?;
    Ok(pieces)
}
