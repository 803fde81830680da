// The statements behind `solve`, which are executed at a best point.
ghost use Rattle.std.specs.Prelude.{◌≡◌, ◌≤◌, ◌++◌, true, ℕ, List, length, IfOk, IsSomeAnd, Some};
ghost use Rattle.verdicts.specs.Certificate.{Optimal as is_optimal};
ghost use Rattle.cert_check.specs.Outcome.{Acceptance, outcome, trials};
ghost use Rattle.rational.specs.Rational.{Rational};
ghost use Rattle.outside.specs.Causes.{Rose};
ghost use Rattle.gmpl_generate.specs.Solved.{RowsFit};
ghost use Rattle.dual_values.specs.Duals.{duals_of};
ghost use Rattle.solution_writer.specs.Report.{IsShownPoint};
ghost use Rattle.glpsol_cli.specs.Meaning.{meaning_in};
ghost use Rattle.glpsol_cli.specs.Written.{ThenLine, extent_of, line_of};
ghost use Rattle.glpsol_cli.specs.Cause.{reached_of};
ghost use Rattle.glpsol_cli.specs.Stages.{IsEndBehind, IsKept, IsLater, IsRangeable, behind_in, pieces_of, range_pieces};

use crate::display::{behind_files, with_earlier};
use crate::execution::Later;
use crate::publish::{Piece, write_pieces};
use crate::ranged::end_at_best;
use crate::tell::{tell, tell_unwritten};
use crate::{Answer, Reached};
use certificate::Certificate;
use command_line::Settings;
use dual_values::dual_values;
use gmpl_generate::ModelFault;
use gmpl_reader::{Afterwards, after_solve};
use instance::{Instance, Point};
use outside::{Sink, Store};
use sqlite_items::Boxed;
use std::alloc::{AllocError, Global};

// What the statements behind `solve` come to.
#[derive(Drop)]
pub struct Behind {
    // what they print, which is to be written
    pub pieces: Vec<Piece>,
    pub fault: Option<ModelFault>,
}

/// What the statements behind `solve` come to at the certificate's point, with its dual values; nothing, where there are none.
pub fn afterwards(
    alloc: Global,
    settings: &Settings,
    later: Option<Later>,
    problem: &Instance,
    certificate: &Certificate,
) -> Result<Behind, AllocError>
    requires { IsSomeAnd certificate.now.point (IsShownPoint problem.now) }
    ensures { IfOk result (λ b. (text : List ℕ) (data_texts tables : List (List ℕ)) (x : List Rational) → IsKept settings.now text data_texts tables problem.now later
        → certificate.now.point ≡ Some x → (meaning_in settings.now text data_texts tables).behind x (duals_of problem.now certificate.now) ≡ behind_in b) }
{
    let Some(point) = certificate.point() else {
        unreachable!()
    };
    match later {
        Some(later) => at_point(alloc, settings, later, problem, certificate, point),
        None => Ok(Behind {
            pieces: Vec::new(alloc),
            fault: None,
        }),
    }
}

// What they come to at a point, with the dual values of a certificate.
fn at_point(
    alloc: Global,
    settings: &Settings,
    later: Later,
    problem: &Instance,
    certificate: &Certificate,
    point: &Point,
) -> Result<Behind, AllocError>
    requires size { length point.now ≡ length problem.now.columns }
    requires rows { RowsFit point.now problem.now.rows }
    ensures { IfOk result (λ b. (text : List ℕ) (data_texts tables : List (List ℕ)) → IsLater settings.now text data_texts tables problem.now later
        → (meaning_in settings.now text data_texts tables).behind point.now (duals_of problem.now certificate.now) ≡ behind_in b) }
{
    let Later { printed, rest } = later;
    let duals = dual_values(alloc, problem, certificate)?;
    let after = after_solve(alloc, rest.into_inner(), problem, point, &duals)?;
    let Afterwards {
        printed: more,
        files,
        fault,
    } = after;
    let text = with_earlier(alloc, &settings.display, &printed, &more)?;
    let pieces = behind_files(alloc, files, &settings.display, text)?;
    Ok(Behind { pieces, fault })
}

/// What the statements behind `solve` come to is written, then the ranges, where they are wanted, and the run ends.
pub fn end_behind<S: Store, O: Sink>(
    alloc: Global,
    settings: &Settings,
    problem: &Instance,
    behind: Behind,
    certificate: Boxed<Certificate>,
    files: &mut S,
    out: &mut O,
) -> Answer
    requires best { certificate.verdict ≡ is_optimal }
    requires accepted { outcome (trials problem.now certificate) ≡ Acceptance }
    requires rangeable { IsRangeable problem.now settings.now.task certificate }
    ensures cause { IsEndBehind problem.now settings.now behind.fault certificate (Rose (S.faults files.old) (S.faults files.new)) (Rose (O.faults out.old) (O.faults out.new)) result }
    ensures written { ThenLine (extent_of result) (line_of result) (record { taken = O.taken out.old; told = S.told files.old })
        (record { taken = O.taken out.new; told = S.told files.new }) (pieces_of behind.pieces.items ++ range_pieces settings.now.task (reached_of result)) }
{
    let Behind { pieces, fault } = behind;
    match write_pieces(files, out, pieces) {
        Ok(()) => at_end(alloc, settings, problem, fault, certificate, files, out),
        Err(fault) => tell_unwritten(alloc, out, Reached::Verdict(certificate), fault),
    }
}

// The run ends at a best point, or at a fault behind `solve`.
fn at_end<S: Store, O: Sink>(
    alloc: Global,
    settings: &Settings,
    problem: &Instance,
    fault: Option<ModelFault>,
    certificate: Boxed<Certificate>,
    files: &mut S,
    out: &mut O,
) -> Answer
    requires best { certificate.verdict ≡ is_optimal }
    requires accepted { outcome (trials problem.now certificate) ≡ Acceptance }
    requires rangeable { IsRangeable problem.now settings.now.task certificate }
    ensures cause { IsEndBehind problem.now settings.now fault certificate (Rose (S.faults files.old) (S.faults files.new)) (Rose (O.faults out.old) (O.faults out.new)) result }
    ensures written { ThenLine (extent_of result) (line_of result) (record { taken = O.taken out.old; told = S.told files.old })
        (record { taken = O.taken out.new; told = S.told files.new }) (range_pieces settings.now.task (reached_of result)) }
    ensures files_later { S.faults files.old ≤ S.faults files.new }
    ensures out_later { O.faults out.old ≤ O.faults out.new }
{
    match fault {
        None => end_at_best(alloc, settings, problem, certificate, files, out),
        Some(fault) => tell(alloc, out, Answer::FaultBehindSolve { fault, certificate }),
    }
}
