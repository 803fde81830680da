// The exact ranges at a best point, which come last.
ghost use Rattle.std.specs.Prelude.{◌≡◌, ◌≤◌, IfOk, IfErr, Some, option_map};
ghost use Rattle.verdicts.specs.Certificate.{Optimal as is_optimal};
ghost use Rattle.branch_search.specs.Plain.{NoneInteger, IsPlainCertificate};
ghost use Rattle.cert_check.specs.Outcome.{Acceptance, outcome, trials};
ghost use Rattle.exact_ranges.specs.Faults.{IsFault, IsNotByPivots};
ghost use Rattle.exact_ranges.specs.ShownBest.{best_point, best_weights};
ghost use Rattle.exact_ranges.specs.Text.{ranges_text};
ghost use Rattle.outside.specs.Causes.{Rose};
ghost use Rattle.glpsol_cli.specs.Asked.{ranges_file};
ghost use Rattle.glpsol_cli.specs.Cause.{AreRanges, reached_of};
ghost use Rattle.glpsol_cli.specs.Meaning.{saved_in};
ghost use Rattle.glpsol_cli.specs.Written.{ThenLine, extent_of, line_of};
ghost use Rattle.glpsol_cli.specs.Stages.{EndsWriting, HasFailed, IsEndAtBest, IsEndSaving, IsRangeable, pieces_of, range_pieces};

use crate::publish::{Piece, PublishFault, add_file, write_pieces};
use crate::tell::{tell, tell_unwritten};
use crate::{Answer, Reached};
use certificate::Certificate;
use command_line::{Settings, Task};
use exact_ranges::{RangeFault, Ranges, ranges, ranges_text};
use instance::{Instance, Name};
use outside::{Sink, Store};
use sqlite_items::Boxed;
use std::alloc::{AllocError, Global};

/// The run ends at a best point, with its ranges in their file, where they are wanted.
pub fn end_at_best<S: Store, O: Sink>(
    alloc: Global,
    settings: &Settings,
    problem: &Instance,
    certificate: Boxed<Certificate>,
    files: &mut S,
    out: &mut O,
) -> Answer
    requires best { certificate.verdict ≡ is_optimal }
    requires accepted { outcome (trials problem.now certificate) ≡ Acceptance }
    requires rangeable { IsRangeable problem.now settings.now.task certificate }
    ensures cause { IsEndAtBest problem.now settings.now certificate (Rose (S.faults files.old) (S.faults files.new)) (Rose (O.faults out.old) (O.faults out.new)) result }
    ensures written { ThenLine (extent_of result) (line_of result) (record { taken = O.taken out.old; told = S.told files.old })
        (record { taken = O.taken out.new; told = S.told files.new }) (range_pieces settings.now.task (reached_of result)) }
    ensures files_later { S.faults files.old ≤ S.faults files.new }
    ensures out_later { O.faults out.old ≤ O.faults out.new }
{
    match ranges_file(&settings.task) {
        None => Answer::Optimal(certificate),
        Some(file) => end_with_ranges(alloc, settings, problem, file, certificate, files, out),
    }
}

// The file of the ranges, where they are wanted.
fn ranges_file(task: &Task) -> Option<&Name>
    ensures { option_map (λ name. name.now) result ≡ ranges_file task.now }
{
    match task {
        Task::Solve(outputs) => outputs.ranges.as_ref(),
        Task::Translate | Task::CheckCertificate { .. } => None,
    }
}

// The ranges are found, and go to this file.
fn end_with_ranges<S: Store, O: Sink>(
    alloc: Global,
    settings: &Settings,
    problem: &Instance,
    file: &Name,
    certificate: Boxed<Certificate>,
    files: &mut S,
    out: &mut O,
) -> Answer
    requires best { certificate.verdict ≡ is_optimal }
    requires accepted { outcome (trials problem.now certificate) ≡ Acceptance }
    requires rangeable { IsRangeable problem.now settings.now.task certificate }
    requires wanted { ranges_file settings.now.task ≡ Some file.now }
    ensures cause { IsEndAtBest problem.now settings.now certificate (Rose (S.faults files.old) (S.faults files.new)) (Rose (O.faults out.old) (O.faults out.new)) result }
    ensures written { ThenLine (extent_of result) (line_of result) (record { taken = O.taken out.old; told = S.told files.old })
        (record { taken = O.taken out.new; told = S.told files.new }) (range_pieces settings.now.task (reached_of result)) }
    ensures files_later { S.faults files.old ≤ S.faults files.new }
    ensures out_later { O.faults out.old ≤ O.faults out.new }
{
    match kept_ranges(alloc, problem, certificate.get(), settings.pivot_limit) {
        Ok(ranges) => end_saving(alloc, file, certificate, ranges, files, out),
        Err(fault) => tell(alloc, out, Answer::Unranged { fault, certificate }),
    }
}

fn kept_ranges(
    alloc: Global,
    problem: &Instance,
    certificate: &Certificate,
    pivot_limit: u32,
) -> Result<Boxed<Ranges>, RangeFault>
    requires continuous { NoneInteger problem.now.columns }
    requires optimal { certificate.now.verdict ≡ is_optimal }
    requires plain { IsPlainCertificate problem.now certificate.now }
    requires accepted { outcome (trials problem.now certificate.now) ≡ Acceptance }
    ensures ranges { IfOk result (AreRanges problem.now certificate.now) }
    ensures fault { IfErr result (IsFault problem.now (best_point certificate.now) (best_weights certificate.now) pivot_limit) }
    ensures unlimited { pivot_limit ≡ 0 → IfErr result IsNotByPivots }
{
    let ranges = ranges(alloc, problem, certificate, pivot_limit)?;
    Ok(Boxed::new(alloc, ranges)?)
}

// The ranges are written, and the run ends.
fn end_saving<S: Store, O: Sink>(
    alloc: Global,
    file: &Name,
    certificate: Boxed<Certificate>,
    ranges: Boxed<Ranges>,
    files: &mut S,
    out: &mut O,
) -> Answer
    ensures cause { IsEndSaving certificate ranges (Rose (S.faults files.old) (S.faults files.new)) (Rose (O.faults out.old) (O.faults out.new)) result }
    ensures written { ThenLine (extent_of result) (line_of result) (record { taken = O.taken out.old; told = S.told files.old })
        (record { taken = O.taken out.new; told = S.told files.new }) (saved_in (Some file.now) (ranges_text ranges)) }
    ensures files_later { S.faults files.old ≤ S.faults files.new }
    ensures out_later { O.faults out.old ≤ O.faults out.new }
{
    match write_ranges(alloc, file, ranges.get(), files, out) {
        Ok(()) => Answer::Ranged(certificate, ranges),
        Err(fault) => tell_unwritten(alloc, out, Reached::Ranges(certificate, ranges), fault),
    }
}

fn write_ranges<S: Store, O: Sink>(
    alloc: Global,
    file: &Name,
    ranges: &Ranges,
    files: &mut S,
    out: &mut O,
) -> Result<(), PublishFault>
    ensures ends { EndsWriting (saved_in (Some file.now) (ranges_text ranges.now)) (record { taken = O.taken out.old; told = S.told files.old }) (record { taken = O.taken out.new; told = S.told files.new }) result }
    ensures failed { IfErr result (HasFailed (Rose (S.faults files.old) (S.faults files.new)) (Rose (O.faults out.old) (O.faults out.new))) }
    ensures files_later { S.faults files.old ≤ S.faults files.new }
    ensures out_later { O.faults out.old ≤ O.faults out.new }
{
    match ranges_pieces(alloc, file, ranges) {
        Ok(pieces) => write_pieces(files, out, pieces),
        Err(_) => Err(PublishFault::NoMemory),
    }
}

// The text of the ranges, to this file.
fn ranges_pieces(alloc: Global, file: &Name, ranges: &Ranges) -> Result<Vec<Piece>, AllocError>
    ensures { IfOk result (λ pieces. pieces_of pieces.items ≡ saved_in (Some file.now) (ranges_text ranges.now)) }
{
    let text = ranges_text(alloc, ranges)?;
    let mut pieces = Vec::new(alloc);
    add_file(alloc, &mut pieces, file, text.as_bytes().to_vec(alloc)?)?;
    Ok(pieces)
}
