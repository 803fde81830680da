// What is found is written: the report, and then the files that the task names.
ghost use Rattle.std.specs.Prelude.{◌≡◌, ◌≤◌, ◌++◌, List, ℕ, false, IfOk, IfErr, OnOk, Some, string_bytes};
ghost use Rattle.verdicts.specs.Certificate.{Infeasible as is_infeasible};
ghost use Rattle.verdicts.specs.Proves.{Proves};
ghost use Rattle.std.specs.Option.{option_map};
ghost use Rattle.outside.specs.Causes.{Rose};
ghost use Rattle.solution_writer.specs.Report.{IsReportable, solved_report};
ghost use Rattle.solution_writer.specs.Solution.{raw_solution};
ghost use Rattle.certificate.specs.Text.{certificate_text};
ghost use Rattle.glpsol_cli.specs.Asked.{migrated_file, outputs_of, wants_subset, wants_summary};
ghost use Rattle.glpsol_cli.specs.Meaning.{found_pieces, in_version_two, lacks_subset, printed, report_by, saved_in, saved_pieces, solved_pieces};
ghost use Rattle.glpsol_cli.specs.Stages.{reached_by, piece_of, pieces_of, IsShown, EndsPiece, EndsWriting, HasFailed, IsPublished};

use crate::Target;
use crate::found::Finding;
use certificate::{Certificate, Version, text};
use command_line::{Outputs, Task};
use infeasible_subset::Subset;
use instance::{Instance, Name};
use migration::migrate;
use outside::{Sink, Store, Trouble, write_all, write_file};
use solution_writer::{
    accepted_report, raw_solution, solved_report, subset_report, summary_report, translated_report,
};
use std::alloc::{AllocError, Global};

// A text, and where it is written.
#[derive(Drop)]
pub struct Piece {
    pub target: Target,
    pub text: Vec<u8>,
}

// Why pieces are not all written.
#[derive(Drop)]
pub enum PublishFault {
    // this can't be written
    Write(Target),
    // memory is wanting for a write on the output
    CutOutput,
    // memory is wanting elsewhere
    NoMemory,
}

/// Writes what is found: its pieces, in order.
pub fn publish<S: Store, O: Sink>(
    alloc: Global,
    files: &mut S,
    out: &mut O,
    task: &Task,
    problem: &Instance,
    finding: &Finding,
) -> Result<(), PublishFault>
    requires { IsShown task.now problem.now finding.now }
    ensures published { IsPublished task.now problem.now finding.now (record { taken = O.taken out.old; told = S.told files.old }) (record { taken = O.taken out.new; told = S.told files.new }) result }
    ensures failed { IfErr result (HasFailed (Rose (S.faults files.old) (S.faults files.new)) (Rose (O.faults out.old) (O.faults out.new))) }
    ensures files_later { S.faults files.old ≤ S.faults files.new }
    ensures out_later { O.faults out.old ≤ O.faults out.new }
{
    match pieces(alloc, task, problem, finding) {
        Ok(pieces) => write_pieces(files, out, pieces),
        Err(_) => Err(PublishFault::NoMemory),
    }
}

// ---- the pieces

// The pieces of what is found.
fn pieces(
    alloc: Global,
    task: &Task,
    problem: &Instance,
    finding: &Finding,
) -> Result<Vec<Piece>, AllocError>
    requires { IsShown task.now problem.now finding.now }
    ensures { IfOk result (λ pieces. found_pieces task.now problem.now (reached_by finding.now) ≡ Some (pieces_of pieces.items)) }
{
    match finding {
        Finding::Size => output(alloc, &translated_report(alloc, problem)?),
        Finding::Acceptance(certificate) => accepted(alloc, task, problem, certificate.get()),
        Finding::Verdict(certificate) => solved(alloc, task, problem, certificate.get()),
        Finding::Subset(certificate, subset) => {
            with_subset(alloc, task, problem, certificate.get(), subset.get())
        }
    }
}

// The report that a certificate is accepted on the output, and then the certificate in version 2 to the file that the task names.
fn accepted(
    alloc: Global,
    task: &Task,
    problem: &Instance,
    certificate: &Certificate,
) -> Result<Vec<Piece>, AllocError>
    requires { Proves problem.now certificate.now }
    ensures { IfOk result (λ pieces. found_pieces task.now problem.now (reached_by (Finding.Acceptance certificate.now)) ≡ Some (pieces_of pieces.items)) }
{
    let report = accepted_report(alloc)?;
    let mut pieces = output(alloc, &report)?;
    add_migrated(alloc, &mut pieces, task, problem, certificate)?;
    Ok(pieces)
}

// The report of a solved problem, or its summary.
fn report(
    alloc: Global,
    task: &Task,
    problem: &Instance,
    certificate: &Certificate,
) -> Result<String, AllocError>
    requires { IsReportable problem.now certificate.now }
    ensures { IfOk result (λ text. report_by (wants_summary task.now) problem.now certificate.now ≡ Some (string_bytes text)) }
{
    if wants_summary(task) {
        summary_report(alloc, problem, certificate)
    } else {
        solved_report(alloc, problem, certificate)
    }
}

fn wants_summary(task: &Task) -> bool
    ensures { result ≡ wants_summary task.now }
{
    match task {
        Task::Solve(outputs) => outputs.summary,
        Task::Translate => false,
        Task::CheckCertificate { .. } => false,
    }
}

// The report of a certificate on the output, and then the files that the task names.
fn solved(
    alloc: Global,
    task: &Task,
    problem: &Instance,
    certificate: &Certificate,
) -> Result<Vec<Piece>, AllocError>
    requires parts { IsReportable problem.now certificate.now }
    requires plain { lacks_subset (wants_subset task.now) certificate.now.verdict ≡ false }
    ensures { IfOk result (λ pieces. found_pieces task.now problem.now (reached_by (Finding.Verdict certificate.now)) ≡ Some (pieces_of pieces.items)) }
{
    let report = report(alloc, task, problem, certificate)?;
    let mut pieces = output(alloc, &report)?;
    add_files(alloc, &mut pieces, task, problem, certificate, &report)?;
    Ok(pieces)
}

// The report with a subset on the output, and then the files that the task names.
fn with_subset(
    alloc: Global,
    task: &Task,
    problem: &Instance,
    certificate: &Certificate,
    subset: &Subset,
) -> Result<Vec<Piece>, AllocError>
    requires { certificate.now.verdict ≡ is_infeasible }
    ensures { IfOk result (λ pieces. found_pieces task.now problem.now (reached_by (Finding.Subset certificate.now subset.now)) ≡ Some (pieces_of pieces.items)) }
{
    let report = subset_report(alloc, problem, &subset.witnesses)?;
    let mut pieces = output(alloc, &report)?;
    add_files(alloc, &mut pieces, task, problem, certificate, &report)?;
    Ok(pieces)
}

// The files that the task names.
fn add_files(
    alloc: Global,
    pieces: &mut Vec<Piece>,
    task: &Task,
    problem: &Instance,
    certificate: &Certificate,
    report: &str,
) -> Result<(), AllocError>
    requires { IsReportable problem.now certificate.now }
    ensures { OnOk result (pieces_of pieces.new.items ≡ pieces_of pieces.old.items ++ saved_pieces (outputs_of task.now) problem.now certificate.now report.now) }
{
    match task {
        Task::Solve(outputs) => add_outputs(alloc, pieces, outputs, problem, certificate, report),
        Task::Translate | Task::CheckCertificate { .. } => Ok(()),
    }
}

// The files of a problem that is solved, in order.
fn add_outputs(
    alloc: Global,
    pieces: &mut Vec<Piece>,
    outputs: &Outputs,
    problem: &Instance,
    certificate: &Certificate,
    report: &str,
) -> Result<(), AllocError>
    requires { IsReportable problem.now certificate.now }
    ensures { OnOk result (pieces_of pieces.new.items ≡ pieces_of pieces.old.items ++ saved_pieces (Some outputs.now) problem.now certificate.now report.now) }
{
    add_report(alloc, pieces, &outputs.report, report)?;
    add_solution(alloc, pieces, &outputs.solution, problem, certificate)?;
    add_certificate(alloc, pieces, &outputs.certificate, certificate)
}

fn add_report(
    alloc: Global,
    pieces: &mut Vec<Piece>,
    file: &Option<Name>,
    report: &str,
) -> Result<(), AllocError>
    ensures { OnOk result (pieces_of pieces.new.items ≡ pieces_of pieces.old.items ++ saved_in file.now report.now) }
{
    match file {
        Some(name) => add_file(alloc, pieces, name, report.as_bytes().to_vec(alloc)?),
        None => Ok(()),
    }
}

fn add_solution(
    alloc: Global,
    pieces: &mut Vec<Piece>,
    file: &Option<Name>,
    problem: &Instance,
    certificate: &Certificate,
) -> Result<(), AllocError>
    requires { IsReportable problem.now certificate.now }
    ensures { OnOk result (pieces_of pieces.new.items ≡ pieces_of pieces.old.items ++ saved_in file.now (raw_solution problem.now certificate.now)) }
{
    match file {
        Some(name) => {
            let solution = raw_solution(alloc, problem, certificate)?;
            add_file(alloc, pieces, name, solution.as_bytes().to_vec(alloc)?)
        }
        None => Ok(()),
    }
}

fn add_certificate(
    alloc: Global,
    pieces: &mut Vec<Piece>,
    file: &Option<Name>,
    certificate: &Certificate,
) -> Result<(), AllocError>
    ensures { OnOk result (pieces_of pieces.new.items ≡ pieces_of pieces.old.items ++ saved_in file.now (certificate_text certificate.now)) }
{
    match file {
        Some(name) => add_file(alloc, pieces, name, text(alloc, certificate)?),
        None => Ok(()),
    }
}

// The certificate in version 2, to the file that the task names for it.
fn add_migrated(
    alloc: Global,
    pieces: &mut Vec<Piece>,
    task: &Task,
    problem: &Instance,
    certificate: &Certificate,
) -> Result<(), AllocError>
    requires { Proves problem.now certificate.now }
    ensures { OnOk result (pieces_of pieces.new.items ≡ pieces_of pieces.old.items ++ saved_in (migrated_file task.now) (certificate_text (in_version_two problem.now certificate.now))) }
{
    match task {
        Task::CheckCertificate { migrated, .. } => {
            add_in_version_two(alloc, pieces, migrated, problem, certificate)
        }
        Task::Solve(_) | Task::Translate => Ok(()),
    }
}

fn add_in_version_two(
    alloc: Global,
    pieces: &mut Vec<Piece>,
    file: &Option<Name>,
    problem: &Instance,
    certificate: &Certificate,
) -> Result<(), AllocError>
    requires { Proves problem.now certificate.now }
    ensures { OnOk result (pieces_of pieces.new.items ≡ pieces_of pieces.old.items ++ saved_in file.now (certificate_text (in_version_two problem.now certificate.now))) }
{
    match file {
        Some(name) => {
            let text = text_in_version_two(alloc, problem, certificate)?;
            add_file(alloc, pieces, name, text)
        }
        None => Ok(()),
    }
}

fn text_in_version_two(
    alloc: Global,
    problem: &Instance,
    certificate: &Certificate,
) -> Result<Vec<u8>, AllocError>
    requires { Proves problem.now certificate.now }
    ensures { IfOk result (λ text. text.items ≡ certificate_text (in_version_two problem.now certificate.now)) }
{
    match certificate.version() {
        Version::One => text(alloc, &migrate(alloc, problem, certificate)?),
        Version::Two => text(alloc, certificate),
    }
}

// A text on the output alone.
fn output(alloc: Global, text: &str) -> Result<Vec<Piece>, AllocError>
    ensures { IfOk result (λ pieces. pieces_of pieces.items ≡ printed text.now) }
{
    let mut pieces = Vec::new(alloc);
    pieces.push(Piece {
        target: Target::Out,
        text: text.as_bytes().to_vec(alloc)?,
    })?;
    Ok(pieces)
}

/// One more text, to the file of this name.
pub fn add_file(
    alloc: Global,
    pieces: &mut Vec<Piece>,
    name: &Name,
    text: Vec<u8>,
) -> Result<(), AllocError>
    ensures { OnOk result (pieces_of pieces.new.items ≡ pieces_of pieces.old.items ++ saved_in (Some name.now) text.items) }
{
    let name = Name::new(alloc, name.as_str())?;
    pieces.push(Piece {
        target: Target::File(name),
        text,
    })?;
    Ok(())
}

// ---- writing

/// Writes the pieces, in order.
pub fn write_pieces<S: Store, O: Sink>(
    files: &mut S,
    out: &mut O,
    pieces: Vec<Piece>,
) -> Result<(), PublishFault>
    ensures ends { EndsWriting (pieces_of pieces.items) (record { taken = O.taken out.old; told = S.told files.old }) (record { taken = O.taken out.new; told = S.told files.new }) result }
    ensures failed { IfErr result (HasFailed (Rose (S.faults files.old) (S.faults files.new)) (Rose (O.faults out.old) (O.faults out.new))) }
    ensures files_later { S.faults files.old ≤ S.faults files.new }
    ensures out_later { O.faults out.old ≤ O.faults out.new }
{
    for piece in pieces {
        write_piece(files, out, piece)?;
    }
    Ok(())
}

/// Writes the first pieces, in order, and then the others.
pub fn write_both<S: Store, O: Sink>(
    files: &mut S,
    out: &mut O,
    first: Vec<Piece>,
    others: Vec<Piece>,
) -> Result<(), PublishFault>
    ensures ends { EndsWriting (pieces_of first.items ++ pieces_of others.items) (record { taken = O.taken out.old; told = S.told files.old }) (record { taken = O.taken out.new; told = S.told files.new }) result }
    ensures failed { IfErr result (HasFailed (Rose (S.faults files.old) (S.faults files.new)) (Rose (O.faults out.old) (O.faults out.new))) }
    ensures files_later { S.faults files.old ≤ S.faults files.new }
    ensures out_later { O.faults out.old ≤ O.faults out.new }
{
    match write_pieces(files, out, first) {
        Ok(()) => write_pieces(files, out, others),
        Err(fault) => Err(fault),
    }
}

// Writes a piece.
fn write_piece<S: Store, O: Sink>(
    files: &mut S,
    out: &mut O,
    piece: Piece,
) -> Result<(), PublishFault>
    ensures ends { EndsPiece (piece_of piece) (record { taken = O.taken out.old; told = S.told files.old }) (record { taken = O.taken out.new; told = S.told files.new }) result }
    ensures failed { IfErr result (HasFailed (Rose (S.faults files.old) (S.faults files.new)) (Rose (O.faults out.old) (O.faults out.new))) }
    ensures files_later { S.faults files.old ≤ S.faults files.new }
    ensures out_later { O.faults out.old ≤ O.faults out.new }
{
    let Piece { target, text } = piece;
    match target {
        Target::Out => match write_all(out, &text) {
            Ok(()) => Ok(()),
            Err(Trouble::Failed) => Err(PublishFault::Write(Target::Out)),
            Err(Trouble::NoMemory) => Err(PublishFault::CutOutput),
        },
        Target::File(name) => match write_file(files, name.as_str(), &text) {
            Ok(()) => Ok(()),
            Err(Trouble::Failed) => Err(PublishFault::Write(Target::File(name))),
            Err(Trouble::NoMemory) => Err(PublishFault::NoMemory),
        },
    }
}
