// What the words ask for is worked out: the problem is measured or solved, or a certificate checked against it.
ghost use Rattle.std.specs.Prelude.{◌≡◌, ◌<◌, ◌≤◌, suc, length, true, Ok, IfOk, IfErr, IfSome, map};
ghost use Rattle.milp.specs.Problem.{Problem};
ghost use Rattle.verdicts.specs.Proves.{Proves};
ghost use Rattle.verdicts.specs.Certificate.{Infeasible as is_infeasible};
ghost use Rattle.branch_search.specs.Plain.{NoneInteger, IsPlainCertificate};
ghost use Rattle.partial_certificate.specs.Shown.{Passes};
ghost use Rattle.cut_search.specs.Searched.{IsUnsolved as IsSearchUnsolved};
ghost use Rattle.infeasible_subset.specs.Faults.{IsFault as IsSubsetFault};
ghost use Rattle.certificate_reader.specs.Reading.{read_of};
ghost use Rattle.cert_check.specs.Outcome.{Acceptance, outcome, trials};
ghost use Rattle.command_line.specs.declared.settings.Task.TheVariants.{Solve};
ghost use Rattle.glpsol_cli.specs.Asked.{sources_of, splits_rows, uses_cuts, wants_linear, wants_subset};
ghost use Rattle.glpsol_cli.specs.Meaning.{IsAsked};
ghost use Rattle.glpsol_cli.specs.Cause.{IsAccepted, IsSubsetOf};
ghost use Rattle.glpsol_cli.specs.Stages.{IsFinding, IsUnfound, IsSolution, IsSubsetFinding, IsUnsolved, IsCheckStop, OfNext, texts_in};

use crate::found::Finding;
use crate::inputs::Inputs;
use crate::stop::{CheckStop, Unfound};
use branch_search::has_no_integer_column;
use cert_check::{Checked, check};
use certificate::{Certificate, Verdict};
use certificate_reader::CertError;
use command_line::{Outputs, Settings, Task};
use cut_search::{Plan, solve};
use infeasible_subset::{Subset, SubsetFault, subset};
use instance::Instance;
use shared_search::OpenGate;
use sqlite_items::Boxed;
use std::alloc::{AllocError, Global};
use std::thread::Threads;
use stopped_search::Unsolved;

/// What is found of the problem, as the task asks.
pub fn finding<T: Threads + Sync>(
    rt: &T,
    alloc: Global,
    problem: &Instance,
    inputs: &Inputs,
) -> Result<Finding, Unfound>
    requires asked { IsAsked inputs.now.settings (texts_in inputs.now) problem.now }
    requires enough { length (sources_of inputs.now.settings) ≤ length (texts_in inputs.now) }
    ensures finding { IfOk result (IsFinding problem.now inputs.now.settings (texts_in inputs.now)) }
    ensures fault { IfErr result (λ unfound. IsUnfound unfound inputs.now.settings (texts_in inputs.now)) }
{
    let settings = inputs.settings.get();
    match &settings.task {
        Task::Solve(outputs) => solution(rt, alloc, problem, settings, outputs),
        Task::Translate => Ok(Finding::Size),
        Task::CheckCertificate { .. } => {
            let count = settings.data_files.as_slice().len();
            match accept_behind(alloc, problem, count, &inputs.texts) {
                Ok(certificate) => Ok(Finding::Acceptance(certificate)),
                Err(stop) => Err(Unfound::Check(stop)),
            }
        }
    }
}

// The certificate of a problem, and where no point is feasible a subset, if one is wanted.
fn solution<T: Threads + Sync>(
    rt: &T,
    alloc: Global,
    problem: &Instance,
    settings: &Settings,
    outputs: &Outputs,
) -> Result<Finding, Unfound>
    requires { settings.now.task ≡ Solve outputs.now }
    ensures finding { IfOk result (IsSolution problem.now settings.now.task) }
    ensures fault { IfErr result (IsUnsolved problem.now settings.now) }
{
    if !wants_linear(outputs) {
        return match solved(rt, alloc, problem, settings) {
            Ok(certificate) => Ok(Finding::Verdict(certificate)),
            Err(unsolved) => Err(Unfound::Solve(unsolved)),
        };
    }
    if has_no_integer_column(problem) {
        linear_solution(rt, alloc, problem, settings, outputs.subset)
    } else {
        Err(Unfound::NotLinear)
    }
}

// What is wanted is told of problems without integer columns alone.
fn wants_linear(outputs: &Outputs) -> bool
    ensures { result ≡ wants_linear (Solve outputs.now) }
{
    outputs.subset || outputs.ranges.is_some()
}

// The same of a problem without integer columns.
fn linear_solution<T: Threads + Sync>(
    rt: &T,
    alloc: Global,
    problem: &Instance,
    settings: &Settings,
    is_subset_wanted: bool,
) -> Result<Finding, Unfound>
    requires continuous { NoneInteger problem.now.columns }
    requires wanted { wants_subset settings.now.task ≡ is_subset_wanted }
    ensures finding { IfOk result (IsSolution problem.now settings.now.task) }
    ensures fault { IfErr result (IsUnsolved problem.now settings.now) }
{
    match solved(rt, alloc, problem, settings) {
        Ok(certificate) => {
            if is_subset_wanted {
                with_subset(alloc, problem, certificate, settings)
            } else {
                Ok(Finding::Verdict(certificate))
            }
        }
        Err(unsolved) => Err(Unfound::Solve(unsolved)),
    }
}

// The certificate, with a subset where no point is feasible.
fn with_subset(
    alloc: Global,
    problem: &Instance,
    certificate: Boxed<Certificate>,
    settings: &Settings,
) -> Result<Finding, Unfound>
    requires continuous { NoneInteger problem.now.columns }
    requires plain { IsPlainCertificate problem.now certificate }
    requires proves { Proves problem.now certificate }
    requires accepted { outcome (trials problem.now certificate) ≡ Acceptance }
    requires wanted { wants_subset settings.now.task ≡ true }
    ensures finding { IfOk result (IsSolution problem.now settings.now.task) }
    ensures fault { IfErr result (IsUnsolved problem.now settings.now) }
{
    match certificate.get().verdict() {
        Verdict::Infeasible => by_subset(alloc, problem, certificate, settings),
        Verdict::Optimal => Ok(Finding::Verdict(certificate)),
        Verdict::Unbounded => Ok(Finding::Verdict(certificate)),
    }
}

// A subset of the bounds of a problem without feasible points, as the certificate shows, with the certificate of its weights.
fn by_subset(
    alloc: Global,
    problem: &Instance,
    certificate: Boxed<Certificate>,
    settings: &Settings,
) -> Result<Finding, Unfound>
    requires continuous { NoneInteger problem.now.columns }
    requires infeasible { certificate.verdict ≡ is_infeasible }
    requires plain { IsPlainCertificate problem.now certificate }
    requires proves { Proves problem.now certificate }
    requires accepted { outcome (trials problem.now certificate) ≡ Acceptance }
    requires wanted { wants_subset settings.now.task ≡ true }
    ensures finding { IfOk result (IsSolution problem.now settings.now.task) }
    ensures fault { IfErr result (IsUnsolved problem.now settings.now) }
{
    match subset_found(alloc, problem, certificate.get(), settings.pivot_limit) {
        Ok(finding) => Ok(finding),
        Err(fault) => Err(Unfound::Subset(fault)),
    }
}

// The same, where the problem's own certificate is lent.
fn subset_found(
    alloc: Global,
    problem: &Instance,
    certificate: &Certificate,
    pivot_limit: u32,
) -> Result<Finding, SubsetFault>
    requires continuous { NoneInteger problem.now.columns }
    requires infeasible { certificate.now.verdict ≡ is_infeasible }
    requires plain { IsPlainCertificate problem.now certificate.now }
    requires accepted { outcome (trials problem.now certificate.now) ≡ Acceptance }
    ensures finding { IfOk result (IsSubsetFinding problem.now) }
    ensures fault { IfErr result (IsSubsetFault problem.now pivot_limit) }
{
    let subset = kept_subset(alloc, problem, certificate, pivot_limit)?;
    Ok(with_its_certificate(alloc, problem, subset)?)
}

// An irreducible infeasible subset of the problem's bounds.
fn kept_subset(
    alloc: Global,
    problem: &Instance,
    certificate: &Certificate,
    pivot_limit: u32,
) -> Result<Boxed<Subset>, SubsetFault>
    requires continuous { NoneInteger problem.now.columns }
    requires infeasible { certificate.now.verdict ≡ is_infeasible }
    requires plain { IsPlainCertificate problem.now certificate.now }
    requires accepted { outcome (trials problem.now certificate.now) ≡ Acceptance }
    ensures subset { IfOk result (IsSubsetOf problem.now) }
    ensures fault { IfErr result (IsSubsetFault problem.now pivot_limit) }
{
    let subset = subset(alloc, problem, certificate, pivot_limit)?;
    Ok(Boxed::new(alloc, subset)?)
}

// A subset with the certificate of its weights.
fn with_its_certificate(
    alloc: Global,
    problem: &Instance,
    subset: Boxed<Subset>,
) -> Result<Finding, AllocError>
    requires { IsSubsetOf problem.now subset }
    ensures { IfOk result (IsSubsetFinding problem.now) }
{
    let certificate = subset.get().certificate(alloc, problem)?;
    Ok(Finding::Subset(Boxed::new(alloc, certificate)?, subset))
}

// The certificate of a problem.
fn solved<T: Threads + Sync>(
    rt: &T,
    alloc: Global,
    problem: &Instance,
    settings: &Settings,
) -> Result<Boxed<Certificate>, Unsolved>
    ensures proves { IfOk result (λ c. Proves problem.now c × (outcome (trials problem.now c) ≡ Acceptance)) }
    ensures plain { NoneInteger problem.now.columns → IfOk result (λ c. IsPlainCertificate problem.now c) }
    ensures fault { IfErr result (IsSearchUnsolved (uses_cuts settings.now.task) (splits_rows settings.now.task) problem.now settings.now.split_limit settings.now.pivot_limit) }
    ensures shows { IfErr result (λ u. IfSome u.shown (Passes problem.now)) }
{
    match solve(rt, alloc, problem, plan_of(settings), &OpenGate) {
        Ok(certificate) => Ok(Boxed::new(alloc, certificate)?),
        Err(unsolved) => Err(unsolved),
    }
}

// How the verdict is searched for.
fn plan_of(settings: &Settings) -> Plan
    ensures { result ≡ record { cuts = uses_cuts settings.now.task; row_splits = splits_rows settings.now.task; split_limit = settings.now.split_limit; pivot_limit = settings.now.pivot_limit; workers = settings.now.workers } }
{
    Plan {
        cuts: uses_cuts(&settings.task),
        row_splits: splits_rows(&settings.task),
        split_limit: settings.split_limit as usize,
        pivot_limit: settings.pivot_limit,
        workers: settings.workers,
    }
}

// Whether a search may use cuts of its root.
fn uses_cuts(task: &Task) -> bool
    ensures { result ≡ uses_cuts task.now }
{
    match task {
        Task::Solve(outputs) => outputs.cuts,
        Task::Translate | Task::CheckCertificate { .. } => false,
    }
}

// Whether a search may split on rows.
fn splits_rows(task: &Task) -> bool
    ensures { result ≡ splits_rows task.now }
{
    match task {
        Task::Solve(outputs) => outputs.row_splits,
        Task::Translate | Task::CheckCertificate { .. } => false,
    }
}

// The certificate whose text stands behind the model's and so many others, where it proves its verdict.
fn accept_behind(
    alloc: Global,
    problem: &Instance,
    count: usize,
    texts: &[Vec<u8>],
) -> Result<Boxed<Certificate>, CheckStop>
    requires { suc count < length texts.now }
    ensures accepted { IfOk result (λ c. OfNext (IsAccepted c problem.now) count (map (λ text. text.items) texts.now)) }
    ensures stop { IfErr result (λ stop. OfNext (λ bytes. IsCheckStop problem.now bytes stop) count (map (λ text. text.items) texts.now)) }
{
    accept(alloc, problem, &texts[count + 1])
}

// The certificate with this text, where it proves its verdict.
fn accept(alloc: Global, problem: &Instance, text: &[u8]) -> Result<Boxed<Certificate>, CheckStop>
    ensures accepted { IfOk result (λ c. IsAccepted c problem.now text.now) }
    ensures stop { IfErr result (IsCheckStop problem.now text.now) }
{
    let certificate = match kept_certificate(alloc, text) {
        Ok(certificate) => certificate,
        Err(stop) => return Err(stop),
    };
    match check(alloc, problem, certificate.get()) {
        Ok(Checked::Accepted) => Ok(certificate),
        Ok(Checked::Refused(part)) => Err(CheckStop::Refused(part)),
        Err(fault) => Err(CheckStop::NoFit(fault)),
    }
}

// The certificate with this text.
fn kept_certificate(alloc: Global, text: &[u8]) -> Result<Boxed<Certificate>, CheckStop>
    ensures certificate { IfOk result (λ c. read_of text.now ≡ Ok c) }
    ensures stop { (problem : Problem) → IfErr result (IsCheckStop problem text.now) }
{
    match certificate_reader::read(alloc, text) {
        Ok(certificate) => match Boxed::new(alloc, certificate) {
            Ok(certificate) => Ok(certificate),
            Err(_) => Err(CheckStop::NoMemory),
        },
        Err(CertError::Fault(fault)) => Err(CheckStop::BadText(fault)),
        Err(CertError::NoMemory) => Err(CheckStop::NoMemory),
    }
}
