// What the words ask for is done with a problem: it is found and reported, and at a best point the statements behind
// `solve` are executed, and then the ranges found, where they are wanted.
ghost use Rattle.std.specs.Prelude.{◌≡◌};
ghost use Rattle.verdicts.specs.Certificate as kind;
ghost use Rattle.outside.specs.Causes.{Rose};
ghost use Rattle.glpsol_cli.specs.Stages.{IsFinding, IsSubject, IsUnfound, LeftWritten, RestWritten, reached_by, texts_in};
ghost use Rattle.glpsol_cli.specs.Together.{CauseIn};

use crate::behind::{afterwards, end_behind};
use crate::execution::Later;
use crate::found::Finding;
use crate::inputs::Inputs;
use crate::publish::publish;
use crate::stop::{Unfound, check_answer, subset_answer};
use crate::tell::{tell, tell_unwritten};
use crate::unsolved::unsolved_answer;
use crate::work_out::finding;
use crate::{Answer, Reached};
use certificate::{Certificate, Verdict};
use instance::Instance;
use outside::{Sink, Store};
use sqlite_items::Boxed;
use std::alloc::Global;
use std::thread::Threads;

/// The run from its problem on, once what is printed before is written.
pub fn from_problem<T: Threads + Sync, S: Store, O: Sink>(
    rt: &T,
    alloc: Global,
    inputs: &Inputs,
    problem: &Instance,
    later: Option<Later>,
    files: &mut S,
    out: &mut O,
) -> Answer
    requires { IsSubject inputs.now.settings (texts_in inputs.now) problem.now later }
    ensures cause { CauseIn inputs.now.settings (texts_in inputs.now)
        (Rose (S.faults files.old) (S.faults files.new)) (Rose (O.faults out.old) (O.faults out.new)) result }
    ensures written { LeftWritten inputs.now.settings (texts_in inputs.now) (record { taken = O.taken out.old; told = S.told files.old })
        (record { taken = O.taken out.new; told = S.told files.new }) result }
{
    match finding(rt, alloc, problem, inputs) {
        Ok(finding) => from_finding(alloc, inputs, problem, later, finding, files, out),
        Err(unfound) => from_unfound(alloc, inputs, problem, later, unfound, files, out),
    }
}

// Nothing is found. What a search has shown that came to a limit is left, and the line of the answer is told.
fn from_unfound<S: Store, O: Sink>(
    alloc: Global,
    inputs: &Inputs,
    problem: &Instance,
    later: Option<Later>,
    unfound: Unfound,
    files: &mut S,
    out: &mut O,
) -> Answer
    requires subject { IsSubject inputs.now.settings (texts_in inputs.now) problem.now later }
    requires unfound { IsUnfound unfound inputs.now.settings (texts_in inputs.now) }
    ensures cause { CauseIn inputs.now.settings (texts_in inputs.now)
        (Rose (S.faults files.old) (S.faults files.new)) (Rose (O.faults out.old) (O.faults out.new)) result }
    ensures written { LeftWritten inputs.now.settings (texts_in inputs.now) (record { taken = O.taken out.old; told = S.told files.old })
        (record { taken = O.taken out.new; told = S.told files.new }) result }
{
    match unfound {
        Unfound::Solve(unsolved) => {
            let task = &inputs.settings.get().task;
            let answer = unsolved_answer(alloc, task, unsolved, files, out);
            tell(alloc, out, answer)
        }
        Unfound::Check(stop) => tell(alloc, out, check_answer(stop)),
        Unfound::Subset(fault) => tell(alloc, out, subset_answer(fault)),
        Unfound::NotLinear => tell(alloc, out, Answer::NotLinear),
    }
}

// What is found is reported.
fn from_finding<S: Store, O: Sink>(
    alloc: Global,
    inputs: &Inputs,
    problem: &Instance,
    later: Option<Later>,
    finding: Finding,
    files: &mut S,
    out: &mut O,
) -> Answer
    requires subject { IsSubject inputs.now.settings (texts_in inputs.now) problem.now later }
    requires found { IsFinding problem.now inputs.now.settings (texts_in inputs.now) finding }
    ensures cause { CauseIn inputs.now.settings (texts_in inputs.now)
        (Rose (S.faults files.old) (S.faults files.new)) (Rose (O.faults out.old) (O.faults out.new)) result }
    ensures written { LeftWritten inputs.now.settings (texts_in inputs.now) (record { taken = O.taken out.old; told = S.told files.old })
        (record { taken = O.taken out.new; told = S.told files.new }) result }
{
    let published = publish(
        alloc,
        files,
        out,
        &inputs.settings.get().task,
        problem,
        &finding,
    );
    match published {
        Ok(()) => from_report(alloc, inputs, problem, later, finding, files, out),
        Err(fault) => tell_unwritten(alloc, out, finding.reached(), fault),
    }
}

// The report is written, and the files.
fn from_report<S: Store, O: Sink>(
    alloc: Global,
    inputs: &Inputs,
    problem: &Instance,
    later: Option<Later>,
    finding: Finding,
    files: &mut S,
    out: &mut O,
) -> Answer
    requires subject { IsSubject inputs.now.settings (texts_in inputs.now) problem.now later }
    requires found { IsFinding problem.now inputs.now.settings (texts_in inputs.now) finding }
    ensures cause { CauseIn inputs.now.settings (texts_in inputs.now)
        (Rose (S.faults files.old) (S.faults files.new)) (Rose (O.faults out.old) (O.faults out.new)) result }
    ensures written { RestWritten (reached_by finding) inputs.now.settings (texts_in inputs.now) (record { taken = O.taken out.old; told = S.told files.old })
        (record { taken = O.taken out.new; told = S.told files.new }) result }
{
    match finding {
        Finding::Size => Answer::Translated,
        Finding::Acceptance(certificate) => Answer::Accepted(certificate),
        Finding::Verdict(certificate) => {
            from_verdict(alloc, inputs, problem, later, certificate, files, out)
        }
        Finding::Subset(certificate, subset) => Answer::Irreducible(certificate, subset),
    }
}

fn from_verdict<S: Store, O: Sink>(
    alloc: Global,
    inputs: &Inputs,
    problem: &Instance,
    later: Option<Later>,
    certificate: Boxed<Certificate>,
    files: &mut S,
    out: &mut O,
) -> Answer
    requires subject { IsSubject inputs.now.settings (texts_in inputs.now) problem.now later }
    requires found { IsFinding problem.now inputs.now.settings (texts_in inputs.now) (Finding.Verdict certificate) }
    ensures cause { CauseIn inputs.now.settings (texts_in inputs.now)
        (Rose (S.faults files.old) (S.faults files.new)) (Rose (O.faults out.old) (O.faults out.new)) result }
    ensures written { RestWritten (Reached.Verdict certificate) inputs.now.settings (texts_in inputs.now) (record { taken = O.taken out.old; told = S.told files.old })
        (record { taken = O.taken out.new; told = S.told files.new }) result }
{
    match certificate.get().verdict() {
        Verdict::Optimal => at_best(alloc, inputs, problem, later, certificate, files, out),
        Verdict::Infeasible => Answer::Infeasible(certificate),
        Verdict::Unbounded => Answer::Unbounded(certificate),
    }
}

// The statements behind `solve` are executed at the best point.
fn at_best<S: Store, O: Sink>(
    alloc: Global,
    inputs: &Inputs,
    problem: &Instance,
    later: Option<Later>,
    certificate: Boxed<Certificate>,
    files: &mut S,
    out: &mut O,
) -> Answer
    requires subject { IsSubject inputs.now.settings (texts_in inputs.now) problem.now later }
    requires found { IsFinding problem.now inputs.now.settings (texts_in inputs.now) (Finding.Verdict certificate) }
    requires best { certificate.verdict ≡ kind.Optimal }
    ensures cause { CauseIn inputs.now.settings (texts_in inputs.now)
        (Rose (S.faults files.old) (S.faults files.new)) (Rose (O.faults out.old) (O.faults out.new)) result }
    ensures written { RestWritten (Reached.Verdict certificate) inputs.now.settings (texts_in inputs.now) (record { taken = O.taken out.old; told = S.told files.old })
        (record { taken = O.taken out.new; told = S.told files.new }) result }
{
    let behind = afterwards(
        alloc,
        inputs.settings.get(),
        later,
        problem,
        certificate.get(),
    );
    match behind {
        Ok(behind) => {
            let settings = inputs.settings.get();
            end_behind(alloc, settings, problem, behind, certificate, files, out)
        }
        Err(_) => tell(
            alloc,
            out,
            Answer::NoMemory {
                reached: Reached::Verdict(certificate),
            },
        ),
    }
}
