// The whole of the program's work.
ghost use Rattle.std.specs.Prelude.{◌≡◌, ◌≤◌, ℕ, List, true, false, Some, map, string_bytes};
ghost use Rattle.verdicts.specs.Certificate.{Certificate};
ghost use Rattle.partial_certificate.specs.Partial.{Partial};
ghost use Rattle.infeasible_subset.specs.declared.witness.Subset.{Subset};
ghost use Rattle.exact_ranges.specs.Ranges.{AllRanges};
ghost use Rattle.outside.specs.Causes.{Rose};
ghost use Rattle.command_line.specs.Meaning.{settings_of};
ghost use Rattle.command_line.specs.declared.settings.Settings.{Settings};
ghost use Rattle.glpsol_cli.specs.Asked.{ToldNames, wants_ranges, wants_subset};
ghost use Rattle.glpsol_cli.specs.Pieces.{Outside, SameNames};
ghost use Rattle.glpsol_cli.specs.Texts.{OfTexts};
ghost use Rattle.glpsol_cli.specs.Cause.{Cause, HasBestRanges, IsBest, HasNoPoint, HasRay, IsIrreducibleSubset, IsNotByPivots, IsNotPlain, IsNotWithoutRanges, IsShown, IsTrueOf, reached_of};
ghost use Rattle.glpsol_cli.specs.Written.{Written};
ghost use Rattle.glpsol_cli.specs.Complete.{IsComplete, IsVerdictOrNoMemory};
ghost use Rattle.glpsol_cli.specs.Stages.{AreInputs, AreSomeInputs, IsEndIn, IsEndOf, IsRun, IsSomeRun, IsSubject, IsWhole, LeftWritten, Moment, WrittenSince, texts_in};
ghost use Rattle.glpsol_cli.specs.Left.{is_waiting};
ghost use Rattle.glpsol_cli.specs.Together.{CauseIn, IsOfOneText, Tells};

use crate::execution::{Executed, ExecutionEnd, Halt, Later, execute};
use crate::inputs::{Inputs, read_inputs};
use crate::publish::write_both;
use crate::stop::{stop_answer, unread_answer};
use crate::tables::{Run, with_tables};
use crate::task::from_problem;
use crate::tell::{tell, tell_unwritten};
use crate::{Answer, Reached};
use instance::Instance;
use outside::{Sink, Store};
use partial_certificate::accepted_partials_show;
use std::alloc::Global;
use std::thread::Threads;
use verdicts::certificates_are_right;

/// Does what the words ask for.
pub fn run<T: Threads + Sync, S: Store, O: Sink>(
    rt: &T,
    alloc: Global,
    words: Vec<String>,
    files: &mut S,
    out: &mut O,
) -> Answer
    // Where it answers Optimal, the point meets every bound, row and integrality that the text declares, and no such point is better.
    ensures optimal { (c : Certificate) → result ≡ Answer.Optimal c → OfTexts (map string_bytes words.items) (S.told files.old) (IsBest c) }

    // Where it answers Infeasible, no such point exists.
    ensures infeasible { (c : Certificate) → result ≡ Answer.Infeasible c → OfTexts (map string_bytes words.items) (S.told files.old) HasNoPoint }

    // Where it answers Unbounded, the point is feasible, and the ray improves it without end.
    ensures unbounded { (c : Certificate) → result ≡ Answer.Unbounded c → OfTexts (map string_bytes words.items) (S.told files.old) (HasRay c) }

    // Where a subset is asked for, and no point is feasible, no point meets the subset's bounds, and the point beside each of them meets
    // all the others, whatever fault comes after it. These are the lines that are printed behind the verdict. The certificate shows by
    // the weights of this subset alone that no point is feasible.
    ensures subset { (c : Certificate) (w : Subset) → reached_of result ≡ Reached.Subset c w → OfTexts (map string_bytes words.items) (S.told files.old) (IsIrreducibleSubset c w) }

    // And there it never answers Infeasible without a subset.
    ensures subset_asked { (s : Settings) → settings_of (map string_bytes words.items) ≡ Some s → wants_subset s.task ≡ true → IsNotPlain result }

    // Where ranges are asked for, and the point is best, a number is in the range of a cost exactly where the point stays best with it in
    // the cost's place, and in the range of a row's bound exactly where the value goes on as the certificate's weights promise with it in
    // the bound's place. These are the ranges of the file that is written last.
    ensures ranges { (c : Certificate) (r : AllRanges) → reached_of result ≡ Reached.Ranges c r → OfTexts (map string_bytes words.items) (S.told files.old) (HasBestRanges c r) }

    // And there it never answers Optimal without ranges.
    ensures ranges_asked { (s : Settings) → settings_of (map string_bytes words.items) ≡ Some s → wants_ranges s.task ≡ true → IsNotWithoutRanges result }

    // The verdict of each certificate that an answer carries is true, whatever fault comes after it.
    ensures carried { (c : Certificate) → reached_of result ≡ Reached.Verdict c → OfTexts (map string_bytes words.items) (S.told files.old) (IsTrueOf c) }

    // What a search that came to a limit leaves is true: its best point is feasible and has its value, and a feasible point that is
    // better, or any where there is no best one, can only lie at a leaf that is left to do.
    ensures undecided { (c : Partial) → reached_of result ≡ Reached.Shown c → OfTexts (map string_bytes words.items) (S.told files.old) (IsShown c) }

    // Each answer has its cause, and each verdict a certificate that proves it and that the checker accepts.
    ensures cause { Cause (map string_bytes words.items) (S.told files.old)
        (Rose (S.faults files.old) (S.faults files.new)) (Rose (O.faults out.old) (O.faults out.new)) result }

    // It writes the files of tables that the statements make, what they print, then the report and the files, then what the statements
    // behind `solve` make and print, and then the ranges, or the first part of this, and then the line of a fault or a part of it.
    ensures written { Written (map string_bytes words.items) (record { taken = O.taken out.old; told = S.told files.old })
        (record { taken = O.taken out.new; told = S.told files.new }) result }

    // The problem of the verdict, the cause and all that is written are of the same texts, whatever the store tells of its files.
    ensures of_one_text { IsOfOneText (map string_bytes words.items) (record { taken = O.taken out.old; told = S.told files.old })
        (record { taken = O.taken out.new; told = S.told files.new })
        (Rose (S.faults files.old) (S.faults files.new)) (Rose (O.faults out.old) (O.faults out.new)) result }

    // Without a limit of steps (`--pivlim 0`) it never answers that this limit was met: each run of the simplex method ends.
    ensures unlimited { (s : Settings) → settings_of (map string_bytes words.items) ≡ Some s → s.pivot_limit ≡ 0 → IsNotByPivots result }

    // Where nothing stands in the way, it gives a verdict.
    ensures complete { IsComplete (map string_bytes words.items) (S.told files.old)
        (Rose (S.faults files.old) (S.faults files.new)) (Rose (O.faults out.old) (O.faults out.new)) → IsVerdictOrNoMemory result }
{
    certificates_are_right();
    accepted_partials_show();
    carried_out(rt, alloc, &words, files, out)
}

// The words are carried out.
fn carried_out<T: Threads + Sync, S: Store, O: Sink>(
    rt: &T,
    alloc: Global,
    words: &[String],
    files: &mut S,
    out: &mut O,
) -> Answer
    ensures cause { Cause (map string_bytes words.now) (S.told files.old)
        (Rose (S.faults files.old) (S.faults files.new)) (Rose (O.faults out.old) (O.faults out.new)) result }
    ensures written { Written (map string_bytes words.now) (record { taken = O.taken out.old; told = S.told files.old })
        (record { taken = O.taken out.new; told = S.told files.new }) result }
    ensures tells { Tells (map string_bytes words.now) (S.told files.old) (record { taken = O.taken out.old; told = S.told files.old })
        (record { taken = O.taken out.new; told = S.told files.new })
        (Rose (S.faults files.old) (S.faults files.new)) (Rose (O.faults out.old) (O.faults out.new)) result }
{
    let inputs = match read_inputs(alloc, words, files) {
        Ok(inputs) => inputs,
        Err(stop) => return tell(alloc, out, stop_answer(stop)),
    };
    from_inputs(rt, alloc, inputs, files, out)
}

// The texts are executed.
fn from_inputs<T: Threads + Sync, S: Store, O: Sink>(
    rt: &T,
    alloc: Global,
    inputs: Inputs,
    files: &mut S,
    out: &mut O,
) -> Answer
    requires { AreSomeInputs (S.told files.old) inputs }
    ensures cause { (words : List (List ℕ)) (told : ToldNames) (count : ℕ) → AreInputs words told inputs → SameNames told (S.told files.old)
        → count ≤ S.faults files.old → Cause words told (Rose count (S.faults files.new)) (Rose (O.faults out.old) (O.faults out.new)) result }
    ensures written { (words : List (List ℕ)) (told : ToldNames) → AreInputs words told inputs → SameNames told (S.told files.old)
        → WrittenSince words told (record { taken = O.taken out.old; told = S.told files.old }) (record { taken = O.taken out.new; told = S.told files.new }) result }
    ensures tells { (words : List (List ℕ)) (told : ToldNames) (count : ℕ) → AreInputs words told inputs → SameNames told (S.told files.old)
        → count ≤ S.faults files.old → Tells words told (record { taken = O.taken out.old; told = S.told files.old }) (record { taken = O.taken out.new; told = S.told files.new })
        (Rose count (S.faults files.new)) (Rose (O.faults out.old) (O.faults out.new)) result }
{
    match execute(alloc, inputs.settings.get(), &inputs.texts) {
        Ok(executed) => from_execution(rt, alloc, inputs, executed, files, out),
        Err(_) => tell(
            alloc,
            out,
            Answer::NoMemory {
                reached: Reached::Nothing,
            },
        ),
    }
}

// The files of tables are read, and the execution goes on behind them.
fn from_execution<T: Threads + Sync, S: Store, O: Sink>(
    rt: &T,
    alloc: Global,
    inputs: Inputs,
    executed: Executed,
    files: &mut S,
    out: &mut O,
) -> Answer
    requires { IsSomeRun (record { outside = record { taken = O.taken out.old; told = S.told files.old }; files = S.faults files.old; out = O.faults out.old }) inputs.settings (texts_in inputs) executed }
    ensures cause { (words : List (List ℕ)) (told : ToldNames) (start : Moment)
        → IsRun words told start (record { outside = record { taken = O.taken out.old; told = S.told files.old }; files = S.faults files.old; out = O.faults out.old }) inputs.settings (texts_in inputs) executed
        → Cause words told (Rose start.files (S.faults files.new)) (Rose start.out (O.faults out.new)) result }
    ensures written { (words : List (List ℕ)) (told : ToldNames) (start : Moment)
        → IsRun words told start (record { outside = record { taken = O.taken out.old; told = S.told files.old }; files = S.faults files.old; out = O.faults out.old }) inputs.settings (texts_in inputs) executed
        → WrittenSince words told start.outside (record { taken = O.taken out.new; told = S.told files.new }) result }
    ensures tells { (words : List (List ℕ)) (told : ToldNames) (start : Moment)
        → IsRun words told start (record { outside = record { taken = O.taken out.old; told = S.told files.old }; files = S.faults files.old; out = O.faults out.old }) inputs.settings (texts_in inputs) executed
        → Tells words told start.outside (record { taken = O.taken out.new; told = S.told files.new }) (Rose start.files (S.faults files.new)) (Rose start.out (O.faults out.new)) result }
{
    match with_tables(alloc, Run { inputs, executed }, files, out) {
        Ok(run) => from_run(rt, alloc, run, files, out),
        Err(fault) => tell_unwritten(alloc, out, Reached::Executed, fault),
    }
}

// What is not written yet of what was executed is written.
fn from_run<T: Threads + Sync, S: Store, O: Sink>(
    rt: &T,
    alloc: Global,
    run: Run,
    files: &mut S,
    out: &mut O,
) -> Answer
    requires over { is_waiting run.executed.halt ≡ false }
    requires run { IsSomeRun (record { outside = record { taken = O.taken out.old; told = S.told files.old }; files = S.faults files.old; out = O.faults out.old }) run.inputs.settings (texts_in run.inputs) run.executed }
    ensures cause { (words : List (List ℕ)) (told : ToldNames) (start : Moment)
        → IsRun words told start (record { outside = record { taken = O.taken out.old; told = S.told files.old }; files = S.faults files.old; out = O.faults out.old }) run.inputs.settings (texts_in run.inputs) run.executed
        → Cause words told (Rose start.files (S.faults files.new)) (Rose start.out (O.faults out.new)) result }
    ensures written { (words : List (List ℕ)) (told : ToldNames) (start : Moment)
        → IsRun words told start (record { outside = record { taken = O.taken out.old; told = S.told files.old }; files = S.faults files.old; out = O.faults out.old }) run.inputs.settings (texts_in run.inputs) run.executed
        → WrittenSince words told start.outside (record { taken = O.taken out.new; told = S.told files.new }) result }
    ensures tells { (words : List (List ℕ)) (told : ToldNames) (start : Moment)
        → IsRun words told start (record { outside = record { taken = O.taken out.old; told = S.told files.old }; files = S.faults files.old; out = O.faults out.old }) run.inputs.settings (texts_in run.inputs) run.executed
        → Tells words told start.outside (record { taken = O.taken out.new; told = S.told files.new }) (Rose start.files (S.faults files.new)) (Rose start.out (O.faults out.new)) result }
{
    let Run { inputs, executed } = run;
    let Executed {
        files: made,
        shown,
        halt,
    } = executed;
    match write_both(files, out, made, shown) {
        Ok(()) => from_halt(rt, alloc, inputs, halt, files, out),
        Err(fault) => tell_unwritten(alloc, out, Reached::Executed, fault),
    }
}

// The execution is over, or the file of a table is not read.
fn from_halt<T: Threads + Sync, S: Store, O: Sink>(
    rt: &T,
    alloc: Global,
    inputs: Inputs,
    halt: Halt,
    files: &mut S,
    out: &mut O,
) -> Answer
    requires { IsEndOf inputs.settings (texts_in inputs) halt }
    ensures cause { (words : List (List ℕ)) (told : ToldNames) (start : Moment)
        → IsWhole words told start (record { outside = record { taken = O.taken out.old; told = S.told files.old }; files = S.faults files.old; out = O.faults out.old }) inputs.settings (texts_in inputs) halt
        → Cause words told (Rose start.files (S.faults files.new)) (Rose start.out (O.faults out.new)) result }
    ensures written { (words : List (List ℕ)) (told : ToldNames) (start : Moment)
        → IsWhole words told start (record { outside = record { taken = O.taken out.old; told = S.told files.old }; files = S.faults files.old; out = O.faults out.old }) inputs.settings (texts_in inputs) halt
        → WrittenSince words told start.outside (record { taken = O.taken out.new; told = S.told files.new }) result }
    ensures tells { (words : List (List ℕ)) (told : ToldNames) (start : Moment)
        → IsWhole words told start (record { outside = record { taken = O.taken out.old; told = S.told files.old }; files = S.faults files.old; out = O.faults out.old }) inputs.settings (texts_in inputs) halt
        → Tells words told start.outside (record { taken = O.taken out.new; told = S.told files.new }) (Rose start.files (S.faults files.new)) (Rose start.out (O.faults out.new)) result }
{
    match halt {
        Halt::End(end) => from_end(rt, alloc, &inputs, end, files, out),
        Halt::Table(_) => unreachable!(),
        Halt::Unread(unread) => tell(alloc, out, unread_answer(Reached::Executed, unread)),
    }
}

// The execution ended at a problem, or at a fault.
fn from_end<T: Threads + Sync, S: Store, O: Sink>(
    rt: &T,
    alloc: Global,
    inputs: &Inputs,
    end: ExecutionEnd,
    files: &mut S,
    out: &mut O,
) -> Answer
    requires { IsEndIn inputs.now.settings (texts_in inputs.now) end }
    ensures cause { CauseIn inputs.now.settings (texts_in inputs.now)
        (Rose (S.faults files.old) (S.faults files.new)) (Rose (O.faults out.old) (O.faults out.new)) result }
    ensures written { LeftWritten inputs.now.settings (texts_in inputs.now) (record { taken = O.taken out.old; told = S.told files.old })
        (record { taken = O.taken out.new; told = S.told files.new }) result }
{
    match end {
        ExecutionEnd::Problem(problem, later) => {
            at_problem(rt, alloc, inputs, problem, later, files, out)
        }
        ExecutionEnd::Fault(fault) => tell(alloc, out, Answer::BadText(fault)),
    }
}

// The problem is handed over, and lent further in.
fn at_problem<T: Threads + Sync, S: Store, O: Sink>(
    rt: &T,
    alloc: Global,
    inputs: &Inputs,
    problem: Instance,
    later: Option<Later>,
    files: &mut S,
    out: &mut O,
) -> Answer
    requires { IsSubject inputs.now.settings (texts_in inputs.now) problem later }
    ensures cause { CauseIn inputs.now.settings (texts_in inputs.now)
        (Rose (S.faults files.old) (S.faults files.new)) (Rose (O.faults out.old) (O.faults out.new)) result }
    ensures written { LeftWritten inputs.now.settings (texts_in inputs.now) (record { taken = O.taken out.old; told = S.told files.old })
        (record { taken = O.taken out.new; told = S.told files.new }) result }
{
    from_problem(rt, alloc, inputs, &problem, later, files, out)
}
