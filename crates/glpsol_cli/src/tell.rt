// The line of an answer.
ghost use Rattle.std.specs.Prelude.{◌≡◌, ◌≤◌, IfOk, string_bytes};
ghost use Rattle.outside.specs.Told.{AppendsPrefix};
ghost use Rattle.solution_writer.specs.FaultLine.{no_memory_line};
ghost use Rattle.glpsol_cli.specs.Stages.{TellsBehind, unwritten_answer};
ghost use Rattle.glpsol_cli.specs.Written.{line_of, target_line_of};

use crate::publish::PublishFault;
use crate::{Answer, Limit, Reached, Target, TextFault};
use branch_search::VerdictFault;
use exact_ranges::RangeFault;
use outside::{Sink, write_all};
use solution_writer::{Fault, fault_line};
use std::alloc::{AllocError, Global};

/// The answer where there is no memory before anything is done. Its line is written, or a part of it from the front.
pub fn out_of_memory<O: Sink>(alloc: Global, out: &mut O) -> Answer
    ensures answer { result ≡ Answer.NoMemory Reached.Nothing }
    ensures line { AppendsPrefix (O.taken out.old) (O.taken out.new) no_memory_line }
{
    tell(
        alloc,
        out,
        Answer::NoMemory {
            reached: Reached::Nothing,
        },
    )
}

/// Writes the line of an answer, or, where that fails, a part of it. The answer stays.
pub fn tell<O: Sink>(alloc: Global, out: &mut O, answer: Answer) -> Answer
    ensures same { result ≡ answer }
    ensures prefix { AppendsPrefix (O.taken out.old) (O.taken out.new) (line_of answer) }
    ensures later { O.faults out.old ≤ O.faults out.new }
{
    if let Ok(line) = line(alloc, &answer) {
        let _ = write_all(out, line.as_bytes());
    }
    answer
}

/// The answer where not all is written of what was reached. Its line is written, or, where that fails, a part of it; nothing, where a
/// write on the output failed.
pub fn tell_unwritten<O: Sink>(
    alloc: Global,
    out: &mut O,
    reached: Reached,
    fault: PublishFault,
) -> Answer
    ensures answer { result ≡ unwritten_answer reached fault }
    ensures line { TellsBehind fault (O.taken out.old) (O.taken out.new) result }
    ensures later { O.faults out.old ≤ O.faults out.new }
{
    match fault {
        PublishFault::Write(target) => tell(alloc, out, Answer::WriteFault { target, reached }),
        PublishFault::CutOutput => Answer::NoMemory { reached },
        PublishFault::NoMemory => tell(alloc, out, Answer::NoMemory { reached }),
    }
}

// The line of a fault; an answer without a fault has none.
fn line(alloc: Global, answer: &Answer) -> Result<String, AllocError>
    ensures { IfOk result (λ text. string_bytes text ≡ line_of answer.now) }
{
    match answer {
        Answer::Optimal(_)
        | Answer::Ranged(..)
        | Answer::Infeasible(_)
        | Answer::Irreducible(..)
        | Answer::Unbounded(_)
        | Answer::Translated
        | Answer::Accepted(_) => Ok(String::new(alloc)),
        Answer::Usage => fault_line(alloc, &Fault::Usage),
        Answer::Missing { name, .. } => fault_line(alloc, &Fault::Missing(name)),
        Answer::OpenFault { name, .. } => fault_line(alloc, &Fault::OpenFault(name)),
        Answer::ReadFault { name, .. } => fault_line(alloc, &Fault::ReadFault(name)),
        Answer::WriteFault { target, .. } => target_line(alloc, target),
        Answer::TooLong { name, .. } => fault_line(alloc, &Fault::TooLong(name)),
        Answer::BadText(TextFault::Syntax(fault)) => fault_line(alloc, &Fault::Syntax(*fault)),
        Answer::BadText(TextFault::Data(fault)) => fault_line(alloc, &Fault::Data(*fault)),
        Answer::BadText(TextFault::Model(fault)) => fault_line(alloc, &Fault::Model(*fault)),
        Answer::BadText(TextFault::File(fault)) => fault_line(alloc, &Fault::File(*fault)),
        Answer::FaultBehindSolve { fault, .. } => fault_line(alloc, &Fault::Model(*fault)),
        Answer::Unranged {
            fault: RangeFault::Search(_, VerdictFault::NoFit(_, site)),
            ..
        } => fault_line(alloc, &Fault::Overflow(site.fault)),
        Answer::Unranged {
            fault: RangeFault::Search(_, VerdictFault::PivotLimit(..)),
            ..
        } => fault_line(alloc, &Fault::UndecidedPivots),
        Answer::Unranged {
            fault: RangeFault::Search(_, VerdictFault::SplitLimit(..)),
            ..
        } => fault_line(alloc, &Fault::UndecidedNodes),
        Answer::Unranged {
            fault: RangeFault::Search(_, VerdictFault::NoMemory),
            ..
        } => fault_line(alloc, &Fault::NoMemory),
        Answer::Unranged {
            fault: RangeFault::TooLarge(_),
            ..
        } => "too large\n".to_string(alloc),
        Answer::Unranged {
            fault: RangeFault::Weight(_, _, fault),
            ..
        } => fault_line(alloc, &Fault::Overflow(*fault)),
        Answer::Unranged {
            fault: RangeFault::MovedBound(_, _, _, fault),
            ..
        } => fault_line(alloc, &Fault::Overflow(*fault)),
        Answer::Unranged {
            fault: RangeFault::NoMemory,
            ..
        } => fault_line(alloc, &Fault::NoMemory),
        Answer::BadCertificate(fault) => fault_line(alloc, &Fault::Certificate(*fault)),
        Answer::NotLinear => fault_line(alloc, &Fault::NotLinear),
        Answer::Overflow { fault, .. } => fault_line(alloc, &Fault::Overflow(*fault)),
        Answer::Undecided(Limit::Pivots(..)) => fault_line(alloc, &Fault::UndecidedPivots),
        Answer::Undecided(Limit::SubsetPivots(..)) => fault_line(alloc, &Fault::UndecidedPivots),
        Answer::Undecided(Limit::Splits(..)) => fault_line(alloc, &Fault::UndecidedNodes),
        Answer::Refused(part) => fault_line(alloc, &Fault::Refused(*part)),
        Answer::NoMemory { .. } => fault_line(alloc, &Fault::NoMemory),
    }
}

// The output has no line.
fn target_line(alloc: Global, target: &Target) -> Result<String, AllocError>
    ensures { IfOk result (λ text. string_bytes text ≡ target_line_of target.now) }
{
    match target {
        Target::Out => Ok(String::new(alloc)),
        Target::File(name) => fault_line(alloc, &Fault::WriteFault(name)),
    }
}
