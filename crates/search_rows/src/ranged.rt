// Exact ranges of the costs and bounds of programs.
ghost use Rattle.std.specs.Prelude.{◌≡◌};
ghost use Rattle.verdicts.specs.Certificate.{Optimal as is_optimal};
ghost use Rattle.cert_check.specs.Outcome.{Acceptance, outcome, trials};
ghost use Rattle.branch_search.specs.Plain.{NoneInteger, IsPlainCertificate};

use crate::texts::in_marks;
use branch_search::{has_no_integer_column, solve};
use certificate::{Certificate, Verdict};
use exact_ranges::{RangeFault, Ranges, ranges, ranges_text};
use instance::Instance;
use std::alloc::{AllocError, Global};

/// The text of the ranges at the best point that is found, within a limit of steps, or why there is none.
pub(crate) fn found_ranges(
    alloc: Global,
    problem: &Instance,
    asked: &str,
) -> Result<String, AllocError> {
    if !has_no_integer_column(problem) {
        return "integer columns".to_string(alloc);
    }
    of_continuous(alloc, problem, asked)
}

fn of_continuous(alloc: Global, problem: &Instance, asked: &str) -> Result<String, AllocError>
    requires { NoneInteger problem.now.columns }
{
    let verdict = solve(alloc, problem, 0, 0, 0);
    let words = match &verdict {
        Ok(certificate) => of_certificate(alloc, problem, certificate, asked),
        Err(_) => "no verdict".to_string(alloc),
    };
    std::mem::drop(verdict);
    words
}

fn of_certificate(
    alloc: Global,
    problem: &Instance,
    certificate: &Certificate,
    asked: &str,
) -> Result<String, AllocError>
    requires continuous { NoneInteger problem.now.columns }
    requires plain { IsPlainCertificate problem.now certificate.now }
    requires accepted { outcome (trials problem.now certificate.now) ≡ Acceptance }
{
    match certificate.verdict() {
        Verdict::Optimal => {
            let steps = asked.parse::<u32>().unwrap_or(1);
            let found = ranges(alloc, problem, certificate, steps);
            let words = ranges_words(alloc, &found);
            std::mem::drop(found);
            words
        }
        _ => "no best point".to_string(alloc),
    }
}

fn ranges_words(alloc: Global, found: &Result<Ranges, RangeFault>) -> Result<String, AllocError> {
    match found {
        Ok(ranges) => in_marks(alloc, ranges_text(alloc, ranges)?.as_bytes()),
        Err(RangeFault::Search(_, _)) => "no verdict of an end".to_string(alloc),
        Err(RangeFault::TooLarge(_)) => "too large".to_string(alloc),
        Err(RangeFault::Weight(_, _, _)) => "overflow of weights".to_string(alloc),
        Err(RangeFault::MovedBound(_, _, _, _)) => "overflow of a bound".to_string(alloc),
        Err(RangeFault::NoMemory) => Err(AllocError),
    }
}
