// Irreducible infeasible subsets of the bounds of programs.
ghost use Rattle.std.specs.Prelude.{◌≡◌, IfOk};
ghost use Rattle.cert_check.specs.Outcome.{Acceptance, outcome, trials};
ghost use Rattle.branch_search.specs.Plain.{NoneInteger, IsPlainCertificate};
ghost use Rattle.infeasible_subset.specs.Subsets.{AreAccepted};

use crate::texts::in_marks;
use branch_search::{has_no_integer_column, solve};
use certificate::{Certificate, Verdict, text};
use infeasible_subset::{Member, Side, Subset, SubsetFault, Witness, subset};
use instance::Instance;
use std::alloc::{AllocError, Global};

/// The members of a subset that is found within a limit of steps, or why there is none. Behind the word `certificate` the
/// certificate of its weights.
pub(crate) fn found_subset(
    alloc: Global,
    problem: &Instance,
    asked: &str,
) -> Result<String, AllocError> {
    if !has_no_integer_column(problem) {
        return "integer columns".to_string(alloc);
    }
    of_continuous(alloc, problem, asked)
}

fn of_continuous(alloc: Global, problem: &Instance, asked: &str) -> Result<String, AllocError>
    requires { NoneInteger problem.now.columns }
{
    let verdict = solve(alloc, problem, 0, 0, 0);
    let words = match &verdict {
        Ok(certificate) => of_certificate(alloc, problem, certificate, asked),
        Err(_) => "no verdict".to_string(alloc),
    };
    std::mem::drop(verdict);
    words
}

fn of_certificate(
    alloc: Global,
    problem: &Instance,
    certificate: &Certificate,
    asked: &str,
) -> Result<String, AllocError>
    requires continuous { NoneInteger problem.now.columns }
    requires plain { IsPlainCertificate problem.now certificate.now }
    requires accepted { outcome (trials problem.now certificate.now) ≡ Acceptance }
{
    let (word, number) = asked.split_once(' ').unwrap_or(("", asked));
    match certificate.verdict() {
        Verdict::Infeasible => {
            let steps = number.parse::<u32>().unwrap_or(1);
            let found = subset(alloc, problem, certificate, steps);
            let words = subset_words(alloc, problem, word, &found);
            std::mem::drop(found);
            words
        }
        _ => "feasible".to_string(alloc),
    }
}

fn subset_words(
    alloc: Global,
    problem: &Instance,
    word: &str,
    found: &Result<Subset, SubsetFault>,
) -> Result<String, AllocError>
    requires { IfOk found.now (λ s. AreAccepted problem.now s.weights) }
{
    match found {
        Ok(subset) => match word {
            "certificate" => certificate_words(alloc, problem, subset),
            _ => members_words(alloc, subset.witnesses.as_slice()),
        },
        Err(SubsetFault::NoFit(_)) => "overflow".to_string(alloc),
        Err(SubsetFault::PivotLimit(_)) => "steps".to_string(alloc),
        Err(SubsetFault::NoMemory) => Err(AllocError),
    }
}

// The certificate of the subset's weights, as a row has it.
fn certificate_words(
    alloc: Global,
    problem: &Instance,
    subset: &Subset,
) -> Result<String, AllocError>
    requires { AreAccepted problem.now subset.now.weights }
{
    let certificate = subset.certificate(alloc, problem)?;
    let text = text(alloc, &certificate);
    std::mem::drop(certificate);
    in_marks(alloc, &text?)
}

// The members, a word each, with the numbers of rows and columns from 1.
fn members_words(alloc: Global, witnesses: &[Witness]) -> Result<String, AllocError> {
    let mut words = String::new(alloc);
    for witness in witnesses {
        let word = member_word(alloc, &witness.member)?;
        words.push_str(&word)?;
        words.push(' ')?;
    }
    words.trim().to_string(alloc)
}

fn member_word(alloc: Global, member: &Member) -> Result<String, AllocError> {
    let (kind, place, side) = match member {
        Member::OfRow(place, side) => ("row", *place, *side),
        Member::OfColumn(place, side) => ("column", *place, *side),
    };
    let number = place.saturating_add(1);
    match side {
        Side::Lower => format!(in alloc; "{kind}:{number}:lower"),
        Side::Upper => format!(in alloc; "{kind}:{number}:upper"),
    }
}
