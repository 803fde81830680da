// Why the work stops, by the stage of it that says so.
ghost use Rattle.std.specs.Prelude.{◌≡◌};
ghost use Rattle.glpsol_cli.specs.Stages.{words_answer, unread_answer, check_answer, subset_answer, stop_answer};

use crate::{Answer, Limit, OverflowSite, Reached};
use cert_check::{CheckFault, Part};
use certificate_reader::CertFault;
use command_line::WordsFault;
use infeasible_subset::{StuckAt, SubsetFault, TooLong};
use instance::Name;
use outside::LoadFault;
use stopped_search::Unsolved;

// Why there are no texts.
#[derive(Drop)]
pub enum Stop {
    Words(WordsFault),
    File(Unread),
    NoMemory,
}

// A file that is not read.
#[derive(Drop)]
pub struct Unread {
    pub name: Name,
    pub fault: LoadFault,
}

// Why nothing is found of a problem.
#[derive(Drop)]
pub enum Unfound {
    Solve(Unsolved),
    Check(CheckStop),
    Subset(SubsetFault),
    // a subset is asked for of a problem with integer columns
    NotLinear,
}

// Why a certificate is not accepted.
#[derive(Drop)]
pub enum CheckStop {
    BadText(CertFault),
    Refused(Part),
    NoFit(CheckFault),
    NoMemory,
}

/// The answer that a stop stands for.
pub fn stop_answer(stop: Stop) -> Answer
    ensures { result ≡ stop_answer stop }
{
    match stop {
        Stop::Words(fault) => words_answer(fault),
        Stop::File(unread) => unread_answer(Reached::Nothing, unread),
        Stop::NoMemory => no_memory(Reached::Nothing),
    }
}

fn words_answer(fault: WordsFault) -> Answer
    ensures { result ≡ words_answer fault }
{
    match fault {
        WordsFault::Usage => Answer::Usage,
        WordsFault::NoMemory => no_memory(Reached::Nothing),
    }
}

/// The answer where a file is not read once this was reached.
pub fn unread_answer(reached: Reached, unread: Unread) -> Answer
    ensures { result ≡ unread_answer reached unread.name unread.fault }
{
    let Unread { name, fault } = unread;
    match fault {
        LoadFault::Missing => Answer::Missing { name, reached },
        LoadFault::Open => Answer::OpenFault { name, reached },
        LoadFault::Read => Answer::ReadFault { name, reached },
        LoadFault::TooLong => Answer::TooLong { name, reached },
        LoadFault::NoMemory => no_memory(reached),
    }
}

/// The answer where a certificate is not accepted.
pub fn check_answer(stop: CheckStop) -> Answer
    ensures { result ≡ check_answer stop }
{
    match stop {
        CheckStop::BadText(fault) => Answer::BadCertificate(fault),
        CheckStop::Refused(part) => Answer::Refused(part),
        CheckStop::NoFit(CheckFault { part, fault }) => Answer::Overflow {
            at: OverflowSite::InPart(part),
            fault,
        },
        CheckStop::NoMemory => no_memory(Reached::Executed),
    }
}

/// The answer where no subset is found.
pub fn subset_answer(fault: SubsetFault) -> Answer
    ensures { result ≡ subset_answer fault }
{
    match fault {
        SubsetFault::NoFit(StuckAt { members, fault }) => Answer::Overflow {
            at: OverflowSite::InSubset(members),
            fault,
        },
        SubsetFault::PivotLimit(TooLong { members, bases }) => {
            Answer::Undecided(Limit::SubsetPivots(members, bases))
        }
        SubsetFault::NoMemory => no_memory(Reached::Executed),
    }
}

pub fn no_memory(reached: Reached) -> Answer
    ensures { result ≡ Answer.NoMemory reached }
{
    Answer::NoMemory { reached }
}
