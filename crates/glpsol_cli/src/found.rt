// What is found of a problem.
ghost use Rattle.std.specs.Prelude.{◌≡◌};
ghost use Rattle.glpsol_cli.specs.Stages.{reached_by};

use crate::Reached;
use certificate::Certificate;
use infeasible_subset::Subset;
use sqlite_items::Boxed;

// What is found of a problem, as the settings ask.
#[derive(Drop)]
pub enum Finding {
    // the problem's size
    Size,
    // this is the certificate that was to be checked, and it proves its verdict
    Acceptance(Boxed<Certificate>),
    // this certificate proves its verdict
    Verdict(Boxed<Certificate>),
    // the certificate proves that no point is feasible, by the weights of this irreducible infeasible subset
    Subset(Boxed<Certificate>, Boxed<Subset>),
}

impl Finding {
    /// What is reached by it.
    pub fn reached(self) -> Reached
        ensures { result ≡ reached_by self }
    {
        match self {
            Finding::Size => Reached::Size,
            Finding::Acceptance(certificate) => Reached::Acceptance(certificate),
            Finding::Verdict(certificate) => Reached::Verdict(certificate),
            Finding::Subset(certificate, subset) => Reached::Subset(certificate, subset),
        }
    }
}
