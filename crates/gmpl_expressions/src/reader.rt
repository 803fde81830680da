// What reads expressions.
ghost use Rattle.std.specs.Prelude.{◌≡◌};
ghost use Rattle.gmpl_expressions.specs.Grammar as spec;
ghost use Rattle.gmpl_expressions.specs.Grammar.{GoesDeeper};

use gmpl_input::ParseError;
use gmpl_syntax::SyntaxFaultKind;
use std::alloc::Global;

const MAX_DEPTH: usize = 50;

/// Reads expressions where as many more tokens may be open as `depth` says.
#[derive(Clone, Copy)]
pub struct Reader {
    pub alloc: Global,
    pub depth: usize,
}

impl Reader {
    /// Where nothing is open yet.
    pub fn new(alloc: Global) -> Reader
        ensures { result.depth ≡ spec.max_depth }
    {
        Reader {
            alloc,
            depth: MAX_DEPTH,
        }
    }

    /// Behind one more opening token.
    #[tactic(auto, unfolding(crate::specs::Grammar::inside))]
    pub fn deeper(self) -> Result<Reader, ParseError>
        ensures { GoesDeeper self.depth result }
    {
        if self.depth == 0 {
            Err(ParseError::Fault(SyntaxFaultKind::TooDeep))
        } else {
            Ok(Reader {
                alloc: self.alloc,
                depth: self.depth - 1,
            })
        }
    }
}
