// The statements of a model one by one.
ghost use Rattle.std.specs.Prelude.{◌≡◌, ◌∷◌, List, Option, IfOk, OnOk};
ghost use Rattle.gmpl_syntax.specs.declared.fault.SyntaxFault.{SyntaxFault as Fault};
ghost use Rattle.gmpl_syntax.specs.declared.statement.Numbered.{Numbered as Written};
ghost use Rattle.gmpl_names.specs.Statements as spec;

use crate::resolved::Resolved;
use crate::statements::judged;
use crate::{Names, NamesError};
use gmpl_resolved::{Numbered, NumberedStep, Statements};
use gmpl_syntax as written;
use gmpl_syntax::SyntaxFault;
use sqlite_items::Items;
use std::alloc::{AllocError, Global};
use std::marker::Model;

/// The statements whose names are resolved so far, and the names that they declare. It takes each statement by itself, so that its
/// written tree can be given up behind it.
#[derive(Drop)]
pub struct Resolver {
    items: Vec<Numbered>,
    steps: Vec<NumberedStep>,
    objects: Names,
    tables: Names,
}

impl Model for Resolver {
    ghost use Rattle.std.specs.Prelude.{None};
    ghost use Rattle.std.specs.Coded.{codes};
    ghost use Rattle.gmpl_resolved.specs.contracts.expression.Expr as expr;
    ghost use Rattle.gmpl_resolved.specs.contracts.expression.Indexing as indexing;
    ghost use Rattle.gmpl_resolved.specs.contracts.statement.Action as action;
    ghost use Rattle.gmpl_names.specs.Statements.{Resolving};

    ghost Value = { Resolving };

    ghost coded = { Prim.hlevel (codes, expr.the_row.coded, indexing.the_row.coded, action.the_row.coded) };

    ghost view = { λ r. record { made = record { items = r.items.items; steps = r.steps.items; fault = None }; objects = r.objects; tables = r.tables } };
}

impl Resolver {
    /// Before the first statement.
    pub fn new(alloc: Global) -> Self
        ensures { result ≡ spec.nothing_resolved }
    {
        Resolver {
            items: Vec::new(alloc),
            steps: Vec::new(alloc),
            objects: Names::new(alloc),
            tables: Names::new(alloc),
        }
    }

    /// Takes the next statement, of this number, counted from 1. Where its names have a fault, this is the answer, and the statements
    /// end before it.
    pub fn add(
        &mut self,
        alloc: Global,
        number: usize,
        one: &written::Numbered,
    ) -> Result<Option<SyntaxFault>, AllocError>
        ensures { IfOk result (λ own. (xs : List Written) (behind : Option Fault) → spec.resolved_behind self.old number (one.now ∷ xs) behind ≡ spec.goes_on own self.new number xs behind) }
    {
        match judged(alloc, &mut self.objects, &mut self.tables, &one.statement) {
            Ok(resolved) => {
                self.push(alloc, number, one.line, resolved)?;
                Ok(None)
            }
            Err(NamesError::NoMemory) => Err(AllocError),
            Err(NamesError::Fault(kind)) => Ok(Some(SyntaxFault {
                statement: number,
                line: one.line,
                kind,
            })),
        }
    }

    // One more statement with its number and line. A declaration takes the steps since the one before it.
    fn push(
        &mut self,
        alloc: Global,
        number: usize,
        line: usize,
        resolved: Resolved,
    ) -> Result<(), AllocError>
        ensures { OnOk result (self.new ≡ spec.with_resolved self.old number line resolved) }
    {
        match resolved {
            Resolved::Declaration(statement) => {
                let mut steps = std::mem::replace(&mut self.steps, Vec::new(alloc));
                steps.shrink_to_fit();
                self.items.push(Numbered {
                    steps: Items::from_vec(steps),
                    number,
                    line,
                    statement,
                })?;
                Ok(())
            }
            Resolved::Step(step) => {
                self.steps.push(NumberedStep { number, line, step })?;
                Ok(())
            }
            Resolved::Nothing => Ok(()),
        }
    }

    /// The statements up to here, with the fault of the next, if it has one.
    pub fn finish(self, fault: Option<SyntaxFault>) -> Statements
        ensures { result ≡ spec.stopped self.made fault }
    {
        let Resolver { items, steps, .. } = self;
        Statements {
            items: Items::from_vec(items),
            steps: Items::from_vec(steps),
            fault,
        }
    }
}
