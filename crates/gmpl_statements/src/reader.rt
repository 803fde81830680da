// The statements of a model one by one, up to its end or to the first bad one.
ghost use Rattle.std.specs.Prelude.{◌≡◌, ℕ, suc, ◌+◌, ◌<◌, ◌^◌, length, IfOk};
ghost use Rattle.gmpl_statements.specs.Statements as spec;

use crate::ahead::{
    end_of, is_data_statement, is_end_statement, is_solve, line_at, second_place, unread,
};
use crate::statement::statement;
use gmpl_input::{Cursor, ParseError};
use gmpl_syntax::{Numbered, SyntaxFault};
use gmpl_token::{LexFault, Tokens};
use std::alloc::{AllocError, Global};
use std::marker::Model;

/// What comes next in a model.
#[derive(Drop)]
pub enum Next {
    /// A statement.
    Statement(Numbered),
    /// `data`, the last statement: the line of its first token, and how many bytes of the text stand before its semicolon, behind
    /// which the data section begins.
    Data { line: usize, at: usize },
    /// None: the model ends here, or its first bad statement begins.
    End(Option<SyntaxFault>),
}

/// Reads the statements of a model one by one, and gives up their tokens behind it.
#[derive(Drop)]
pub struct StatementReader<'a> {
    tokens: Cursor<'a>,
    fault: Option<LexFault>,
    solved: bool,
}

impl<'a> Model for StatementReader<'a> {
    ghost use Rattle.gmpl_statements.specs.Statements.{Reading};

    ghost Value = { Reading };

    ghost view = { λ r. record { input = r.tokens; fault = r.fault; solved = r.solved } };
}

impl<'a> StatementReader<'a> {
    /// Before the statements of a model with these tokens.
    pub fn new(tokens: Tokens<'a>) -> Self
        ensures { result ≡ spec.beginning tokens.entry }
    {
        let fault = tokens.fault();
        StatementReader {
            tokens: Cursor::new(tokens.into_vec(), end_of(fault)),
            fault,
            solved: false,
        }
    }

    /// How many tokens are left, of which each statement takes one at least: so many that one more can be counted.
    pub fn left(&self) -> usize
        ensures count { result ≡ length self.now.input.rest }
        ensures countable { result + 1 < 2 ^ 64 }
    {
        self.tokens.left()
    }

    /// What comes next; the number, counted from 1, is of the statement that is to come.
    #[tactic(auto, unfolding(crate::specs::Statements::statements_from))]
    pub fn next(&mut self, alloc: Global, number: usize) -> Result<Next, AllocError>
        ensures { IfOk result (λ next. (n : ℕ) → spec.statements_left (suc n) number self.old ≡ spec.behind_next next (spec.statements_left n (number + 1) self.new)) }
    {
        if self.tokens.left() == 0 {
            return Ok(Next::End(unread(number, self.fault)));
        }
        if is_end_statement(&self.tokens) {
            return Ok(Next::End(None));
        }
        let line = line_at(self.tokens.rest());
        if is_data_statement(&self.tokens) {
            let at = second_place(self.tokens.rest());
            return Ok(Next::Data { line, at });
        }
        match statement(alloc, &mut self.tokens, self.solved) {
            Ok(statement) => {
                self.tokens.give_back();
                self.solved = self.solved || is_solve(&statement);
                Ok(Next::Statement(Numbered { line, statement }))
            }
            Err(ParseError::Fault(kind)) => Ok(Next::End(Some(SyntaxFault {
                statement: number,
                line,
                kind,
            }))),
            Err(ParseError::NoMemory) => Err(AllocError),
        }
    }

    /// Why no statement comes where no token is left; the number is that of the statement that would come.
    #[tactic(auto, unfolding(crate::specs::Statements::statements_from))]
    pub fn end(&self, number: usize) -> Option<SyntaxFault>
        ensures { spec.statements_left 0 number self.now ≡ spec.ended result }
    {
        unread(number, self.fault)
    }
}
