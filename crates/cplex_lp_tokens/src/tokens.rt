// The tokens of a text, some at a time.
ghost use Rattle.std.specs.Prelude.{◌≡◌, ◌||◌, ◌+◌, ◌<◌, ◌≤◌, ◌^◌, ◌++◌, [], true, false, length, IsTrue, IfOk, OnOk};
ghost use Rattle.cplex_lp_tokens.specs.Tokens.{begins_later, tokens_after, tokens_of_line, tokens_of};
ghost use Rattle.cplex_lp_tokens.specs.Left.{TextLeft, whole_text, tokens_left, line_count, bytes_left};

use crate::lines::without_comment;
use crate::scan::scan;
use crate::section_words::{begins_later, mark_left_out, mark_section};
use crate::token::Token;
use model_text::first_line;
use std::alloc::{AllocError, Global};
use std::marker::Model;

// The first tokens of a line and what is left of it, where a section after the constraints has begun before it or not.
fn begin<'a>(
    tokens: &mut Vec<Token<'a>>,
    later: bool,
    line: usize,
    text: &'a [u8],
) -> Result<&'a [u8], AllocError>
    requires { tokens.old.items ≡ [] }
    ensures tokens { IfOk result (λ rest. tokens_of_line later line text.now ≡ tokens.new.items ++ tokens_after line 0 rest.now) }
    ensures later { OnOk result (begins_later (tokens_of_line later line text.now) ≡ begins_later tokens.new.items) }
    ensures within { IfOk result (λ rest. length rest.now ≤ length text.now) }
{
    let rest = scan(tokens, line, without_comment(text))?;
    mark_section(tokens);
    mark_left_out(tokens, later);
    Ok(rest)
}

fn is_later(before: bool, tokens: &[Token]) -> bool
    ensures { result ≡ before || begins_later tokens.now }
{
    before || begins_later(tokens)
}

/// Reads the tokens of a text, some at a time, so that they need not all be there at once.
#[derive(Drop)]
pub struct TokenReader<'a> {
    // the lines that have begun
    line: usize,
    // what is left of the last one, without its comment
    here: &'a [u8],
    // the text behind it
    behind: &'a [u8],
    // a section after the constraints has begun
    later: bool,
}

impl<'a> Model for TokenReader<'a> {
    ghost use Rattle.std.specs.Prelude.{◌+◌, ◌<◌, ◌^◌, length};
    ghost use Rattle.cplex_lp_tokens.specs.Left.{TextLeft};

    ghost Value = { TextLeft };

    ghost view = { λ r. record { line = r.line; here = r.here.now; behind = r.behind.now; later = r.later } };

    ghost invariant = { λ r. r.line + length r.behind.now < 2 ^ 63 };
}

impl<'a> TokenReader<'a> {
    /// No token is read.
    pub fn new(text: &'a [u8]) -> Self
        ensures value { result ≡ whole_text text.now }
        ensures tokens { tokens_left result ≡ tokens_of text.now }
    {
        TokenReader {
            line: 0,
            here: &[],
            behind: text,
            later: false,
        }
    }

    /// How many lines have begun.
    pub fn line(&self) -> usize
        ensures value { result ≡ self.now.line }
        ensures few { result < 2 ^ 63 }
    {
        self.line
    }

    /// All of the text is read.
    pub fn is_ended(&self) -> bool
        ensures tokens { result ≡ true → tokens_left self.now ≡ [] }
        ensures lines { result ≡ true → line_count self.now ≡ self.now.line }
        ensures more { result ≡ false → 0 < bytes_left self.now }
    {
        self.here.is_empty() && self.behind.is_empty()
    }

    /// Reads some more tokens, at most 256 of one line, and none where a line has none.
    pub fn read_more(
        &mut self,
        alloc: Global,
        tokens: &mut Vec<Token<'a>>,
    ) -> Result<(), AllocError>
        ensures tokens { OnOk result (tokens.old.items ++ tokens_left self.old ≡ tokens.new.items ++ tokens_left self.new) }
        ensures lines { OnOk result (line_count self.new ≡ line_count self.old) }
        ensures less { OnOk result (0 < bytes_left self.old → bytes_left self.new < bytes_left self.old) }
    {
        if self.here.is_empty() {
            self.begin_line(alloc, tokens)
        } else {
            self.go_on(alloc, tokens)
        }
    }

    // More tokens of the line.
    fn go_on(&mut self, alloc: Global, tokens: &mut Vec<Token<'a>>) -> Result<(), AllocError>
        requires { 0 < length self.old.here }
        ensures tokens { OnOk result (tokens.old.items ++ tokens_left self.old ≡ tokens.new.items ++ tokens_left self.new) }
        ensures lines { OnOk result (line_count self.new ≡ line_count self.old) }
        ensures less { OnOk result (bytes_left self.new < bytes_left self.old) }
    {
        let mut more = Vec::new(alloc);
        self.here = scan(&mut more, self.line, self.here)?;
        tokens.append(&mut more)
    }

    // The first tokens of the next line, if there is one.
    fn begin_line(&mut self, alloc: Global, tokens: &mut Vec<Token<'a>>) -> Result<(), AllocError>
        requires { self.old.here ≡ [] }
        ensures tokens { OnOk result (tokens.old.items ++ tokens_left self.old ≡ tokens.new.items ++ tokens_left self.new) }
        ensures lines { OnOk result (line_count self.new ≡ line_count self.old) }
        ensures less { OnOk result (0 < bytes_left self.old → bytes_left self.new < bytes_left self.old) }
    {
        let Some((text, behind)) = first_line(self.behind) else {
            return Ok(());
        };
        let mut more = Vec::new(alloc);
        self.here = begin(&mut more, self.later, self.line + 1, text)?;
        self.later = is_later(self.later, &more);
        self.line += 1;
        self.behind = behind;
        tokens.append(&mut more)
    }
}
