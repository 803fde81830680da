// Expressions, by recursive descent: a function for each production of the grammar.
ghost use Rattle.std.specs.Prelude.{◌≡◌, IfOk, IfSome, ◌∷◌, []};
ghost use Rattle.gmpl_input.specs.Rules.{Reads, further, further_from};
ghost use Rattle.gmpl_words.specs.Operators as operators;
ghost use Rattle.gmpl_expressions.specs.Grammar as spec;

use crate::literals::{number, string};
use crate::reader::Reader;
use crate::trees::is_index;
use gmpl_input::{Cursor, ParseError, list_of_one};
use gmpl_syntax::{
    Entry, Expr, Function, Indexing, Iteration, Link, Operator, Relation, Sign, Suffix,
    index_components,
};
use gmpl_text::Text;
use gmpl_token::TokenKind;
use gmpl_words::{
    Level, denied_relation, fewest_more, function_word, iteration_word, most_more, operator,
    relation, suffix_word,
};
use sqlite_items::{Boxed, Items};
use std::alloc::{AllocError, Global};

// ---- steps that open nothing

fn chained(alloc: Global, first: Expr, links: Items<Link>) -> Result<Expr, AllocError>
    ensures { IfOk result (λ e. e ≡ spec.chained first links) }
{
    if links.is_empty() {
        return Ok(first);
    }
    Ok(Expr::Chain(Boxed::new(alloc, first)?, links))
}

#[tactic(auto, unfolding(crate::specs::Grammar::suffix))]
fn suffix(tokens: &mut Cursor<'_>) -> Result<Suffix, ParseError>
    ensures { Reads (spec.suffix tokens.old) result tokens.new }
{
    match tokens.peek() {
        Some(TokenKind::Name) => match suffix_word(tokens.spelling()) {
            Some(suffix) => {
                tokens.take();
                Ok(suffix)
            }
            None => Err(tokens.refuse()),
        },
        _ => Err(tokens.refuse()),
    }
}

// ---- productions

impl Reader {
    #[cycle(grammar)]
    #[tactic(auto, unfolding(crate::specs::Grammar::reference))]
    fn reference(self, tokens: &mut Cursor<'_>, name: Text) -> Result<Expr, ParseError>
        ensures { Reads (spec.reference (spec.inside self.depth) name tokens.old) result tokens.new }
    {
        let subscripts = if tokens.eat(TokenKind::OpenBracket) {
            self.subscripts(tokens)?
        } else {
            Items::new(self.alloc)
        };
        if tokens.eat(TokenKind::Point) {
            Ok(Expr::Named(name, subscripts, Some(suffix(tokens)?)))
        } else {
            Ok(Expr::Named(name, subscripts, None))
        }
    }

    #[cycle(grammar)]
    #[tactic(auto, unfolding(crate::specs::Grammar::named))]
    fn named(self, tokens: &mut Cursor<'_>) -> Result<Expr, ParseError>
        ensures { Reads (spec.named (spec.inside self.depth) tokens.old) result tokens.new }
    {
        let word = tokens.take();
        let name = Text::new(self.alloc, word)?;
        match tokens.peek() {
            Some(TokenKind::OpenParenthesis) => match function_word(word) {
                Some(function) => {
                    tokens.take();
                    Ok(Expr::Call(function, self.arguments(tokens, function)?))
                }
                None => self.reference(tokens, name),
            },
            Some(TokenKind::OpenBrace) => match iteration_word(word) {
                Some(iteration) => self.iterated(tokens, iteration),
                None => self.reference(tokens, name),
            },
            _ => self.reference(tokens, name),
        }
    }

    #[cycle(grammar)]
    #[tactic(auto, unfolding(crate::specs::Grammar::primary))]
    fn primary(self, tokens: &mut Cursor<'_>) -> Result<Expr, ParseError>
        ensures { Reads (spec.primary (spec.inside self.depth) tokens.old) result tokens.new }
    {
        match tokens.peek() {
            Some(TokenKind::NumericLiteral) => Ok(Expr::Number(number(tokens)?)),
            Some(TokenKind::StringLiteral) => Ok(Expr::Text(string(self.alloc, tokens)?)),
            Some(TokenKind::Name) => self.named(tokens),
            Some(TokenKind::OpenParenthesis) => {
                tokens.take();
                Ok(Expr::Group(self.group(tokens)?))
            }
            Some(TokenKind::OpenBrace) => {
                tokens.take();
                Ok(Expr::Braces(self.braces(tokens)?))
            }
            Some(TokenKind::If) => {
                tokens.take();
                self.conditional(tokens)
            }
            _ => Err(tokens.refuse()),
        }
    }

    #[cycle(grammar)]
    #[tactic(auto, unfolding(crate::specs::Grammar::power))]
    fn power(self, tokens: &mut Cursor<'_>) -> Result<Expr, ParseError>
        ensures { Reads (spec.power (spec.inside self.depth) tokens.old) result tokens.new }
    {
        let base = self.primary(tokens)?;
        if tokens.eat(TokenKind::Power) {
            let base = Boxed::new(self.alloc, base)?;
            Ok(Expr::Power(base, self.exponent(tokens)?))
        } else {
            Ok(base)
        }
    }

    #[cycle(grammar)]
    #[tactic(auto, unfolding(crate::specs::Grammar::signed))]
    fn signed(self, tokens: &mut Cursor<'_>) -> Result<Expr, ParseError>
        ensures { Reads (spec.signed (spec.inside self.depth) tokens.old) result tokens.new }
    {
        match tokens.peek() {
            Some(TokenKind::Plus) => {
                tokens.take();
                self.with_sign(tokens, Sign::Plus)
            }
            Some(TokenKind::Minus) => {
                tokens.take();
                self.with_sign(tokens, Sign::Minus)
            }
            _ => self.power(tokens),
        }
    }

    #[cycle(grammar)]
    #[tactic(auto, unfolding(crate::specs::Grammar::part))]
    fn part(self, tokens: &mut Cursor<'_>, level: Level) -> Result<Expr, ParseError>
        ensures { Reads (spec.part (spec.inside self.depth) level tokens.old) result tokens.new }
    {
        match level {
            Level::Or => self.chain(tokens, Level::And),
            Level::And => self.negation(tokens),
            Level::Union => self.chain(tokens, Level::Inter),
            Level::Inter => self.chain(tokens, Level::Cross),
            Level::Cross => self.range(tokens),
            Level::Join => self.chain(tokens, Level::Sum),
            Level::Sum => self.chain(tokens, Level::Product),
            Level::Product => self.signed(tokens),
        }
    }

    #[cycle(grammar)]
    fn links(self, tokens: &mut Cursor<'_>, level: Level) -> Result<Items<Link>, ParseError>
        ensures { Reads (spec.links (operators.operator level) (spec.part (spec.inside self.depth) level) tokens.old) result tokens.new }
    {
        let mut found = Items::new(self.alloc);
        for _turn in 0..tokens.left() {
            match operator(level, tokens.peek()) {
                None => return Ok(found),
                Some(operator) => {
                    tokens.take();
                    let operand = self.part(tokens, level)?;
                    found.push(Link { operator, operand })?;
                }
            }
        }
        Ok(found)
    }

    #[cycle(grammar)]
    #[tactic(auto, unfolding(crate::specs::Grammar::chain))]
    fn chain(self, tokens: &mut Cursor<'_>, level: Level) -> Result<Expr, ParseError>
        ensures { Reads (spec.chain (operators.operator level) (spec.part (spec.inside self.depth) level) tokens.old) result tokens.new }
    {
        let first = self.part(tokens, level)?;
        let others = self.links(tokens, level)?;
        Ok(chained(self.alloc, first, others)?)
    }

    #[cycle(grammar)]
    #[tactic(auto, unfolding(crate::specs::Grammar::range, crate::specs::Grammar::part))]
    fn range(self, tokens: &mut Cursor<'_>) -> Result<Expr, ParseError>
        ensures { Reads (spec.range (spec.inside self.depth) tokens.old) result tokens.new }
    {
        let first = self.chain(tokens, Level::Join)?;
        if !tokens.eat(TokenKind::DotDot) {
            return Ok(first);
        }
        let first = Boxed::new(self.alloc, first)?;
        let last = self.boxed_chain(tokens, Level::Join)?;
        let step = if tokens.eat(TokenKind::By) {
            Some(self.boxed_chain(tokens, Level::Join)?)
        } else {
            None
        };
        Ok(Expr::Range(first, last, step))
    }

    #[cycle(grammar)]
    fn boxed_chain(self, tokens: &mut Cursor<'_>, level: Level) -> Result<Boxed<Expr>, ParseError>
        ensures { Reads (spec.chain (operators.operator level) (spec.part (spec.inside self.depth) level) tokens.old) result tokens.new }
    {
        Ok(Boxed::new(self.alloc, self.chain(tokens, level)?)?)
    }

    #[cycle(grammar)]
    #[tactic(auto, unfolding(crate::specs::Grammar::part))]
    fn compared(
        self,
        tokens: &mut Cursor<'_>,
        left: Boxed<Expr>,
        relation: Relation,
    ) -> Result<Expr, ParseError>
        ensures { Reads (spec.compared (spec.inside self.depth) left (Some relation) tokens.old) result tokens.new }
    {
        tokens.take();
        let right = self.boxed_chain(tokens, Level::Union)?;
        Ok(Expr::Compared(relation, left, right))
    }

    #[cycle(grammar)]
    #[tactic(auto, unfolding(crate::specs::Grammar::not_related, crate::specs::Grammar::part))]
    fn not_related(self, tokens: &mut Cursor<'_>, left: Boxed<Expr>) -> Result<Expr, ParseError>
        ensures { Reads (spec.not_related (spec.inside self.depth) left tokens.old) result tokens.new }
    {
        tokens.take();
        match denied_relation(tokens.peek()) {
            Some(relation) => self.compared(tokens, left, relation),
            None => Err(tokens.refuse()),
        }
    }

    #[cycle(grammar)]
    #[tactic(auto, unfolding(crate::specs::Grammar::related, crate::specs::Grammar::part))]
    fn related(self, tokens: &mut Cursor<'_>) -> Result<Expr, ParseError>
        ensures { Reads (spec.related (spec.inside self.depth) tokens.old) result tokens.new }
    {
        let left = self.chain(tokens, Level::Union)?;
        match relation(tokens.peek()) {
            Some(relation) => self.compared(tokens, Boxed::new(self.alloc, left)?, relation),
            None => match tokens.peek() {
                Some(TokenKind::Not) => self.not_related(tokens, Boxed::new(self.alloc, left)?),
                _ => Ok(left),
            },
        }
    }

    #[cycle(grammar)]
    #[tactic(auto, unfolding(crate::specs::Grammar::negation))]
    fn negation(self, tokens: &mut Cursor<'_>) -> Result<Expr, ParseError>
        ensures { Reads (spec.negation (spec.inside self.depth) tokens.old) result tokens.new }
    {
        match tokens.peek() {
            Some(TokenKind::Not) => {
                tokens.take();
                self.negated(tokens)
            }
            _ => self.related(tokens),
        }
    }

    // ---- behind an opening token

    #[cycle(grammar)]
    #[tactic(auto, unfolding(crate::specs::Grammar::part))]
    fn further(
        self,
        tokens: &mut Cursor<'_>,
        most: usize,
        mut found: Items<Expr>,
    ) -> Result<Items<Expr>, ParseError>
        ensures { Reads (further_from (spec.union (spec.inside self.depth)) most found tokens.old) result tokens.new }
    {
        for _turn in 0..most {
            if !tokens.eat(TokenKind::Comma) {
                return Ok(found);
            }
            found.push(self.chain(tokens, Level::Union)?)?;
        }
        Ok(found)
    }

    #[cycle(grammar)]
    #[tactic(auto, unfolding(crate::specs::Grammar::group, crate::specs::Grammar::part))]
    fn group(self, tokens: &mut Cursor<'_>) -> Result<Items<Expr>, ParseError>
        ensures { Reads ((spec.inside self.depth).group tokens.old) result tokens.new }
    {
        let inside = self.deeper()?;
        let first = list_of_one(self.alloc, inside.chain(tokens, Level::Or)?)?;
        let all = inside.further(tokens, tokens.left(), first)?;
        tokens.expect(TokenKind::CloseParenthesis)?;
        Ok(all)
    }

    #[cycle(grammar)]
    #[tactic(auto, unfolding(crate::specs::Grammar::subscripts, crate::specs::Grammar::part))]
    fn subscripts(self, tokens: &mut Cursor<'_>) -> Result<Items<Expr>, ParseError>
        ensures { Reads ((spec.inside self.depth).subscripts tokens.old) result tokens.new }
    {
        let inside = self.deeper()?;
        let first = list_of_one(self.alloc, inside.chain(tokens, Level::Union)?)?;
        let all = inside.further(tokens, tokens.left(), first)?;
        tokens.expect(TokenKind::CloseBracket)?;
        Ok(all)
    }

    #[cycle(grammar)]
    #[tactic(auto, unfolding(crate::specs::Grammar::some_arguments, crate::specs::Grammar::part))]
    fn some_arguments(
        self,
        tokens: &mut Cursor<'_>,
        function: Function,
    ) -> Result<Items<Expr>, ParseError>
        ensures { Reads (spec.some_arguments (spec.inside self.depth) function tokens.old) result tokens.new }
    {
        let first = list_of_one(self.alloc, self.chain(tokens, Level::Union)?)?;
        let all = self.further(tokens, most_more(function, tokens.left()), first)?;
        if all.len() < fewest_more(function) + 1 {
            return Err(tokens.refuse());
        }
        tokens.expect(TokenKind::CloseParenthesis)?;
        Ok(all)
    }

    #[cycle(grammar)]
    fn arguments(
        self,
        tokens: &mut Cursor<'_>,
        function: Function,
    ) -> Result<Items<Expr>, ParseError>
        ensures { Reads ((spec.inside self.depth).arguments function tokens.old) result tokens.new }
    {
        let inside = self.deeper()?;
        match function {
            Function::LeftOut => {
                if tokens.eat(TokenKind::CloseParenthesis) {
                    Ok(Items::new(self.alloc))
                } else {
                    inside.some_arguments(tokens, function)
                }
            }
            _ => inside.some_arguments(tokens, function),
        }
    }

    #[cycle(grammar)]
    #[tactic(auto, unfolding(crate::specs::Grammar::part))]
    fn entry_over(self, tokens: &mut Cursor<'_>, index: Expr) -> Result<Entry, ParseError>
        ensures { Reads (spec.entry_over (spec.inside self.depth) index tokens.old) result tokens.new }
    {
        tokens.take();
        let index = index_components(self.alloc, index)?;
        let set = self.chain(tokens, Level::Union)?;
        Ok(Entry {
            index: Some(index),
            set,
        })
    }

    #[cycle(grammar)]
    #[tactic(auto, unfolding(crate::specs::Grammar::entry, crate::specs::Grammar::part))]
    fn entry(self, tokens: &mut Cursor<'_>) -> Result<Entry, ParseError>
        ensures { Reads (spec.entry (spec.inside self.depth) tokens.old) result tokens.new }
    {
        let first = self.chain(tokens, Level::Union)?;
        match tokens.peek() {
            Some(TokenKind::In) => {
                if is_index(&first) {
                    self.entry_over(tokens, first)
                } else {
                    Err(tokens.refuse())
                }
            }
            _ => Ok(Entry {
                index: None,
                set: first,
            }),
        }
    }

    #[cycle(grammar)]
    fn entries(
        self,
        tokens: &mut Cursor<'_>,
        mut found: Items<Entry>,
    ) -> Result<Items<Entry>, ParseError>
        ensures { Reads (further (spec.entry (spec.inside self.depth)) found tokens.old) result tokens.new }
    {
        for _turn in 0..tokens.left() {
            if !tokens.eat(TokenKind::Comma) {
                return Ok(found);
            }
            found.push(self.entry(tokens)?)?;
        }
        Ok(found)
    }

    #[cycle(grammar)]
    #[tactic(auto, unfolding(crate::specs::Grammar::part))]
    fn condition(self, tokens: &mut Cursor<'_>) -> Result<Option<Boxed<Expr>>, ParseError>
        ensures { Reads (spec.condition (spec.inside self.depth) tokens.old) result tokens.new }
    {
        if tokens.eat(TokenKind::Colon) {
            Ok(Some(self.boxed_chain(tokens, Level::Or)?))
        } else {
            Ok(None)
        }
    }

    #[cycle(grammar)]
    #[tactic(auto, unfolding(crate::specs::Grammar::indexing))]
    fn entries_and_condition(self, tokens: &mut Cursor<'_>) -> Result<Indexing, ParseError>
        ensures { Reads (spec.indexing (spec.inside self.depth) tokens.old) result tokens.new }
    {
        let first = list_of_one(self.alloc, self.entry(tokens)?)?;
        let entries = self.entries(tokens, first)?;
        let condition = self.condition(tokens)?;
        tokens.expect(TokenKind::CloseBrace)?;
        Ok(Indexing { entries, condition })
    }

    #[cycle(grammar)]
    fn indexing(self, tokens: &mut Cursor<'_>) -> Result<Indexing, ParseError>
        ensures { Reads ((spec.inside self.depth).indexing tokens.old) result tokens.new }
    {
        self.deeper()?.entries_and_condition(tokens)
    }

    #[cycle(grammar)]
    #[tactic(auto, unfolding(crate::specs::Grammar::braces))]
    fn braces(self, tokens: &mut Cursor<'_>) -> Result<Indexing, ParseError>
        ensures { Reads ((spec.inside self.depth).braces tokens.old) result tokens.new }
    {
        let inside = self.deeper()?;
        if tokens.eat(TokenKind::CloseBrace) {
            Ok(Indexing {
                entries: Items::new(self.alloc),
                condition: None,
            })
        } else {
            inside.entries_and_condition(tokens)
        }
    }

    #[cycle(grammar)]
    #[tactic(auto, unfolding(crate::specs::Grammar::part))]
    fn integrand(self, tokens: &mut Cursor<'_>, iteration: Iteration) -> Result<Expr, ParseError>
        ensures { Reads (spec.integrand (spec.inside self.depth) iteration tokens.old) result tokens.new }
    {
        match iteration {
            Iteration::Setof => self.chain(tokens, Level::Join),
            Iteration::Forall => self.chain(tokens, Level::And),
            Iteration::Exists => self.chain(tokens, Level::And),
            _ => self.chain(tokens, Level::Product),
        }
    }

    #[cycle(grammar)]
    #[tactic(auto, unfolding(crate::specs::Grammar::iterated))]
    fn iterated(self, tokens: &mut Cursor<'_>, iteration: Iteration) -> Result<Expr, ParseError>
        ensures { Reads ((spec.inside self.depth).iterated iteration tokens.old) result tokens.new }
    {
        let inside = self.deeper()?;
        tokens.expect(TokenKind::OpenBrace)?;
        let over = inside.indexing(tokens)?;
        let body = inside.integrand(tokens, iteration)?;
        Ok(Expr::Iterated(iteration, over, Boxed::new(self.alloc, body)?))
    }

    #[cycle(grammar)]
    #[tactic(auto, unfolding(crate::specs::Grammar::conditional, crate::specs::Grammar::part))]
    fn conditional(self, tokens: &mut Cursor<'_>) -> Result<Expr, ParseError>
        ensures { Reads ((spec.inside self.depth).conditional tokens.old) result tokens.new }
    {
        let inside = self.deeper()?;
        let condition = inside.boxed_chain(tokens, Level::Or)?;
        tokens.expect(TokenKind::Then)?;
        let yes = inside.boxed_chain(tokens, Level::Union)?;
        if tokens.eat(TokenKind::Else) {
            let no = inside.boxed_chain(tokens, Level::Union)?;
            Ok(Expr::If(condition, yes, Some(no)))
        } else {
            Ok(Expr::If(condition, yes, None))
        }
    }

    #[cycle(grammar)]
    #[tactic(auto, unfolding(crate::specs::Grammar::with_sign))]
    fn with_sign(self, tokens: &mut Cursor<'_>, sign: Sign) -> Result<Expr, ParseError>
        ensures { Reads ((spec.inside self.depth).with_sign sign tokens.old) result tokens.new }
    {
        let part = self.deeper()?.signed(tokens)?;
        Ok(Expr::Signed(sign, Boxed::new(self.alloc, part)?))
    }

    #[cycle(grammar)]
    #[tactic(auto, unfolding(crate::specs::Grammar::negated))]
    fn negated(self, tokens: &mut Cursor<'_>) -> Result<Expr, ParseError>
        ensures { Reads ((spec.inside self.depth).negated tokens.old) result tokens.new }
    {
        let part = self.deeper()?.negation(tokens)?;
        Ok(Expr::Not(Boxed::new(self.alloc, part)?))
    }

    #[cycle(grammar)]
    fn exponent(self, tokens: &mut Cursor<'_>) -> Result<Boxed<Expr>, ParseError>
        ensures { Reads ((spec.inside self.depth).exponent tokens.old) result tokens.new }
    {
        let part = self.deeper()?.signed(tokens)?;
        Ok(Boxed::new(self.alloc, part)?)
    }
}

// ---- for the statements

impl Reader {
    /// E: an expression of numbers, symbols or sets.
    #[tactic(auto, unfolding(crate::specs::Grammar::expression, crate::specs::Grammar::part))]
    pub fn expression(self, tokens: &mut Cursor<'_>) -> Result<Expr, ParseError>
        ensures { Reads (spec.expression self.depth tokens.old) result tokens.new }
    {
        self.chain(tokens, Level::Union)
    }

    /// L: an expression that may be logical.
    #[tactic(auto, unfolding(crate::specs::Grammar::logical_expression, crate::specs::Grammar::part))]
    pub fn logical_expression(self, tokens: &mut Cursor<'_>) -> Result<Expr, ParseError>
        ensures { Reads (spec.logical_expression self.depth tokens.old) result tokens.new }
    {
        self.chain(tokens, Level::Or)
    }

    /// dom: an indexing expression in braces.
    #[tactic(auto, unfolding(crate::specs::Grammar::indexing_expression))]
    pub fn indexing_expression(self, tokens: &mut Cursor<'_>) -> Result<Indexing, ParseError>
        ensures { Reads (spec.indexing_expression self.depth tokens.old) result tokens.new }
    {
        tokens.expect(TokenKind::OpenBrace)?;
        self.indexing(tokens)
    }
}
