// Small models, evaluated. A row has its answer, what data give, and the model's text, whose last statement is the one that is asked.
use crate::rows::{Subject, check, cut, split};
use crate::texts::{fault_word, form_word, set_word, symbol_word, tuple_word};
use fraction::Frac;
use gmpl_data::{DataTables, Given, LoadedModel};
use gmpl_expr::{
    Context, bounds_of, elements_of, eval_bool, eval_form, eval_num, eval_set, eval_sym,
};
use gmpl_functions::Variable;
use gmpl_lexer::read_tokens;
use gmpl_meaning::Walk;
use gmpl_members::{Members, Value};
use gmpl_parse::parse;
use gmpl_resolved::{Attribute, Declaration, Expr, Indexing, Numbered, Statement};
use gmpl_value::{EvalFault, SetValue, Symbol, Tuple};
use sqlite_items::Items;
use std::alloc::{AllocError, Global};
use std::test::Fail;

// The statement that asks for an expression, by the kind of the row.
fn statement_text(alloc: Global, kind: &str, expression: &str) -> Result<String, AllocError> {
    match kind {
        "s" => format!(in alloc; "param answer symbolic := {expression}; end;"),
        "S" => format!(in alloc; "set answer := {expression}; end;"),
        "b" => format!(in alloc; "param answer := if {expression} then 1; end;"),
        "f" => format!(in alloc; "minimize answer: {expression}; end;"),
        _ => format!(in alloc; "param answer := {expression}; end;"),
    }
}

/// The statements of a model's text that declare, where it is a model.
pub(crate) fn statements_of(
    alloc: Global,
    text: &str,
) -> Result<Option<Items<Numbered>>, AllocError> {
    let tokens = read_tokens(alloc, text.as_bytes())?;
    match parse(alloc, tokens) {
        Ok(model) => Ok(Some(model.statements)),
        Err(_) => Ok(None),
    }
}

fn assigned(attributes: &[Attribute]) -> Option<&Expr> {
    for attribute in attributes {
        if let Attribute::Assigned(value) = attribute {
            return Some(value);
        }
    }
    None
}

/// The expression of the last statement.
pub(crate) fn asked(statements: &[Numbered]) -> Option<&Expr> {
    let Some(last) = statements.last() else {
        return None;
    };
    match &last.statement {
        Statement::Set(set) => assigned(set.attributes.as_slice()),
        Statement::Param(param) => assigned(param.attributes.as_slice()),
        Statement::Objective(objective) => Some(&objective.get().form),
        _ => None,
    }
}

// What stands between `if` and `then`.
fn condition(whole: &Expr) -> &Expr {
    match whole {
        Expr::If(condition, _, _) => condition.get(),
        _ => whole,
    }
}

// Each evaluator is called in a function of its own.
fn symbol(
    alloc: Global,
    context: &mut Context<'_>,
    whole: &Expr,
    bindings: &Tuple,
) -> Result<String, EvalFault> {
    let symbol = eval_sym(alloc, context, whole, bindings)?;
    Ok(symbol_word(alloc, &symbol)?)
}

fn set(
    alloc: Global,
    context: &mut Context<'_>,
    whole: &Expr,
    bindings: &Tuple,
) -> Result<String, EvalFault> {
    let set = eval_set(alloc, context, whole, bindings)?;
    Ok(set_word(alloc, &set)?)
}

fn truth(
    alloc: Global,
    context: &mut Context<'_>,
    whole: &Expr,
    bindings: &Tuple,
) -> Result<String, EvalFault> {
    let truth = eval_bool(alloc, context, condition(whole), bindings)?;
    Ok((if truth { "1" } else { "0" }).to_string(alloc)?)
}

fn form(
    alloc: Global,
    context: &mut Context<'_>,
    whole: &Expr,
    bindings: &Tuple,
) -> Result<String, EvalFault> {
    let form = eval_form(alloc, context, whole, bindings)?;
    Ok(form_word(alloc, &form)?)
}

fn numeral(
    alloc: Global,
    context: &mut Context<'_>,
    whole: &Expr,
    bindings: &Tuple,
) -> Result<String, EvalFault> {
    let number = eval_num(alloc, context, whole, bindings)?;
    Ok(number.text(alloc)?)
}

fn value_word(
    alloc: Global,
    context: &mut Context<'_>,
    kind: &str,
    whole: &Expr,
) -> Result<String, EvalFault> {
    let bindings = Tuple::new(alloc);
    match kind {
        "s" => symbol(alloc, context, whole, &bindings),
        "S" => set(alloc, context, whole, &bindings),
        "b" => truth(alloc, context, whole, &bindings),
        "f" => form(alloc, context, whole, &bindings),
        _ => numeral(alloc, context, whole, &bindings),
    }
}

fn word_of(
    alloc: Global,
    model: &LoadedModel,
    kind: &str,
    whole: &Expr,
) -> Result<String, AllocError> {
    let mut context = Context::new(alloc, model);
    match value_word(alloc, &mut context, kind, whole) {
        Ok(word) => Ok(word),
        Err(fault) => fault_word(alloc, fault),
    }
}

fn asked_word(alloc: Global, model: &LoadedModel, kind: &str) -> Result<String, AllocError> {
    match asked(model.statements.as_slice()) {
        Some(whole) => word_of(alloc, model, kind, whole),
        None => "no expression".to_string(alloc),
    }
}

/// What an expression of this kind comes to behind the statements of a prelude.
pub(crate) fn answer(
    alloc: Global,
    prelude: &str,
    kind: &str,
    expression: &str,
) -> Result<String, AllocError> {
    let statement = statement_text(alloc, kind, expression)?;
    let text = format!(in alloc; "{prelude}{statement}")?;
    match statements_of(alloc, &text)? {
        Some(statements) => answer_of(alloc, statements, kind),
        None => "no model".to_string(alloc),
    }
}

fn answer_of(alloc: Global, statements: Items<Numbered>, kind: &str) -> Result<String, AllocError> {
    let model = LoadedModel {
        statements,
        steps: Items::new(alloc),
        tables: DataTables::empty(alloc),
        solution: None,
    };
    asked_word(alloc, &model, kind)
}

// ---- members: what data give, and the text

// `give 1.2 5` gives the member of the first object with these subscripts a number, `give 1 {5}` a set of one number, `give * 5` a
// default, and `crowd 1` a set's member too many elements. `binary`, which the parser does not take of a variable so far, adds the
// attribute to the first statement.
const MEMBERS: &str = "\
n !Depth => - | param f := f; param answer := f;
n 10 => - | param comb{n in 0..7, k in 0..n} := if k = 0 or k = n then 1 else comb[n-1,k-1] + comb[n-1,k]; param answer := comb[5,2];
n !OutOfDomain => - | param comb{n in 0..7, k in 0..n} := comb[n-1,k]; param answer := comb[5,5];
n 3 => - | param p{1..2} default 3; param answer := p[1];
n !OutOfDomain => - | param p{1..2} default 3; param answer := p[3];
n 4 => give 1 4 | param p{1..2} default 3; param answer := p[1];
n 3 => give 1 4 | param p{1..2} default 3; param answer := p[2];
n 8 => give * 8 | param p{1..2} default 3; param answer := p[2];
n !NoValue => give 1 4 | param p{1..2}; param answer := p[2];
n 11 => give 1 9, give 2 2 | param p{1..2}; param answer := p[1] + p[2];
n !OutOfDomain => give 3 9 | param p{1..2}; param answer := p[3];
n !Restriction => - | param p{i in 1..2}, >= i, default 1; param answer := p[2];
n 1 => - | param p{i in 1..2}, >= i, default 1; param answer := p[1];
n !Restriction => give 1 1/2 | param p{1..2} integer; param answer := p[1];
n 5 => give 1 5 | param p{1..2} integer; param answer := p[1];
n !Restriction => give 1 2 | param p{1..2} binary; param answer := p[1];
n !Restriction => give 1 1/2 | param p{1..2} binary; param answer := p[1];
n 0 => give 1 0 | param p{1..2} binary; param answer := p[1];
n 1 => give 1 1 | param p{1..2} binary; param answer := p[1];
n !Restriction => give 1 4 | param p{1..2} in 1..3; param answer := p[1];
n 3 => give 1 3 | param p{1..2} in 1..3; param answer := p[1];
n !Restriction => give 1 0 | param p{i in 1..2} in 1..1/0, >= i; param answer := p[1];
n !DivZero => give 1 1 | param p{i in 1..2} in 1..1/0, >= i; param answer := p[1];
n !Restriction => give 1 1/2 | param p{i in 1..2}, >= 1/0, integer; param answer := p[1];
n !Restriction => give 1 3 | param p{1..2}, <= 4, <> 3; param answer := p[1];
n !Restriction => give 1 3 | param p{1..2}, < 3; param answer := p[1];
n 3 => give 1 3 | param p{1..2}, > 2, = 3; param answer := p[1];
n 2 => give 1 {2} | set s{1..2} within 1..3; param answer := card(s[1]) + 1;
n !Restriction => give 1 {4} | set s{1..2} within 1..3; param answer := card(s[1]);
n !NoValue => - | set s{1..2} within 1..3; param answer := card(s[1]);
n 3 => - | set s default 1..3; param answer := card(s);
n 4 => - | set s{k in 0..3} := if k = 0 then {1} else s[k-1] union {k+1}; param answer := card(s[3]);
n !TooMany => crowd 1 | set s{1..2} := 1..2; param answer := card(s[1]);
n 2 => crowd 1 | set s{1..2} := 1..2; param answer := card(s[2]);
n !OutOfDomain => crowd 3 | set s{1..2} := 1..2; param answer := card(s[3]);
n !OutOfDomain => - | param p{i in 1..3, j in 1..3: i < j and j < 3} := 1; param answer := p[1,3];
n !NotANumber => - | param p := 'x'; param answer := p;
n 5 => - | param p := '5'; param answer := p;
s 'x => - | param p symbolic := 'x'; param answer symbolic := p;
s '5 => - | param p symbolic := '5'; param answer symbolic := p;
n 0 => - | set s{i in 1..3} := 1..i; param p{i in 1..3, j in s[i]} := i - j; param answer := p[3,3];
n !OutOfDomain => - | set s{i in 1..3} := 1..i; param p{i in 1..3, j in s[i]} := i - j; param answer := p[1,2];
n 7 => - | set s := {(1,2), (3,4)}; param p{(i,j) in s} := i + j; param answer := p[3,4];
n !OutOfDomain => - | set s := {(1,2), (3,4)}; param p{s} := 1; param answer := p[1,4];
n 1 => - | set s := {(1,2), (3,4)}; param p{s, 1..2} := 1; param answer := p[1,2,2];
n !OutOfDomain => - | set s := {(1,2), (3,4)}; param p{k in 1..2, (1,j) in s} := 1; param answer := p[1,3,4];
n 2 => - | set s := {(1,2), (3,4)}; param p{k in 1..2, (1,j) in s} := j; param answer := p[2,1,2];
n !DivZero => - | param p{1/0..2} := 1; param answer := p[1];
n !OutOfDomain => - | param p{1..2, 1..1/0} := 1; param answer := p[3,1];
v 1..10 => - | var y{i in 1..2} >= i, <= 10;
v -..- => - | var y{1..2};
v 3..3 => - | var y{1..2} = 3;
v 0..1 => binary | var y{1..2} >= -3;
v 1/2..1 => binary | var y{1..2} >= 1/2, <= 7;
v 0..-2 => binary | var y{1..2} <= -2;
v !OutOfDomain => - | var y{2..3};
v !DivZero => - | var y{1..2} >= 1/0;
v !NoValue => - | param y{1..2};
e / => - | param y;
e 1/1 2/2 => - | param y{i in 1..2};
e 1/ 2/ => - | param y{1..2};
e 1.2.1/2.1 1.2.2/2.2 => - | set s := {(1,2), (3,4)}; param p{(1,j) in s, k in 1..j};
e 1/1 2/2 !DivZero => - | param p{i in 1..4: 1 / (i - 3) < 0};
e 1.1/1.1 !DivZero => - | param p{i in 2..0 by -1, j in i..2/i: i = j};
";

fn number(word: &str) -> Frac {
    match Frac::read_canonical(word) {
        Ok(number) => number,
        Err(_) => Frac::whole(-9999),
    }
}

fn with_binary(declaration: Declaration) -> Result<Declaration, AllocError> {
    let Declaration {
        head,
        mut attributes,
    } = declaration;
    attributes.push(Attribute::Binary)?;
    Ok(Declaration { head, attributes })
}

fn statement_with_binary(statement: Statement) -> Result<Statement, AllocError> {
    match statement {
        Statement::Var(var) => Ok(Statement::Var(with_binary(var)?)),
        other => Ok(other),
    }
}

// A model of one variable, which is binary.
fn binary(statements: Items<Numbered>) -> Result<Items<Numbered>, AllocError> {
    let mut left = statements;
    let Some(only) = left.pop() else {
        return Ok(left);
    };
    let Numbered {
        steps,
        number,
        line,
        statement,
    } = only;
    let statement = statement_with_binary(statement)?;
    left.push(Numbered {
        steps,
        number,
        line,
        statement,
    })?;
    Ok(left)
}

/// Numbers with points between them.
pub(crate) fn tuple_of(alloc: Global, text: &str) -> Result<Tuple, AllocError> {
    let mut made = Tuple::new(alloc);
    for word in text.split('.') {
        made.push(Symbol::Number(number(word)))?;
    }
    Ok(made)
}

fn value_of(alloc: Global, word: &str) -> Result<Value, AllocError> {
    let Some(inner) = word.strip_prefix('{') else {
        return Ok(Value::Scalar(Symbol::Number(number(word))));
    };
    let mut set = SetValue::new(alloc);
    let element = Tuple::single(alloc, Symbol::Number(number(inner.trim_end_matches('}'))))?;
    match set.insert(element) {
        Ok(_) => Ok(Value::Elements(set)),
        Err(_) => Err(AllocError),
    }
}

fn nothing_given(alloc: Global) -> Given {
    Given {
        values: Members::new(alloc),
        overfull: SetValue::new(alloc),
        default: None,
    }
}

fn crowd(alloc: Global, overfull: &mut SetValue, member: &str) -> Result<(), AllocError> {
    let member = tuple_of(alloc, member)?;
    match overfull.insert(member) {
        Ok(_) => Ok(()),
        Err(_) => Err(AllocError),
    }
}

fn give_value(
    alloc: Global,
    values: &mut Members,
    member: &str,
    word: &str,
) -> Result<(), AllocError> {
    let member = tuple_of(alloc, member)?;
    let value = value_of(alloc, word)?;
    match values.insert(member, value) {
        Ok(()) => Ok(()),
        Err(_) => Err(AllocError),
    }
}

// What one change gives the first object.
fn give(alloc: Global, given: &mut Given, change: &str) -> Result<(), AllocError> {
    let (_, words) = cut(change);
    let (member, word) = cut(words);
    if word.is_empty() {
        return crowd(alloc, &mut given.overfull, member);
    }
    if member == "*" {
        given.default = Some(Symbol::Number(number(word)));
        return Ok(());
    }
    give_value(alloc, &mut given.values, member, word)
}

fn changed(
    alloc: Global,
    statements: Items<Numbered>,
    changes: &str,
) -> Result<LoadedModel, AllocError> {
    let mut statements = statements;
    let mut given = nothing_given(alloc);
    for change in changes.split(", ") {
        match change {
            "-" => {}
            "binary" => statements = binary(statements)?,
            _ => give(alloc, &mut given, change)?,
        }
    }
    model_of(alloc, statements, given)
}

// The model whose first object is given this.
fn model_of(
    alloc: Global,
    statements: Items<Numbered>,
    given: Given,
) -> Result<LoadedModel, AllocError> {
    let mut objects = Items::new(alloc);
    objects.push(given)?;
    Ok(LoadedModel {
        statements,
        steps: Items::new(alloc),
        tables: DataTables { objects },
        solution: None,
    })
}

fn bound_word(alloc: Global, bound: Option<Frac>) -> Result<String, AllocError> {
    match bound {
        Some(number) => number.text(alloc),
        None => "-".to_string(alloc),
    }
}

fn both_bounds(
    alloc: Global,
    lower: Option<Frac>,
    upper: Option<Frac>,
) -> Result<String, AllocError> {
    let lower = bound_word(alloc, lower)?;
    let upper = bound_word(alloc, upper)?;
    format!(in alloc; "{lower}..{upper}")
}

// The bounds of the member with the subscript 1 of the first statement.
fn bounds_word(alloc: Global, model: &LoadedModel) -> Result<String, AllocError> {
    let variable = Variable {
        statement: 0,
        subscripts: tuple_of(alloc, "1")?,
    };
    let mut context = Context::new(alloc, model);
    match bounds_of(alloc, &mut context, &variable) {
        Ok(bounds) => both_bounds(alloc, bounds.lower, bounds.upper),
        Err(fault) => fault_word(alloc, fault),
    }
}

fn domain(statement: &Statement) -> &Option<Indexing> {
    match statement {
        Statement::Set(declaration) | Statement::Param(declaration) | Statement::Var(declaration) =>
            { &declaration.head.domain }
        Statement::Constraint(constraint) => &constraint.get().head.domain,
        Statement::Objective(objective) => &objective.get().head.domain,
    }
}

fn element_word(alloc: Global, tuple: &Tuple, indices: &Tuple) -> Result<String, AllocError> {
    let tuple = tuple_word(alloc, tuple)?;
    let indices = tuple_word(alloc, indices)?;
    format!(in alloc; "{tuple}/{indices}")
}

fn walk_word(alloc: Global, walk: &Walk) -> Result<String, AllocError> {
    let mut made = String::new(alloc);
    for element in walk.elements.as_slice() {
        if !made.is_empty() {
            made.push(' ')?;
        }
        let word = element_word(alloc, &element.tuple, &element.indices)?;
        made.push_str(word.as_str())?;
    }
    match walk.fault {
        Some(fault) => with_fault(alloc, made, fault),
        None => Ok(made),
    }
}

fn with_fault(alloc: Global, made: String, fault: EvalFault) -> Result<String, AllocError> {
    let fault = fault_word(alloc, fault)?;
    format!(in alloc; "{made} {fault}")
}

// What the domain of the last statement goes over: the components, and those of the new indices behind `/`.
fn elements_word(alloc: Global, model: &LoadedModel) -> Result<String, AllocError> {
    match model.statements.as_slice().last() {
        Some(last) => elements_in(alloc, model, domain(&last.statement)),
        None => "no statement".to_string(alloc),
    }
}

fn elements_in(
    alloc: Global,
    model: &LoadedModel,
    domain: &Option<Indexing>,
) -> Result<String, AllocError> {
    let mut context = Context::new(alloc, model);
    let bindings = Tuple::new(alloc);
    match elements_of(alloc, &mut context, domain, &bindings) {
        Ok(walk) => walk_word(alloc, &walk),
        Err(fault) => fault_word(alloc, fault),
    }
}

fn word_in(alloc: Global, model: &LoadedModel, kind: &str) -> Result<String, AllocError> {
    match kind {
        "v" => bounds_word(alloc, model),
        "e" => elements_word(alloc, model),
        _ => asked_word(alloc, model, kind),
    }
}

fn word_behind(
    alloc: Global,
    statements: Items<Numbered>,
    kind: &str,
    changes: &str,
) -> Result<String, AllocError> {
    let model = changed(alloc, statements, changes)?;
    word_in(alloc, &model, kind)
}

fn member_word(alloc: Global, kind: &str, changes: &str, text: &str) -> Result<String, AllocError> {
    match statements_of(alloc, text)? {
        Some(statements) => word_behind(alloc, statements, kind, changes),
        None => "no model".to_string(alloc),
    }
}

// A row is a kind, an answer, what data give and a text.
pub(crate) fn member_row(alloc: Global, row: &str) -> Result<String, AllocError> {
    let (head, asked) = split(row);
    let (kind, _) = cut(head);
    let (changes, text) = asked.split_once(" | ").unwrap_or((asked, ""));
    let found = member_word(alloc, kind, changes, text)?;
    format!(in alloc; "{kind} {found} => {changes} | {text}")
}

#[test]
fn members_of_models(rt: HostRuntime) -> Result<(), Fail> {
    check(&rt, rt.alloc(), &Subject::Members, MEMBERS)
}
