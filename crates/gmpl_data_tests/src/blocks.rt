// Data texts with what they give to the objects of a model, or with their first bad block.
use crate::rows::{Subject, check};
use gmpl_blocks::{DataFault, DataFaultKind};
use gmpl_data::{DataTables, Given};
use gmpl_lexer::read_data_tokens;
use gmpl_load::{DataObject, DataSort, DataSource, LoadError, load};
use gmpl_member_names::symbol_text;
use gmpl_members::Value;
use gmpl_token::Tokens;
use gmpl_value::{SetValue, Symbol, Tuple};
use model_text::Names;
use std::alloc::{AllocError, Global};
use std::test::Fail;

// A row has what is given and the text, in which `$` is a line feed, and `|` parts two texts. What is given to an object stands
// behind its name: of each member its subscripts behind points and its value behind `=`, and then the default behind `*=`. A
// fault is its kind behind `!`, the number of the block and its line. `-` stands for nothing.
//
// The objects are the parameters z without subscripts, p, q and r with one, c and d with two and t with three, h with one and an
// expression; the sets S of dimension 1, A of 2, B of 3, M of dimension 1 with a subscript, H with an expression; and x, which is
// neither.

// Parameters.
const PARAMETERS: &str = "\
- =>
p.1=9 p.2=9 => param p := 1 9 2 9;
p.1=9 p.2=9 => param p := 1 9, 2 9;
p.1=9 p.2=9 => param p := 1, 9, 2, 9;
p.1=9 p.2=9 => param p 1 9 2 9;
z=5 => param z := 5;
z=5 => param z 5;
z=-5/2 => param z := -2.5;
z=a-b => param z := a-b;
z='1 2' => param z := '1 2';
z=1 p.'1'=1 => param z := 1; param p := '1' 1;
p.'it''s'=x => param p := 'it''s' \"x\";
p*=0 => param p default 0;
p*=0 => param p default 0 := ;
p.1=2 p*=a => param p default a := 1 2;
p.1=2 p*=0 => param p := 1 2; param p default 0;
p.1=2 p.3=4 => param p := 1 2; param p := 3 4;
p.1=2 p.3=4 => param p := 1 2 := 3 4;
- => param p := ;
- => param p;
c.1.2=3 c.4.5=6 => param c := 1 2 3 4 5 6;
c.1.2=3 c.1.4=5 => param c := [1,*] 2 3 4 5;
c.1.2=3 c.4.2=5 => param c := [*,2] 1 3, 4 5;
c.1.2=3 c.4.5=6 => param c := [1,2] 3 [4,5] 6;
c.1.2=3 c.1.4=5 c.6.7=8 => param c := [1,*] 2 3 4 5 [6,*] 7 8;
c.1.2=3 c.4.5=6 => param c := [1,2] 3, [*,*] 4 5 6;
t.1.2.3=4 => param t := [1,*,3] 2 4;
t.1.2.3=4 t.1.5.6=7 => param t := [1 * *] 2 3 4 5 6 7;
c.1.1=3 c.1.2=4 c.2.1=5 c.2.2=6 => param c : 1 2 := 1 3 4 2 5 6;
c.1.1=3 c.2.1=4 c.1.2=5 c.2.2=6 => param c (tr) : 1 2 := 1 3 4 2 5 6;
c.1.1=3 c.2.1=4 => param c (tr): 1 2 := 1 3 4;
c.1.1=3 c.2.1=4 c.5.1=6 => param c (tr) : 1 2 := 1 3 4 : 5 := 1 6;
t.1.7.2=3 t.5.2.7=4 => param t := [1,*,*] (tr) : 7 := 2 3 [5,*,*] : 7 := 2 4;
c.1.2=4 c.2.1=5 => param c : 1 2 := 1 . 4 2 5 .;
c.1.1='.' => param c : 1 := 1 '.';
c.1.1=3 c.1.2=4 c.1.3=5 => param c : 1 2 := 1 3 4 : 3 := 1 5;
c.1.1=3 c.7.8=9 => param c : 1 := 1 3 := 7 8 9;
c.1.1=3 c.1.2=4 c.2.1=5 c.2.2=6 => param c : 1, 2 := 1, 3, 4, 2, 5, 6;
t.1.7.2=3 t.1.8.2=4 => param t [1,*,*] : 2 := 7 3 8 4;
t.1.7.2=3 t.1.8.2=4 => param t := [1,*,*] (tr) : 7 8 := 2 3 4;
t.7.1.2=3 t.8.1.2=4 t.7.5.2=6 t.8.5.2=9 => param t [*,1,*] : 2 := 7 3 8 4 [*,5,*] : 2 := 7 6 8 9;
c.1.1=3 c*=0 => param c default 0 : 1 2 := 1 3 .;
c.default.tr=1 => param c := default tr 1;
p.'*'=1 => param p := '*' 1;
";

// Sets.
const SETS: &str = "\
S={} => set S := ;
S={} => set S;
S={a,b,1} => set S := a b 1;
S={a,b} => set S := a, b;
S={b,a} => set S := b; set S := a;
S={'1',1} => set S := '1' 1;
S={'+','-','.'} => set S := + - .;
A={1.2,3.4} => set A := 1 2 3 4;
A={1.2,3.4} => set A := (1,2) (3,4);
A={1.2,3.4} => set A := (1,2), (3 4);
A={1.2,3.4} => set A := 1,2 3,4;
A={1.2,1.3,4.3} => set A := (1,*) 2 3 (*,3) 4;
A={1.2,1.3} => set A := (1,*) 2, 3;
A={1.2,3.1} => set A : 1 2 3 := 1 - + - 3 + - -;
A={2.1,1.3} => set A (tr) : 1 2 3 := 1 - + - 3 + - -;
A={1.3,5.4} => set A (tr) : 1 2 := 3 + - : 5 := 4 +;
A={1.3,4.5} => set A (tr) : 1 2 := 3 + - (*,*) : 5 := 4 +;
A={1.1,2.2} => set A : 1 2 := 1 + - 2 - +;
A={1.1,7.8} => set A : 1 := 1 + := 7 8;
A={tr.1} => set A := (tr,1);
B={1.2.3,1.4.5} => set B := (1,*,*) 2 3 4 5;
B={1.2.7,1.3.8} => set B := (1,*,*) : 7 8 := 2 + - 3 - +;
B={7.1.2,8.1.3} => set B := (*,1,*) (tr) : 7 8 := 2 + - 3 - +;
S={tr} => set S := (tr);
S={tr,a} => set S := (tr) (*) a;
M.1={a,b} M.2={} => set M[1] := a b; set M[2] := ;
M.1={a,b} => set M[1] := a; set M[1] := b;
M.a={1,2} => set M[a] := 1; set M['a'] := 2;
";

// Several parameters in one block.
const TABBING: &str = "\
p.1=2 p.4=5 q.1=3 q.4=6 => param : p q := 1 2 3 4 5 6;
p.1=2 p.4=5 q.1=3 q.4=6 => param : p, q := 1, 2, 3, 4, 5, 6;
p.1=2 q.4=6 S={1,4} => param : S : p q := 1 2 . 4 . 6;
p.1=2 p*=0 q.1=3 q*=0 => param default 0 : p q := 1 2 3;
c.1.2=3 d.1.2=4 A={1.2} => param : A : c d := 1 2 3 4;
p.1=2 S={a,1} => set S := a; param : S : p := 1 2;
z=5 => param : z := 5;
!Unknown 1 1 => param default : p := 1 2;
p.1=2 S={1} => param : S : p := 1 2;
- => param : p q := ;
S={} => param : S : p := ;
p.1=2 q.3=4 S={1,3} => param : S : p := 1 2; param : S : q := 3 4;
";

// Where data begin and end.
const ENDS: &str = "\
z=1 => data; param z := 1;
z=1 => param z := 1; end;
z=1 => data; param z := 1; end; param q { / *
- => data;
- => end;
z=1 p.2=3 => param z := 1; | param p := 2 3;
z=1 p.2=3 => data; param z := 1; end; | data; param p := 2 3; end;
!Twice 2 1 => param z := 1; | param z := 2;
!Unknown 3 2 => param z := 1; set S := a; | $param y := 2;
!Unended 1 1 => data
!BadForm 1 1 => data param z := 1;
!Unended 2 1 => param z := 1; end
!BadForm 2 1 => param z := 1; end z;
!BadForm 2 1 => param z := 1; data;
";

// The section of a model begins behind its `data;`.
const SECTIONS: &str = "\
z=1 => param z := 1;
z=1 => param z := 1; end; data;
- =>
- => end;
!BadForm 1 1 => data; param z := 1;
!BadForm 1 2 => $data;
!BadForm 1 1 => data
!BadForm 2 1 => param z := 1; data; param p := 2 3;
";

// First faults.
const FAULTS: &str = "\
!Unknown 1 1 => param y := 1;
!Unknown 1 1 => param x := 1;
!Unknown 1 1 => param S := 1;
!Unknown 1 1 => set p := 1;
!Unknown 1 1 => set x := 1;
!Unknown 1 1 => param a-b := 1;
!HasExpression 1 1 => param h := 1 2;
!HasExpression 1 1 => set H := 1;
!HasExpression 1 1 => param : H : p := 1 2;
!HasExpression 1 1 => param : p h := 1 2 3;
!Unknown 1 1 => param : p y := 1 2 3;
!Unknown 1 1 => param : p : q := 1 2 3;
!Twice 1 1 => param p := 1 2 1 3;
!Twice 2 2 => param p := 1 2;$param p := 1 2;
!Twice 1 1 => param z := 1 2;
!Twice 1 1 => param c : 1 1 := 1 3 4;
!Twice 1 1 => param c := [1,2] 3 [1,2] 3;
!Twice 2 1 => param p default 1; param p default 1;
!Twice 2 1 => param p default 1; param default 2 : p := ;
!Twice 1 1 => set S := a b a;
!Twice 2 1 => set S := a; set S := b a;
!Twice 1 1 => set A := (1,2) (*,*) 1 2;
!Twice 1 1 => set A : 1 := 1 + 1 +;
A={1.1} => set A : 1 := 1 + 1 -;
!Twice 1 1 => param : S : p := 1 . 1 .;
!Twice 1 1 => param : p p := 1 2 3;
!Twice 2 1 => param : S : p := 1 2; set S := 2 1;
!WrongDimension 1 1 => param p := [1,*] 2;
!WrongDimension 1 1 => param c := [1] 2;
!WrongDimension 1 1 => param p : 1 := 2 3;
!WrongDimension 1 1 => param t : 1 := 2 3;
!WrongDimension 1 1 => param c := [1,*] : 1 := 2 3;
!WrongDimension 1 1 => set S := (a,b);
!WrongDimension 1 1 => set S : 1 := 1 +;
!WrongDimension 1 1 => set M := a;
!WrongDimension 1 1 => set M
!BadByte 1 1 => set M {
!UnendedString 1 1 => set M 'a
!WrongDimension 1 1 => set M[1,2] := a;
!WrongDimension 1 1 => set S[1] := a;
!WrongDimension 1 1 => param : p c := 1 2 3;
!WrongDimension 1 1 => param : S : c := 1 2 3;
!WrongDimension 1 1 => param : M : p := 1 2;
!BadForm 1 1 => p := 1;
!BadForm 1 1 => param := 1;
!BadForm 1 1 => param 'p' := 1;
!BadForm 1 1 => param 5 := 1;
!BadForm 1 1 => param p := 1;
!BadForm 1 1 => param p := 1 2 3;
!BadForm 1 1 => param p := , 1 2;
!BadForm 1 1 => param p := 1 2,;
!BadForm 1 1 => param p := 1 2,, 3 4;
!BadForm 1 1 => param p := 1,, 2;
!BadForm 1 1 => param p := 1 2 (3);
!BadForm 1 1 => param c (tr) 1 2 3;
!BadForm 1 1 => param c ('tr') : 1 := 1 2;
!BadForm 1 1 => param c : 1 2 := 1 3;
!BadForm 1 1 => param c : := 1 3;
!BadForm 1 1 => param c := [,1] 2;
!BadForm 1 1 => param c := [] 2;
!BadForm 1 1 => param p default;
!BadForm 1 1 => param p := 1 *;
!BadForm 1 1 => set A := 1 2 3;
!BadForm 1 1 => set A := (1,2) 3 4 : 1 := 1 *;
!BadForm 1 1 => set A := (1,2) 3;
!BadForm 1 1 => set A : 1 := 1 1;
!BadForm 1 1 => set A : 1 := 1 '+';
!BadForm 1 1 => set A := [1,2];
!BadForm 1 1 => set M[*] := a;
!BadForm 1 1 => set M[] := a;
!BadForm 1 1 => set S := a,;
!BadForm 1 1 => param : p q := 1 2;
!BadForm 1 1 => param : := 1 2;
!BadForm 1 1 => param : p := , 1 2;
!Unended 1 1 => param p := 1
!Unended 1 1 => param p := 1 2
!Unended 1 1 => param
!Unended 1 1 => set S := a,
!Unended 1 1 => param p := [1
!Unended 2 3 => set S := a;$$set S := b
!BadByte 1 1 => param p := 1 { 2;
!BadByte 2 2 => param z := 1;$ {
!TooWide 1 1 => param p := 1 1e99;
!UnendedString 1 1 => param p := 1 'a
!UnendedComment 1 1 => param z := 1 /* a
!UnendedComment 2 1 => param z := 1; /* a
!Unknown 1 1 => param y := 1,,
!Twice 1 1 => param p := 1 2 1 3 {
!WrongDimension 1 1 => param p := [1,2] {
";

const NAMES: &str = "z p q r c d t h S A B M H x";

fn object(name: &str) -> DataObject {
    let (sort, subscripts) = match name {
        "z" => (DataSort::Parameter, 0),
        "p" => (DataSort::Parameter, 1),
        "q" => (DataSort::Parameter, 1),
        "r" => (DataSort::Parameter, 1),
        "h" => (DataSort::Parameter, 1),
        "c" => (DataSort::Parameter, 2),
        "d" => (DataSort::Parameter, 2),
        "t" => (DataSort::Parameter, 3),
        "S" => (DataSort::Set(1), 0),
        "H" => (DataSort::Set(1), 0),
        "A" => (DataSort::Set(2), 0),
        "B" => (DataSort::Set(3), 0),
        "M" => (DataSort::Set(1), 1),
        _ => (DataSort::Other, 0),
    };
    DataObject {
        sort,
        subscripts,
        has_expression: name == "h" || name == "H",
    }
}

fn names(alloc: Global) -> Result<Names<'static>, AllocError> {
    let mut names = Names::new(alloc);
    for name in NAMES.split(' ') {
        match names.place(name) {
            Some(_) => {}
            None => names.push(name)?,
        }
    }
    Ok(names)
}

fn objects(alloc: Global) -> Result<Vec<DataObject>, AllocError> {
    let mut objects = Vec::new(alloc);
    for name in NAMES.split(' ') {
        objects.push(object(name))?;
    }
    Ok(objects)
}

// ---- answers

fn push_tuple(
    alloc: Global,
    answer: &mut String,
    between: char,
    tuple: &Tuple,
) -> Result<(), AllocError> {
    let mut is_first = true;
    for symbol in tuple.symbols() {
        if !is_first {
            answer.push(between)?;
        }
        is_first = false;
        answer.push_str(symbol_text(alloc, symbol)?.as_str())?;
    }
    Ok(())
}

fn set_text(alloc: Global, set: &SetValue) -> Result<String, AllocError> {
    let mut made = String::new(alloc);
    for tuple in set.elements() {
        if !made.is_empty() {
            made.push(',')?;
        }
        push_tuple(alloc, &mut made, '.', tuple)?;
    }
    format!(in alloc; "{{{made}}}")
}

fn value_text(alloc: Global, value: &Value) -> Result<String, AllocError> {
    match value {
        Value::Scalar(symbol) => symbol_text(alloc, symbol),
        Value::Elements(set) => set_text(alloc, set),
    }
}

fn push_word(answer: &mut String, word: &str) -> Result<(), AllocError> {
    if !answer.is_empty() {
        answer.push(' ')?;
    }
    answer.push_str(word)
}

fn member_text(
    alloc: Global,
    name: &str,
    subscripts: &Tuple,
    value: &Value,
) -> Result<String, AllocError> {
    let mut made = name.to_string(alloc)?;
    if subscripts.len() > 0 {
        made.push('.')?;
    }
    push_tuple(alloc, &mut made, '.', subscripts)?;
    made.push('=')?;
    made.push_str(value_text(alloc, value)?.as_str())?;
    Ok(made)
}

fn push_default(
    alloc: Global,
    answer: &mut String,
    name: &str,
    value: &Symbol,
) -> Result<(), AllocError> {
    let text = symbol_text(alloc, value)?;
    let word = format!(in alloc; "{name}*={text}")?;
    push_word(answer, word.as_str())
}

fn push_given(
    alloc: Global,
    answer: &mut String,
    name: &str,
    given: &Given,
) -> Result<(), AllocError> {
    for place in 0..given.values.len() {
        if let Some((subscripts, value)) = given.values.entry(place) {
            let word = member_text(alloc, name, subscripts, value)?;
            push_word(answer, word.as_str())?;
        }
    }
    match &given.default {
        Some(value) => push_default(alloc, answer, name, value),
        None => Ok(()),
    }
}

fn tables_text(alloc: Global, tables: &DataTables) -> Result<String, AllocError> {
    let mut answer = String::new(alloc);
    let mut place: usize = 0;
    for name in NAMES.split(' ') {
        if let Some(given) = tables.objects.get(place) {
            push_given(alloc, &mut answer, name, given)?;
        }
        place = place.wrapping_add(1);
    }
    if answer.is_empty() {
        answer.push('-')?;
    }
    Ok(answer)
}

fn kind_text(kind: DataFaultKind) -> &'static str {
    match kind {
        DataFaultKind::BadByte => "BadByte",
        DataFaultKind::UnendedString => "UnendedString",
        DataFaultKind::UnendedComment => "UnendedComment",
        DataFaultKind::TooWide => "TooWide",
        DataFaultKind::BadForm => "BadForm",
        DataFaultKind::Unknown => "Unknown",
        DataFaultKind::HasExpression => "HasExpression",
        DataFaultKind::WrongDimension => "WrongDimension",
        DataFaultKind::Twice => "Twice",
        DataFaultKind::Unended => "Unended",
    }
}

fn fault_text(alloc: Global, fault: DataFault) -> Result<String, AllocError> {
    format!(in alloc; "!{} {} {}", kind_text(fault.kind), fault.block, fault.line)
}

fn loaded(
    alloc: Global,
    source: DataSource,
    texts: &[Tokens<'_>],
) -> Result<DataTables, LoadError> {
    let names = names(alloc)?;
    let objects = objects(alloc)?;
    load(alloc, &names, &objects, source, texts)
}

fn answer_text(
    alloc: Global,
    source: DataSource,
    texts: &[Tokens<'_>],
) -> Result<String, AllocError> {
    match loaded(alloc, source, texts) {
        Ok(tables) => tables_text(alloc, &tables),
        Err(LoadError::Fault(fault)) => fault_text(alloc, fault),
        Err(LoadError::NoMemory) => Err(AllocError),
    }
}

fn tokens_of<'a>(
    alloc: Global,
    first: &'a str,
    second: &'a str,
) -> Result<Vec<Tokens<'a>>, AllocError> {
    let mut texts = Vec::new(alloc);
    texts.push(read_data_tokens(alloc, first.as_bytes(), 0)?)?;
    texts.push(read_data_tokens(alloc, second.as_bytes(), 0)?)?;
    Ok(texts)
}

/// What the one or two texts of a row give, or their first fault.
pub(crate) fn given_word(
    alloc: Global,
    source: DataSource,
    asked: &str,
) -> Result<String, AllocError> {
    let (first, second) = asked.split_once(" | ").unwrap_or((asked, ""));
    let texts = tokens_of(alloc, first, second)?;
    answer_text(alloc, source, &texts)
}

#[test]
fn parameters(rt: HostRuntime) -> Result<(), Fail> {
    check(
        &rt,
        rt.alloc(),
        &Subject::Blocks(DataSource::Files),
        PARAMETERS,
    )
}

#[test]
fn sets(rt: HostRuntime) -> Result<(), Fail> {
    check(&rt, rt.alloc(), &Subject::Blocks(DataSource::Files), SETS)
}

#[test]
fn several_parameters(rt: HostRuntime) -> Result<(), Fail> {
    check(
        &rt,
        rt.alloc(),
        &Subject::Blocks(DataSource::Files),
        TABBING,
    )
}

#[test]
fn ends_of_texts(rt: HostRuntime) -> Result<(), Fail> {
    check(&rt, rt.alloc(), &Subject::Blocks(DataSource::Files), ENDS)
}

#[test]
fn sections(rt: HostRuntime) -> Result<(), Fail> {
    check(
        &rt,
        rt.alloc(),
        &Subject::Blocks(DataSource::Section),
        SECTIONS,
    )
}

#[test]
fn first_faults(rt: HostRuntime) -> Result<(), Fail> {
    check(&rt, rt.alloc(), &Subject::Blocks(DataSource::Files), FAULTS)
}
