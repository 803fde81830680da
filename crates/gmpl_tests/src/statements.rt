// Model texts with their statements, or with the first bad one.
use crate::rows::{Subject, check, split};
use gmpl_lexer::read_tokens;
use gmpl_statements::{Next, StatementReader};
use gmpl_syntax::{
    Action, Attribute, Constraint, Declaration, Head, Indexing, Relation, Statement, SyntaxFault,
    SyntaxFaultKind,
};
use std::alloc::{AllocError, Global};
use std::process::Abort;
use std::test::Fail;

// ---- tables: statements, and the text, in which `$` is a line feed

// A statement is its word (`con` a constraint, `in` and `out` a table), with `{}` where it has a domain, and behind a colon what
// it holds: letters for attributes (D dimen, R a relation, `in` or `within`, A `:=`, d default, i, b, s), for a constraint its
// relation and how many sides it has, how many keys and columns, items, heads and inner statements. A fault is its kind behind
// `!`, the statement's number and its line. `-` is an answer of nothing.

const DECLARATIONS: &str = "\
set => set S;
set => set S 'title';
set{} => set S \"title\" {1..2};
set{} => set S{i in 1..2, T: i > 1};
set:D => set S dimen 2;
set:D => set S, dimen 2;
set:A => set S := {1, 2};
set:d => set S default {};
set:RR => set S within A within B;
set:RDRA => set S, within A, dimen 1, within B, := {1};
set:DA => set S dimen 1.5e0 := 1 .. 3 by 2;
!NotAStatement 1 1 => set S dimen 2, dimen 2;
!NotAStatement 1 1 => set S dimen n;
!NotAStatement 1 1 => set S := A default B;
!NotAStatement 1 1 => set S default A := B;
!NotAStatement 1 1 => set S default A default B;
!NotAStatement 1 1 => set S := A := B;
!NotAStatement 1 1 => set S integer;
!NotAStatement 1 1 => set S in A;
!NotAStatement 1 1 => set S >= 1;
!NotAStatement 1 1 => set S, ;
!NotAStatement 1 1 => set S := {1},, dimen 1;
!NotAStatement 1 1 => set S dimen 1 {1..2};
!NotAStatement 1 1 => set S 'a' 'b';
!NotAStatement 1 1 => set 'a' S;
!NotAStatement 1 1 => set union;
!NotAStatement 1 1 => set ;
!Unended 1 1 => set S
!Unended 1 1 => set
!Unended 1 2 => $set S :=
param => param p;
param{}:A => param p 'all' {i in S} := i;
param:isb => param p integer symbolic binary;
param:iA => param p, integer, := 3;
param:Rd => param p in S default 1;
param:RRRRRR => param p < 1 <= 2 = 3 >= 4, > 5, <> 6;
param:RRR => param p >= 0, >= 1, >= 2;
param:RRRR => param p in S in T == 1 != 2;
!NotAStatement 1 1 => param p := 1 default 2;
!NotAStatement 1 1 => param p default 1, := 2;
!NotAStatement 1 1 => param p integer integer;
!NotAStatement 1 1 => param p binary binary;
!NotAStatement 1 1 => param p symbolic symbolic;
!NotAStatement 1 1 => param p := 1 := 1;
!NotAStatement 1 1 => param p dimen 2;
!NotAStatement 1 1 => param p within S;
!NotAStatement 1 1 => param p not in S;
!NotAStatement 1 1 => param p := a or b;
param:ARR => param p := a < b < c;
!NotAStatement 1 1 => param p{} := 1;
!NotAStatement 1 1 => param p[1] := 1;
!NotAStatement 1 1 => param p := ;
!NotAStatement 1 1 => param p := 1 2;
!Unended 1 1 => param p := 1
var => var x;
var{}:RR => var x{S} >= 0 <= 1;
var:iRR => var x integer, >= 0, <= 10;
var:b => var x binary;
var:bi => var x, binary, integer;
var:R => var x = 3;
var:R => var x == 3;
!NotAStatement 1 1 => var x = 1 <= 2;
!NotAStatement 1 1 => var x <= 2 = 1;
!NotAStatement 1 1 => var x >= 2, = 1;
!NotAStatement 1 1 => var x = 1 = 1;
!NotAStatement 1 1 => var x >= 1 >= 1;
!NotAStatement 1 1 => var x <= 1, >= 0, <= 1;
!NotAStatement 1 1 => var x integer integer;
!NotAStatement 1 1 => var x > 1;
!NotAStatement 1 1 => var x <> 1;
!NotAStatement 1 1 => var x in S;
!NotAStatement 1 1 => var x := 1;
!NotAStatement 1 1 => var x symbolic;
con:<=2 => r: x <= 1;
con:=2 => r: x = 1;
con:>=2 => r 'row': x, >= 1;
con{}:>=2 => s.t. r{i in S}: x[i] >= 1;
con:<=2 => subject to r: x <= 1;
con:>=2 => subj to r: 1 >= x;
con:<=3 => r: 0 <= x <= 1;
con:>=3 => r: 1, >= x, >= 0;
con:=2 => s.t. set: x == 1;
con:<=2 => end: x <= 1;
con{}:<=2 => data{1..2}: x <= 1;
con:<=2 => to: x <= 1;
!NotAStatement 1 1 => r: 0 <= x >= 1;
!NotAStatement 1 1 => r: 0 >= x <= 1;
!NotAStatement 1 1 => r: 0 <= x = 1;
!NotAStatement 1 1 => r: 0 = x = 1;
!NotAStatement 1 1 => r: 0 = x <= 1;
!NotAStatement 1 1 => r: 0 <= x <= 1 <= 2;
!NotAStatement 1 1 => r: x < 1;
!NotAStatement 1 1 => r: x <> 1;
!NotAStatement 1 1 => r: x;
!NotAStatement 1 1 => r: x <= 1,;
!NotAStatement 1 1 => r: not x <= 1;
!NotAStatement 1 1 => r: x and y <= 1;
!NotAStatement 1 1 => r x <= 1;
!NotAStatement 1 1 => r: <= 1;
!NotAStatement 1 1 => subject r: x <= 1;
!NotAStatement 1 1 => subject: x <= 1;
!NotAStatement 1 1 => subject to to to: x <= 1;
!NotAStatement 1 1 => s.t. s.t. r: x <= 1;
!NotAStatement 1 1 => x.val: x <= 1;
!Unended 1 1 => r: x <= 1
!Unended 1 1 => end
!Unended 1 1 => data
obj => minimize z: x + y;
obj{} => maximize z 'title' {i in S}: sum{j in T} x[i,j];
!NotAStatement 1 1 => minimize z = x;
!NotAStatement 1 1 => minimize z: x <= 1;
!NotAStatement 1 1 => maximize: x;
!NotAStatement 1 1 => maximise z: x;
!NotAStatement 1 1 => minimize z: x, y;
";

const ACTIONS: &str = "\
solve => solve;
!Unended 1 1 => solve
!NotAStatement 1 1 => solve: x <= 1;
!NotAStatement 1 1 => solve x;
solve !NotAStatement 2 1 => solve; solve;
solve !NotAStatement 2 1 => solve; var x;
solve !NotAStatement 2 2 => solve;$r: x <= 1;
solve !NotAStatement 2 1 => solve; s.t. r: x <= 1;
solve !NotAStatement 2 1 => solve; subject to r: x <= 1;
solve !NotAStatement 2 1 => solve; minimize z: x;
solve !NotAStatement 2 1 => solve; maximize z: x;
solve !NotAStatement 2 1 => solve; table t IN 'CSV' 'f': [k];
solve set param => solve; set S; param p;
solve check display:1 printf:1 for:1(1) out{}:1 => solve; check: x; display x; printf x; for {S} check: x; table t {S} OUT 'CSV' 'f': x;
check => check: 1 = 1;
check => check 1 = 1;
check => check x in S or not y within T;
check{} => check{i in S}: i > 1;
check{} => check{i in S} i > 1;
check => check {} within S;
check => check {1, 2} within S;
check => check: {1, 2} within S;
check{} => check {i in S} not i in T;
check => check {i} not in T;
check{} => check {i in S} {i} within T;
check{} => check {i in S}: {i} within T;
check{} => check {i in S} -i < 1;
check{} => check {i in S} if i then 1;
!NotAStatement 1 1 => check;
!NotAStatement 1 1 => check:;
!NotAStatement 1 1 => check: 1, 2;
!NotAStatement 1 1 => check {i in S}: ;
!NotAStatement 1 1 => check: 1 = 1 = 1;
!NotAStatement 1 1 => check: a not b;
!NotAStatement 1 1 => check: a not = b;
!NotAStatement 1 1 => check: not;
!Unended 1 1 => check {i in S
display:1 => display x;
display:3 => display: x, y[1], 'text';
display{}:2 => display {i in S}: i, x[i];
display:1 => display {1, 2};
display:2 => display {1, 2}, x;
display{}:1 => display {1, 2}: x;
display:1 => display {};
display:1 => display {1} union {2};
display:1 => display {i in S: i > 1};
!NotAStatement 1 1 => display;
!NotAStatement 1 1 => display x,;
!NotAStatement 1 1 => display x y;
!NotAStatement 1 1 => display a < b;
!NotAStatement 1 1 => display {}: x;
printf:1 => printf 'x';
printf:2 => printf '%d', x;
printf:1 => printf('%d', x);
printf:1 => printf('x');
printf{}:3 => printf {i in S}: '%d %d', i, x[i];
printf{}:1 => printf {i in S} ('%d', i);
printf:1> => printf 'x' > 'file';
printf:2> => printf 'x', y >> 'file' & '.txt';
printf:1> => printf 'x' > > 'file';
!NotAStatement 1 1 => printf 'x' >= 'file';
!NotAStatement 1 1 => printf 'x' > ;
!NotAStatement 1 1 => printf;
!NotAStatement 1 1 => printf();
!NotAStatement 1 1 => printf 'a' 'b';
for:1(1) => for {i in S} check: i;
for:1(1) => for {i in S}: display i;
for:1(0) => for {i in S} { }
for:1(2) => for {i in S} { display i; printf 'x'; }
for:2(1) => for {i in S} for {j in T} printf 'x';
for:3(1) => for {i in S}: for {j in T}: for {1..2}: { check i; }
for:1(2) => for {S} { for {T} { check i; } for {T} check j; }
for:1(1) => for {S} table t {T} OUT 'CSV' 'f': x;
for:1(0) con:>=2 => for {S} {} s.t. r: x >= 1;
for:1(0) => for {S} {} end; @
for:1(1) set => for {S} display {1}; set T;
!NotAStatement 1 1 => for check: 1;
!NotAStatement 1 1 => for {} check: 1;
!NotAStatement 1 1 => for {S};
!NotAStatement 1 1 => for {S} {;}
!NotAStatement 1 1 => for {S} set T;
!NotAStatement 1 1 => for {S} solve;
!NotAStatement 1 1 => for {S} r: x <= 1;
!NotAStatement 1 1 => for {S} { var x; }
!NotAStatement 1 1 => for {S} table t IN 'CSV' 'f': [k];
for:1(0) !NotAStatement 2 1 => for {S} {};
set !NotAStatement 2 2 => set S;$for {S} {$check: 1;$check 1 1;$}
!Unended 1 1 => for {S} { check: 1;
!Unended 1 1 => for {S}
in:1,0 => table t IN 'CSV' 'f': [k];
in:2,2 => table t 'title' IN \"CSV\" 'f' & '.csv': S <- [a, b], p, q ~ r;
in:1,1 => table t IN 'ODBC' f: S <- [RECNO], p~f;
!NotAStatement 1 1 => table t IN CSV 'f': [k];
!NotAStatement 1 1 => table t in 'CSV' 'f': [k];
!NotAStatement 1 1 => table t In 'CSV' 'f': [k];
!NotAStatement 1 1 => table t IN 'CSV': [k];
!NotAStatement 1 1 => table t IN 'CSV' 'f' [k];
!NotAStatement 1 1 => table t IN 'CSV' 'f': [];
!NotAStatement 1 1 => table t IN 'CSV' 'f': [1];
!NotAStatement 1 1 => table t IN 'CSV' 'f': S [k];
!NotAStatement 1 1 => table t IN 'CSV' 'f': [k] p;
!NotAStatement 1 1 => table t IN 'CSV' 'f': [k], p q;
!NotAStatement 1 1 => table t IN 'CSV' 'f': [k], p ~ 'q';
!NotAStatement 1 1 => table t IN 'CSV' 'f': [k], ;
!NotAStatement 1 1 => table t OUT 'CSV' 'f': x;
!NotAStatement 1 1 => table IN 'CSV' 'f': [k];
out{}:1 => table t {i in S} OUT 'CSV' 'f': i;
out{}:1 => table t 'title' {S} OUT 'CSV' 'f': x;
!NotAStatement 1 1 => table t {S}: OUT 'CSV' 'f': x;
out{}:3 => table t 'title' {i in S} OUT 'CSV' 'f': i, x[i] ~ value, (i) ~ key;
!NotAStatement 1 1 => table t {i in S} IN 'CSV' 'f': i;
!NotAStatement 1 1 => table t {i in S} OUT 'CSV' 'f': x[i];
!NotAStatement 1 1 => table t {i in S} OUT 'CSV' 'f': i, 1;
!NotAStatement 1 1 => table t {i in S} OUT 'CSV' 'f': x.val;
!NotAStatement 1 1 => table t {i in S} OUT 'CSV' 'f': (i);
!NotAStatement 1 1 => table t {i in S} OUT 'CSV' 'f': i ~ 'k';
!NotAStatement 1 1 => table t {i in S} OUT 'CSV' 'f': ;
!Unended 1 1 => table t {i in S} OUT 'CSV' 'f': i
";

// An objective with the expression that stands in the text, or a check.
const EXPRESSIONS: &str = "\
obj => minimize z: 1;
obj => minimize z: x.val + x.lb + x[1].ub + x.status + x.dual;
!NotAStatement 1 1 => minimize z: x.value;
!NotAStatement 1 1 => minimize z: x.;
!NotAStatement 1 1 => minimize z: x.val.val;
!NotAStatement 1 1 => minimize z: (x).val;
obj => minimize z: x[1,'a',i+1];
!NotAStatement 1 1 => minimize z: x[];
!NotAStatement 1 1 => minimize z: x[1;
!NotAStatement 1 1 => minimize z: x[1,];
!NotAStatement 1 1 => minimize z: x[a<b];
!NotAStatement 1 1 => minimize z: x[1][2];
obj => minimize z: abs(1) + ceil(x) + floor(x) + card(S) + length('a');
obj => minimize z: round(x) + round(x,2) + trunc(x) + trunc(x,2);
obj => minimize z: max(1) + min(1) + max(1,2,3) + min(1,2,3);
obj => minimize z: substr('a',1) & substr('a',1,2);
obj => minimize z: sqrt(x) + exp(1) + log(x,y,z) + Uniform01() + Normal(1,2) + time2str(1,'%Y') + gmtime();
!NotAStatement 1 1 => minimize z: abs();
!NotAStatement 1 1 => minimize z: abs(1,2);
!NotAStatement 1 1 => minimize z: card(S,T);
!NotAStatement 1 1 => minimize z: round(1,2,3);
!NotAStatement 1 1 => minimize z: trunc(1,2,3);
!NotAStatement 1 1 => minimize z: substr('a');
!NotAStatement 1 1 => minimize z: substr('a',1,2,3);
!NotAStatement 1 1 => minimize z: max();
!NotAStatement 1 1 => minimize z: abs(1;
!NotAStatement 1 1 => minimize z: sqrt(,);
!NotAStatement 1 1 => minimize z: abs(a<b);
!NotAStatement 1 1 => minimize z: sum(x);
!NotAStatement 1 1 => minimize z: f(x);
!NotAStatement 1 1 => minimize z: abs{S} x;
obj => minimize z: abs + sum + max + card[1];
obj => minimize z: sum{i in S} x[i] + prod{i in S} 2 * max{i in S} i - min{S} 1;
obj => minimize z: card(setof{i in S} i + 1) + card(setof{i in S: i > 1} (i, i));
check => check: forall{i in S} i > 1 and exists{j in S} j < 1;
check => check: forall{i in S} not i > 1 or 1;
!NotAStatement 1 1 => check: forall x;
!NotAStatement 1 1 => minimize z: sum{};
!NotAStatement 1 1 => minimize z: sum{} x;
!NotAStatement 1 1 => minimize z: sum{i in S};
!NotAStatement 1 1 => minimize z: sum{i in S: } x;
!NotAStatement 1 1 => minimize z: sum{i in S,} x;
!NotAStatement 1 1 => minimize z: sum{i in S} x <= 1;
obj => minimize z: if a < b then 1 else 2;
obj => minimize z: if a then if b then 1 else 2;
obj => minimize z: 1 + if a and b then x + 1 else y .. z;
!NotAStatement 1 1 => minimize z: if a 1;
!NotAStatement 1 1 => minimize z: if a then 1 else;
!NotAStatement 1 1 => minimize z: if a then b < c;
!NotAStatement 1 1 => minimize z: else 1;
obj => minimize z: (1) + (a, b) + ((a), b) + (a < b) + (a and b or c);
!NotAStatement 1 1 => minimize z: ();
!NotAStatement 1 1 => minimize z: (1;
!NotAStatement 1 1 => minimize z: (1,);
!NotAStatement 1 1 => minimize z: (a, b < c);
!NotAStatement 1 1 => minimize z: 1);
obj => minimize z: card({}) + card({1}) + card({(1,2), (3,4)}) + card({i in S, (j,k) in T, U: i < j});
!NotAStatement 1 1 => minimize z: {1;
!NotAStatement 1 1 => minimize z: {1,};
!NotAStatement 1 1 => minimize z: {: 1};
!NotAStatement 1 1 => minimize z: {a < b};
!NotAStatement 1 1 => minimize z: {i in S in T};
!NotAStatement 1 1 => minimize z: {i[1] in S};
!NotAStatement 1 1 => minimize z: {1 in S};
!NotAStatement 1 1 => minimize z: {i.val in S};
!NotAStatement 1 1 => minimize z: {i + 1 in S};
!NotAStatement 1 1 => minimize z: {(i and j) in S};
!NotAStatement 1 1 => minimize z: {(a < 1) in S};
!NotAStatement 1 1 => minimize z: {(not i) in S};
!NotAStatement 1 1 => minimize z: {(i in T) in S};
obj => minimize z: {(i) in S};
obj => minimize z: {(i + 1, j) in S};
obj => minimize z: -2 ** -2 ** - + 2 ^ 3;
obj => minimize z: - - + 1;
!NotAStatement 1 1 => minimize z: 2 **;
!NotAStatement 1 1 => minimize z: * 2;
!NotAStatement 1 1 => minimize z: 1 -;
obj => minimize z: a * b / c div d mod e + f - g less h & i;
obj => minimize z: 1 .. 3 by 2;
obj => minimize z: a & b .. c & d by e & f;
!NotAStatement 1 1 => minimize z: 1 .. 2 .. 3;
!NotAStatement 1 1 => minimize z: 1 by 2;
!NotAStatement 1 1 => minimize z: 1 .. ;
obj => minimize z: a cross b cross c inter d union e diff f symdiff g;
!NotAStatement 1 1 => minimize z: a union;
!NotAStatement 1 1 => minimize z: cross b;
check => check: a < b;
check => check: a <= b;
check => check: a = b;
check => check: a == b;
check => check: a >= b;
check => check: a > b;
check => check: a <> b;
check => check: a != b;
check => check: a in b;
check => check: a not in b;
check => check: a !in b;
check => check: a within b;
check => check: a not within b;
check => check: not not ! a;
check => check: !a = b && !b = c || c;
check => check: a and b or c and not d;
check => check: (a or b) and c;
!NotAStatement 1 1 => check: a and;
!NotAStatement 1 1 => check: or b;
!NotAStatement 1 1 => check: a => b;
!NotAStatement 1 1 => check: a in b in c;
!NotAStatement 1 1 => check: a ** not b;
!NotAStatement 1 1 => check: - not b;
!NotAStatement 1 1 => check: and;
!NotAStatement 1 1 => check: x and and;
!NotAStatement 1 1 => check: by;
!NotAStatement 1 1 => check: cross;
!NotAStatement 1 1 => check: diff;
!NotAStatement 1 1 => check: div;
!NotAStatement 1 1 => check: else;
!NotAStatement 1 1 => check: if;
!NotAStatement 1 1 => check: in;
!NotAStatement 1 1 => check: inter;
!NotAStatement 1 1 => check: less;
!NotAStatement 1 1 => check: mod;
!NotAStatement 1 1 => check: or;
!NotAStatement 1 1 => check: symdiff;
!NotAStatement 1 1 => check: then;
!NotAStatement 1 1 => check: union;
!NotAStatement 1 1 => check: within;
!NotAStatement 1 1 => var mod;
";

// The end of a model, and the place of the first fault.
const ENDS: &str = "\
- => $
- => end;
- => # nothing
- => end; set
set => set S; end; @ \" set
set => set S; end; set T;
set => set S;
set data => set S; data; set S := 1 @
set !NotAStatement 2 1 => set S; ; end;
set !NotAStatement 2 1 => set S; set T set U; end;
set !NotAStatement 2 1 => set S; 1; end;
set !NotAStatement 2 1 => set S; and: x >= 1;
set !NotAStatement 2 1 => set S; (x) >= 1;
set set !NotAStatement 3 3 => set S;$set T;$set U:;$set V:;
set !NotAStatement 2 2 => set S;$set$T$:;
set !Unended 2 2 => set S;$set$T
set !BadByte 2 1 => set S; @
set !BadByte 2 3 => set S;$$@ set T;
set !BadByte 2 1 => set S; set $@ ;
!BadByte 1 1 => set S @
!BadByte 1 1 => set set @
!NotAStatement 1 1 => set : @
!UnendedString 1 1 => set S 'a
!UnendedComment 1 1 => set S /* ;
!TooWide 1 1 => param p := 1e99;
set !TooWide 2 1 => set S; 1e99;
!UnendedString 1 2 => $'a
param:A !UnendedComment 2 2 => param p := 1;$/* end;
";

// What opens something: what stands before it, the opening tokens, what stands inside, the closing tokens, what stands behind it,
// and how often it may be open.
const DEPTHS: &str = "\
minimize z: |(|1|)|;|50
minimize z: |{|1|}|;|50
minimize z: |x[|1|]|;|50
minimize z: |abs(|1|)|;|50
minimize z: |sqrt(|1|)|;|50
minimize z: |max(1, |1|)|;|50
minimize z: |if a then |1||;|50
minimize z: |if a then 1 else |1||;|50
minimize z: |sum{S} |1||;|49
minimize z: |sum{i in |S|} 1|;|25
minimize z: |-|1||;|50
minimize z: |+ |1||;|50
minimize z: |2 ** |1||;|50
check: |not |a||;|50
check: |! |a||;|50
check: |forall{S} |a||;|49
var x{|{|S|}|};|49
for {S} |for {S} {|check 1;|}||50
|for {S} {|check (1);|}||49
|for {S} {|table t {S} OUT 'CSV' 'f': x;|}||49
set S := |{(|1|)}|;|25
";

// ---- an answer in the words of the tables

fn attribute_letter(attribute: &Attribute) -> char {
    match attribute {
        Attribute::Dimension(_) => 'D',
        Attribute::Restriction(_, _) => 'R',
        Attribute::Assigned(_) => 'A',
        Attribute::Default(_) => 'd',
        Attribute::Integer => 'i',
        Attribute::Binary => 'b',
        Attribute::Symbolic => 's',
    }
}

fn domain_text(domain: &Option<Indexing>) -> &'static str {
    match domain {
        Some(_) => "{}",
        None => "",
    }
}

fn head_text(alloc: Global, word: &str, head: &Head) -> Result<String, AllocError> {
    format!(in alloc; "{word}{}", domain_text(&head.domain))
}

fn declaration_text(
    alloc: Global,
    word: &str,
    declaration: &Declaration,
) -> Result<String, AllocError> {
    let mut text = head_text(alloc, word, &declaration.head)?;
    if !declaration.attributes.is_empty() {
        text.push(':')?;
    }
    for attribute in declaration.attributes.as_slice() {
        text.push(attribute_letter(attribute))?;
    }
    Ok(text)
}

fn relation_text(relation: Relation) -> &'static str {
    match relation {
        Relation::AtMost => "<=",
        Relation::Equal => "=",
        Relation::AtLeast => ">=",
        _ => "?",
    }
}

fn constraint_text(alloc: Global, constraint: &Constraint) -> Result<String, AllocError> {
    let head = head_text(alloc, "con", &constraint.head)?;
    let sides = if constraint.last.is_some() { 3 } else { 2 };
    let relation = relation_text(constraint.relation);
    format!(in alloc; "{}:{relation}{sides}", head.as_str())
}

fn action_text(alloc: Global, action: &Action) -> Result<String, AllocError> {
    match action {
        Action::Check(domain, _) => format!(in alloc; "check{}", domain_text(domain)),
        Action::Display(domain, items) => {
            format!(in alloc; "display{}:{}", domain_text(domain), items.len())
        }
        Action::Printf(domain, items, file) => {
            let goes_to_file = if file.is_some() { ">" } else { "" };
            format!(in alloc;
                "printf{}:{}{goes_to_file}",
                domain_text(domain),
                items.len()
            )
        }
        Action::TableOutput(table) => format!(in alloc; "out{}:{}", "{}", table.columns.len()),
        Action::For(heads, inner) => format!(in alloc; "for:{}({})", heads.len(), inner.len()),
    }
}

fn statement_text(alloc: Global, statement: &Statement) -> Result<String, AllocError> {
    match statement {
        Statement::Set(set) => declaration_text(alloc, "set", set),
        Statement::Param(param) => declaration_text(alloc, "param", param),
        Statement::Var(var) => declaration_text(alloc, "var", var),
        Statement::Constraint(constraint) => constraint_text(alloc, constraint),
        Statement::Objective(objective) => head_text(alloc, "obj", &objective.head),
        Statement::TableInput(table) => {
            format!(in alloc; "in:{},{}", table.keys.len(), table.columns.len())
        }
        Statement::Solve => "solve".to_string(alloc),
        Statement::Action(action) => action_text(alloc, action),
        Statement::Data => "data".to_string(alloc),
    }
}

fn kind_text(kind: SyntaxFaultKind) -> &'static str {
    match kind {
        SyntaxFaultKind::BadByte => "BadByte",
        SyntaxFaultKind::UnendedString => "UnendedString",
        SyntaxFaultKind::UnendedComment => "UnendedComment",
        SyntaxFaultKind::TooWide => "TooWide",
        SyntaxFaultKind::NotAStatement => "NotAStatement",
        SyntaxFaultKind::Unended => "Unended",
        SyntaxFaultKind::TooDeep => "TooDeep",
        _ => "of a later pass",
    }
}

fn fault_text(alloc: Global, fault: SyntaxFault) -> Result<String, AllocError> {
    format!(in alloc;
        "!{} {} {}",
        kind_text(fault.kind),
        fault.statement,
        fault.line
    )
}

// One more word, behind a blank where it is not the first.
fn push_word(answer: &mut String, word: &str) -> Result<(), AllocError> {
    if !answer.is_empty() {
        answer.push(' ')?;
    }
    answer.push_str(word)
}

// The word of what comes next, and whether more may come behind it.
fn push_next(
    alloc: Global,
    reader: &mut StatementReader<'_>,
    number: usize,
    answer: &mut String,
) -> Result<bool, AllocError> {
    match reader.next(alloc, number)? {
        Next::Statement(numbered) => {
            let word = statement_text(alloc, &numbered.statement)?;
            push_word(answer, word.as_str())?;
            Ok(true)
        }
        Next::Data { .. } => {
            push_word(answer, "data")?;
            Ok(false)
        }
        Next::End(Some(fault)) => {
            let word = fault_text(alloc, fault)?;
            push_word(answer, word.as_str())?;
            Ok(false)
        }
        Next::End(None) => Ok(false),
    }
}

fn answer_text(alloc: Global, text: &str) -> Result<String, AllocError> {
    let tokens = read_tokens(alloc, text.as_bytes())?;
    let mut reader = StatementReader::new(tokens);
    let mut answer = String::new(alloc);
    for turn in 0..reader.left() + 1 {
        if !push_next(alloc, &mut reader, turn + 1, &mut answer)? {
            break;
        }
    }
    if answer.is_empty() {
        answer.push('-')?;
    }
    Ok(answer)
}

pub(crate) fn statement_row(alloc: Global, row: &str) -> Result<String, AllocError> {
    let (_, text) = split(row);
    let text = text.replace(alloc, "$", "\n")?;
    answer_text(alloc, text.as_str())
}

#[test]
fn declarations(rt: HostRuntime) -> Result<(), Fail> {
    check(&rt, rt.alloc(), &Subject::Statements, DECLARATIONS)
}

#[test]
fn actions(rt: HostRuntime) -> Result<(), Fail> {
    check(&rt, rt.alloc(), &Subject::Statements, ACTIONS)
}

#[test]
fn expressions(rt: HostRuntime) -> Result<(), Fail> {
    check(&rt, rt.alloc(), &Subject::Statements, EXPRESSIONS)
}

#[test]
fn ends(rt: HostRuntime) -> Result<(), Fail> {
    check(&rt, rt.alloc(), &Subject::Statements, ENDS)
}

// A text with so many open tokens.
fn nested(alloc: Global, parts: &[&str], count: usize) -> Result<String, AllocError> {
    let mut text = String::new(alloc);
    if let [before, opening, inside, closing, behind] = parts {
        text.push_str(before)?;
        for _ in 0..count {
            text.push_str(opening)?;
        }
        text.push_str(inside)?;
        for _ in 0..count {
            text.push_str(closing)?;
        }
        text.push_str(behind)?;
    }
    Ok(text)
}

fn nested_answer(alloc: Global, parts: &[&str], count: usize) -> Result<String, AllocError> {
    let text = nested(alloc, parts, count)?;
    answer_text(alloc, text.as_str())
}

fn parts_of(alloc: Global, parts: &str) -> Result<Vec<&str>, AllocError> {
    let mut list: Vec<&str> = Vec::new(alloc);
    for part in parts.split('|') {
        list.push(part)?;
    }
    Ok(list)
}

// A row stays as it is where its depth is the last one that is read.
fn row_or_answers(
    alloc: Global,
    row: &str,
    parts: &[&str],
    most: usize,
) -> Result<String, AllocError> {
    let last = nested_answer(alloc, parts, most)?;
    let next = nested_answer(alloc, parts, most.saturating_add(1))?;
    if !last.starts_with("!") && next.as_str() == "!TooDeep 1 1" {
        return row.to_string(alloc);
    }
    format!(in alloc; "{last}, then {next}")
}

pub(crate) fn depth_row(alloc: Global, row: &str) -> Result<String, AllocError> {
    let (parts, most) = row.rsplit_once('|').unwrap_or((row, ""));
    let list = parts_of(alloc, parts)?;
    row_or_answers(
        alloc,
        row,
        list.as_slice(),
        most.parse::<usize>().unwrap_or(0),
    )
}

#[test]
fn depths(rt: HostRuntime) -> Result<(), Fail> {
    check(&rt, rt.alloc(), &Subject::Depths, DEPTHS)
}

// Heads of a `for` without braces are not deeper than one another.
#[test]
fn heads_without_braces(rt: HostRuntime) -> Result<(), Fail> {
    let alloc = rt.alloc();
    let answer = nested_answer(alloc, &["", "for {S} ", "check 1;", "", ""], 5000)?;
    assert_eq!(rt; answer.as_str(), "for:5000(1)");
    Ok(())
}
