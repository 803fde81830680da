// Model texts with the objects that they declare, or with their first fault.
use crate::rows::{Subject, check, split};
use gmpl_kinds::{Object, Sort};
use gmpl_lexer::read_tokens;
use gmpl_parse::{ParseError, parse};
use gmpl_syntax::{SyntaxFault, SyntaxFaultKind};
use std::alloc::{AllocError, Global};
use std::test::Fail;

// ---- tables: objects, and the text, in which `$` is a line feed

// An object is a letter (S a set, P a parameter, V a variable, C a constraint, O an objective), the number of its subscripts,
// and for a set the dimension of its elements behind `/`. A fault is its kind behind `!`, the statement's number and its line.
// `-` is a model without objects.

// What names mean.
const NAMES: &str = "\
- => end;
S0/1 P0 => set S := {1}; param p := 1;
!Undeclared 1 1 => param p := q;
!Undeclared 1 1 => param p := q; param q := 1;
!Undeclared 2 2 => param p := 1;$param q := p + r;
P0 P0 => param p := 1; param q := p;
!Declared 2 1 => param p := 1; set p := {1};
!Declared 2 1 => param p := 1; param p := q;
!Declared 2 1 => var x; x: x >= 1;
P0 => param p := p;
P1 => param p{i in 0..3} := if i = 0 then 1 else p[i-1];
!WrongDimension 1 1 => param p{i in 0..3} := p;
!WrongKind 1 1 => set S{S};
!WrongKind 1 1 => set S{1..S};
!WrongKind 1 1 => param p{p in 1..2};
!WrongKind 1 1 => var x >= x;
!WrongKind 1 1 => r: r >= 1;
S1/1 => set S{i in 0..3} := if i = 0 then {1} else S[i-1] union {i};
S1/2 => set S{i in 0..3} := if i = 0 then {(1,2)} else S[i-1];
S0/1 => set S := S;
!WrongDimension 1 1 => set S dimen 1 := S cross S;
!WrongDimension 1 1 => param p := if (1,1,1,1,1,1,1,1,1,1,1,1,1,1,1,1,1,1,1,1, 1, {1}) in {1} then 1 else 0;
!WrongKind 1 1 => param p := if (1,1,1,1,1,1,1,1,1,1,1,1,1,1,1,1,1,1,1,1, {1}, 1) in {1} then 1 else 0;
!WrongDimension 1 1 => set S := S cross {1};
!Undeclared 2 1 => var x; c: x >= y;
S0/1 P1 => set S := 1..3; param p{i in S} := i;
!Undeclared 3 1 => set S := 1..3; param p{i in S} := i; param q := i;
!Undeclared 2 1 => set S := 1..3; param p := sum{i in S} i + i;
S0/1 P0 => set S := 1..3; param p := sum{i in S} (i + i);
S0/1 P0 => set S := 1..3; param p := sum{i in S, j in i..3} j;
!Undeclared 2 1 => set S := 1..3; param p := sum{j in i..3, i in S} j;
!Undeclared 1 1 => param p := sum{i in 1..i} i;
!Declared 2 1 => set S dimen 2; param p := sum{(i,i) in S} i;
S0/2 P0 => set S dimen 2; param p := sum{i in 1..2, (i,j) in S} j;
S0/2 P0 => set S dimen 2; param p := sum{(i,j) in S, (j,k) in S} k;
S0/2 P0 => set S dimen 2; param p := sum{(1,j) in S} j;
S0/2 P0 => set S dimen 2; param p := sum{(i,j) in S: i < j} i;
!Undeclared 2 1 => set S dimen 2; param p := sum{(i,j+i) in S} i;
S0/1 P1 P1 => set S := {1}; param a{i in S} := i; param b{i in S} := a[i];
!Undeclared 2 1 => set S := {1}; param b{i in S} := a[i];
!Undeclared 2 1 => set S := {1}; param b{i in S} := a[k];
!Undeclared 1 1 => param p := q[r];
!Unsupported 1 1 => param p := sqrt(2);
!Undeclared 1 1 => param p := sqrt(q);
!WrongKind 2 1 => var x; param p := x.val;
!WrongKind 2 1 => var x; param p := x.dual;
!Unsupported 2 1 => var x; param p := x.status;
!Undeclared 1 1 => param p := x.val;
";

// Attributes and checks.
const ATTRIBUTES: &str = "\
P0 => param p default 1;
!Undeclared 1 1 => param p default q;
P0 => param p integer;
P0 => param p binary;
P0 => param p, >= 0;
!Undeclared 1 1 => param p, >= q, integer;
P0 => param p in 1..2;
S0/1 => set S within 1..2;
!Undeclared 1 1 => set S within T;
S0/1 => set S default 1..2;
V0 => var x integer;
V0 => var x binary;
V1 => var x{1..2} integer, >= 1/2;
!Undeclared 1 1 => var x integer, >= q;
!Undeclared 1 1 => var x{S} binary;
V0 => var x >= 0;
P0 => param p symbolic := 'a';
P0 => param p; data; param p := @ end;
- => check: 1 = 1;
!Undeclared 1 1 => check: q = 1;
!Undeclared 1 1 => check{i in 1..2}: j = 1;
P0 P0 => param p := 1; check: p = 1; param q := p;
!Undeclared 3 2 => check: 1 = 1; check: 2 = 2;$param p := q;
!Declared 3 1 => param p := 1; check: p = 1; param p := 2;
!WrongKind 1 1 => check: 1..2;
!WrongKind 1 1 => check{i in 3}: i = 1;
!WrongKind 2 2 => var x;$check: x >= 1; param p := 1..2;
!WrongKind 3 1 => param p := 1; check: p = 1; param q := 1..2;
!WrongKind 3 2 => check: 1 = 1; param p := 1;$check: {p};
!NotAStatement 2 1 => check: 1 = 1; check 1 = ; param p := 1..2;
";

// Statements that are executed: the names in them.
const EXECUTED: &str = "\
- => solve;
V0 C0 => var x; c: x >= 1; solve;
!Undeclared 2 1 => solve; param p := q;
P0 => solve; param p := 1;
- => solve; check: 1 = 1;
!NotAStatement 2 1 => solve; var x;
!NotAStatement 3 1 => solve; printf 'a'; var x;
- => solve;$data; set S := 1; end;
- => display 1;
!Undeclared 1 1 => display 1, q;
- => display {i in 1..2}: i;
!Undeclared 2 1 => display {i in 1..2}: i; display i;
- => printf 'a';
- => printf ('a', 1);
!Undeclared 1 1 => printf 'a', q;
!Undeclared 1 1 => printf ('a', q);
!Undeclared 1 1 => printf 'a' > q;
!Unsupported 1 1 => printf 1 > 'f';
!Unsupported 2 2 => printf 'a';$printf 'a', 1 >> 'f';
- => for {i in 1..2} check: i = 1;
- => for {i in 1..2} printf 'a', i;
!Undeclared 1 1 => for {i in 1..2} printf 'a', j;
!Undeclared 1 1 => for {i in S} printf 'a', j;
!Undeclared 2 1 => for {i in 1..2} printf 'a', i; printf 'a', i;
- => for {i in 1..2} { display i; }
!Undeclared 2 3 => var x;$$for {i in 1..2} {$ display i;$ display j; }
- => for {i in 1..2} for {j in i..2} printf 'a', i + j;
!Undeclared 1 1 => for {i in j..2} for {j in 1..2} printf 'a', i + j;
- => for {i in 1..2} { printf {j in 1..2}: 'x'; printf {j in 1..2}: 'y'; }
!Undeclared 1 1 => for {i in 1..2} { printf {j in 1..2}: 'x', j; printf 'y', j; }
!WrongDimension 1 1 => for {i in 1..2} printf {(i, j) in 1..2}: 'x', j;
- => for {i in 1..2} { for {j in 1..2} { display i, j; } for {j in 1..2} { display j; } }
!Undeclared 1 1 => for {i in 1..2} { for {j in 1..2} { display i, j; } display j; }
- => for {i in 1..2} table t {j in 1..2} OUT 'CSV' 'f': j ~ k;
!Unsupported 1 1 => for {i in 1..2} { printf 'a' > 'f'; printf 'a', q; }
";

// What statements that are executed take, before `solve` and behind it.
const SOLVED: &str = "\
!WrongKind 2 1 => var x; display x;
V0 => var x; solve; display x;
!WrongKind 2 1 => var x; display x.val;
!WrongKind 2 1 => var x; display x.dual;
V0 => var x; solve; display x.val, x.lb, x.ub, x.dual;
!Unsupported 3 1 => var x; solve; display x.status;
V1 => var x{1..2}; solve; display x, x[1], x[1].val;
!WrongDimension 3 1 => var x{1..2}; solve; display x.val;
!WrongKind 3 1 => var x; c: x >= 1; display c;
V0 C0 => var x; c: x >= 1; solve; display c;
!WrongKind 3 1 => var x; c: x >= 1; display c.dual;
V0 C0 => var x; c: x >= 1; solve; display c.lb, c.ub, c.dual;
!Unsupported 4 1 => var x; c: x >= 1; solve; display c.status;
!WrongKind 3 1 => var x; minimize z: x; printf 'a', z;
V0 O0 => var x; minimize z: x; solve; printf 'a', z;
S0/1 P1 => set S := 1..2; param p{S} := 1; display S, p, p[1];
!WrongDimension 2 1 => param p{1..2} := 1; display (p);
!WrongKind 2 1 => param p := 1; display p.val;
!WrongKind 1 1 => display (1, 2);
- => display {1..2}, 'a', 1;
!WrongKind 1 1 => display {i in 3}: i;
- => printf ('a');
!WrongKind 1 1 => printf (1, 2), 3;
!WrongKind 1 1 => printf 1..2;
!WrongKind 1 1 => printf 'a', 1..2;
!WrongKind 2 1 => var x; printf 'a', x;
!WrongKind 2 1 => var x; printf {i in 1..2: x > 1} 'a';
!WrongKind 1 1 => for {i in 3} printf 'a';
!WrongKind 1 1 => for {i in 1..2} check: 1..2;
!WrongKind 2 1 => var x; for {i in 1..2} display x;
V0 => var x; solve; for {i in 1..x} display x;
V0 => var x; solve; check: x >= 1;
!WrongKind 2 2 => var x;$display x; solve; display x;
!Undeclared 2 1 => var x; display x, q;
V0 P0 => var x; solve; param p := x.val;
V0 P0 => var x; solve; param p := x;
!WrongKind 2 1 => var x; param p := x; solve;
V0 S0/1 => var x; solve; set S := 1..x;
V0 P1 => var x; solve; param p{1..x};
V0 S1/1 => var x; solve; set S{i in 0..3} := if i = 0 then {x} else S[i-1];
!WrongKind 4 3 => var x; solve;$display x;$param p := 1..2; display x;
";

// The names of tables, which are none of objects.
const TABLE_NAMES: &str = "\
!Declared 2 1 => var t; table t {i in 1..2} OUT 'CSV' 'f': i ~ k;
!Declared 2 1 => param t; table t IN 'CSV' 'f': [k];
!Declared 2 1 => param t; table t IN 'ODBC' q: [k], r;
!Declared 2 1 => table t {i in 1..2} OUT 'CSV' 'f': i; set t := {1};
!Declared 2 1 => table t IN 'CSV' 'f': [k]; param t := q;
!Declared 2 1 => table t IN 'CSV' 'f': [k]; var t;
!Declared 3 1 => var x; table t IN 'CSV' 'f': [k]; t: x >= 1;
!Declared 3 1 => var x; table t IN 'CSV' 'f': [k]; minimize t: x;
!Declared 2 2 => table t IN 'CSV' 'f': [k];$table t IN 'CSV' 'g': [k];
!Declared 2 1 => table t IN 'CSV' 'f': [k]; table t {i in 1..2} OUT 'CSV' 'g': i;
!Declared 2 1 => table t {i in 1..2} OUT 'CSV' 'f': i; table t IN 'CSV' 'g': [k];
!Declared 1 1 => for {i in 1..2} { table t {j in 1..2} OUT 'CSV' 'f': j; table t {j in 1..2} OUT 'CSV' 'g': j; }
!Declared 1 1 => for {i in 1..2} { for {j in 1..2} table t {k in 1..2} OUT 'CSV' 'f': k; table t {k in 1..2} OUT 'CSV' 'g': k; }
!Declared 2 1 => for {i in 1..2} table t {j in 1..2} OUT 'CSV' 'f': j; param t := 1;
!Declared 2 1 => param t := 1; for {i in 1..2} { display i; table t {j in 1..2} OUT 'CSV' 'f': j; }
!Undeclared 2 1 => param t; for {i in S} { table t {j in 1..2} OUT 'CSV' 'f': j; }
!Undeclared 2 1 => param t := 1; for {i in 1..2} { display q; table t {j in 1..2} OUT 'CSV' 'f': j; }
!Declared 2 1 => param t := 1; for {i in 1..2} { table t {j in S} OUT 'CSV' 'f': j; display q; }
!Undeclared 1 1 => for {i in 1..2} { table t {j in 1..2} OUT 'CSV' 'f': x; table t {j in 1..2} OUT 'CSV' 'g': j; }
!Declared 2 1 => table t IN 'CSV' 'f': [k]; for {i in 1..2} for {j in 1..2} table t {k in 1..2} OUT 'CSV' 'g': k;
- => for {i in 1..2} { table t {j in 1..2} OUT 'CSV' 'f': j; table u {j in 1..2} OUT 'CSV' 'g': j; }
- => table t IN 'CSV' 'f': [k]; table u IN 'CSV' 'f': [k];
!Undeclared 2 1 => table t IN 'CSV' 'f': [k]; param p := t;
S0/2 P0 P2 => table t IN 'CSV' 'f': [k]; set S dimen 2; param p := card(S); table u {i in 1..2} OUT 'CSV' 'g': i; param q{S} := p;
";

// Tables that are read.
const TABLES_READ: &str = "\
- => table t IN 'CSV' 'f': [k];
!Unsupported 1 1 => table t IN 'ODBC' f: [k];
!Unsupported 1 1 => table t IN 'csv' 'f': [k];
!Unsupported 2 1 => set K; table t IN 'ODBC' 'x' 'y': K <- [k];
!Unsupported 2 1 => set K; table t IN 'ODBC' 'x', 'y' & 'z', 'w': K <- [k];
!NotAStatement 2 1 => set K; table t IN 'CSV' 'x' 'y': K <- [k];
!NotAStatement 2 1 => set K; table t IN 'ODBC' 'x' ,: K <- [k];
!Undeclared 1 1 => table t IN 'CSV' f: [k];
!Undeclared 1 1 => table t IN 'CSV' k: [k];
!Undeclared 1 1 => table t IN 'CSV' 'f': [k], p;
!Undeclared 1 1 => table t IN 'CSV' 'f': [k], p; param p{1..2};
!Undeclared 1 1 => table t IN 'CSV' 'f': [k], k;
!Undeclared 1 1 => table t IN 'CSV' 'f': S <- [k];
P0 => param f symbolic := 'f'; table t IN 'CSV' f & '.csv': [k];
P1 => param p{1..2}; table t IN 'CSV' 'f': [k], p;
P1 P1 => param p{1..2}; param q{1..2}; table t IN 'CSV' 'f': [k], p, q ~ value;
!Undeclared 2 1 => param p{1..2}; table t IN 'CSV' 'f': [k], q ~ p;
S0/2 P2 => set S dimen 2; param p{S}; table t IN 'CSV' 'f': S <- [a, b], p;
S0/1 => set S; table t IN 'CSV' 'f': S <- [k];
!WrongKind 1 1 => table t IN 'CSV' 1..2: [k];
!WrongKind 2 1 => var f; table t IN 'CSV' f: [k];
!WrongDimension 2 1 => set S dimen 2; table t IN 'CSV' 'f': S <- [k];
!WrongDimension 2 1 => set S; table t IN 'CSV' 'f': S <- [a, b];
!WrongDimension 2 1 => set S{1..2}; table t IN 'CSV' 'f': S <- [k];
!WrongDimension 2 1 => set S{1..2} dimen 2; table t IN 'CSV' 'f': S <- [k];
!WrongKind 2 1 => param p; table t IN 'CSV' 'f': p <- [k];
!WrongKind 2 1 => var x; table t IN 'CSV' 'f': x <- [k];
!WrongKind 2 1 => var x{1..2}; table t IN 'CSV' 'f': [k], x;
!WrongKind 2 1 => set S; table t IN 'CSV' 'f': [k], S;
!WrongKind 2 1 => set S{1..2}; table t IN 'CSV' 'f': [k], S;
!WrongDimension 2 1 => param p; table t IN 'CSV' 'f': [k], p;
!WrongDimension 2 1 => param p{1..2}; table t IN 'CSV' 'f': [a, b], p;
!WrongDimension 2 1 => param p{1..2, 1..2}; table t IN 'CSV' 'f': [k], p;
!WrongDimension 3 1 => set S dimen 2; var x; table t IN 'CSV' 'f': S <- [k], x;
!WrongKind 3 1 => param p{1..2}; var x{1..2}; table t IN 'CSV' 'f': [k], p, x;
!Undeclared 2 1 => set S dimen 2; table t IN 'CSV' 'f': S <- [k], q;
V0 => var x; table t IN 'CSV' 'f': [k]; solve; display x;
!WrongKind 3 1 => var x; table t IN 'CSV' 'f': [k]; display x;
!NotAStatement 2 1 => solve; table t IN 'CSV' 'f': [k];
";

// Tables that are written.
const TABLES_WRITTEN: &str = "\
- => table t {i in 1..2} OUT 'CSV' 'f': i ~ k;
- => table t {i in 1..2} OUT 'CSV' 'f': i, i + 1 ~ n, 'a' ~ n;
!Undeclared 1 1 => table t {i in 1..2} OUT 'CSV' f: i ~ k;
!Undeclared 1 1 => table t {i in 1..2} OUT 'CSV' i: i ~ k;
!Undeclared 1 1 => table t {i in j..2} OUT 'CSV' 'f': i ~ k;
!Undeclared 1 1 => table t {i in 1..2} OUT 'CSV' 'f': i, j;
!Undeclared 1 1 => table t {i in 1..2} OUT 'CSV' 'f': i ~ k, k ~ l;
!Undeclared 2 1 => table t {i in 1..2} OUT 'CSV' 'f': i; display i;
!Undeclared 1 1 => for {i in 1..2} { table t {j in 1..2} OUT 'CSV' 'f': j; display j; }
!Unsupported 1 1 => table t {i in 1..2} OUT 'ODBC' f: i ~ k;
!Unsupported 1 1 => table t {i in 1..2} OUT 'ODBC' 'f', 'g' 'h': i ~ k;
!Undeclared 1 1 => table t {i in S} OUT 'ODBC' 'f': i;
!WrongDimension 2 1 => set S := {(1,2)}; table t {i in S} OUT 'CSV' {1}: i;
!Unsupported 1 1 => table t {i in 1..2} OUT 'csv' 'f': i ~ k;
!Undeclared 1 1 => table t {i in j..2} OUT 'csv' 'f': i ~ k;
!Undeclared 1 1 => for {i in j..2} table t {k in 1..2} OUT 'ODBC' 'f': k;
P0 => param f symbolic := 'f'; table t {i in 1..2} OUT 'CSV' f & '.csv': i;
- => for {i in 1..2} table t {j in i..2} OUT 'CSV' 'f' & i: i, j;
!WrongKind 1 1 => table t {i in 1..2} OUT 'CSV' 1..2: i;
!WrongKind 1 1 => table t {i in 3} OUT 'CSV' 'f': i;
!WrongDimension 1 1 => table t {(i, j) in 1..2} OUT 'CSV' 'f': i;
!WrongKind 1 1 => table t {i in 1..2} OUT 'CSV' 'f': i, 1..i ~ k;
!WrongKind 1 1 => table t {i in 1..2} OUT 'CSV' 'f': (i, i) ~ k;
!WrongKind 2 1 => set S; table t {i in S} OUT 'CSV' 'f': S;
!WrongDimension 2 1 => param p{1..2} := 1; table t {i in 1..2} OUT 'CSV' 'f': p;
P1 => param p{1..2} := 1; table t {i in 1..2} OUT 'CSV' 'f': i, p[i] ~ p;
!WrongKind 2 1 => var x; table t {i in 1..2} OUT 'CSV' 'f': x;
!WrongKind 2 1 => var x; for {i in 1..2} table t {j in 1..2} OUT 'CSV' 'f': x;
V0 => var x; solve; table t {i in 1..2} OUT 'CSV' 'f': i, x, x.lb ~ low;
V0 => var x; solve; table t {i in 1..x} OUT 'CSV' 'f' & x: i;
!Unsupported 3 1 => var x; solve; table t {i in 1..2} OUT 'CSV' 'f': x.status ~ d;
";

// Kinds and dimensions.
const KINDS: &str = "\
S0/1 S0/2 S0/2 => set A := 1..2; set B dimen 2; set C := A cross A;
S0/1 S0/3 => set A := 1..2; set C := A cross A cross A;
S0/1 => set A := {};
S0/2 => set A := {(1,2), (3,4)};
S0/2 => set A := {i in 1..2, j in 1..2: i < j};
S0/2 => set A := setof{i in 1..2} (i, i);
S1/1 => set A{i in 1..2} := 1..i;
S2/1 => set A{i in 1..2, j in 1..2} := 1..i;
S0/2 => set A dimen 2 := {};
!WrongDimension 1 1 => set A dimen 0;
!WrongDimension 1 1 => set A dimen 1.5;
!WrongDimension 1 1 => set A dimen 21;
S0/20 => set A dimen 20;
!WrongDimension 1 1 => set A dimen 2 := {1};
!WrongKind 1 1 => set A := 1;
!WrongKind 1 1 => set A := 'a';
!WrongKind 1 1 => set A := (1, 2);
!WrongDimension 2 1 => set A dimen 20; set B := A cross A;
!WrongDimension 2 1 => set A dimen 2; set B := A union 1..2;
!WrongKind 1 1 => set A := 1..2 union 1;
!WrongKind 1 1 => set A := {1, 1..2};
!WrongKind 1 1 => set A := {1..2, 1};
!WrongDimension 1 1 => set A := {1, (1,2)};
!WrongKind 1 1 => param p := 1..2;
!WrongKind 1 1 => param p := {1};
!WrongKind 1 1 => param p := (1, 2);
P0 => param p := if 1 < 2 then 3 else 4;
P0 => param p := if 1 then 3;
!WrongKind 1 1 => param p := if 1..2 then 3;
!WrongKind 1 1 => param p := if 1 < 2 then 1..2 else 3;
!WrongDimension 1 1 => set A := if 1 < 2 then 1..2 else {(1,2)};
!WrongKind 1 1 => param p := (1 < 2);
!WrongKind 1 1 => param p := sum{i in 1..2} (1..i);
!WrongKind 1 1 => param p := sum{i in 3} i;
!WrongDimension 1 1 => param p := sum{(i,j) in 1..2} i;
!WrongDimension 2 1 => set A dimen 2; param p := sum{i in A} i;
!WrongKind 1 1 => param p := sum{i in 1..2: 1..2} i;
!WrongKind 1 1 => param p := if 1..2 = 1..2 then 1;
P0 => param p := if 1 in 1..2 then 1;
!WrongDimension 1 1 => param p := if (1,2) in 1..2 then 1;
!WrongKind 1 1 => param p := if 1 in 2 then 1;
P0 => param p := if 1..2 within 1..3 then 1;
!WrongKind 1 1 => param p := if 1 within 1..3 then 1;
P0 => param p := card(1..2);
!WrongKind 1 1 => param p := card(1);
!WrongKind 1 1 => param p := abs(1..2);
!WrongKind 1 1 => param p := -(1..2);
!WrongKind 1 1 => param p := 2 ** (1..2);
P1 P0 => param p{1..2}; param q := p[1];
!WrongDimension 2 1 => param p{1..2}; param q := p;
!WrongDimension 2 1 => param p{1..2}; param q := p[1,2];
!WrongKind 2 1 => param p{1..2}; param q := p[1..2];
!WrongDimension 1 1 => param p := sum{i in 1..2} i[1];
P2 => param p{1..2, 3..4};
P2 => param p{i in 1..2, j in 3..4: i < j};
!WrongKind 1 1 => param p{1};
S0/20 P20 => set A dimen 20; param p{A};
!WrongDimension 2 1 => set A dimen 20; param p{A, 1..2};
V0 O0 C0 => var x; minimize z: x; r: x >= 1;
V1 O0 C1 => var x{1..2}; minimize z: x[1] + x[2]; r{i in 1..2}: x[i] >= i;
V0 C0 => var x; r: 1 <= x <= 2;
!WrongKind 2 1 => var x; r: x <= 1 <= 2;
!WrongKind 2 1 => var x; r: 1 <= 2 <= x;
!WrongKind 2 1 => var x; param p := x;
!WrongKind 2 1 => var x; set S := 1..x;
!WrongKind 2 1 => var x; var y >= x;
!WrongKind 2 1 => var x; param p{1..x};
!WrongDimension 2 1 => var x{1..2}; minimize z: x;
!WrongKind 3 1 => var x; r: x >= 1; s: r >= 1;
!WrongKind 3 1 => var x; minimize z: x; s: z >= 1;
!WrongKind 1 1 => minimize z: 1..2;
!WrongKind 1 1 => r: (1, 2) >= 1;
!WrongKind 1 1 => r: 1 >= (1 < 2);
!WrongKind 1 1 => param p := 1 & (1..2);
P0 => param p := 'a' & 1;
";

// Statements are judged in order, and each in three passes: which fault comes first.
const ORDER: &str = "\
!Undeclared 1 1 => param p := q + ((1..2) * 1);
!WrongKind 1 1 => param p := 1..2; param q := ;
!Undeclared 1 1 => param p := q; param r := ;
!WrongKind 1 1 => param p := 1..2; param q := r;
!NotAStatement 2 2 => param p := 1;$param q := ;
!BadByte 2 2 => param p := 1;$param q := @;
!WrongKind 1 1 => param p := 1..2; param q := @;
!WrongKind 1 1 => param p := (1..2) + (if 1 < 2 then {1} else {(1,2)});
!WrongDimension 1 1 => param p := card(if 1 < 2 then {1} else {(1,2)}) + (1..2);
!NotAStatement 1 1 => param p := q + ;
P0 => param p := 1; end; param q := r;
!TooDeep 2 1 => param p := 1; param q := (((((((((((((((((((((((((((((((((((((((((((((((((((r;
";

// ---- an answer in the words of the tables

fn sort_letter(sort: Sort) -> char {
    match sort {
        Sort::Set => 'S',
        Sort::Param => 'P',
        Sort::Var => 'V',
        Sort::Constraint => 'C',
        Sort::Objective => 'O',
    }
}

fn object_text(alloc: Global, object: Object) -> Result<String, AllocError> {
    let letter = sort_letter(object.sort);
    match object.elements {
        Some(dimension) => format!(in alloc; "{letter}{}/{dimension}", object.subscripts),
        None => format!(in alloc; "{letter}{}", object.subscripts),
    }
}

fn kind_text(kind: SyntaxFaultKind) -> &'static str {
    match kind {
        SyntaxFaultKind::BadByte => "BadByte",
        SyntaxFaultKind::NotAStatement => "NotAStatement",
        SyntaxFaultKind::Unended => "Unended",
        SyntaxFaultKind::TooDeep => "TooDeep",
        SyntaxFaultKind::Undeclared => "Undeclared",
        SyntaxFaultKind::Declared => "Declared",
        SyntaxFaultKind::Unsupported => "Unsupported",
        SyntaxFaultKind::WrongKind => "WrongKind",
        SyntaxFaultKind::WrongDimension => "WrongDimension",
        _ => "another kind",
    }
}

fn fault_text(alloc: Global, fault: SyntaxFault) -> Result<String, AllocError> {
    format!(in alloc;
        "!{} {} {}",
        kind_text(fault.kind),
        fault.statement,
        fault.line
    )
}

fn objects_text(alloc: Global, objects: &[Object]) -> Result<String, AllocError> {
    let mut answer = String::new(alloc);
    for object in objects {
        if !answer.is_empty() {
            answer.push(' ')?;
        }
        let word = object_text(alloc, *object)?;
        answer.push_str(word.as_str())?;
    }
    if answer.is_empty() {
        answer.push('-')?;
    }
    Ok(answer)
}

fn answer_text(alloc: Global, text: &str) -> Result<String, AllocError> {
    let tokens = read_tokens(alloc, text.as_bytes())?;
    match parse(alloc, tokens) {
        Ok(model) => objects_text(alloc, model.objects.as_slice()),
        Err(ParseError::Fault(fault)) => fault_text(alloc, fault),
        Err(ParseError::NoMemory) => Err(AllocError),
    }
}

pub(crate) fn model_row(alloc: Global, row: &str) -> Result<String, AllocError> {
    let (_, text) = split(row);
    let text = text.replace(alloc, "$", "\n")?;
    answer_text(alloc, text.as_str())
}

#[test]
fn names_of_models(rt: HostRuntime) -> Result<(), Fail> {
    check(&rt, rt.alloc(), &Subject::Models, NAMES)
}

#[test]
fn attributes_and_checks(rt: HostRuntime) -> Result<(), Fail> {
    check(&rt, rt.alloc(), &Subject::Models, ATTRIBUTES)
}

#[test]
fn executed_statements(rt: HostRuntime) -> Result<(), Fail> {
    check(&rt, rt.alloc(), &Subject::Models, EXECUTED)
}

#[test]
fn statements_behind_solve(rt: HostRuntime) -> Result<(), Fail> {
    check(&rt, rt.alloc(), &Subject::Models, SOLVED)
}

#[test]
fn names_of_tables(rt: HostRuntime) -> Result<(), Fail> {
    check(&rt, rt.alloc(), &Subject::Models, TABLE_NAMES)
}

#[test]
fn tables_that_are_read(rt: HostRuntime) -> Result<(), Fail> {
    check(&rt, rt.alloc(), &Subject::Models, TABLES_READ)
}

#[test]
fn tables_that_are_written(rt: HostRuntime) -> Result<(), Fail> {
    check(&rt, rt.alloc(), &Subject::Models, TABLES_WRITTEN)
}

#[test]
fn kinds_of_models(rt: HostRuntime) -> Result<(), Fail> {
    check(&rt, rt.alloc(), &Subject::Models, KINDS)
}

#[test]
fn first_faults(rt: HostRuntime) -> Result<(), Fail> {
    check(&rt, rt.alloc(), &Subject::Models, ORDER)
}
