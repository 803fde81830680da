// Expressions with their values or first faults. A row's kind says which evaluator is asked: `n` a number, `s` a symbol, `S` a set,
// `b` what is true (1) or false (0), `f` a linear form.
use crate::models::answer;
use crate::rows::{Subject, check, cut, split};
use std::alloc::{AllocError, Global};
use std::test::Fail;

// What the expressions may name.
const PRELUDE: &str = "\
set I := 1..3; set A := {'a', 'b', 'c'}; set P := {(1,2), (2,3), (3,1)}; \
param c{i in I} := i * i; param w{A} symbolic := 'x'; param d{i in I, j in I: i < j} := 10 * i + j; param none{I}; \
var x{I} >= 0; var y; var z{i in I} >= 1 / (i - 2); ";

// By hand after the language reference.
const NUMBERS: &str = "\
n 7 => 1 + 2 * 3
n 9 => (1 + 2) * 3
n 1/3 => 1 / 3
n 1/2 => 3 / 4 - 1 / 4
n -4 => -2**2
n 512 => 2**3**2
n 1/8 => 2**-3
n 4 => (-2)**2
n !DivZero => 0**-1
n 1 => 0**0
n !NotWhole => 4**(1/2)
n 0 => 10 less 3 less 9
n 7 => 10 less 3
n 0 => 3 less 10
n -1 => 7 mod -2
n 1 => -7 mod 2
n 1 => 7 mod 2
n -1 => -7 mod -2
n 1/2 => 5/2 mod 1
n -3 => -7 div 2
n -3 => 7 div -2
n 3 => 7 div 2
n 0 => -1/2 div 1
n !DivZero => 1 / 0
n !DivZero => 1 div 0
n !DivZero => 1 mod 0
n !DivZero => 1/0 + 2**1000
n !NoFit 85070591730234615865843651857942052864 * 2 => 2**1000 + 1/0
n 5 => + 5
n -5 => - + 5
n 5 => - - 5
n 2 => abs(-2)
n 1/2 => abs(-1/2)
n -1 => floor(-1/2)
n 0 => ceil(-1/2)
n 0 => trunc(-1/2)
n -1 => trunc(-3/2)
n 0 => round(-1/2)
n 1 => round(1/2)
n -2 => round(-5/2)
n 31/10 => round(3.14, 1)
n 300 => round(314, -2)
n 31/10 => trunc(3.19, 1)
n -31/10 => trunc(-3.19, 1)
n 3 => max(1, 3, 2)
n 1 => min(1, 3, 2)
n 7 => max(7)
n !NotANumber => max(1, 'a', 1/0)
n !DivZero => max(1, 1/0, 'a')
n 5 => '2' + 3
n -3 => '-1.5' * 2
n !NotANumber => 'x' + 1/0
n !NotANumber => 'x' * 1
n 3 => card(I)
n 0 => card({})
n 3 => card(A)
n 1 => card({1, 1, 1})
n 3 => length('abc')
n 2 => length(12)
n 3 => length(1/3)
n 0 => length('')
n 1 => if 1 < 2 then 1 else 1/0
n !DivZero => if 1 > 2 then 1 else 1/0
n 0 => if 1 > 2 then 1
n 3 => if 'a' < 'b' then 3
n !NotANumber => if 'a' then 3
n 4 => if 1/2 then 4 else 5
n 5 => if 0 then 4 else 5
n 14 => sum{i in I} c[i]
n 22 => sum{i in 1..3} i*2 + 10
n 36 => sum{i in 1..3} (i*2 + 10) - 6
n 36 => prod{i in I} c[i]
n 0 => sum{i in 1..0} 1/0
n 1 => prod{i in {}} 1/0
n 9 => max{i in I} c[i]
n 1 => min{i in I} c[i]
n !NoValue => max{i in 1..0} i
n !NoValue => min{i in 1..0} i
n 13 => sum{i in I: i > 1} c[i]
n !DivZero => sum{i in I} 1 / (i - 2)
n !NotANumber => sum{i in {'a', 1}} i
n 6 => sum{(i,j) in P} i
n 3 => sum{(2,j) in P} j
n 5 => sum{i in 1..2, (i,j) in P} j
n 0 => sum{('2',j) in P} j
n 38 => sum{i in I, j in i..3: i <> j} d[i,j] - 10
n 1 => sum{i in 3..1 by -1: i = 1} i
n 9 => sum{i in 1..5 by 2} i
n !DivZero => sum{i in 1..5 by 0} i
n 2 => sum{i in 1..3, j in i..3, k in 1..3: i + j = k} 1
n 18 => prod{i in 1..2, j in 1..3: i < j} j
n !DivZero => sum{i in 1..2, j in 1..1/(2-i)} i
n !NotANumber => sum{i in 1..2, j in 1..1/(2-i)} 'a'
n !NotANumber => sum{i in 1..2: 1/(2-i) > 0} 'a'
n 13 => d[1,3]
n !OutOfDomain => d[2,2]
n !OutOfDomain => d[4,5]
n !OutOfDomain => c[4]
n !OutOfDomain => c['1']
n !DivZero => c[1/0]
n !NoValue => none[1]
n !OutOfDomain => none[0]
n 9 => c[1 + 2]
n 170141183460469231731687303715884105727 => 170141183460469231731687303715884105727
n !NoFit 170141183460469231731687303715884105727 + 1 => 170141183460469231731687303715884105727 + 1
n !NoFit 100000000000000000000000000000000000000 * 10 => 10**38 * 10
n !TooMany => card(1..5000001)
n 2 => card({i in I, j in I: i + j = 3})
";

const SYMBOLS: &str = "\
s 'ab => 'a' & 'b'
s '12 => 1 & 2
s 'x1/2 => 'x' & 1/2
s 'a3b => 'a' & 1 + 2 & 'b'
s 'bc => substr('abc', 2)
s ' => substr('abc', 4)
s 'b => substr('abc', 2, 1)
s ' => substr('abc', 2, 0)
s !OutOfDomain => substr('abc', 5)
s !OutOfDomain => substr('abc', 0)
s !OutOfDomain => substr('abc', 2, 3)
s !OutOfDomain => substr('abc', 2, -1)
s !NotWhole => substr('abc', 3/2)
s !NotANumber => substr('abc', 'x')
s '23 => substr(1234, 2, 2)
s 'x => w['a']
s !OutOfDomain => w['d']
s 'a => if 1 then 'a' else 'b'
s 0 => if 0 then 'a'
s 'no => 'no'
s 1/3 => 1/3
s 'a => ('a')
";

const SETS: &str = "\
S {} => {}
S {} => 1..0
S {1,2,3} => 1..3
S {1,3,5} => 1..5 by 2
S {5,3,1} => 5..1 by -2
S {} => 1..5 by -1
S {1/2,3/2} => 1/2 .. 2
S {3,1,2} => {3, 1, 2, 1}
S {1,'1} => {1, '1'}
S {1.2,3.4} => {(1,2), (3,4), (1,2)}
S {1,2,3,4,5} => 1..3 union 2..5
S {1} => 1..3 diff 2..5
S {2,3} => 1..3 inter 2..5
S {1,4,5} => 1..3 symdiff 2..5
S {3,1,9} => {3,1,2} symdiff {2,9}
S {1.'a,1.'b,2.'a,2.'b} => 1..2 cross {'a','b'}
S {2} => 1..3 diff 3..5 diff {1}
S {1,2,3,4} => {1} union {2} union {3} union {4}
S {3,2} => {3,1,2} inter {2,3}
S {1.1.1} => {1} cross {1} cross {1}
S {1,2,3} => {i in I}
S {2,3} => {i in I: i > 1}
S {1.2,1.3,2.3} => {i in I, j in I: i < j}
S {1.1,1.2,2.1,2.2} => {1..2, 1..2}
S {2.3} => {(2,j) in P}
S {1.1.2,2.2.3} => {i in 1..2, (i,j) in P}
S {2,3,1} => setof{(i,j) in P} j
S {1.1,2.4,3.9} => setof{i in I} (i, c[i])
S {1} => setof{i in I} 1
S {} => setof{i in 1..0} 1/0
S {1,2} => if 1 then 1..2 else {5}
S {5} => if 0 then 1..2 else {5}
S {} => if 0 then 1..2
S {} => if 0 then (if 1 then I)
S !DivZero => {1, 1/0}
S !DivZero => {i in I: 1 / (i - 2) > 0}
S !DivZero => {i in 1..1/0}
S {} => {i in 1..0, j in 1..1/0}
S !TooMany => 0..5000000
S !NotANumber => 1..'a'
S {'a,'b,'c} => A
S {1.2,2.3,3.1} => P
S {1.2} => {(i,j) in P: j = 2}
S {1.'a} => {(1,'a')}
S {1,2} => ({1} union {2})
";

const TRUTHS: &str = "\
b 1 => 1 < 2
b 0 => 2 < 1
b 1 => 1 <= 1
b 1 => 1 = 1
b 0 => 1 <> 1
b 1 => 2 >= 1
b 1 => 2 > 1
b 1 => 0.1 + 0.2 = 0.3
b 0 => 1 = '1'
b 1 => 1 <> '1'
b 1 => 1000 < 'a'
b 1 => 'a' < 'b'
b 1 => 'B' < 'a'
b 1 => '' < 'a'
b 1 => 'a' = 'a'
b 1 => 1 in I
b 0 => 4 in I
b 0 => '1' in I
b 1 => 4 not in I
b 1 => (1,2) in P
b 0 => (2,1) in P
b 1 => 1..2 within I
b 0 => I within 1..2
b 1 => {} within 1..2
b 1 => I not within 1..2
b 1 => P within I cross I
b 1 => not 0
b 0 => not 1 < 2
b 1 => not not 3
b 1 => 1 and 2
b 0 => 1 and 0
b 0 => 0 and 1/0
b !DivZero => 1 and 1/0
b 1 => 1 or 1/0
b !DivZero => 0 or 1/0
b !DivZero => 1/0 or 1
b 1 => 0 or 1
b !NotANumber => 'a' and 1
b !NotANumber => 1 and 'a'
b 1 => 0 and 1/0 or 1
b 1 => forall{i in I} i > 0
b 0 => forall{i in I} i > 1
b 0 => forall{i in I} 1 / (i - 2) > 0
b 1 => exists{i in I} i > 2
b 0 => exists{i in I} i > 3
b !DivZero => exists{i in I} 1 / (i - 2) > 0
b 0 => forall{i in 1..2, j in 1..1/(2-i)} i > 1
b 1 => exists{i in 1..2, j in 1..1/(2-i)} i = j
b 1 => exists{i in 1..10000, j in 1..1000} 1
b 0 => forall{i in 1..10000, j in 1..1000} i + j < 2
b 1 => forall{i in {}} 1/0
b 0 => exists{i in {}} 1/0
b 1 => forall{i in I: i > 2} i = 3
b 1 => 1 < 2 and 2 < 3 and 3 < 4
";

// A term is a coefficient, the variable's name and its subscripts behind points.
const FORMS: &str = "\
f 0 => 0
f 7 => 7
f 1y+0 => y
f 1x.1+0 => x[1]
f 1x.1+2y+3 => x[1] + 2 * y + 3
f 1x.1+-1y+0 => x[1] - y
f -1y+0 => -y
f 0y+0 => y - y
f 1/2y+1 => (y + 2) / 2
f 1x.1+4x.2+9x.3+0 => sum{i in I} c[i] * x[i]
f 0 => sum{i in 1..0} x[i]
f !Nonlinear => prod{i in {3}} i * y
f !Nonlinear => y * y
f !Nonlinear => (y - y) * y
f !Nonlinear => 0 * y * y
f !Nonlinear => 1 / y
f !Nonlinear => y ** 2
f !Nonlinear => y less 1
f !Nonlinear => y div (1/0)
f !Nonlinear => abs(y)
f !Nonlinear => max(1, y)
f !Nonlinear => max{i in I} x[i]
f !Nonlinear => if y then 1
f !Nonlinear => if y > 1 then 1
f !DivZero => y / 0
f !OutOfDomain => x[4] * y * y
f 1y+0 => if 1 then y else y * y
f 0 => if 0 then y
f 1z.1+0 => z[1]
f !DivZero => z[2]
f 1z.3+0 => z[3]
f !OutOfDomain => z[4]
f 5y+1x.1+0 => y + x[1] + 4 * y
f !NotANumber => y + 'a'
";

pub(crate) fn expression_row(alloc: Global, row: &str) -> Result<String, AllocError> {
    let (head, expression) = split(row);
    let (kind, _) = cut(head);
    let found = answer(alloc, PRELUDE, kind, expression)?;
    format!(in alloc; "{kind} {found} => {expression}")
}

#[test]
fn numbers(rt: HostRuntime) -> Result<(), Fail> {
    check(&rt, rt.alloc(), &Subject::Expressions, NUMBERS)
}

#[test]
fn symbols(rt: HostRuntime) -> Result<(), Fail> {
    check(&rt, rt.alloc(), &Subject::Expressions, SYMBOLS)
}

#[test]
fn sets(rt: HostRuntime) -> Result<(), Fail> {
    check(&rt, rt.alloc(), &Subject::Expressions, SETS)
}

#[test]
fn truths(rt: HostRuntime) -> Result<(), Fail> {
    check(&rt, rt.alloc(), &Subject::Expressions, TRUTHS)
}

#[test]
fn forms(rt: HostRuntime) -> Result<(), Fail> {
    check(&rt, rt.alloc(), &Subject::Expressions, FORMS)
}
