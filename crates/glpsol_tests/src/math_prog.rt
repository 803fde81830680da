// MathProg texts, and their answers.
use crate::rows::{Subject, check};
use std::test::Fail;

// Optima that GLPK gives too.
const MODELS: &str = "\
0 OPTIMAL$objective z 6$column x[1] 2$column x[2] 1$column x[3] 0$row z 6$row r 3$ <- --math f <- set I := 1..3; param c{i in I} := i*i; var x{I} >= 0, <= 2; minimize z: sum{i in I} c[i]*x[i]; s.t. r: sum{i in I} x[i] >= 3; end;
0 OPTIMAL$objective z 6$column x[1] 2$column x[2] 1$column x[3] 0$row z 6$row r 3$ <- -m f <- set I := 1..3; param c{i in I} := i*i; var x{I} >= 0, <= 2; minimize z: sum{i in I} c[i]*x[i]; s.t. r: sum{i in I} x[i] >= 3; end;
0 TRANSLATED$rows 2$columns 3$ <- --math f --check <- set I := 1..3; param c{i in I} := i*i; var x{I} >= 0, <= 2; minimize z: sum{i in I} c[i]*x[i]; s.t. r: sum{i in I} x[i] >= 3; end;
0 OPTIMAL$objective z 17$column x 17$row z 17$row r 17$ <- --math f <- var x; minimize z: x; s.t. r: x >= sum{i in 1..3} i*2 + 10 + 7 mod -2 - 2**2; end;
0 OPTIMAL$objective z 18$column x 18$row z 18$row r 18$ <- --math f <- param p{1..2}; var x; minimize z: x; s.t. r: x >= p[1]+p[2]; data; param p := 1 9 2 9; end;
0 OPTIMAL$objective z 54$column x 54$row z 54$row r 54$ <- --math f <- param c{1..2,1..2}; var x; minimize z: x; s.t. r: x >= c[1,2]*10 + c[2,1]; data; param c (tr): 1 2 := 1 3 4 2 5 6; end;
0 OPTIMAL$objective z 45$column x 45$row z 45$row r 45$ <- --math f <- param c{1..2,1..2}; var x; minimize z: x; s.t. r: x >= c[1,2]*10 + c[2,1]; data; param c : 1 2 := 1 3 4 2 5 6; end;
0 OPTIMAL$objective z 2$column y 2$row z 2$ <- --math f <- var x >= 1; var y >= 2; minimize z: x - x + y; end;
0 OPTIMAL$objective profit 25/2$column x 3$column y 1/2$row profit 23/2$row a 7/2$row b -2$ <- --math f <- var x >= 0, <= 3;$var y >= 0;$maximize profit: 3*x + 5*y + 1;$a: x + y <= 7/2;$b: 0 <= 2*y - x + 5/2 <= 1/2;$end;$
0 OPTIMAL$objective z 1$column x['a b',1] 1$column x[c-1,2] 0$row z 1$row r 1$ <- --math f --min <- set S := {('a b', 1), ('c-1', 2)}; var x{(i,j) in S} >= 0, <= j; maximize z: sum{(i,j) in S} j*x[i,j]; s.t. r: sum{(i,j) in S} x[i,j] = 1; end;
0 INFEASIBLE$ <- --math f <- var x >= 0; s.t. r: x <= -1; end;
0 UNBOUNDED$column x 0 1$ <- --math f <- var x >= 0; maximize z: x; end;
";

#[test]
fn models_are_solved(rt: HostRuntime) -> Result<(), Fail> {
    check(&rt, rt.alloc(), &Subject::Answers, MODELS)
}

// A shortest path, a greatest flow, a cutting stock, a plan over periods, a blend, a game, a least distance, and what sets, strings
// and steps come to. The points are not the only ones everywhere, so the objective alone is compared.
const OBJECTIVES: &str = "\
0 OPTIMAL$objective total 17$column <- --math f <- set N := 1..5; set A := {(1,2),(1,3),(2,4),(3,4),(4,5),(2,5)}; param len{(i,j) in A} := i + 2*j; var f{A} >= 0; minimize total: sum{(i,j) in A} len[i,j]*f[i,j]; s.t. flow{n in N}: sum{(n,j) in A} f[n,j] - sum{(i,n) in A} f[i,n] = if n = 1 then 1 else if n = 5 then -1 else 0; end;
0 OPTIMAL$objective flow 7$column <- --math f <- set A := {('s','a',4),('s','b',3),('a','b',2),('a','t',2),('b','t',5)}; set V := setof{(i,j,c) in A} i union setof{(i,j,c) in A} j; var f{(i,j,c) in A} >= 0, <= c; maximize flow: sum{('s',j,c) in A} f['s',j,c]; s.t. kept{v in V diff {'s','t'}}: sum{(v,j,c) in A} f[v,j,c] = sum{(i,v,c) in A} f[i,v,c]; end;
0 OPTIMAL$objective used 953/3$column <- --math f <- param width := 100; set P := setof{a in 0..2, b in 0..3, c in 0..4: a*45 + b*31 + c*14 <= width and a + b + c > 0} (a,b,c); var rolls{P} >= 0; minimize used: sum{(a,b,c) in P} rolls[a,b,c]; s.t. wide: sum{(a,b,c) in P} a*rolls[a,b,c] >= 97; s.t. middle: sum{(a,b,c) in P} b*rolls[a,b,c] >= 610; s.t. narrow: sum{(a,b,c) in P} c*rolls[a,b,c] >= 395; end;
0 OPTIMAL$objective cost 3445$column <- --math f <- set T := 1..4; param d{t in T} := 60 + 25*(t mod 2) + 5*t; var made{T} >= 0, <= 70; var over{t in T} >= 0, <= if t > 2 then 20 else 10; var kept{0..4} >= 0; minimize cost: sum{t in T} (10*made[t] + 14*over[t] + 3/2*kept[t]); s.t. first: kept[0] = 15; s.t. balance{t in T}: kept[t-1] + made[t] + over[t] - kept[t] = d[t]; end;
0 OPTIMAL$objective cost 93/5$column <- --math f <- set O := {'light','heavy'}; var use{O} >= 0; minimize cost: 21*use['light'] + 13*use['heavy']; s.t. all_of_it: sum{o in O} use[o] = 1; s.t. sulphur: 1/200*use['light'] + 3/100*use['heavy'] <= 1/80; s.t. thick: 2 <= 1*use['light'] + 9*use['heavy'] <= 6; end;
0 OPTIMAL$objective value 0$column <- --math f <- set R := 1..3; set C := 1..3; param pay{i in R, j in C} := if i = j then 0 else if (j - i) mod 3 = 1 then i else -j; var p{R} >= 0; var v; maximize value: v; s.t. best{j in C}: sum{i in R} pay[i,j]*p[i] >= v; s.t. shares: sum{i in R} p[i] = 1; end;
0 OPTIMAL$objective greatest 5$column <- --math f <- set S := {1, 4, 11}; var x; var far >= 0; minimize greatest: far; s.t. right{s in S}: x - s <= far; s.t. left{s in S}: s - x <= far; end;
0 OPTIMAL$objective z 16$column <- --math f <- set W := {'ab','cde','f'}; param n{w in W} := length(w) + (if substr(w,1,1) = 'c' then 10 else 0); var x{w in W} >= n[w]; minimize z: sum{w in W} x[w]; s.t. r{w in W, u in W: w < u and w & u <> 'abf'}: x[w] + x[u] >= 8; end;
0 OPTIMAL$objective z 136/7$column <- --math f <- set I := 1..4; param big := prod{i in I} i; param least := min{i in I} (i - 2)**2; param ok := if forall{i in I} i > 0 and exists{k in I} k mod 3 = 0 then 1 else 0; var x >= least, <= max{i in I} i**2; maximize z: ok*x + big/7; end;
0 OPTIMAL$objective z 16/3$column <- --math f <- set I := 9 .. 1 by -2; param p{i in I} := (i less 4) + i div 2; var x{i in I} >= p[i]; minimize z: sum{i in I: i <> 5} x[i] / 3; s.t. r: x[5] + x[3] >= 21/2; end;
0 OPTIMAL$objective z 23$column <- --math f <- set A := {'x','y'}; set B := 1..2; set AB := A cross B; set D := AB diff {('x',1)} union {('z',9)}; var v{D} >= 1; minimize z: sum{(a,b) in D} b*v[a,b]; s.t. r{(a,b) in D inter AB}: v[a,b] >= b + 1; end;
0 OPTIMAL$objective cost 30735/2$column <- --math f <- set PLANTS; set MARKETS; param supply{PLANTS}, >= 0; param demand{MARKETS}, >= 0; param distance{PLANTS, MARKETS}, > 0; param freight := 9/100; check: sum{p in PLANTS} supply[p] >= sum{m in MARKETS} demand[m]; var shipped{PLANTS, MARKETS} >= 0; minimize cost: sum{p in PLANTS, m in MARKETS} freight * distance[p,m] * shipped[p,m]; s.t. within_supply{p in PLANTS}: sum{m in MARKETS} shipped[p,m] <= supply[p]; s.t. meets_demand{m in MARKETS}: sum{p in PLANTS} shipped[p,m] >= demand[m]; solve; data; set PLANTS := north south; set MARKETS := coast hills town; param supply := north 350 south 600; param demand := coast 325 hills 300 town 275; param distance : coast hills town := north 250 170 180 south 250 180 140; end;
0 OPTIMAL$objective z 59$column <- --math f <- param comb{n in 0..7, k in 0..n}, integer, >= 1 := if k = 0 or k = n then 1 else comb[n-1,k-1] + comb[n-1,k]; check{n in 1..7}: sum{k in 0..n} comb[n,k] = 2**n; param d{1..3} default 8, >= 0; var x{i in 1..3} >= d[i]; minimize z: sum{i in 1..3} x[i]; s.t. r: x[2] >= comb[7,3] + d[1]; end;
0 OPTIMAL$objective cost 420$column <- --math f <- set S := 1..2; set W := 1..2; set M := 1..3; var a{S,W} >= 0; var b{W,M} >= 0; minimize cost: sum{s in S, w in W} (s + 2*w)*a[s,w] + sum{w in W, m in M} abs(w - m)*b[w,m]; s.t. out{s in S}: sum{w in W} a[s,w] <= 40*s; s.t. through{w in W}: sum{s in S} a[s,w] = sum{m in M} b[w,m]; s.t. want{m in M}: sum{w in W} b[w,m] >= 20 + 5*m; end;
";

#[test]
fn objectives_are_those_of_glpk(rt: HostRuntime) -> Result<(), Fail> {
    check(&rt, rt.alloc(), &Subject::Answers, OBJECTIVES)
}

// The data files c and d stand in the place of the model's own data, in this order.
const DATA_FILES: &str = "\
0 OPTIMAL$objective z 11$column x 11$row z 11$row r 11$ <- --math f -d c --data d <- param p{1..2}; var x; minimize z: x; s.t. r: x >= p[1]+p[2]; data; param p := 1 9 2 9; end; <- param p := 1 5; <- data; param p := 2 6; end;
0 OPTIMAL$objective z 6$column x 6$row z 6$row r 6$ <- -m f -d d <- param p; var x; minimize z: x; s.t. r: x >= p; end; <- param p := 5; <- param p := 6;
2 data fault: block 2, line 3: Twice$ <- --math f -d c -d d <- param p{1..2}; var x; minimize z: x; end; <- param p := 1 5; <- $$param p := 1 6;
1 missing: e$ <- --math f -d c -d e <- param p{1..2}; end; <- param p := 1 5;
1 usage: <- --lp f -d c <- min$ x$end$ <- param p := 1 5;
";

#[test]
fn data_files_are_read(rt: HostRuntime) -> Result<(), Fail> {
    check(&rt, rt.alloc(), &Subject::Answers, DATA_FILES)
}

const FAULTS: &str = "\
0 OPTIMAL$objective obj 0$ <- --math f <- end;
0 OPTIMAL$objective obj 0$ <- --math f <- # nothing
2 syntax fault: statement 1, line 1: TooWide$ <- --math f <- param p := 170141183460469231731687303715884105728; end;
2 syntax fault: statement 2, line 3: Undeclared$ <- --math f <- var x;$$minimize z: x +$y;$end;
2 syntax fault: statement 1, line 1: Unended$ <- --math f <- var x
2 syntax fault: statement 2, line 1: WrongKind$ <- --math f <- var x; display x; end;
2 syntax fault: statement 2, line 1: Unsupported$ <- --math f <- set I := 1..2; table t {i in I} OUT 'ODBC' 'o' : i ~ k; end;
2 data fault: block 1, line 1: Unknown$ <- --math f <- var x; data; param q := 1; end;
2 data fault: block 2, line 3: Twice$ <- --math f <- param p{1..2}; data;$param p := 1 5;$param p := 2 6 1 7; end;
2 model fault: statement 3, line 2: CheckFailed$ <- --math f <- var x >= 1; minimize z: x;$check{i in 1..3}: i < 3; end;
2 model fault: statement 3, line 1: Restriction$ <- --math f <- param p, > 1, default 1; var x; minimize z: p*x; end;
2 model fault: statement 2, line 1: Nonlinear$ <- --math f <- var x; minimize z: x*x; end;
2 model fault: statement 4, line 1: NoValue$ <- --math f --check <- param p; var x; minimize z: x; s.t. r: x >= p; s.t. q: x >= 0; end;
2 model fault: statement 4, line 2: NoFit 100000000000000000000000000000000000000 * 10$ <- --math f <- param p := 10**38 * 10; var x; minimize z: x;$s.t. r: x >= p; end;
";

#[test]
fn faults_are_named(rt: HostRuntime) -> Result<(), Fail> {
    check(&rt, rt.alloc(), &Subject::Answers, FAULTS)
}
