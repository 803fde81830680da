// Models that print: up to `solve`, behind it, to the output and to a file.
use crate::rows::{Subject, check};
use std::test::Fail;

// By hand after the language reference and C's `printf`.
const PRINTED: &str = "\
0 10$OPTIMAL$objective obj 0$ <- --math f <- param comb{n in 0..7, k in 0..n} := if k = 0 or k = n then 1 else comb[n-1,k-1] + comb[n-1,k]; printf '%d\\n', comb[5,2]; end;
0  2.33|ab  |12$0.2 2 0.333333$OPTIMAL$objective obj 0$ <- --math f <- printf '%5.2f|%-4s|%d\\n', 7/3, 'ab', 12; printf '%.1f %.0f %g\\n', 1/4, 5/2, 1/3; end;
0 -4 512 0 -1 -3$22$OPTIMAL$objective obj 0$ <- --math f <- printf '%d %d %d %d %d\\n', -2**2, 2**3**2, 10 less 3 less 9, 7 mod -2, -7 div 2; printf '%d\\n', sum{i in 1..3} i*2 + 10; end;
0 3 1 9 $OPTIMAL$objective obj 0$ <- --math f <- printf{i in {3,1,2} symdiff {2,9}}: '%d ', i; printf '\\n'; end;
0 18$OPTIMAL$objective obj 0$ <- --math f <- param p{1..2}; printf '%d\\n', p[1]+p[2]; data; param p := 1 9 2 9; end;
0 11$OPTIMAL$objective obj 0$ <- --math f -d c -d d <- param p{1..2}; printf '%d\\n', p[1]+p[2]; data; param p := 1 9 2 9; end; <- param p := 1 5; <- data; param p := 2 6; end;
0 S = {a, 'b c'}$p[1] = 1/2$p[2] = 1$1;2;$OPTIMAL$objective obj 0$ <- --math f <- set S := {'a', 'b c'}; param p{i in 1..2} := i/2; display S, p; for {i in 1..2} { printf '%d;', i; } printf '\\n'; end;
0 a$TRANSLATED$rows 1$columns 1$ <- --math f --check <- printf 'a\\n'; var x; minimize z: x; solve; printf 'b\\n'; end;
2 a$model fault: statement 2, line 1: CheckFailed$ <- --math f <- printf 'a\\n'; check: 1 = 2; end;
2 1$2$model fault: statement 1, line 1: DivZero$ <- --math f <- printf{i in 1..4}: '%d\\n', i + 0/(3 - i); end;
2 model fault: statement 1, line 1: BadFormat$ <- --math f <- printf '%q\\n', 1; end;
2 model fault: statement 1, line 1: NotWhole$ <- --math f <- printf '%d\\n', 7/3; end;
2 model fault: statement 2, line 1: NoFit 100000000000000000000000000000000000000 * 10$ <- --math f <- param p := 10**38 * 10; printf '%s\\n', p; end;
4 a$UNDECIDED nodes$ <- --math f --nodlim 3 <- var x integer >= 0; var y integer >= 0; minimize z: x; s.t. r: 2*x - 2*y = 1; printf 'a\\n'; solve; printf 'b\\n'; end;
2 syntax fault: statement 2, line 1: Undeclared$ <- --math f <- printf 'a\\n'; printf '%d\\n', q; end;
2 syntax fault: statement 1, line 1: Unsupported$ <- --math f <- printf 'a\\n' > 'g'; end;
";

#[test]
fn models_print(rt: HostRuntime) -> Result<(), Fail> {
    check(&rt, rt.alloc(), &Subject::Answers, PRINTED)
}

// Behind `solve` names of variables, constraints and objectives are numbers.
const BEHIND: &str = "\
0 OPTIMAL$objective z 6$column x[1] 2$column x[2] 1$column x[3] 0$row z 6$row r 3$1=2 2=1 3=0 $ <- --math f <- set I := 1..3; param c{i in I} := i*i; var x{I} >= 0, <= 2; minimize z: sum{i in I} c[i]*x[i]; s.t. r: sum{i in I} x[i] >= 3; solve; printf{i in I}: '%d=%g ', i, x[i].val; printf '\\n'; end;
0 before$OPTIMAL$objective z 7/2$column x 7/2$row z 7/2$row r 7/2$z = 7/2$3.5 3.5 3.5 9$ <- --math f <- printf 'before\\n'; var x >= 1, <= 9; minimize z: x; s.t. r: x >= 7/2; solve; display z; printf '%g %g %g %g\\n', x, r, r.lb, x.ub; end;
0 OPTIMAL$objective z 2$column y 2$row z 2$0 2 1$ <- --math f <- var x >= 1; var y >= 2; minimize z: x - x + y; solve; printf '%g %g %g\\n', x, y.val, x.lb; end;
0 OPTIMAL$objective z 3$column x[1] 1$column x[2] 2$row z 3$row r[1] 1$row r[2] 2$1 2 $twice 6$ <- --math f <- var x{1..2}; minimize z: x[1] + x[2]; s.t. r{i in 1..2}: x[i] >= i; solve; for{i in 1..2: x[i] > 0} printf '%g ', r[i].val; printf '\\n'; param twice := 2 * (x[1] + x[2]); printf 'twice %g\\n', twice; end;
0 OPTIMAL$objective z 13/5$column x 7/5$column y 6/5$row z 13/5$row a 4$row b 5$2/5 1/5 0$ <- --math f <- var x >= 0; var y >= 0; maximize z: x + y; s.t. a: 2*x + y <= 4; s.t. b: x + 3*y <= 5; solve; printf '%s %s %s\\n', a.dual, b.dual, x.dual; end;
0 OPTIMAL$objective z 9$column x 3$column y 1$row z 9$row r 4$3 -1 0 0$ <- --math f <- var x >= 0, <= 3; var y >= 0; minimize z: 2*x + 3*y; s.t. r: x + y >= 4; solve; printf '%s %s %s %s\\n', r.dual, x.dual, y.dual, z.dual; end;
0 OPTIMAL$objective z 6$column x 3$row z 6$2$ <- --math f --max <- var x >= 1, <= 3; minimize z: 2*x; solve; printf '%s\\n', x.dual; end;
0 OPTIMAL$objective z 3$column x 1$row z 3$3$ <- --math f --min <- var x >= 1; maximize z: 3*x; solve; printf '%s\\n', x.dual; end;
0 OPTIMAL$objective z 2$column x 2$row z 2$row r 2$0 0 1$ <- --math f <- var x >= 0; var y; minimize z: x; s.t. r: x >= 2; solve; printf '%s %s %s\\n', x.dual, y.dual, r.dual; end;
2 OPTIMAL$objective z 2$column x 2$row z 2$row r 2$a$model fault: statement 6, line 1: NoDual$ <- --math f <- var x integer, >= 0; minimize z: x; s.t. r: x >= 3/2; solve; printf 'a\\n'; printf '%s\\n', r.dual; end;
2 OPTIMAL$objective z 2$column x 2$row z 2$model fault: statement 5, line 1: NoDual$ <- --math f <- var x integer, >= 2; var y; minimize z: x; solve; printf '%s\\n', y.dual; end;
0 OPTIMAL$objective z 3/2$column x 3/2$row z 3/2$row r 3/2$1$ <- --math f --nomip <- var x integer, >= 0; minimize z: x; s.t. r: x >= 3/2; solve; printf '%s\\n', r.dual; end;
2 syntax fault: statement 3, line 1: WrongKind$ <- --math f <- var x >= 1; minimize z: x; printf '%s\\n', x.dual; solve; end;
2 syntax fault: statement 4, line 1: Unsupported$ <- --math f <- var x >= 1; minimize z: x; solve; printf '%s\\n', x.status; end;
0 INFEASIBLE$ <- --math f <- var x >= 1; minimize z: x; s.t. r: x <= 0; solve; printf 'no\\n'; end;
0 UNBOUNDED$column x 0 1$ <- --math f <- var x >= 0; maximize z: x; solve; printf 'no\\n'; end;
2 OPTIMAL$objective z 1$column x 1$row z 1$model fault: statement 4, line 1: NoValue$ <- --math f <- var x >= 1; minimize z: x; solve; printf '%d\\n', x.ub; end;
2 OPTIMAL$objective z 1$column x 1$row z 1$a$model fault: statement 5, line 2: CheckFailed$ <- --math f <- var x >= 1; minimize z: x; solve; printf 'a\\n';$check: x > 1; end;
2 syntax fault: statement 3, line 1: WrongKind$ <- --math f <- var x >= 1; minimize z: x; printf '%d\\n', x; solve; end;
";

#[test]
fn models_print_their_solutions(rt: HostRuntime) -> Result<(), Fail> {
    check(&rt, rt.alloc(), &Subject::Answers, BEHIND)
}

// To the file y.
const TO_A_FILE: &str = "\
0 OPTIMAL$objective z 6$column x[1] 2$column x[2] 1$column x[3] 0$row z 6$row r 3$ <- 1=2 2=1 3=0 $ <- --math f -y y <- set I := 1..3; param c{i in I} := i*i; var x{I} >= 0, <= 2; minimize z: sum{i in I} c[i]*x[i]; s.t. r: sum{i in I} x[i] >= 3; solve; printf{i in I}: '%d=%g ', i, x[i].val; printf '\\n'; end;
0 OPTIMAL$objective z 1$column x 1$row z 1$ <- a$x = 1$ <- --math f --display y <- printf 'a\\n'; var x >= 1; minimize z: x; solve; display x; end;
0 INFEASIBLE$ <- a$ <- --math f --display=y <- printf 'a\\n'; var x >= 1; minimize z: x; s.t. r: x <= 0; solve; display x; end;
0 OPTIMAL$objective obj 0$ <-  <- --math f -yy <- end;
2 model fault: statement 2, line 1: CheckFailed$ <- a$ <- --math f -y y <- printf 'a\\n'; check: 1 = 2; end;
2 OPTIMAL$objective z 1$column x 1$row z 1$model fault: statement 6, line 1: NoValue$ <- a$b$ <- --math f -y y <- printf 'a\\n'; var x >= 1; minimize z: x; solve; printf 'b\\n'; printf '%d\\n', x.ub; end;
2 syntax fault: statement 1, line 1: Unended$ <- none <- --math f -y y <- printf 'a\\n'
2 data fault: block 1, line 1: Unknown$ <- none <- --math f -y y <- printf 'a\\n'; data; param q := 1; end;
0 TRANSLATED$rows 0$columns 0$ <- a$ <- --math f --check -y y <- printf 'a\\n'; end;
1 usage: glpsol (--math|--freemps|--lp) FILE [options]$ <- none <- --lp f -y y <- min$ x$end$
1 usage: glpsol (--math|--freemps|--lp) FILE [options]$ <- none <- --math f -y y --display z <- end;
";

#[test]
fn models_print_to_a_file(rt: HostRuntime) -> Result<(), Fail> {
    check(&rt, rt.alloc(), &Subject::WrittenFiles, TO_A_FILE)
}
