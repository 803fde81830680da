// Models with tables: files that are read and written on the way.
use crate::rows::{Subject, check};
use std::test::Fail;

// By hand after the language reference, and the worked rows of the scope.
const READ: &str = "\
0 a 3 1$b 4 2$OPTIMAL$objective obj 0$ <- --math f <- set K; param v{K}; param n{K}; table t IN \"CSV\" \"c\" : K<-[k], v ~ v, n ~ RECNO; printf{i in K}: \"%s %d %d\\n\", i, v[i], n[i]; end; <- k,v$a,3$b,4$
2 model fault: statement 4, line 1: NoField$ <- --math f <- set K; param v{K}; param n{K}; table t IN \"CSV\" \"c\" : K<-[k], v ~ w, n ~ RECNO; printf 'a'; end; <- k,v$a,3$b,4$
1 missing: c$ <- --math f <- set K; param v{K}; param n{K}; table t IN \"CSV\" \"c\" : K<-[k], v ~ v, n ~ RECNO; printf 'a'; end;
1 a$missing: no.csv$ <- --math f --check <- set K; printf 'a\\n'; table t IN 'CSV' 'no' & '.csv': K<-[k]; printf 'b\\n'; end;
1 a$3$missing: d$ <- --math f <- set K; printf 'a\\n'; table t IN 'CSV' 'c': K<-[k]; printf '%d\\n', card(K); param v{K}; table u IN 'CSV' 'd': [k], v; end; <- k$x$y$z$
0 OPTIMAL$objective z 7/2$column x[a] 3$column x[b] 1/2$row z 7/2$row r[a] 3$row r[b] 1/2$3.5$ <- --math f <- set K; param v{K}; table t IN 'CSV' 'c': K<-[k]; table u IN 'CSV' 'd': [k], v; var x{K} >= 0; minimize z: sum{i in K} x[i]; s.t. r{i in K}: x[i] >= v[i]; solve; printf '%.1f\\n', z; end; <- k$a$b$ <- v,k$0.5,b$3,a$
2 OPTIMAL$objective z 1$column x 1$row z 1$model fault: statement 4, line 1: DivZero$ <- --math f <- var x >= 1; minimize z: x; solve; table t{i in 1..2} OUT 'CSV' 'y': 1/(x-1) ~ v; end;
2 syntax fault: statement 3, line 1: NotAStatement$ <- --math f <- set K; solve; table t IN 'CSV' 'c': K<-[k]; end; <- k$a$
0 OPTIMAL$objective z 5$column x 5$row z 5$display = 5$ <- --math f <- param u{1..1} default 5; var x >= 0, <= u[1]; maximize z: x; table t IN \"CSV\" \"c\": [k], u; solve; display x.ub; end; <- k,u$1,7$
0 OPTIMAL$objective z 5$column x 5$row z 5$0 5 7$ <- --math f <- param u{1..1} default 5; var x >= 0, <= u[1]; var y <= u[1]; maximize z: x; table t IN 'CSV' 'c': [k], u; solve; printf '%d %d %d\\n', x.lb, x.ub, y.ub; end; <- k,u$1,7$
";

#[test]
fn tables_are_read(rt: HostRuntime) -> Result<(), Fail> {
    check(&rt, rt.alloc(), &Subject::Answers, READ)
}

// To the file y.
const WRITTEN: &str = "\
0 OPTIMAL$objective obj 0$ <- k,v$1,1/3$2,2/3$ <- --math f <- set I := 1..2; table t {i in I} OUT \"CSV\" \"y\" : i ~ k, i/3 ~ v; end;
0 3$OPTIMAL$objective obj 0$ <- k$1$2$3$ <- --math f <- set K; table t{i in 1..3} OUT 'CSV' 'y': i ~ k; table u IN 'CSV' 'y': K<-[k]; printf '%d\\n', card(K); end;
1 a$missing: no$ <- k$1$ <- --math f <- set K; printf 'a\\n'; table t{i in 1..1} OUT 'CSV' 'y': i ~ k; table u IN 'CSV' 'no': K<-[k]; end;
0 OPTIMAL$objective z 5/2$column x 5/2$row z 5/2$ <- i,x$1,5/2$2,5$ <- --math f <- var x >= 5/2; minimize z: x; solve; table t{i in 1..2} OUT 'CSV' 'y': i, i*x ~ x; end;
0 OPTIMAL$objective z 1$column x 1$row z 1$a$ <- v$2$ <- --math f <- table t{i in 1..1} OUT 'CSV' 'y': i ~ v; var x >= 1; minimize z: x; solve; printf 'a\\n'; table u{i in 2..2} OUT 'CSV' 'y': i ~ v; end;
0 INFEASIBLE$ <- none <- --math f <- var x >= 1; minimize z: x; s.t. r: x <= 0; solve; table t{i in 1..2} OUT 'CSV' 'y': i; end;
2 model fault: statement 1, line 1: DivZero$ <- none <- --math f <- table t{i in 1..2} OUT 'CSV' 'y': 1/(2-i) ~ v; end;
0 TRANSLATED$rows 0$columns 0$ <- v$1$ <- --math f --check <- table t{i in 1..1} OUT 'CSV' 'y': i ~ v; solve; end;
";

#[test]
fn tables_are_written(rt: HostRuntime) -> Result<(), Fail> {
    check(&rt, rt.alloc(), &Subject::WrittenFiles, WRITTEN)
}
