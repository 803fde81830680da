// Raw solutions, which are written to the file y.
use crate::rows::{Subject, check};
use std::test::Fail;

// A best point has the values of the rows and then the numbers of the columns, a ray the columns alone.
const SOLUTIONS: &str = "\
0 OPTIMAL$objective obj 13/5$column x 7/5$column y 6/5$row r.1 4$row r.2 5$ <- s OPTIMAL 2 2 13/5$i 1 4$i 2 5$j 1 7/5$j 2 6/5$e$ <- --lp f -w y <- max$ x + y$st$ 2 x + y <= 4$ x + 3 y <= 5$end$
0 OPTIMAL$objective cost 2$column x 2$ <- s OPTIMAL 0 1 2$j 1 2$e$ <- --freemps f --write y <- @
0 INFEASIBLE$ <- s INFEASIBLE 2 2$e$ <- --lp f --write=y <- min$ x$st$ x + y <= 1$ x + y >= 2$end$
0 UNBOUNDED$column x 0 1$ <- s UNBOUNDED 0 1$j 1 0 1$e$ <- --lp f -wy <- max$ x$st$end$
0 OPTIMAL$objective obj 0$ <- s OPTIMAL 0 0 0$e$ <- --math f -w y <- end;
0 OPTIMAL$objective z 1$column x 1$row z 1$x = 1$ <- s OPTIMAL 1 1 1$i 1 1$j 1 1$e$ <- --math f -w y <- var x >= 1; minimize z: x; solve; display x; end;
4 UNDECIDED nodes$ <- none <- --lp f --nodlim 0 -w y <- max$ x$st$ 2 x <= 1$general$ x$end$
2 file fault: line 1: BadLine$ <- none <- --lp f -w y <- x$
";

#[test]
fn raw_solutions_are_written(rt: HostRuntime) -> Result<(), Fail> {
    check(&rt, rt.alloc(), &Subject::WrittenFiles, SOLUTIONS)
}
