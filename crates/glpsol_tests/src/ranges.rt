// Exact ranges, which are written to the file y, by hand.
use crate::rows::{Subject, check};
use std::test::Fail;

// Two rows; a plan with its wood and its hours; the relaxation of a problem; a model with a statement behind `solve`.
const RANGES: &str = "\
0 OPTIMAL$objective obj 13/5$column x 7/5$column y 6/5$row r.1 4$row r.2 5$ <- cost 1 1/3 2$cost 2 1/2 3$upper 1 5/3 10$upper 2 2 12$ <- --lp f --ranges-exact y <- max$ x + y$st$ 2 x + y <= 4$ x + 3 y <= 5$end$
0 OPTIMAL$objective profit 1350$column chairs 20$column tables 15$row wood 100$row hours 90$ <- cost 1 25 75$cost 2 20 60$upper 1 60 180$upper 2 50 150$ <- --lp f --ranges-exact=y <- max$ profit: 30 chairs + 50 tables$st$ wood: 2 chairs + 4 tables <= 100$ hours: 3 chairs + 2 tables <= 90$end$
0 OPTIMAL$objective obj 1/3$column x 1/3$row r.1 1$ <- cost 1 0 none$lower 1 0 2$upper 1 1 none$ <- --lp f --nomip --ranges-exact y <- min$ x$st$ 1 <= 3 x <= 2$general$ x$end$
0 OPTIMAL$objective z 1$column x 1$row z 1$x = 1$ <- cost 1 0 none$ <- --math f --ranges-exact y <- var x >= 1; minimize z: x; solve; display x; end;
";

#[test]
fn exact_ranges_are_written(rt: HostRuntime) -> Result<(), Fail> {
    check(&rt, rt.alloc(), &Subject::WrittenFiles, RANGES)
}

// Where no point is best, or a statement behind `solve` has a fault, there are no ranges. Where a column is integer nothing is solved.
// Where ranges are not found, the report stands, and their file is not made.
const NO_RANGES: &str = "\
0 INFEASIBLE$ <- none <- --lp f --ranges-exact y <- min$ x$st$ x + y <= 1$ x + y >= 2$end$
0 UNBOUNDED$column x 0 1$ <- none <- --lp f --ranges-exact y <- max$ x$st$end$
2 not linear$ <- none <- --lp f --ranges-exact y <- min$ x$st$ 1 <= 3 x <= 2$general$ x$end$
2 OPTIMAL$objective z 1$column x 1$row z 1$model fault: statement 4, line 1: CheckFailed$ <- none <- --math f --ranges-exact y <- var x >= 1; minimize z: x; solve; check: x > 1; end;
4 OPTIMAL$objective obj 14$column x 7$column y 0$row r.1 7$UNDECIDED pivots$ <- none <- --lp f --pivlim 1 --ranges-exact y <- max$ 2 x + y$st$ x + y <= 7$end$
";

#[test]
fn where_no_ranges_are_written(rt: HostRuntime) -> Result<(), Fail> {
    check(&rt, rt.alloc(), &Subject::WrittenFiles, NO_RANGES)
}
