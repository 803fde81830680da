// CPLEX LP texts, and their answers.
use crate::rows::{Subject, check};
use std::test::Fail;

const TEXTS: &str = "\
0 OPTIMAL$objective obj 11$column x 3$column y 1$row r.1 4$row r.2 6$ <- --lp f --exact <- max$ 3 x + 2 y$st$ x + y <= 4$ x + 3 y <= 6$bounds$ x <= 3$end$
0 OPTIMAL$objective obj 13/5$column x 7/5$column y 6/5$row r.1 4$row r.2 5$ <- --lp f --exact <- max$ x + y$st$ 2 x + y <= 4$ x + 3 y <= 5$end$
0 INFEASIBLE$ <- --lp f --exact <- min$ x$st$ x + y <= 1$ x + y >= 2$end$
0 TRANSLATED$rows 1$columns 2$ <- --lp f --check <- min$ x$st$ 2 x - 2 y = 1$general$ x y$end$
0 OPTIMAL$objective obj -5/4$column x4 1$column x5 0$column x6 1$column x7 0$row r.1 -3/4$row r.2 0$row r.3 1$ <- --lp f --exact <- min$ - 0.75 x4 + 20 x5 - 0.5 x6 + 6 x7$st$ 0.25 x4 - 8 x5 - x6 + 9 x7 <= 0$ 0.5 x4 - 12 x5 - 0.5 x6 + 3 x7 <= 0$ x6 <= 1$end$
3 overflow: 100000000000000000000 * 100000000000000000000$ <- --lp f --exact <- min$ z$st$ 100000000000000000000 x - y = 0$ 100000000000000000000 y - z = 0$ x = 1$end$
0 OPTIMAL$objective obj 5/2$column x 3/2$row c 3$ <- --lp f --exact <- min$ x + 1$st$ c: x + x >= 3$bounds$ x free$end$
2 file fault: line 5: Twice$ <- --lp f --exact <- min$ x$st$ a: x >= 1$ a: x >= 2$end$
";

#[test]
fn texts_and_their_answers(rt: HostRuntime) -> Result<(), Fail> {
    check(&rt, rt.alloc(), &Subject::Answers, TEXTS)
}
