// Irreducible infeasible subsets, by hand.
use crate::rows::{Subject, check};
use std::test::Fail;

// Two rows; two rows and a bound of a column; bounds of one column; an empty row; a row of which one side alone is needed; a blend whose
// demand is above what the supplies make; a network whose narrowest cut is below what is sent; three shifts for two workers.
const SUBSETS: &str = "\
0 INFEASIBLE$iis 2$row r.1 upper$row r.2 lower$ <- --lp f --iis <- min$ x$st$ x + y <= 1$ x + y >= 2$end$
0 INFEASIBLE$iis 3$row r.1 upper$row r.2 lower$column y lower$ <- --lp f --iis <- min$ x$st$ x + y <= 1$ x - y >= 2$end$
0 INFEASIBLE$iis 2$column x lower$column x upper$ <- --freemps f --iis <- NAME t$ROWS$ N cost$COLUMNS$ x cost 1$BOUNDS$ LO b x 3$ UP b x 2$ENDATA$
0 INFEASIBLE$iis 1$row a lower$ <- --freemps f --iis <- ROWS$ N cost$ G a$COLUMNS$ x cost 1$RHS$ R a 1$ENDATA$
0 INFEASIBLE$iis 2$row r.1 upper$column x lower$ <- --lp f --iis <- max$ x + y$st$ 1 <= x <= 2$ x + y <= 9$bounds$ x >= 3$end$
0 INFEASIBLE$iis 2$row r.1 lower$column x upper$ <- --lp f --iis --nomip <- max$ x$st$ x >= 2.5$bounds$ x <= 2$general$ x$end$
0 INFEASIBLE$iis 3$row light_supply upper$row heavy_supply upper$row petrol lower$ <- --lp f --iis <- min$ cost: 3 light + 2 heavy$st$ light_supply: light <= 40$ heavy_supply: heavy <= 30$ petrol: 0.6 light + 0.4 heavy >= 37$ diesel: 0.3 light + 0.5 heavy >= 25$end$
0 INFEASIBLE$iis 5$row send lower$row a upper$row b upper$column at upper$column bt upper$ <- --lp f --iis <- min$ 0 sa$st$ send: sa + sb = 10$ a: sa - ab - at = 0$ b: sb + ab - bt = 0$bounds$ sa <= 8$ sb <= 6$ ab <= 2$ at <= 4$ bt <= 5$end$
0 INFEASIBLE$iis 5$row need[early] lower$row need[late] lower$row need[night] lower$row most[ann] upper$row most[bob] upper$ <- --math f --iis <- set W; set S; var x{W, S} >= 0; s.t. need{s in S}: sum{w in W} x[w,s] >= 1; s.t. most{w in W}: sum{s in S} x[w,s] <= 1; data; set W := ann bob; set S := early late night; end;
";

#[test]
fn members_of_subsets(rt: HostRuntime) -> Result<(), Fail> {
    check(&rt, rt.alloc(), &Subject::Subsets, SUBSETS)
}

// The certificate is of the subset's weights: of an empty row whose bounds contradict one another each, of which one is needed; and of two
// rows and a bound of a column. Without the option the first one has weights of both bounds.
const CERTIFICATES: &str = "\
0 INFEASIBLE$iis 1$row r.1 lower 0$ <- cert 2$size 2 1$verdict infeasible$derived 0$tree$empty r1:1$end$ <- --lp f --iis --cert y <- min$ x$st$ 3 <= x - x <= 2$ x >= 1$end$
0 INFEASIBLE$ <- cert 2$size 2 1$verdict infeasible$derived 0$tree$empty r1:1 r1:-1$end$ <- --lp f --cert y <- min$ x$st$ 3 <= x - x <= 2$ x >= 1$end$
0 INFEASIBLE$iis 3$row r.1 upper 2 0$row r.2 lower 1 0$column y lower 3/2 -1/2$ <- cert 2$size 2 2$verdict infeasible$derived 0$tree$empty r1:-1 r2:1 c2:2$end$ <- --lp f --iis --cert y <- min$ x$st$ x + y <= 1$ x - y >= 2$end$
";

#[test]
fn certificates_of_subsets(rt: HostRuntime) -> Result<(), Fail> {
    check(&rt, rt.alloc(), &Subject::WrittenFiles, CERTIFICATES)
}

// Where a point is feasible the option changes nothing. Where a column is integer nothing is solved, and what the model prints comes
// first.
const NO_SUBSETS: &str = "\
0 OPTIMAL$objective obj 11$column x 3$column y 1$row r.1 4$row r.2 6$ <- --lp f --iis <- max$ 3 x + 2 y$st$ x + y <= 4$ x + 3 y <= 6$bounds$ x <= 3$end$
0 UNBOUNDED$column x <- --lp f --iis <- max$ x$st$ x >= 1$end$
2 not linear$ <- --lp f --iis <- min$ x$st$ 1 <= 3 x <= 2$general$ x$end$
0 OPTIMAL$objective obj 1/3$column x 1/3$row r.1 1$ <- --lp f --iis --nomip <- min$ x$st$ 1 <= 3 x <= 2$general$ x$end$
2 a$not linear$ <- --math f --iis <- printf 'a\\n'; var x integer, >= 1/2; minimize z: x; solve; printf 'b\\n'; end;
2 model fault: statement 2, line 1: CheckFailed$ <- --math f --iis <- var x integer; check: 1 = 2; end;
";

#[test]
fn where_no_subset_is_found(rt: HostRuntime) -> Result<(), Fail> {
    check(&rt, rt.alloc(), &Subject::Answers, NO_SUBSETS)
}
