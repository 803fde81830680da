// Integer programs in the three languages, whose optima GLPK gives too, and certificates with a tree.
use crate::rows::{Subject, check};
use std::test::Fail;

// Among them a knapsack and its relaxation, equations that no whole numbers meet, limits of splits that are too small,
// integer columns of free MPS and MathProg, and rays with and without a feasible point.
const INTEGER: &str = "\
0 OPTIMAL$objective obj 21$column a 0$column b 1$column c 1$column d 1$row r.1 14$ <- --lp f <- max$ 8 a + 11 b + 6 c + 4 d$st$ 5 a + 7 b + 4 c + 3 d <= 14$binary$ a b c d$end$
0 OPTIMAL$objective obj 21$column a 0$column b 1$column c 1$column d 1$row r.1 14$ <- --lp f --pivlim 0 <- max$ 8 a + 11 b + 6 c + 4 d$st$ 5 a + 7 b + 4 c + 3 d <= 14$binary$ a b c d$end$
0 OPTIMAL$objective obj 22$column a 1$column b 1$column c 1/2$column d 0$row r.1 14$ <- --lp f --nomip <- max$ 8 a + 11 b + 6 c + 4 d$st$ 5 a + 7 b + 4 c + 3 d <= 14$binary$ a b c d$end$
4 UNDECIDED nodes$ <- --lp f --nodlim 3 <- min$ x$st$ 2 x - 2 y = 1$general$ x y$end$
4 UNDECIDED nodes$ <- --lp f --nodlim 0 <- min$ x$st$ 2 x - 2 y = 1$general$ x y$end$
0 OPTIMAL$objective obj 1/2$column x 1/2$column y 0$row r.1 1$ <- --lp f --nomip --nodlim 0 <- min$ x$st$ 2 x - 2 y = 1$general$ x y$end$
0 INFEASIBLE$ <- --lp f <- min$ x$st$ 1 <= 3 x <= 2$general$ x$end$
0 INFEASIBLE$ <- --lp f --nodlim 1 <- min$ x$st$ 1 <= 3 x <= 2$general$ x$end$
0 INFEASIBLE$ <- --lp f <- min$ - y$st$ 1 <= 3 x <= 2$general$ x$end$
0 UNBOUNDED$column x <- --lp f <- max$ x + y$st$ 2 x - 2 y = 2$general$ x y$end$
0 OPTIMAL$objective cost -8$column x 2$row c1 4$ <- --freemps f <- ROWS$ N cost$ G c1$COLUMNS$ M1 'MARKER' 'INTORG'$ x cost 1 c1 2$ M2 'MARKER' 'INTEND'$RHS$ cost 10 c1 3$ENDATA$
0 OPTIMAL$objective cost -5$column x 1$column y 1$row c1 5$ <- --freemps f <- ROWS$ N cost$ L c1$COLUMNS$ x cost -3 c1 3$ y cost -2 c1 2$RHS$ R c1 6$BOUNDS$ BV b x$ BV b y$ENDATA$
0 OPTIMAL$objective cost 3$column x -3$row c1 -15/2$ <- --freemps f <- ROWS$ N cost$ L c1$COLUMNS$ x cost -1 c1 2.5$RHS$ R c1 -7$BOUNDS$ LI b x -9$ UI b x -1$ENDATA$
0 OPTIMAL$objective z 1$column x 1$row z 1$ <- --math f <- var x integer, >= 1/2; minimize z: x; end;
0 OPTIMAL$objective z 11$column x[1] 1$column x[2] 0$column x[3] 1$row z 11$row r 7$ <- --math f <- set I := 1..3; var x{I} binary; maximize z: sum{i in I} (8 - i*i*(if i = 2 then 2 else 1) + (if i = 3 then 5 else 0))*x[i]; s.t. r: sum{i in I} (2*i - (if i = 3 then 0 else 1))*x[i] <= 8; end;
2 file fault: line 6: BadLine$ <- --lp f <- min$ x$st$ x >= 1$general$ x >= 2$end$
1 usage: <- --lp f --nodlim 1000001 <- min$ x$st$ x >= 1$end$
";

#[test]
fn integer_programs(rt: HostRuntime) -> Result<(), Fail> {
    check(&rt, rt.alloc(), &Subject::Answers, INTEGER)
}

// Programs of these by two workers and by four: where several points are best, which of them is found is a matter of turns.
const BY_WORKERS: &str = "\
0 OPTIMAL$objective obj 21$column a 0$column b 1$column c 1$column d 1$row r.1 14$ <- --lp f --workers 2 <- max$ 8 a + 11 b + 6 c + 4 d$st$ 5 a + 7 b + 4 c + 3 d <= 14$binary$ a b c d$end$
0 OPTIMAL$objective obj 21$column a 0$column b 1$column c 1$column d 1$row r.1 14$ <- --lp f --nodlim 1000 --workers 4 <- max$ 8 a + 11 b + 6 c + 4 d$st$ 5 a + 7 b + 4 c + 3 d <= 14$binary$ a b c d$end$
0 OPTIMAL$objective obj 21$column a 0$column b 1$column c 1$column d 1$row r.1 14$ <- --lp f --pivlim 0 --workers 4 <- max$ 8 a + 11 b + 6 c + 4 d$st$ 5 a + 7 b + 4 c + 3 d <= 14$binary$ a b c d$end$
0 OPTIMAL$objective obj 22$column a 1$column b 1$column c 1/2$column d 0$row r.1 14$ <- --lp f --nomip --workers 4 <- max$ 8 a + 11 b + 6 c + 4 d$st$ 5 a + 7 b + 4 c + 3 d <= 14$binary$ a b c d$end$
4 UNDECIDED nodes$ <- --lp f --nodlim 3 --workers 2 <- min$ x$st$ 2 x - 2 y = 1$general$ x y$end$
4 UNDECIDED nodes$ <- --lp f --nodlim 3 --workers 4 <- min$ x$st$ 2 x - 2 y = 1$general$ x y$end$
4 UNDECIDED nodes$ <- --lp f --nodlim 0 --workers 2 <- min$ x$st$ 2 x - 2 y = 1$general$ x y$end$
0 INFEASIBLE$ <- --lp f --workers 2 <- min$ x$st$ 1 <= 3 x <= 2$general$ x$end$
0 INFEASIBLE$ <- --lp f --nodlim 1 --workers 4 <- min$ x$st$ 1 <= 3 x <= 2$general$ x$end$
0 INFEASIBLE$ <- --lp f --workers 4 <- min$ - y$st$ 1 <= 3 x <= 2$general$ x$end$
0 UNBOUNDED$column x <- --lp f --workers 2 <- max$ x + y$st$ 2 x - 2 y = 2$general$ x y$end$
0 OPTIMAL$objective cost -5$column x 1$column y 1$row c1 5$ <- --freemps f --workers 2 <- ROWS$ N cost$ L c1$COLUMNS$ x cost -3 c1 3$ y cost -2 c1 2$RHS$ R c1 6$BOUNDS$ BV b x$ BV b y$ENDATA$
0 OPTIMAL$objective z 11$column x[1] 1$column x[2] 0$column x[3] 1$row z 11$row r 7$ <- --math f --workers 4 <- set I := 1..3; var x{I} binary; maximize z: sum{i in I} (8 - i*i*(if i = 2 then 2 else 1) + (if i = 3 then 5 else 0))*x[i]; s.t. r: sum{i in I} (2*i - (if i = 3 then 0 else 1))*x[i] <= 8; end;
1 usage: <- --lp f --workers 65 <- min$ x$st$ x >= 1$end$
";

#[test]
fn programs_by_several_workers(rt: HostRuntime) -> Result<(), Fail> {
    check(&rt, rt.alloc(), &Subject::Answers, BY_WORKERS)
}

// And what they write with `--cert` is accepted too.
#[test]
fn certificates_of_several_workers_are_accepted(rt: HostRuntime) -> Result<(), Fail> {
    check(&rt, rt.alloc(), &Subject::RoundTrips, BY_WORKERS)
}

// Made problems. The objectives are those of GLPK and, from 200 columns on, the best of esolver's over the whole numbers of the first
// six.
const MADE: &str = "\
0 OPTIMAL$objective 0$rows 3$columns 1$ <- --demo 1
0 OPTIMAL$objective 4$rows 3$columns 3$ <- --demo 3
0 OPTIMAL$objective 65/4$rows 3$columns 7$ <- --demo 7
4 UNDECIDED nodes$ <- --demo 7 --nodlim 0
0 OPTIMAL$objective 54156/71$rows 3$columns 200$ <- --demo 200
0 OPTIMAL$objective 54156/71$rows 3$columns 200$ <- --demo 200 --workers 2
0 OPTIMAL$objective 54156/71$rows 3$columns 200$ <- --demo 200 --workers 4
0 OPTIMAL$objective 2860874/379$rows 3$columns 2000$ <- --demo 2000
1 usage: <- --demo 3 --cert c
";

#[test]
fn made_problems(rt: HostRuntime) -> Result<(), Fail> {
    check(&rt, rt.alloc(), &Subject::Answers, MADE)
}

// Equations that splits of columns alone do not decide within these limits, and a relaxation; by splits on rows, and by cuts. (`--rowsplit`
// and `--gomory` do not stand with `--checkcert`.)
const BY_ROWS_AND_CUTS: &str = "\
0 INFEASIBLE$ <- --lp f --rowsplit --nodlim 1 <- min$ x$st$ 2 x - 2 y = 1$general$ x y$end$
0 INFEASIBLE$ <- --lp f --rowsplit --nodlim 1 <- min$ a$st$ 2 a + 2 b + 2 c + 2 d + 2 e + 2 f + 2 g + 2 h + 2 i + 2 j + 2 k + 2 l + 2 m + 2 n + 2 o + 2 p + 2 q + 2 r + 2 s + 2 t = 21$general$ a b c d e f g h i j k l m n o p q r s t$end$
0 INFEASIBLE$ <- --lp f --rowsplit --nodlim 1 --workers 2 <- min$ x$st$ 2 x - 2 y = 1$general$ x y$end$
4 UNDECIDED nodes$ <- --lp f --rowsplit --nodlim 0 <- min$ x$st$ 2 x - 2 y = 1$general$ x y$end$
0 OPTIMAL$objective obj 1/2$column x 1/2$column y 0$row r.1 1$ <- --lp f --nomip --rowsplit --nodlim 0 <- min$ x$st$ 2 x - 2 y = 1$general$ x y$end$
0 INFEASIBLE$ <- --lp f --gomory --nodlim 0 <- min$ x$st$ 2 x - 2 y = 1$general$ x y$end$
0 INFEASIBLE$ <- --lp f --gomory --rowsplit --workers 2 --nodlim 0 <- min$ x$st$ 2 x - 2 y = 1$general$ x y$end$
0 INFEASIBLE$ <- --lp f --gomory --nodlim 0 <- min$ a$st$ 2 a + 2 b + 2 c + 2 d + 2 e + 2 f + 2 g + 2 h + 2 i + 2 j + 2 k + 2 l + 2 m + 2 n + 2 o + 2 p + 2 q + 2 r + 2 s + 2 t = 21$general$ a b c d e f g h i j k l m n o p q r s t$end$
0 OPTIMAL$objective obj 21$column a 0$column b 1$column c 1$column d 1$row r.1 14$ <- --lp f --gomory <- max$ 8 a + 11 b + 6 c + 4 d$st$ 5 a + 7 b + 4 c + 3 d <= 14$binary$ a b c d$end$
0 OPTIMAL$objective obj 1/2$column x 1/2$column y 0$row r.1 1$ <- --lp f --nomip --gomory --nodlim 0 <- min$ x$st$ 2 x - 2 y = 1$general$ x y$end$
0 OPTIMAL$objective 4$rows 3$columns 3$ <- --demo 3 --gomory
";

#[test]
fn programs_by_splits_on_rows_and_cuts(rt: HostRuntime) -> Result<(), Fail> {
    check(&rt, rt.alloc(), &Subject::Answers, BY_ROWS_AND_CUTS)
}

// What the program writes with `--cert` it accepts with `--checkcert`.
#[test]
fn their_certificates_are_accepted(rt: HostRuntime) -> Result<(), Fail> {
    check(&rt, rt.alloc(), &Subject::RoundTrips, INTEGER)
}

// A certificate with a split that the weights of both leaves use, in place of the bounds of its column, and one with a leaf that is bounded
// by its side; by hand.
const WRITTEN: &str = "\
0 INFEASIBLE$ <- cert 2$size 1 1$verdict infeasible$derived 0$tree$split 0 1:1$empty r1:1 s1:3$empty r1:-1 s1:3$end$ <- --lp f --cert y <- min$ x$st$ 1 <= 3 x <= 2$general$ x$end$
0 OPTIMAL$objective obj 1$column x 1$row r.1 2$ <- cert 2$size 1 1$verdict optimal$value 1$point 1$derived 0$tree$split 1 1:1$bound s1:1$empty r1:-1 s1:2$end$ <- --lp f --cert y <- max$ x$st$ 2 x <= 3$general$ x$end$
";

#[test]
fn trees_are_written(rt: HostRuntime) -> Result<(), Fail> {
    check(&rt, rt.alloc(), &Subject::WrittenFiles, WRITTEN)
}

// Whole numbers that no split of a column finds, refuted by a derived row, and by a split of a form; a tree of one split; and derived
// rows that rest on others.
const CHECKED: &str = "\
0 ACCEPTED$ <- --lp f --checkcert c <- min$ x$st$ 2 x - 2 y = 1$general$ x y$end$ <- cert 1$size 1 2$verdict infeasible$derived 1$derive 1$split 0 1:1 2:-1$low 2 r1:1$high 2 r1:-1$tree$empty d1:1$end$
6 refused: derived 1$ <- --lp f --checkcert c <- min$ x$st$ 2 x - 2 y = 1$general$ x y$end$ <- cert 1$size 1 2$verdict infeasible$derived 1$derive 1$split 0 1:1 2:-1$low 2 r1:1$high 2$tree$empty d1:1$end$
6 refused: derived 1$ <- --lp f --nomip --checkcert c <- min$ x$st$ 2 x - 2 y = 1$general$ x y$end$ <- cert 1$size 1 2$verdict infeasible$derived 1$derive 1$split 0 1:1 2:-1$low 2 r1:1$high 2 r1:-1$tree$empty d1:1$end$
0 ACCEPTED$ <- --lp f --checkcert c <- min$ x$st$ 1 <= 3 x <= 2$general$ x$end$ <- cert 1$size 1 1$verdict infeasible$derived 0$tree$branch 1 0$empty r1:1 c1:-3$empty r1:-1 c1:3$end$
6 refused: point$ <- --lp f --checkcert c <- max$ x$st$ 2 x <= 3$general$ x$end$ <- cert 1$size 1 1$verdict optimal$value 3/2$point 3/2$derived 0$tree$bound r1:-1/2$end$
0 ACCEPTED$ <- --lp f --nomip --checkcert c <- max$ x$st$ 2 x <= 3$general$ x$end$ <- cert 1$size 1 1$verdict optimal$value 3/2$point 3/2$derived 0$tree$bound r1:-1/2$end$
0 ACCEPTED$ <- --lp f --checkcert c <- min$ x$st$ 2 x - 2 y = 1$general$ x y$end$ <- cert 2$size 1 2$verdict infeasible$derived 0$tree$split 0 1:1 2:-1$empty r1:1 s1:2$empty r1:-1 s1:2$end$
6 refused: node 2$ <- --lp f --checkcert c <- min$ x$st$ 2 x - 2 y = 1$general$ x y$end$ <- cert 2$size 1 2$verdict infeasible$derived 0$tree$split 0 1:1 2:-1$empty r1:1$empty r1:-1 s1:2$end$
6 refused: node 2$ <- --lp f --checkcert c <- min$ x$st$ 2 x - 2 y = 1$general$ x y$end$ <- cert 2$size 1 2$verdict infeasible$derived 0$tree$split 0 1:1 2:-1$empty r1:1 s1:-2$empty r1:-1 s1:2$end$
6 refused: node 1$ <- --lp f --nomip --checkcert c <- min$ x$st$ 2 x - 2 y = 1$general$ x y$end$ <- cert 2$size 1 2$verdict infeasible$derived 0$tree$split 0 1:1 2:-1$empty r1:1 s1:2$empty r1:-1 s1:2$end$
2 certificate fault: line 6: BadLine$ <- --lp f --checkcert c <- min$ x$st$ 2 x - 2 y = 1$general$ x y$end$ <- cert 2$size 1 2$verdict infeasible$derived 0$tree$branch 1 0$empty r1:1 s1:2$empty r1:-1 s1:2$end$
2 certificate fault: line 6: BadLine$ <- --lp f --checkcert c <- min$ x$st$ 2 x - 2 y = 1$general$ x y$end$ <- cert 1$size 1 2$verdict infeasible$derived 0$tree$split 0 1:1 2:-1$empty r1:1$empty r1:-1$end$
0 ACCEPTED$ <- --lp f --checkcert c <- max$ x$st$ 2 x <= 3$general$ x$end$ <- cert 2$size 1 1$verdict optimal$value 1$point 1$derived 2$derive -1 1:-1$split 1 1:1$low 1$high 1 r1:-1$derive -2 1:-2$plain d1:2$tree$bound d2:1/2$end$
6 refused: derived 2$ <- --lp f --checkcert c <- max$ x$st$ 2 x <= 3$general$ x$end$ <- cert 1$size 1 1$verdict optimal$value 1$point 1$derived 2$derive -1 1:-1$split 1 1:1$low 1$high 1 r1:-1$derive -2 1:-2$plain d1:2$tree$bound d2:1/2$end$
6 refused: derived 2$ <- --lp f --checkcert c <- max$ x$st$ 2 x <= 3$general$ x$end$ <- cert 2$size 1 1$verdict optimal$value 1$point 1$derived 2$derive -1 1:-1$split 1 1:1$low 1$high 1 r1:-1$derive -2 1:-2$plain d2:1$tree$bound d2:1/2$end$
";

#[test]
fn trees_are_checked(rt: HostRuntime) -> Result<(), Fail> {
    check(&rt, rt.alloc(), &Subject::Answers, CHECKED)
}
