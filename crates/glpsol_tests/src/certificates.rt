// Certificates that are checked, and one that is written.
use crate::rows::{Subject, check};
use crate::runs::{model_alone, outcome};
use std::test::Fail;

// A certificate, or a part of one, for the small model, and for a linear program with two rows: whole, with a number
// changed, and cut off.
const CHECKED: &str = "\
0 ACCEPTED$ <- --freemps f --checkcert c <- @ <- cert 1$size 0 1$verdict optimal$value 2$point 2$derived 0$tree$bound c1:1$end$
6 refused: node 1$ <- --freemps f --checkcert c <- @ <- cert 1$size 0 1$verdict optimal$value 2$point 2$derived 0$tree$bound c1:-1$end$
6 refused: size$ <- --freemps f --checkcert c <- @ <- cert 1$size 1 1$verdict optimal$value 2$point 2$derived 0$tree$bound c1:1$end$
6 refused: point$ <- --freemps f --checkcert c <- @ <- cert 1$size 0 1$verdict optimal$value 2$point 1$derived 0$tree$bound c1:1$end$
6 refused: value$ <- --freemps f --checkcert c <- @ <- cert 1$size 0 1$verdict optimal$value 3$point 2$derived 0$tree$bound c1:1$end$
6 refused: ray$ <- --freemps f --checkcert c <- @ <- cert 1$size 0 1$verdict unbounded$point 2$ray -1$end$
2 certificate fault: line 8: BadLine$ <- --freemps f --checkcert c <- @ <- cert 1$size 0 1$verdict optimal$value 2$point 2$derived 0$tree$bound c1:1/
2 certificate fault: line 8: Unended$ <- --freemps f --checkcert c <- @ <- cert 1$size 0 1$verdict optimal$value 2$point 2$derived 0$tree$
6 refused: node 1$ <- --freemps f --checkcert c <- @ <- cert 1$size 0 1$verdict infeasible$derived 0$tree$empty c1:170141183460469231731687303715884105727$end$
0 ACCEPTED$ <- --lp f --checkcert c <- max$ x + y$st$ 2 x + y <= 4$ x + 3 y <= 5$end$ <- cert 1$size 2 2$verdict optimal$value 13/5$point 7/5 6/5$derived 0$tree$bound r1:-2/5 r2:-1/5$end$
6 refused: node 1$ <- --lp f --checkcert c <- max$ x + y$st$ 2 x + y <= 4$ x + 3 y <= 5$end$ <- cert 1$size 2 2$verdict optimal$value 13/5$point 7/5 6/5$derived 0$tree$bound r1:2/5 r2:-1/5$end$
2 certificate fault: line 8: BadLine$ <- --lp f --checkcert c <- max$ x + y$st$ 2 x + y <= 4$ x + 3 y <= 5$end$ <- cert 1$size 2 2$verdict optimal$value 13/5$point 7/5 6/5$derived 0$tree$bound r1:-2/
2 certificate fault: line 8: Unended$ <- --lp f --checkcert c <- max$ x + y$st$ 2 x + y <= 4$ x + 3 y <= 5$end$ <- cert 1$size 2 2$verdict optimal$value 13/5$point 7/5 6/5$derived 0$tree$
";

#[test]
fn certificates_are_checked(rt: HostRuntime) -> Result<(), Fail> {
    check(&rt, rt.alloc(), &Subject::Answers, CHECKED)
}

// A certificate that is accepted goes to the file y in version 2: a branch, bounds of the column's own, a ray; one of version 2 as it
// is. One that is not accepted makes no file.
const MIGRATED: &str = "\
0 ACCEPTED$ <- cert 2$size 1 1$verdict infeasible$derived 0$tree$split 0 1:1$empty r1:1 s1:3$empty r1:-1 s1:3$end$ <- --lp f --checkcert c --cert y <- min$ x$st$ 1 <= 3 x <= 2$general$ x$end$ <- cert 1$size 1 1$verdict infeasible$derived 0$tree$branch 1 0$empty r1:1 c1:-3$empty r1:-1 c1:3$end$
0 ACCEPTED$ <- cert 2$size 0 1$verdict optimal$value 2$point 2$derived 0$tree$bound c1:1$end$ <- --freemps f --cert y --checkcert c <- @ <- cert 1$size 0 1$verdict optimal$value 2$point 2$derived 0$tree$bound c1:1$end$
0 ACCEPTED$ <- cert 2$size 0 1$verdict unbounded$point 0$ray 1$end$ <- --lp f --checkcert c --cert=y <- max$ x$st$end$ <- cert 1$size 0 1$verdict unbounded$point 0$ray 1$end$
0 ACCEPTED$ <- cert 2$size 1 2$verdict infeasible$derived 0$tree$split 0 1:1 2:-1$empty r1:1 s1:2$empty r1:-1 s1:2$end$ <- --lp f --checkcert c --cert y <- min$ x$st$ 2 x - 2 y = 1$general$ x y$end$ <- cert 2$size 1 2$verdict infeasible$derived 0$tree$split 0 1:1 2:-1$empty r1:1 s1:2$empty r1:-1 s1:2$end$
6 refused: node 1$ <- none <- --freemps f --checkcert c --cert y <- @ <- cert 1$size 0 1$verdict optimal$value 2$point 2$derived 0$tree$bound c1:-1$end$
2 certificate fault: line 8: Unended$ <- none <- --freemps f --checkcert c --cert y <- @ <- cert 1$size 0 1$verdict optimal$value 2$point 2$derived 0$tree$
";

#[test]
fn accepted_certificates_are_migrated(rt: HostRuntime) -> Result<(), Fail> {
    check(&rt, rt.alloc(), &Subject::WrittenFiles, MIGRATED)
}

// A search that comes to its limit leaves in the file y what it has shown: here nothing but that all is left to do. Without a name there is
// no file.
const LEFT: &str = "\
4 UNDECIDED nodes$ <- cert 2$size 1 2$verdict undecided$best none$derived 0$tree$todo$end$ <- --lp f --nodlim 0 --cert y <- min$ x$st$ 2 x - 2 y = 1$general$ x y$end$
4 UNDECIDED nodes$ <- cert 2$size 1 2$verdict undecided$best none$derived 0$tree$todo$end$ <- --lp f --nodlim 0 --workers 2 --cert y <- min$ x$st$ 2 x - 2 y = 1$general$ x y$end$
4 UNDECIDED nodes$ <- cert 2$size 1 2$verdict undecided$best none$derived 0$tree$todo$end$ <- --lp f --nodlim 0 --rowsplit --cert y <- min$ x$st$ 2 x - 2 y = 1$general$ x y$end$
4 UNDECIDED pivots$ <- cert 2$size 2 2$verdict undecided$best none$derived 0$tree$todo$end$ <- --freemps f --max --pivlim 1 --cert y <- ROWS$ N obj$ L r.1$ L r.2$COLUMNS$ x obj 3 r.1 1$ x r.2 1$ y obj 2 r.1 1$ y r.2 3$RHS$ R r.1 4 r.2 6$BOUNDS$ UP b x 3$ENDATA$
4 UNDECIDED nodes$ <- none <- --lp f --nodlim 0 <- min$ x$st$ 2 x - 2 y = 1$general$ x y$end$
";

#[test]
fn stopped_searches_leave_what_they_have_shown(rt: HostRuntime) -> Result<(), Fail> {
    check(&rt, rt.alloc(), &Subject::WrittenFiles, LEFT)
}

// The report and the certificate go to their files, in pieces of seven bytes.
#[test]
fn the_files_are_written(rt: HostRuntime) -> Result<(), Fail> {
    let alloc = rt.alloc();
    let mut files = model_alone(alloc, 7)?;
    let found = outcome(&rt, alloc, "--cert c -o r --freemps f", &mut files)?;
    assert_eq!(rt; found.as_str(), "0 OPTIMAL\nobjective cost 2\ncolumn x 2\n");
    let report = b"OPTIMAL\nobjective cost 2\ncolumn x 2\n";
    assert!(rt; files.bytes("r") == Some(report.as_slice()));
    let certificate =
        b"cert 2\nsize 0 1\nverdict optimal\nvalue 2\npoint 2\nderived 0\ntree\nbound c1:1\nend\n";
    assert!(rt; files.bytes("c") == Some(certificate.as_slice()));
    Ok(())
}
