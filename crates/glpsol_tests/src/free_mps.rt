// Free MPS texts of few columns, and their answers.
use crate::rows::{Subject, check};
use std::test::Fail;

const TEXTS: &str = "\
0 OPTIMAL$objective cost 2$column x 2$ <- --freemps f --exact <- @
0 OPTIMAL$objective cost 5$column x 5$ <- --freemps f --max <- @
0 OPTIMAL$objective cost 5$column x 5$ <- --freemps f --exact <- NAME t$OBJSENSE$ MAX$ROWS$ N cost$COLUMNS$ x cost 1$BOUNDS$ LO b x 2$ UP b x 5$ENDATA$
0 OPTIMAL$objective cost 2$column x 2$ <- --freemps f --min <- NAME t$OBJSENSE$ MAX$ROWS$ N cost$COLUMNS$ x cost 1$BOUNDS$ LO b x 2$ UP b x 5$ENDATA$
0 TRANSLATED$rows 0$columns 1$ <- --freemps f --check <- @
0 INFEASIBLE$ <- --freemps f --min <- NAME t$ROWS$ N cost$COLUMNS$ x cost 1$BOUNDS$ LO b x 3$ UP b x 2$ENDATA$
0 UNBOUNDED$column x 0 1$ <- --freemps f --min <- NAME t$ROWS$ N cost$COLUMNS$ x cost -1$ENDATA$
0 OPTIMAL$objective cost -25/2$column x 7$column y -4$column z 0$ <- --freemps f --exact <- ROWS$ N cost$COLUMNS$ x cost -.5$ y cost 2e0$ z cost 0$RHS$ R cost 1$BOUNDS$ UP b x 7$ LO b y -4$ FR b z$ENDATA$
0 OPTIMAL$objective cost -23/2$column x 7$column y -4$column z 0$ <- --freemps f --exact <- * a comment$ROWS$ N cost$COLUMNS$ x cost -.5$ y cost 2e0$ z cost 0$$BOUNDS$ UP b x 7$ LO b y -4$ FR b z$ENDATA$
2 file fault: line 4: NoEnd$ <- --freemps f --exact <- ROWS$ N cost$ L c1$
2 file fault: line 5: Unknown$ <- --freemps f --exact <- NAME t$ROWS$ N cost$COLUMNS$ x cost 1 c1 1$ENDATA$
2 file fault: line 1: NoEnd$ <- --freemps f --exact <-\x20
3 overflow: 1000000000000000000000000000000 * 1000000000000000000000000000000$ <- --freemps f --exact <- ROWS$ N cost$COLUMNS$ x cost 1e30$BOUNDS$ LO b x 1e30$ENDATA$
";

#[test]
fn texts_and_their_answers(rt: HostRuntime) -> Result<(), Fail> {
    check(&rt, rt.alloc(), &Subject::Answers, TEXTS)
}
