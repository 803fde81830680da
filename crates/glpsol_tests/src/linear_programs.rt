// Linear programs in free MPS, whose optima GLPK and textbooks give, and the certificates that are written for them.
use crate::rows::{Subject, check};
use std::test::Fail;

// Among them Beale's example, at which other rules than Bland's go round, a blending, a diet, a degenerate optimum, and
// numbers that double at each pivot and pass the limit.
const LINEAR: &str = "\
0 OPTIMAL$objective cost 3$column x 3$row c1 3$ <- --freemps f --exact <- ROWS$ N cost$ E c1$COLUMNS$ x cost 1 c1 1$RHS$ R c1 5$RANGES$ G c1 -2$ENDATA$
0 OPTIMAL$objective obj 11$column x 3$column y 1$row r.1 4$row r.2 6$ <- --freemps f --max <- ROWS$ N obj$ L r.1$ L r.2$COLUMNS$ x obj 3 r.1 1$ x r.2 1$ y obj 2 r.1 1$ y r.2 3$RHS$ R r.1 4 r.2 6$BOUNDS$ UP b x 3$ENDATA$
4 UNDECIDED pivots$ <- --freemps f --max --pivlim 1 <- ROWS$ N obj$ L r.1$ L r.2$COLUMNS$ x obj 3 r.1 1$ x r.2 1$ y obj 2 r.1 1$ y r.2 3$RHS$ R r.1 4 r.2 6$BOUNDS$ UP b x 3$ENDATA$
0 OPTIMAL$objective obj 11$column x 3$column y 1$row r.1 4$row r.2 6$ <- --freemps f --max --pivlim 2 <- ROWS$ N obj$ L r.1$ L r.2$COLUMNS$ x obj 3 r.1 1$ x r.2 1$ y obj 2 r.1 1$ y r.2 3$RHS$ R r.1 4 r.2 6$BOUNDS$ UP b x 3$ENDATA$
0 OPTIMAL$objective obj 11$column x 3$column y 1$row r.1 4$row r.2 6$ <- --freemps f --max --pivlim 0 <- ROWS$ N obj$ L r.1$ L r.2$COLUMNS$ x obj 3 r.1 1$ x r.2 1$ y obj 2 r.1 1$ y r.2 3$RHS$ R r.1 4 r.2 6$BOUNDS$ UP b x 3$ENDATA$
1 usage: glpsol (--math|--freemps|--lp) FILE [options]$ <- --freemps f --max --pivlim 1000001 <- ROWS$ N obj$ L r.1$ L r.2$COLUMNS$ x obj 3 r.1 1$ x r.2 1$ y obj 2 r.1 1$ y r.2 3$RHS$ R r.1 4 r.2 6$BOUNDS$ UP b x 3$ENDATA$
0 OPTIMAL$objective obj -5/4$column x4 1$column x5 0$column x6 1$column x7 0$row r.1 -3/4$row r.2 0$row r.3 1$ <- --freemps f --min <- ROWS$ N obj$ L r.1$ L r.2$ L r.3$COLUMNS$ x4 obj -.75 r.1 .25$ x4 r.2 .5$ x5 obj 20 r.1 -8$ x5 r.2 -12$ x6 obj -.5 r.1 -1$ x6 r.2 -.5 r.3 1$ x7 obj 6 r.1 9$ x7 r.2 3$RHS$ R r.3 1$ENDATA$
0 OPTIMAL$objective obj -5/4$column x4 1$column x5 0$column x6 1$column x7 0$row r.1 -3/4$row r.2 0$row r.3 1$ <- --freemps f --min --pivlim 0 <- ROWS$ N obj$ L r.1$ L r.2$ L r.3$COLUMNS$ x4 obj -.75 r.1 .25$ x4 r.2 .5$ x5 obj 20 r.1 -8$ x5 r.2 -12$ x6 obj -.5 r.1 -1$ x6 r.2 -.5 r.3 1$ x7 obj 6 r.1 9$ x7 r.2 3$RHS$ R r.3 1$ENDATA$
0 OPTIMAL$objective cost 7440/17$column corn 8000/17$column soy 5600/17$row mass 800$row protein 240$row fibre 496/17$ <- --freemps f --min <- NAME blend$ROWS$ N cost$ E mass$ G protein$ L fibre$COLUMNS$ corn cost .3 mass 1$ corn protein .09 fibre .02$ soy cost .9 mass 1$ soy protein .6 fibre .06$RHS$ R mass 800 protein 240$ R fibre 40$ENDATA$
0 OPTIMAL$objective cost 185/2$column oats 4$column chicken 0$column eggs 0$column milk 9/2$column pie 2$column pork 0$row energy 2000$row protein 60$row calcium 2669/2$ <- --freemps f --min <- NAME diet$ROWS$ N cost$ G energy$ G protein$ G calcium$COLUMNS$ oats cost 3 energy 110$ oats protein 4 calcium 2$ chicken cost 24 energy 205$ chicken protein 32 calcium 12$ eggs cost 13 energy 160$ eggs protein 13 calcium 54$ milk cost 9 energy 160$ milk protein 8 calcium 285$ pie cost 20 energy 420$ pie protein 4 calcium 22$ pork cost 19 energy 260$ pork protein 14 calcium 80$RHS$ R energy 2000 protein 55$ R calcium 800$BOUNDS$ UP b oats 4$ UP b chicken 3$ UP b eggs 2$ UP b milk 8$ UP b pie 2$ UP b pork 2$ENDATA$
0 OPTIMAL$objective obj -2$column x 1$column y 1$row a 2$row b 1$row c 1$ <- --freemps f --min <- ROWS$ N obj$ L a$ L b$ L c$COLUMNS$ x obj -1 a 1$ x b 1$ y obj -1 a 1$ y c 1$RHS$ R a 2 b 1$ R c 1$ENDATA$
0 INFEASIBLE$ <- --freemps f --min <- ROWS$ N obj$ L a$ G b$ G c$COLUMNS$ x obj 1 a 1$ x b 1$ y obj 1 a 1$ y b 1 c 1$RHS$ R a 1 b 2$ENDATA$
3 overflow: 100000000000000000000 * 100000000000000000000$ <- --freemps f --min <- ROWS$ N cost$ E a$ E b$COLUMNS$ x a 1e20$ y a -1 b 1e20$ z cost 1 b -1$BOUNDS$ FX b x 1$ENDATA$
";

#[test]
fn linear_programs(rt: HostRuntime) -> Result<(), Fail> {
    check(&rt, rt.alloc(), &Subject::Answers, LINEAR)
}

// A problem of transport, and one without end: the points are not the only ones.
const MANY_POINTS: &str = "\
0 OPTIMAL$objective cost 1020$column <- --freemps f --min <- NAME transport$ROWS$ N cost$ L s1$ L s2$ L s3$ G d1$ G d2$ G d3$ G d4$COLUMNS$ x11 cost 8 s1 1$ x11 d1 1$ x12 cost 6 s1 1$ x12 d2 1$ x13 cost 10 s1 1$ x13 d3 1$ x14 cost 9 s1 1$ x14 d4 1$ x21 cost 9 s2 1$ x21 d1 1$ x22 cost 12 s2 1$ x22 d2 1$ x23 cost 13 s2 1$ x23 d3 1$ x24 cost 7 s2 1$ x24 d4 1$ x31 cost 14 s3 1$ x31 d1 1$ x32 cost 9 s3 1$ x32 d2 1$ x33 cost 16 s3 1$ x33 d3 1$ x34 cost 5 s3 1$ x34 d4 1$RHS$ R s1 35 s2 50$ R s3 40 d1 45$ R d2 20 d3 30$ R d4 30$ENDATA$
0 UNBOUNDED$column x <- --freemps f --min <- ROWS$ N obj$ G a$ L b$ L c$COLUMNS$ x obj -1 a 1$ x b -1 c 1$ y obj -1 a 1$ y b 1 c -2$RHS$ R a 1 b 2$ R c 3$ENDATA$
";

#[test]
fn optima_of_many_points(rt: HostRuntime) -> Result<(), Fail> {
    check(&rt, rt.alloc(), &Subject::Answers, MANY_POINTS)
}

// What the program writes with `--cert` it accepts with `--checkcert`.
#[test]
fn written_certificates_are_accepted(rt: HostRuntime) -> Result<(), Fail> {
    check(&rt, rt.alloc(), &Subject::RoundTrips, LINEAR)
}
