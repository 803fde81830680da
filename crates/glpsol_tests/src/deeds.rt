// What commands do outside, in order.
use crate::rows::split;

// The words of a command, and then what it does, in order: a file that lies there before, one that is read, one that a table asks for,
// one that is written, and what the model printed, which is shown also where a table's file can't be read. `out` is the output. By
// hand, after the order of work in the manual.
const MODEL: &str = "\
set K; param n; param v{K}; printf 'a\\n'; table s{j in 1..2} OUT 'CSV' 'o': j; table t IN 'CSV' 'i': K<-[k], v; table u{j in K} OUT 'CSV' 'q': j, v[j] ~ v; var x >= n; minimize z: x; solve; printf 'b\\n'; table w{j in K} OUT 'CSV' 'p': j, x; end;";

const TO_FILES: &str = "\
--math f -d d -y y -o r -w w --cert c
lies r <- what was there before$
lies p <- what was there before$
reads f <- @
reads d <- param n := 3;$
writes o <- j$1$2$
asks i <- k,v$5,7$
writes q <- j,v$5,7$
shows y <- a$
writes out <- OPTIMAL$objective z 3$column x 3$row z 3$
writes r <- OPTIMAL$objective z 3$column x 3$row z 3$
writes w <- s OPTIMAL 1 1 3$i 1 3$j 1 3$e$
writes c <- cert 2$size 1 1$verdict optimal$value 3$point 3$derived 0$tree$bound c1:1$end$
writes p <- j,x$5,3$
writes y <- a$b$
";

const TO_THE_OUTPUT: &str = "\
--math f -d d
lies q <- what was there before$
reads f <- @
reads d <- param n := 3;$
writes o <- j$1$2$
asks i <- k,v$5,7$
writes q <- j,v$5,7$
shows out <- a$
writes out <- OPTIMAL$objective z 3$column x 3$row z 3$
writes p <- j,x$5,3$
writes out <- b$
";

const A_SOLUTION: &str = "\
--lp f -o o -w w --cert c --ranges-exact g
reads f <- max$ x + y$st$ 2 x + y <= 4$ x + 3 y <= 5$end$
writes out <- OPTIMAL$objective obj 13/5$column x 7/5$column y 6/5$row r.1 4$row r.2 5$
writes o <- OPTIMAL$objective obj 13/5$column x 7/5$column y 6/5$row r.1 4$row r.2 5$
writes w <- s OPTIMAL 2 2 13/5$i 1 4$i 2 5$j 1 7/5$j 2 6/5$e$
writes c <- cert 2$size 2 2$verdict optimal$value 13/5$point 7/5 6/5$derived 0$tree$bound r1:-2/5 r2:-1/5$end$
writes g <- cost 1 1/3 2$cost 2 1/2 3$upper 1 5/3 10$upper 2 2 12$
";

const A_TABLE: &str = "\
--math f
reads f <- set K; param v{K}; param n{K}; table t IN \"CSV\" \"t.csv\" : K <- [k], v ~ v, n ~ RECNO; printf{i in K}: \"%s %d %d\\n\", i, v[i], n[i]; end;
asks t.csv <- k,v$a,3$b,4
writes out <- a 3 1$b 4 2$
writes out <- OPTIMAL$objective obj 0$
";

const A_CHECK: &str = "\
--lp f --checkcert c
reads f <- max$ x + y$st$ 2 x + y <= 4$ x + 3 y <= 5$end$
reads c <- cert 1$size 2 2$verdict optimal$value 13/5$point 7/5 6/5$derived 0$tree$bound r1:-2/5 r2:-1/5$end$
writes out <- ACCEPTED$
";

const A_MIGRATION: &str = "\
--lp f --checkcert c --cert n
lies n <- what was there before$
reads f <- min$ x$st$ 1 <= 3 x <= 2$general$ x$end$
reads c <- cert 1$size 1 1$verdict infeasible$derived 0$tree$branch 1 0$empty r1:1 c1:-3$empty r1:-1 c1:3$end$
writes out <- ACCEPTED$
writes n <- cert 2$size 1 1$verdict infeasible$derived 0$tree$split 0 1:1$empty r1:1 s1:3$empty r1:-1 s1:3$end$
";

/// The words of a command, and then its deeds, a line for each.
pub(crate) fn command(name: &str) -> &'static str {
    match name {
        "to files" => TO_FILES,
        "to the output" => TO_THE_OUTPUT,
        "a solution" => A_SOLUTION,
        "a table" => A_TABLE,
        "a migration" => A_MIGRATION,
        _ => A_CHECK,
    }
}

/// A file, or a text on the output, and what is done with it.
#[derive(Clone, Copy)]
pub(crate) struct Deed<'a> {
    pub(crate) kind: &'a str,
    pub(crate) name: &'a str,
    pub(crate) text: &'a str,
}

/// The deed of a line.
pub(crate) fn deed_of(row: &str) -> Deed<'_> {
    let (head, text) = split(row);
    let (kind, name) = head.split_once(' ').unwrap_or((head, ""));
    Deed {
        kind,
        name,
        text: if text == "@" { MODEL } else { text },
    }
}

impl Deed<'_> {
    pub(crate) fn is_on_output(&self) -> bool {
        self.name == "out"
    }

    pub(crate) fn is_read(&self) -> bool {
        self.kind == "reads" || self.kind == "asks"
    }

    pub(crate) fn is_written(&self) -> bool {
        self.kind == "writes" || self.kind == "shows"
    }
}
