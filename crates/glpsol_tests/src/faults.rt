// Words that are no command, files that are missing, and an outside that fails.
use crate::rows::{Subject, check};
use crate::runs::{model_alone, words_of};
use glpsol_cli::{Answer, Reached, Target, run};
use outside::MemSink;
use std::test::Fail;

const WORDS: &str = "\
1 usage: glpsol (--math|--freemps|--lp) FILE [options]$ <- --freemps --min
1 usage: glpsol (--math|--freemps|--lp) FILE [options]$ <- --math
1 usage: glpsol (--math|--freemps|--lp) FILE [options]$ <- --lp f --workers 0
";

#[test]
fn words_that_are_no_command(rt: HostRuntime) -> Result<(), Fail> {
    check(&rt, rt.alloc(), &Subject::Answers, WORDS)
}

const MISSING: &str = "\
1 missing: no.mps$ <- --freemps no.mps
1 missing: no.lp$ <- --lp no.lp
";

#[test]
fn a_file_that_is_missing(rt: HostRuntime) -> Result<(), Fail> {
    check(&rt, rt.alloc(), &Subject::Answers, MISSING)
}

// How many runs of which command: each call on the files or on the output fails once, and in the last run none does. A run answers
// the fault of the call that failed; the files and the output hold the first part of their texts, and nothing behind is made.
const FAILING_CALLS: &str = "\
37 runs <- to files with the files by pieces
2 runs <- to files with the output by pieces
22 runs <- to the output with the files by pieces
4 runs <- to the output with the output by pieces
17 runs <- a solution with the files by pieces
2 runs <- a solution with the output by pieces
9 runs <- a table with the files by pieces
3 runs <- a table with the output by pieces
9 runs <- a check with the files by pieces
2 runs <- a check with the output by pieces
12 runs <- a migration with the files by pieces
2 runs <- a migration with the output by pieces
";

#[test]
fn each_call_on_the_outside_fails(rt: HostRuntime) -> Result<(), Fail> {
    check(&rt, rt.alloc(), &Subject::FailingCalls, FAILING_CALLS)
}

// The same where a read or a write moves one byte.
const BYTE_BY_BYTE: &str = "\
470 runs <- to files with the files by bytes
";

#[test]
fn each_call_on_files_fails_byte_by_byte(rt: HostRuntime) -> Result<(), Fail> {
    check(&rt, rt.alloc(), &Subject::FailingCalls, BYTE_BY_BYTE)
}

const BYTE_BY_BYTE_ELSEWHERE: &str = "\
153 runs <- a table with the files by bytes
42 runs <- to files with the output by bytes
46 runs <- to the output with the output by bytes
74 runs <- a solution with the output by bytes
37 runs <- a table with the output by bytes
10 runs <- a check with the output by bytes
";

#[test]
fn other_calls_fail_byte_by_byte(rt: HostRuntime) -> Result<(), Fail> {
    check(
        &rt,
        rt.alloc(),
        &Subject::FailingCalls,
        BYTE_BY_BYTE_ELSEWHERE,
    )
}

// The sink takes 4 bytes, and fails then.
#[test]
fn the_sink_fails(rt: HostRuntime) -> Result<(), Fail> {
    let alloc = rt.alloc();
    let mut files = model_alone(alloc, 1)?;
    let mut out = MemSink::new(alloc, vec![in alloc; 2]?, 4);
    let answer = run(
        &rt,
        alloc,
        words_of(alloc, "--freemps f")?,
        &mut files,
        &mut out,
    );
    let is_unwritten = is_unwritten_verdict(&answer);
    assert_eq!(rt; answer.into_code(), 1);
    assert!(rt; is_unwritten);
    assert_eq!(rt; out.bytes(), b"OPTI".as_slice());
    Ok(())
}

// A verdict was reached, and could not be written on the output.
fn is_unwritten_verdict(answer: &Answer) -> bool {
    match answer {
        Answer::WriteFault { target, reached } => {
            matches!(target, Target::Out) && matches!(reached, Reached::Verdict(_))
        }
        _ => false,
    }
}
