// Formats and what they print, with values from C's printf where it has them, and else from Python's fractions.
use crate::rows::{Subject, check};
use crate::texts::{fault_word, symbol};
use gmpl_formats::printed;
use gmpl_value::Symbol;
use std::alloc::{AllocError, Global};
use std::test::Fail;

// ---- the text, or the fault, and the format with its arguments; a text's ends of lines and tabs are written as arrows

const FORMATS: &str = "\
[42] <- [%d] | 42
[-42] <- [%d] | -42
[42] <- [%i] | 42
[-42] <- [%i] | -42
[   42] <- [%5d] | 42
[  -42] <- [%5d] | -42
[42   ] <- [%-5d] | 42
[-42  ] <- [%-5d] | -42
[00042] <- [%05d] | 42
[-0042] <- [%05d] | -42
[42   ] <- [%-05d] | 42
[-42  ] <- [%-05d] | -42
[42   ] <- [%0-5d] | 42
[-42  ] <- [%0-5d] | -42
[042] <- [%.3d] | 42
[-042] <- [%.3d] | -42
[  042] <- [%05.3d] | 42
[ -042] <- [%05.3d] | -42
[042   ] <- [%-6.3d] | 42
[-042  ] <- [%-6.3d] | -42
[42] <- [%2d] | 42
[-42] <- [%2d] | -42
[42] <- [%.0d] | 42
[-42] <- [%.0d] | -42
[   00042] <- [%8.5i] | 42
[  -00042] <- [%8.5i] | -42
[] <- [%.0d] | 0
[0] <- [%d] | 0
[     ] <- [%5.0d] | 0
[] <- [%.d] | 0
[0] <- [%.1d] | 0
[-00007] <- [%06d] | -7
[0.500000] <- [%f] | 1/2
[-2.000000] <- [%f] | -2
[2] <- [%.0f] | 5/2
[0.2] <- [%.1f] | 1/4
[    1.75] <- [%8.2f] | 7/4
[1.75    ] <- [%-8.2f] | 7/4
[-0001.75] <- [%08.2f] | -7/4
[00001.75] <- [%08.2f] | 7/4
[-0] <- [%.0f] | -1/4
[-00000] <- [%06.0f] | -1/4
[4] <- [%.f] | 7/2
[-0.5    ] <- [%-08.1f] | -1/2
[100.000000] <- [%3f] | 100
[0.062] <- [%.3f] | 1/16
[0.5] <- [%g] | 1/2
[100000] <- [%g] | 100000
[1e+06] <- [%g] | 1000000
[-0.000976562] <- [%g] | -1/1024
[1.23e+03] <- [%.3g] | 1234
[  1.23e+03] <- [%10.3g] | 1234
[1.23e+03  ] <- [%-10.3g] | 1234
[-01.23e+03] <- [%010.3g] | -1234
[5] <- [%.0g] | 5
[0] <- [%g] | 0
[    0] <- [%5g] | 0
[0.25] <- [%.10g] | 1/4
[-0002.5] <- [%07g] | -5/2
[1.09951e+12] <- [%g] | 1099511627776
[ab] <- [%s] | 'ab
[  ab] <- [%4s] | 'ab
[ab  ] <- [%-4s] | 'ab
[a] <- [%.1s] | 'ab
[   a] <- [%4.1s] | 'ab
[a   ] <- [%-4.1s] | 'ab
[] <- [%.0s] | 'ab
[] <- [%.s] | 'ab
[ab] <- [%.9s] | 'ab
[abc] <- [%1s] | 'abc
[ 2.33|ab  |12] <- [%5.2f|%-4s|%d] | 7/3 | 'ab | 12
[0.2 2 0.333333] <- [%.1f %.0f %g] | 1/4 | 5/2 | 1/3
[7/3] <- [%s] | 7/3
[  7/3] <- [%5s] | 7/3
[7/] <- [%.2s] | 7/3
[00ab] <- [%s%s] | '00 | 'ab
[  ab] <- [%04s] | 'ab
[äö] <- [%.2s] | 'äöü
[ ä] <- [%2s] | 'ä
[é=1] <- [é=%d] | 1
[12] <- [%d] | '12
[-2.500000] <- [%f] | '-2.5
[!NotANumber] <- [%d] | 'ab
[!NotANumber] <- [%g] | 'ab
[!NotANumber] <- [%f] | '1x
[!NotWhole] <- [%d] | 1/2
[!NotWhole] <- [%i] | '2.5
[%] <- [%%]
[100%] <- [%d%%] | 100
[%d] <- [\\%d]
[a⏎b⇥c\\'\"x] <- [a\\nb\\tc\\\\\\'\\\"\\x]
[!BadFormat] <- [%]
[!BadFormat] <- [\\]
[!BadFormat] <- [%5%]
[!BadFormat] <- [%-%]
[!BadFormat] <- [%e] | 1
[!BadFormat] <- [%ld] | 1
[!BadFormat] <- [%+d] | 1
[!BadFormat] <- [% d] | 1
[!BadFormat] <- [%#g] | 1
[!BadFormat] <- [%256d] | 1
[!BadFormat] <- [%.61f] | 1
[!BadFormat] <- [%99999999999999999999d] | 1
[!BadFormat] <- [%.]
[!BadFormat] <- [%5]
[!BadFormat] <- [%-5.2-d] | 1
[!BadFormat] <- [%D] | 1
[!BadFormat] <- [%d %d] | 1
[!BadFormat] <- [%s]
[1] <- [%d] | 1 | 2
[] <- [] | 1
[!NotWhole] <- [%d %e] | 1/2
[!BadFormat] <- [%e %d] | 1/2
[!NotANumber] <- [%d%d] | 'x
[                                                                                                                                                                                                                                                              1] <- [%255d] | 1
[0.333333333333333333333333333333333333333333333333333333333333] <- [%.60f] | 1/3
[0.142857142857142857142857142857142857142857142857142857142857] <- [%.60g] | 1/7
[0.333333333333333333333333333333333333333333333333333333333333] <- [%.00060f] | 1/3
[0.0] <- [%.1f] | 1/20
[-0.0] <- [%.1f] | -1/20
[-0000.0] <- [%07.1f] | -1/20
[170141183460469231731687303715884105727] <- [%d] | 170141183460469231731687303715884105727
[000000000000000000000170141183460469231731687303715884105727] <- [%.60d] | 170141183460469231731687303715884105727
[-00170141183460469231731687303715884105727] <- [%042d] | -170141183460469231731687303715884105727
";

// The arguments behind a format's bracket.
fn arguments(alloc: Global, call: &str) -> Result<Vec<Symbol>, AllocError> {
    match call.split_once("] | ") {
        Some((_, words)) => symbols(alloc, words),
        None => Ok(Vec::new(alloc)),
    }
}

// The format within its brackets.
fn format(call: &str) -> &str {
    let format = match call.split_once("] | ") {
        Some((format, _)) => format,
        None => call.strip_suffix(']').unwrap_or(call),
    };
    format.strip_prefix('[').unwrap_or(format)
}

fn symbols(alloc: Global, words: &str) -> Result<Vec<Symbol>, AllocError> {
    let mut made = Vec::new(alloc);
    for word in words.split(" | ") {
        made.push(symbol(alloc, word)?)?;
    }
    Ok(made)
}

fn with_arrows(alloc: Global, text: &str) -> Result<String, AllocError> {
    let mut made = String::new(alloc);
    for c in text.chars() {
        made.push(match c {
            '\n' => '⏎',
            '\t' => '⇥',
            _ => c,
        })?;
    }
    Ok(made)
}

fn answer(alloc: Global, format: &str, arguments: &[Symbol]) -> Result<String, AllocError> {
    match printed(alloc, format, arguments) {
        Ok(text) => with_arrows(alloc, &text),
        Err(fault) => fault_word(alloc, fault),
    }
}

/// What a call prints, in brackets.
pub(crate) fn format_word(alloc: Global, call: &str) -> Result<String, AllocError> {
    let arguments = arguments(alloc, call)?;
    let text = answer(alloc, format(call), &arguments)?;
    format!(in alloc; "[{text}]")
}

#[test]
fn formats(rt: HostRuntime) -> Result<(), Fail> {
    check(&rt, rt.alloc(), &Subject::Formats, FORMATS)
}
