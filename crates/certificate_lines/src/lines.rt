// The lines of a text.
ghost use Rattle.std.specs.Prelude.{◌≡◌, ◌+◌, ◌<◌, ◌≤◌, ◌^◌, ◌∷◌, [], length, take, drop, MatchOption};
ghost use Rattle.std.specs.List.{slice_split};
ghost use Rattle.certificate_lines.specs.Lines.{Rest, is_feed, next_of, is_over};
ghost use Rattle.certificate_lines.specs.Gives.{Reads, closing};

use crate::fault::LineError;
use crate::{CertError, CertFault, FaultKind};
use std::marker::Model;

/// A line without its line feed: its number, and whether a line feed ends it.
#[derive(Clone, Copy)]
pub struct Line<'a> {
    pub number: u64,
    pub text: &'a [u8],
    pub feed: bool,
}

/// The lines that are left of a text.
#[derive(Drop)]
pub struct Lines<'a> {
    number: u64,
    bytes: &'a [u8],
    more: bool,
}

impl<'a> Model for Lines<'a> {
    ghost use Rattle.std.specs.Prelude.{◌+◌, ◌≤◌, ◌^◌, length};
    ghost use Rattle.certificate_lines.specs.Lines.{Rest, pieces_left};

    ghost Value = { Rest };

    ghost view = { λ l. record { line = l.number; pieces = pieces_left l.more l.bytes.now } };

    ghost invariant = { λ l. l.number + length l.bytes.now ≤ 2 ^ 63 + 1 };
}

impl<'a> Lines<'a> {
    pub fn new(text: &'a [u8]) -> Self
        ensures { result ≡ record { line = 1; pieces = slice_split is_feed text.now } }
    {
        Lines {
            number: 1,
            bytes: text,
            more: true,
        }
    }

    /// The next line; that none is left is a fault.
    pub fn next(&mut self) -> Result<Line<'a>, CertError>
        ensures { Reads (λ l. record { number = l.number; text = l.text.now; feed = l.feed }) result self.new (next_of self.old) }
    {
        let number = self.number;
        let bytes = self.bytes;
        if !self.more {
            return Err(fault_at(number, FaultKind::Unended));
        }
        match split_line(bytes) {
            Some((text, rest)) => {
                self.number = number + 1;
                self.bytes = rest;
                Ok(Line {
                    number,
                    text,
                    feed: true,
                })
            }
            None if bytes.is_empty() => Err(fault_at(number, FaultKind::Unended)),
            None => {
                self.number = number + 1;
                self.bytes = &[];
                self.more = false;
                Ok(Line {
                    number,
                    text: bytes,
                    feed: false,
                })
            }
        }
    }

    /// The number of the next line.
    pub fn number(&self) -> u64
        ensures value { result ≡ self.now.line }
        ensures small { self.now.line ≤ 2 ^ 63 + 1 }
    {
        self.number
    }

    /// Nothing is left of the text.
    pub fn is_over(&self) -> bool
        ensures { result ≡ is_over self.now.pieces }
    {
        !self.more || self.bytes.is_empty()
    }
}

// The bytes before and after the first line feed.
fn split_line(bytes: &[u8]) -> Option<(&[u8], &[u8])>
    ensures parts { MatchOption result (slice_split is_feed bytes.now ≡ bytes.now ∷ [])
        (λ x. slice_split is_feed bytes.now ≡ x.0.now ∷ slice_split is_feed x.1.now) }
    ensures shorter { MatchOption result (length bytes.now ≡ length bytes.now) (λ x. length x.1.now < length bytes.now) }
{
    for (i, c) in bytes.iter().enumerate() {
        if *c == b'\n' {
            return Some((front(bytes, i), rest_after(bytes, i)));
        }
    }
    None
}

fn front(bytes: &[u8], at: usize) -> &[u8]
    requires { at < length bytes.now }
    ensures { result.now ≡ take at bytes.now }
{
    &bytes[..at]
}

fn rest_after(bytes: &[u8], at: usize) -> &[u8]
    requires { at < length bytes.now }
    ensures { result.now ≡ drop (at + 1) bytes.now }
{
    &bytes[at + 1..]
}

pub fn fault_at(line: u64, kind: FaultKind) -> CertError
    ensures { result ≡ CertError.Fault (record { line = line; kind = kind }) }
{
    CertError::Fault(CertFault { line, kind })
}

/// What was read of a line, where a line feed ends it.
pub fn closed<T: Drop>(number: u64, feed: bool, read: Result<T, LineError>) -> Result<T, CertError>
    ensures { result ≡ closing number feed read }
{
    match read {
        Ok(value) => {
            if feed {
                Ok(value)
            } else {
                Err(fault_at(number, FaultKind::BadLine))
            }
        }
        Err(LineError::Fault(kind)) => Err(fault_at(number, kind)),
        Err(LineError::NoMemory) => Err(CertError::NoMemory),
    }
}
