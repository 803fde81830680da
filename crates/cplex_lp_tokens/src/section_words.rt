// The words that begin sections.
ghost use Rattle.std.specs.Prelude.{◌≡◌};
ghost use Rattle.cplex_lp_tokens.specs.Tokens.{is_word, begins_minimum, begins_maximum, begins_rows, begins_bounds, begins_general, begins_integer, begins_binary, section_of, begins_constraints, begins_with_section, begins_with_two_words, with_first_as, without_second, with_section, is_left_out, begins_later, without_left_out};

use crate::token::{Section, Token};

/// A text is this word, in any case of letters.
pub fn is_word(text: &str, word: &str) -> bool
    ensures { result ≡ is_word text.now word.now }
{
    text.eq_ignore_ascii_case(word)
}

fn begins_minimum(text: &str) -> bool
    ensures { result ≡ begins_minimum text.now }
{
    is_word(text, "minimize") || (is_word(text, "minimum") || is_word(text, "min"))
}

fn begins_maximum(text: &str) -> bool
    ensures { result ≡ begins_maximum text.now }
{
    is_word(text, "maximize") || (is_word(text, "maximum") || is_word(text, "max"))
}

fn begins_rows(text: &str) -> bool
    ensures { result ≡ begins_rows text.now }
{
    is_word(text, "st") || (is_word(text, "s.t.") || is_word(text, "st."))
}

fn begins_bounds(text: &str) -> bool
    ensures { result ≡ begins_bounds text.now }
{
    is_word(text, "bounds") || is_word(text, "bound")
}

fn begins_general(text: &str) -> bool
    ensures { result ≡ begins_general text.now }
{
    is_word(text, "general") || (is_word(text, "generals") || is_word(text, "gen"))
}

fn begins_integer(text: &str) -> bool
    ensures { result ≡ begins_integer text.now }
{
    is_word(text, "integer") || (is_word(text, "integers") || is_word(text, "int"))
}

fn begins_binary(text: &str) -> bool
    ensures { result ≡ begins_binary text.now }
{
    is_word(text, "binary") || (is_word(text, "binaries") || is_word(text, "bin"))
}

// The section that one word begins.
fn section_of(text: &str) -> Option<Section>
    ensures { result ≡ section_of text.now }
{
    if begins_minimum(text) {
        Some(Section::Minimize)
    } else if begins_maximum(text) {
        Some(Section::Maximize)
    } else if begins_rows(text) {
        Some(Section::Constraints)
    } else if begins_bounds(text) {
        Some(Section::Bounds)
    } else if begins_general(text) {
        Some(Section::General)
    } else if begins_integer(text) {
        Some(Section::General)
    } else if begins_binary(text) {
        Some(Section::Binary)
    } else if is_word(text, "end") {
        Some(Section::End)
    } else {
        None
    }
}

// `subject to`, `such that`
fn begins_constraints(first: &str, second: &str) -> bool
    ensures { result ≡ begins_constraints first.now second.now }
{
    (is_word(first, "subject") && is_word(second, "to"))
        || (is_word(first, "such") && is_word(second, "that"))
}

fn begins_with_section(tokens: &[Token]) -> Option<Section>
    ensures { result ≡ begins_with_section tokens.now }
{
    match tokens {
        [] => None,
        [first, ..] => {
            if first.kind().is_name() {
                section_of(first.text())
            } else {
                None
            }
        }
    }
}

fn begins_with_two_words(tokens: &[Token]) -> bool
    ensures { result ≡ begins_with_two_words tokens.now }
{
    match tokens {
        [first, second, ..] => {
            (first.kind().is_name() && second.kind().is_name())
                && begins_constraints(first.text(), second.text())
        }
        _ => false,
    }
}

fn make_first(tokens: &mut Vec<Token>, section: Section)
    ensures { tokens.new.items ≡ with_first_as section tokens.old.items }
{
    if let Some(first) = tokens.first_mut() {
        first.make_section(section);
    }
}

fn drop_second(tokens: &mut Vec<Token>)
    ensures { tokens.new.items ≡ without_second tokens.old.items }
{
    if tokens.len() >= 2 {
        tokens.remove(1);
    }
}

// The tokens of a line, of which the first one or two may be the words of a section.
pub(crate) fn mark_section(tokens: &mut Vec<Token>)
    ensures { tokens.new.items ≡ with_section tokens.old.items }
{
    if begins_with_two_words(tokens) {
        drop_second(tokens);
        make_first(tokens, Section::Constraints);
    } else if let Some(section) = begins_with_section(tokens) {
        make_first(tokens, section);
    }
}

// ---- words of parts that are left out

fn is_left_out(text: &str) -> bool
    ensures { result ≡ is_left_out text.now }
{
    (is_word(text, "semi") || is_word(text, "semis"))
        || (is_word(text, "sos") || (is_word(text, "sos1") || is_word(text, "sos2")))
}

// A section after the constraints has begun, by the tokens of the line that was read last.
pub(crate) fn begins_later(tokens: &[Token]) -> bool
    ensures { result ≡ begins_later tokens.now }
{
    match tokens {
        [] => false,
        [first, ..] => first.kind().is_later(),
    }
}

// Behind the constraints no line begins with such a word.
pub(crate) fn mark_left_out(tokens: &mut Vec<Token>, later: bool)
    ensures { tokens.new.items ≡ without_left_out later tokens.old.items }
{
    if let Some(first) = tokens.first_mut() {
        if later && (first.kind().is_name() && is_left_out(first.text())) {
            first.make_stray();
        }
    }
}
