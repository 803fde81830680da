// What the kinds of rows ask for.
use crate::commands::settings_text;
use crate::decimal_texts::{fixed_text, general_text};
use crate::fractions::{canonical, fused, literal, operation};
use crate::wide_numbers::calculation;
use std::alloc::{AllocError, Global};

/// What is found for what a row of the kind asks.
pub(crate) fn found(alloc: Global, kind: &str, asked: &str) -> Result<String, AllocError> {
    match kind {
        "literal" => literal(alloc, asked),
        "canonical" => canonical(alloc, asked),
        "operation" => operation(alloc, asked),
        "fused" => fused(alloc, asked),
        "fixed" => fixed_text(alloc, asked),
        "general" => general_text(alloc, asked),
        "wide" => calculation(alloc, asked),
        "command" => settings_text(alloc, asked),
        _ => "no such kind".to_string(alloc),
    }
}
