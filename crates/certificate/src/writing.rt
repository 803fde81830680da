// The text of a certificate.
ghost use Rattle.std.specs.Prelude.{◌≡◌, IfOk, string_bytes, map};
ghost use Rattle.std.specs.Option.{option_map};
ghost use Rattle.certificate.specs.Text.{certificate_text, head_text, body_text, value_text, point_text, shown_text, counted_rows_text, derived_rows_text, derived_text, proof_text, form_split_text, split_text, node_text, tree_text, number_of, weights_text, leaf_text, items_text, item_text, form_text, entry_text, numbers_text};
ghost use Rattle.certificate.specs.Written.{first_column};
ghost use Rattle.certificate.specs.Values.{version_of, verdict_of, proof_of, node_of};

use crate::{
    Certificate, Derived, DerivedRows, FormSplit, Item, LeafWeights, Proof, Split, TreeNode,
    Verdict, Version, Weights,
};
use fraction::Frac;
use instance::{Entry, Point};
use std::alloc::{AllocError, Global};

/// The one text of a certificate: lines that each end with a line feed, their parts separated by one blank. Indices
/// count from 1 in it.
pub fn text(alloc: Global, certificate: &Certificate) -> Result<Vec<u8>, AllocError>
    ensures { IfOk result (λ text. text.items ≡ certificate_text certificate.now) }
{
    let version = certificate.version();
    let mut text = head_text(alloc, version, certificate.rows(), certificate.columns())?;
    let body = body_text(alloc, certificate)?;
    text.push_str(&body)?;
    text.push_str("end\n")?;
    Ok(text.into_bytes())
}

/// The lines of the version and of the size.
pub fn head_text(
    alloc: Global,
    version: Version,
    rows: u32,
    columns: u32,
) -> Result<String, AllocError>
    ensures text { IfOk result (λ text. string_bytes text ≡ head_text (version_of version) rows columns) }
{
    let number = number_of(version);
    format!(in alloc; "cert {number}\nsize {rows} {columns}\n")
}

fn number_of(version: Version) -> u32
    ensures { result ≡ number_of (version_of version) }
{
    match version {
        Version::One => 1,
        Version::Two => 2,
    }
}

fn body_text(alloc: Global, certificate: &Certificate) -> Result<String, AllocError>
    ensures { IfOk result (λ text. string_bytes text ≡ body_text certificate.now certificate.now.verdict) }
{
    match certificate.verdict() {
        Verdict::Optimal => {
            let value = value_text(alloc, certificate.value())?;
            let point = point_text(alloc, "point", certificate.point())?;
            let shown = shown_text(alloc, certificate)?;
            format!(in alloc; "verdict optimal\n{value}{point}{shown}")
        }
        Verdict::Infeasible => {
            let shown = shown_text(alloc, certificate)?;
            format!(in alloc; "verdict infeasible\n{shown}")
        }
        Verdict::Unbounded => {
            let point = point_text(alloc, "point", certificate.point())?;
            let ray = point_text(alloc, "ray", certificate.ray())?;
            format!(in alloc; "verdict unbounded\n{point}{ray}")
        }
    }
}

fn value_text(alloc: Global, value: Option<Frac>) -> Result<String, AllocError>
    ensures { IfOk result (λ text. string_bytes text ≡ value_text value) }
{
    match value {
        None => Ok(String::new(alloc)),
        Some(value) => {
            let value = value.text(alloc)?;
            format!(in alloc; "value {value}\n")
        }
    }
}

/// The line of a point or a ray behind this word; nothing where there is none.
pub fn point_text(alloc: Global, word: &str, point: Option<&Point>) -> Result<String, AllocError>
    ensures text { IfOk result (λ text. string_bytes text ≡ point_text word.now (option_map (λ p. p.now) point.entry)) }
{
    match point {
        None => Ok(String::new(alloc)),
        Some(point) => {
            let numbers = numbers_text(alloc, point.as_slice())?;
            format!(in alloc; "{word}{numbers}\n")
        }
    }
}

fn numbers_text(alloc: Global, numbers: &[Frac]) -> Result<String, AllocError>
    ensures { IfOk result (λ text. string_bytes text ≡ numbers_text numbers.now) }
{
    let mut text = String::new(alloc);
    for number in numbers {
        let number = number.text(alloc)?;
        text.push_str(" ")?;
        text.push_str(&number)?;
    }
    Ok(text)
}

fn shown_text(alloc: Global, certificate: &Certificate) -> Result<String, AllocError>
    ensures { IfOk result (λ text. string_bytes text ≡ shown_text certificate.now.version certificate.now.derived certificate.now.tree) }
{
    let rows = counted_rows_text(alloc, certificate.derived())?;
    let tree = tree_text(alloc, certificate.version(), certificate.tree().as_slice())?;
    format!(in alloc; "{rows}tree\n{tree}")
}

/// The line of the number of derived rows, and the lines of the rows.
pub fn counted_rows_text(alloc: Global, derived: &DerivedRows) -> Result<String, AllocError>
    ensures text { IfOk result (λ text. string_bytes text ≡ counted_rows_text derived.now) }
{
    let rows = derived.as_slice();
    let count = rows.len();
    let rows = derived_rows_text(alloc, rows)?;
    format!(in alloc; "derived {count}\n{rows}")
}

fn derived_rows_text(alloc: Global, rows: &[Derived]) -> Result<String, AllocError>
    ensures { IfOk result (λ text. string_bytes text ≡ derived_rows_text rows.now) }
{
    let mut text = String::new(alloc);
    for row in rows {
        let row = derived_text(alloc, row)?;
        text.push_str(&row)?;
    }
    Ok(text)
}

fn derived_text(alloc: Global, row: &Derived) -> Result<String, AllocError>
    ensures { IfOk result (λ text. string_bytes text ≡ derived_text row.now) }
{
    let bound = row.bound().text(alloc)?;
    let form = form_text(alloc, row.form().as_slice())?;
    let proof = proof_text(alloc, row.proof())?;
    format!(in alloc; "derive {bound}{form}\n{proof}")
}

fn proof_text(alloc: Global, proof: &Proof) -> Result<String, AllocError>
    ensures { IfOk result (λ text. string_bytes text ≡ proof_text (proof_of proof.now)) }
{
    match proof {
        Proof::Plain(weights) => {
            let weights = weights_text(alloc, weights)?;
            format!(in alloc; "plain{weights}\n")
        }
        Proof::BySplit(split) => form_split_text(alloc, split),
    }
}

fn form_split_text(alloc: Global, split: &FormSplit) -> Result<String, AllocError>
    ensures { IfOk result (λ text. string_bytes text ≡ form_split_text split.now) }
{
    let at = split.at().to_frac().text(alloc)?;
    let form = form_text(alloc, split.form().as_slice())?;
    let low = split.low().text(alloc)?;
    let low_weights = weights_text(alloc, split.low_weights())?;
    let high = split.high().text(alloc)?;
    let high_weights = weights_text(alloc, split.high_weights())?;
    format!(in alloc; "split {at}{form}\nlow {low}{low_weights}\nhigh {high}{high_weights}\n")
}

fn tree_text(alloc: Global, version: Version, nodes: &[TreeNode]) -> Result<String, AllocError>
    ensures { IfOk result (λ text. string_bytes text ≡ tree_text (version_of version) (map node_of nodes.now)) }
{
    let mut text = String::new(alloc);
    for node in nodes {
        let node = node_text(alloc, version, node)?;
        text.push_str(&node)?;
    }
    Ok(text)
}

/// The line of a node.
pub fn node_text(alloc: Global, version: Version, node: &TreeNode) -> Result<String, AllocError>
    ensures text { IfOk result (λ text. string_bytes text ≡ node_text (version_of version) (node_of node.now)) }
{
    match node {
        TreeNode::Branch(split) => split_text(alloc, version, split),
        TreeNode::Empty(weights) => {
            let weights = leaf_text(alloc, weights)?;
            format!(in alloc; "empty{weights}\n")
        }
        TreeNode::Bound(weights) => {
            let weights = leaf_text(alloc, weights)?;
            format!(in alloc; "bound{weights}\n")
        }
    }
}

fn split_text(alloc: Global, version: Version, split: &Split) -> Result<String, AllocError>
    ensures { IfOk result (λ text. string_bytes text ≡ split_text (version_of version) split.now) }
{
    let at = split.at().to_frac().text(alloc)?;
    match version {
        Version::One => {
            let column = u64::from(first_column(split.form().as_slice())) + 1;
            format!(in alloc; "branch {column} {at}\n")
        }
        Version::Two => {
            let form = form_text(alloc, split.form().as_slice())?;
            format!(in alloc; "split {at}{form}\n")
        }
    }
}

// The column of a form's first entry, 0 where there is none.
fn first_column(form: &[Entry]) -> u32
    ensures { result ≡ first_column form.now }
{
    match form {
        [first, ..] => first.column,
        [] => 0,
    }
}

fn weights_text(alloc: Global, weights: &Weights) -> Result<String, AllocError>
    ensures { IfOk result (λ text. string_bytes text ≡ weights_text weights.now) }
{
    let rows = items_text(alloc, "r", weights.rows().as_slice())?;
    let columns = items_text(alloc, "c", weights.columns().as_slice())?;
    let derived = items_text(alloc, "d", weights.derived().as_slice())?;
    format!(in alloc; "{rows}{columns}{derived}")
}

fn leaf_text(alloc: Global, weights: &LeafWeights) -> Result<String, AllocError>
    ensures { IfOk result (λ text. string_bytes text ≡ leaf_text weights.now) }
{
    let first = weights_text(alloc, weights.weights())?;
    let splits = items_text(alloc, "s", weights.splits().as_slice())?;
    format!(in alloc; "{first}{splits}")
}

fn items_text(alloc: Global, kind: &str, items: &[Item]) -> Result<String, AllocError>
    ensures { IfOk result (λ text. string_bytes text ≡ items_text kind.now items.now) }
{
    let mut text = String::new(alloc);
    for item in items {
        let item = item_text(alloc, kind, *item)?;
        text.push_str(&item)?;
    }
    Ok(text)
}

fn item_text(alloc: Global, kind: &str, item: Item) -> Result<String, AllocError>
    ensures { IfOk result (λ text. string_bytes text ≡ item_text kind.now item) }
{
    let index = u64::from(item.index) + 1;
    let weight = item.weight.text(alloc)?;
    format!(in alloc; " {kind}{index}:{weight}")
}

fn form_text(alloc: Global, form: &[Entry]) -> Result<String, AllocError>
    ensures { IfOk result (λ text. string_bytes text ≡ form_text form.now) }
{
    let mut text = String::new(alloc);
    for entry in form {
        let entry = entry_text(alloc, *entry)?;
        text.push_str(&entry)?;
    }
    Ok(text)
}

fn entry_text(alloc: Global, entry: Entry) -> Result<String, AllocError>
    ensures { IfOk result (λ text. string_bytes text ≡ entry_text entry) }
{
    let index = u64::from(entry.column) + 1;
    let coefficient = entry.coefficient.text(alloc)?;
    format!(in alloc; " {index}:{coefficient}")
}
