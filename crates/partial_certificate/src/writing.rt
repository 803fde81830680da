// The text of a partial certificate.
ghost use Rattle.std.specs.Prelude.{◌≡◌, IfOk, string_bytes};
ghost use Rattle.std.specs.Option.{option_map};
ghost use Rattle.partial_certificate.specs.Text.{partial_text, partial_shown_text, best_text, partial_tree_text, partial_node_text};
ghost use Rattle.partial_certificate.specs.Values.{partial_of};

use crate::best::Best;
use crate::partial::PartialCertificate;
use crate::tree::{PartialNode, PartialTree};
use certificate::{Version, counted_rows_text, head_text, node_text, point_text};
use std::alloc::{AllocError, Global};

/// The one text of a partial certificate: that of a certificate of version 2, whose verdict is `undecided`, with the best
/// point or none behind it, and with a line `todo` for each leaf that is left to do.
pub fn text(alloc: Global, certificate: &PartialCertificate) -> Result<Vec<u8>, AllocError>
    ensures text { IfOk result (λ text. text.items ≡ partial_text certificate.now) }
{
    let (rows, columns) = (certificate.rows(), certificate.columns());
    let mut text = head_text(alloc, Version::Two, rows, columns)?;
    text.push_str("verdict undecided\n")?;
    let shown = partial_shown_text(alloc, certificate)?;
    text.push_str(&shown)?;
    text.push_str("end\n")?;
    Ok(text.into_bytes())
}

fn partial_shown_text(alloc: Global, certificate: &PartialCertificate) -> Result<String, AllocError>
    ensures { IfOk result (λ text. string_bytes text ≡ partial_shown_text certificate.now) }
{
    let best = best_text(alloc, certificate.best())?;
    let rows = counted_rows_text(alloc, certificate.derived())?;
    let tree = partial_tree_text(alloc, certificate.tree())?;
    format!(in alloc; "{best}{rows}tree\n{tree}")
}

fn best_text(alloc: Global, best: Option<&Best>) -> Result<String, AllocError>
    ensures { IfOk result (λ text. string_bytes text ≡ best_text (option_map (λ b. b.now) best.entry)) }
{
    match best {
        None => "best none\n".to_string(alloc),
        Some(best) => {
            let value = best.value().text(alloc)?;
            let point = point_text(alloc, "point", Some(best.point()))?;
            format!(in alloc; "best {value}\n{point}")
        }
    }
}

fn partial_tree_text(alloc: Global, tree: &PartialTree) -> Result<String, AllocError>
    ensures { IfOk result (λ text. string_bytes text ≡ partial_tree_text tree.now) }
{
    let mut text = String::new(alloc);
    for place in 0..tree.len() {
        let node = tree.node(place);
        let line = partial_node_text(alloc, &node)?;
        text.push_str(&line)?;
    }
    Ok(text)
}

fn partial_node_text(alloc: Global, node: &PartialNode) -> Result<String, AllocError>
    ensures { IfOk result (λ text. string_bytes text ≡ partial_node_text (partial_of node.now)) }
{
    match node {
        PartialNode::Todo => "todo\n".to_string(alloc),
        PartialNode::Done(node) => node_text(alloc, Version::Two, node),
    }
}
