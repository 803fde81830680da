// Reading the text of a partial certificate.
ghost use Rattle.std.specs.Prelude.{◌≡◌, ◌+◌, ◌<◌, ◌^◌, ◌++◌, ◌∷◌, [], map, IfOk, OnOk, Ok};
ghost use Rattle.certificate_lines.specs.Lines.{line_by};
ghost use Rattle.certificate_lines.specs.Gives.{LineGives, Takes, Gives, Reads};
ghost use Rattle.partial_certificate.specs.Partial.{Partial};
ghost use Rattle.partial_certificate.specs.Text.{partial_text};
ghost use Rattle.partial_certificate.specs.Written.{HasText};
ghost use Rattle.partial_reader.specs.NodeLines.{line_node};
ghost use Rattle.partial_reader.specs.Reading.{words_in, value_named, best_in, best_at, todo_in, done_in, partial_node_in, opened, partial_nodes_at, partial_shown_at, undecided_at, read_partial_of};

use certificate::{DerivedRows, TreeNode, Version};
use certificate_lines::{
    CertError, FaultKind, LineError, Lines, after_word, closed, end, fault_at, fields_in, first,
    number,
};
use certificate_reader::{counted_rows, node, open_places, point_line, size_line, word_line};
use fraction::{Frac, texts};
use partial_certificate::{Best, PartialCertificate, PartialTree};
use std::alloc::{AllocError, Global};

/// The partial certificate whose text the bytes are, or the first fault of the text. Each partial certificate has one text.
pub fn read_partial(alloc: Global, text: &[u8]) -> Result<PartialCertificate, CertError>
    // The partial certificate, or the first fault.
    ensures exact { Gives (λ c. c) result (read_partial_of text.now) }
    // What is read is the partial certificate's text.
    ensures found { IfOk result (λ c. text.now ≡ partial_text c) }
    // The text of a partial certificate is read as that one, unless memory runs out.
    ensures only { (c : Partial) → HasText c → text.now ≡ partial_text c → Gives (λ c. c) result (Ok c) }
{
    texts();
    whole_text(alloc, text)
}

// ---- lines of words, and the best point

// The next line is these two words alone.
fn words_line(alloc: Global, word: &str, next: &str, lines: &mut Lines<'_>) -> Result<(), CertError>
    ensures { Reads (λ x. x) result lines.new (line_by (words_in word.now next.now) lines.old) }
{
    let line = lines.next()?;
    let fields = fields_in(alloc, line.text)?;
    closed(line.number, line.feed, only_words(word, next, &fields))
}

fn only_words(word: &str, next: &str, fields: &[&[u8]]) -> Result<(), LineError>
    ensures { LineGives (λ x. x) result (words_in word.now next.now (map (λ f. f.now) fields.now)) }
{
    let rest = after_word(word, fields)?;
    let rest = after_word(next, rest)?;
    end(rest)?;
    Ok(())
}

fn best_line(alloc: Global, lines: &mut Lines<'_>) -> Result<Option<Frac>, CertError>
    ensures { Reads (λ x. x) result lines.new (line_by best_in lines.old) }
{
    let line = lines.next()?;
    let fields = fields_in(alloc, line.text)?;
    closed(line.number, line.feed, best_value(&fields))
}

// The value of the best point, if there is one.
fn best_value(fields: &[&[u8]]) -> Result<Option<Frac>, LineError>
    ensures { LineGives (λ x. x) result (best_in (map (λ f. f.now) fields.now)) }
{
    let rest = after_word("best", fields)?;
    let (word, rest) = first(rest)?;
    let value = named_value(word)?;
    end(rest)?;
    Ok(value)
}

fn named_value(word: &[u8]) -> Result<Option<Frac>, FaultKind>
    ensures { Takes (λ x. x) result (value_named word.now) }
{
    if word == b"none".as_slice() {
        return Ok(None);
    }
    let value = number(word)?;
    Ok(Some(value))
}

// The best point, if there is one: its value, and then its numbers.
#[tactic(auto, unfolding(crate::specs::Reading::best_at))]
fn best(alloc: Global, columns: u32, lines: &mut Lines<'_>) -> Result<Option<Best>, CertError>
    ensures { Reads (λ x. x) result lines.new (best_at columns lines.old) }
{
    match best_line(alloc, lines)? {
        None => Ok(None),
        Some(value) => {
            let point = point_line(alloc, "point", columns, lines)?;
            Ok(Some(Best::new(point, value)))
        }
    }
}

// ---- the tree

// What the line of a node says.
#[derive(Drop)]
pub(crate) enum NodeLine {
    Done(TreeNode),
    Todo,
}

fn node_line(alloc: Global, lines: &mut Lines<'_>) -> Result<NodeLine, CertError>
    ensures { Reads line_node result lines.new (line_by partial_node_in lines.old) }
{
    let line = lines.next()?;
    let fields = fields_in(alloc, line.text)?;
    closed(line.number, line.feed, partial_node(alloc, &fields))
}

fn partial_node(alloc: Global, fields: &[&[u8]]) -> Result<NodeLine, LineError>
    ensures { LineGives line_node result (partial_node_in (map (λ f. f.now) fields.now)) }
{
    let (word, rest) = first(fields)?;
    if word == b"todo".as_slice() {
        todo(rest)
    } else {
        done(alloc, fields)
    }
}

fn todo(rest: &[&[u8]]) -> Result<NodeLine, LineError>
    ensures { LineGives line_node result (todo_in (map (λ f. f.now) rest.now)) }
{
    end(rest)?;
    Ok(NodeLine::Todo)
}

fn done(alloc: Global, fields: &[&[u8]]) -> Result<NodeLine, LineError>
    ensures { LineGives line_node result (done_in (map (λ f. f.now) fields.now)) }
{
    let node = node(alloc, Version::Two, fields)?;
    Ok(NodeLine::Done(node))
}

// How many places are open once a node fills one of these and more.
fn opened(node: &NodeLine, more: u64) -> u64
    requires { more + 2 < 2 ^ 64 }
    ensures { result ≡ opened (line_node node.now) more }
{
    match node {
        NodeLine::Done(node) => open_places(node, more),
        NodeLine::Todo => more,
    }
}

// One more node at the end of a tree.
fn push(alloc: Global, tree: &mut PartialTree, node: NodeLine) -> Result<(), AllocError>
    ensures { OnOk result (tree.new ≡ tree.old ++ line_node node ∷ []) }
{
    match node {
        NodeLine::Done(node) => tree.push_node(node)?,
        NodeLine::Todo => tree.push_todo(alloc)?,
    }
    Ok(())
}

fn tree(alloc: Global, lines: &mut Lines<'_>) -> Result<PartialTree, CertError>
    ensures { Reads (λ x. x) result lines.new (partial_nodes_at 1 lines.old) }
{
    let mut tree = PartialTree::new(alloc);
    let mut open: u64 = 1;
    while open > 0 {
        let _number = lines.number();
        let node = node_line(alloc, lines)?;
        open = opened(&node, open - 1);
        push(alloc, &mut tree, node)?;
    }
    Ok(tree)
}

// ---- the partial certificate

// The derived rows and the tree.
#[tactic(auto, unfolding(crate::specs::Reading::partial_shown_at))]
fn shown(alloc: Global, lines: &mut Lines<'_>) -> Result<(DerivedRows, PartialTree), CertError>
    ensures { Reads (λ x. x) result lines.new (partial_shown_at lines.old) }
{
    let rows = counted_rows(alloc, lines)?;
    word_line(alloc, "tree", lines)?;
    let tree = tree(alloc, lines)?;
    Ok((rows, tree))
}

#[tactic(auto, unfolding(crate::specs::Reading::undecided_at))]
fn undecided(
    alloc: Global,
    rows: u32,
    columns: u32,
    lines: &mut Lines<'_>,
) -> Result<PartialCertificate, CertError>
    ensures { Reads (λ x. x) result lines.new (undecided_at rows columns lines.old) }
{
    let best = best(alloc, columns, lines)?;
    let (derived, tree) = shown(alloc, lines)?;
    Ok(PartialCertificate::new(rows, columns, best, derived, tree))
}

#[tactic(auto, unfolding(crate::specs::Reading::partial_at))]
fn whole_text(alloc: Global, text: &[u8]) -> Result<PartialCertificate, CertError>
    ensures { Gives (λ c. c) result (read_partial_of text.now) }
{
    let mut lines = Lines::new(text);
    words_line(alloc, "cert", "2", &mut lines)?;
    let (rows, columns) = size_line(alloc, &mut lines)?;
    words_line(alloc, "verdict", "undecided", &mut lines)?;
    let certificate = undecided(alloc, rows, columns, &mut lines)?;
    word_line(alloc, "end", &mut lines)?;
    if lines.is_over() {
        Ok(certificate)
    } else {
        Err(fault_at(lines.number(), FaultKind::Extra))
    }
}
