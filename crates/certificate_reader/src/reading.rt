// Reading the text of a certificate.
ghost use Rattle.std.specs.Prelude.{◌≡◌, ◌+◌, ◌<◌, ◌^◌, map, IfOk, IsTrue, Ok};
ghost use Rattle.std.specs.Option.{option_map};
ghost use Rattle.instance.specs.WellFormed.{are_entries};
ghost use Rattle.certificate.specs.Written.{count_max, is_tree, open_after, HasText};
ghost use Rattle.verdicts.specs.Certificate.{BySplit as by_split, Certificate as CertificateOf};
ghost use Rattle.certificate.specs.Values.{version_of, verdict_of, proof_of, node_of};
ghost use Rattle.certificate_reader.specs.Heads.{proof_line_of};
ghost use Rattle.certificate.specs.Text.{certificate_text};
ghost use Rattle.certificate_lines.specs.Fields.{fields_of};
ghost use Rattle.certificate_lines.specs.Lines.{line_by};
ghost use Rattle.certificate_reader.specs.Reading.{version_named, version_in, size_in, verdict_named, verdict_in, value_in, point_in, count_in, word_in, derive_in, side_in, form_split_in, cases_in, plain_in, proof_in, proof_from, derived_at, derived_rows_at, counted_rows_at, column_split_in, split_in, word_of_split, branch_in, node_in, nodes_at, SplitLine, IsHead, shown_at, optimal_at, infeasible_at, unbounded_at, body_at, read_of};
ghost use Rattle.certificate_lines.specs.Gives.{Takes, LineGives, Gives, Reads};

use certificate::{
    Certificate, ColumnSplit, Derived, DerivedRows, FormSplit, Proof, Split, Tree, TreeNode,
    Verdict, Version, Weights, WholeNumber,
};
use certificate_lines::{
    CertError, FaultKind, LineError, Lines, after_word, closed, count, end, fault_at, fields_in,
    first, form, index, leaf_weights, number, numbers, weights, whole,
};
use fraction::{Frac, texts};
use instance::{Entries, Point};
use std::alloc::Global;

/// The certificate whose text the bytes are, or the first fault of the text. Each certificate has one text.
pub fn read(alloc: Global, text: &[u8]) -> Result<Certificate, CertError>
    // The certificate, or the first fault.
    ensures exact { Gives (λ c. c) result (read_of text.now) }
    // What is read is the certificate's text.
    ensures found { IfOk result (λ c. text.now ≡ certificate_text c) }
    // The text of a certificate is read as that one, unless memory runs out.
    ensures only { (c : CertificateOf) → HasText c → text.now ≡ certificate_text c → Gives (λ c. c) result (Ok c) }
{
    texts();
    whole_text(alloc, text)
}

// ---- the lines before what a verdict has

fn version_line(alloc: Global, lines: &mut Lines<'_>) -> Result<Version, CertError>
    ensures { Reads version_of result lines.new (line_by version_in lines.old) }
{
    let line = lines.next()?;
    let fields = fields_in(alloc, line.text)?;
    closed(line.number, line.feed, version(&fields))
}

fn version(fields: &[&[u8]]) -> Result<Version, LineError>
    ensures { LineGives version_of result (version_in (map (λ f. f.now) fields.now)) }
{
    let rest = after_word("cert", fields)?;
    let (name, rest) = first(rest)?;
    let version = named_version(name)?;
    end(rest)?;
    Ok(version)
}

fn named_version(word: &[u8]) -> Result<Version, FaultKind>
    ensures { Takes version_of result (version_named word.now) }
{
    if word == b"1".as_slice() {
        Ok(Version::One)
    } else if word == b"2".as_slice() {
        Ok(Version::Two)
    } else {
        Err(FaultKind::BadLine)
    }
}

/// The numbers of rows and columns, by the next line.
pub fn size_line(alloc: Global, lines: &mut Lines<'_>) -> Result<(u32, u32), CertError>
    ensures size { Reads (λ x. x) result lines.new (line_by size_in lines.old) }
{
    let line = lines.next()?;
    let fields = fields_in(alloc, line.text)?;
    closed(line.number, line.feed, size(&fields))
}

// The numbers of rows and columns.
fn size(fields: &[&[u8]]) -> Result<(u32, u32), LineError>
    ensures { LineGives (λ x. x) result (size_in (map (λ f. f.now) fields.now)) }
{
    let rest = after_word("size", fields)?;
    let (rows, rest) = first(rest)?;
    let rows = count(rows)?;
    let (columns, rest) = first(rest)?;
    let columns = count(columns)?;
    end(rest)?;
    Ok((rows, columns))
}

fn verdict_line(alloc: Global, lines: &mut Lines<'_>) -> Result<Verdict, CertError>
    ensures { Reads verdict_of result lines.new (line_by verdict_in lines.old) }
{
    let line = lines.next()?;
    let fields = fields_in(alloc, line.text)?;
    closed(line.number, line.feed, verdict(&fields))
}

fn verdict(fields: &[&[u8]]) -> Result<Verdict, LineError>
    ensures { LineGives verdict_of result (verdict_in (map (λ f. f.now) fields.now)) }
{
    let rest = after_word("verdict", fields)?;
    let (name, rest) = first(rest)?;
    let verdict = named_verdict(name)?;
    end(rest)?;
    Ok(verdict)
}

fn named_verdict(word: &[u8]) -> Result<Verdict, FaultKind>
    ensures { Takes verdict_of result (verdict_named word.now) }
{
    if word == b"optimal".as_slice() {
        Ok(Verdict::Optimal)
    } else if word == b"infeasible".as_slice() {
        Ok(Verdict::Infeasible)
    } else if word == b"unbounded".as_slice() {
        Ok(Verdict::Unbounded)
    } else {
        Err(FaultKind::BadLine)
    }
}

// ---- a value, a point or a ray, and words

fn value_line(alloc: Global, lines: &mut Lines<'_>) -> Result<Frac, CertError>
    ensures { Reads (λ x. x) result lines.new (line_by value_in lines.old) }
{
    let line = lines.next()?;
    let fields = fields_in(alloc, line.text)?;
    closed(line.number, line.feed, value(&fields))
}

fn value(fields: &[&[u8]]) -> Result<Frac, LineError>
    ensures { LineGives (λ x. x) result (value_in (map (λ f. f.now) fields.now)) }
{
    let rest = after_word("value", fields)?;
    let (value, rest) = first(rest)?;
    let value = number(value)?;
    end(rest)?;
    Ok(value)
}

/// The point or the ray behind this word, by the next line: as many numbers as there are columns.
pub fn point_line(
    alloc: Global,
    word: &str,
    columns: u32,
    lines: &mut Lines<'_>,
) -> Result<Point, CertError>
    ensures point { Reads (λ x. x) result lines.new (line_by (point_in word.now columns) lines.old) }
{
    let line = lines.next()?;
    let fields = fields_in(alloc, line.text)?;
    closed(line.number, line.feed, point(alloc, word, columns, &fields))
}

// As many numbers as there are columns.
fn point(alloc: Global, word: &str, columns: u32, fields: &[&[u8]]) -> Result<Point, LineError>
    ensures { LineGives (λ x. x) result (point_in word.now columns (map (λ f. f.now) fields.now)) }
{
    let rest = after_word(word, fields)?;
    numbers(alloc, columns, rest)
}

/// The next line is this word alone.
pub fn word_line(alloc: Global, word: &str, lines: &mut Lines<'_>) -> Result<(), CertError>
    ensures word { Reads (λ x. x) result lines.new (line_by (word_in word.now) lines.old) }
{
    let line = lines.next()?;
    let fields = fields_in(alloc, line.text)?;
    closed(line.number, line.feed, only_word(word, &fields))
}

fn only_word(word: &str, fields: &[&[u8]]) -> Result<(), LineError>
    ensures { LineGives (λ x. x) result (word_in word.now (map (λ f. f.now) fields.now)) }
{
    let rest = after_word(word, fields)?;
    end(rest)?;
    Ok(())
}

fn count_line(alloc: Global, lines: &mut Lines<'_>) -> Result<u32, CertError>
    ensures { Reads (λ x. x) result lines.new (line_by count_in lines.old) }
{
    let line = lines.next()?;
    let fields = fields_in(alloc, line.text)?;
    closed(line.number, line.feed, derived_count(&fields))
}

// The number of derived rows.
fn derived_count(fields: &[&[u8]]) -> Result<u32, LineError>
    ensures { LineGives (λ x. x) result (count_in (map (λ f. f.now) fields.now)) }
{
    let rest = after_word("derived", fields)?;
    let (rows, rest) = first(rest)?;
    let rows = count(rows)?;
    end(rest)?;
    Ok(rows)
}

// Where the cases of a split part, and its form.
fn form_split(alloc: Global, fields: &[&[u8]]) -> Result<(WholeNumber, Entries), LineError>
    ensures value { LineGives (λ x. record { form = x.1; at = x.0 }) result (form_split_in (map (λ f. f.now) fields.now)) }
    ensures written { IfOk result (λ x. IsTrue (are_entries count_max x.1)) }
{
    let (at, rest) = first(fields)?;
    let at = whole(at)?;
    let form = form(alloc, rest)?;
    Ok((at, form))
}

// ---- derived rows

fn derive_line(alloc: Global, lines: &mut Lines<'_>) -> Result<(Frac, Entries), CertError>
    ensures { Reads (λ x. x) result lines.new (line_by derive_in lines.old) }
{
    let line = lines.next()?;
    let fields = fields_in(alloc, line.text)?;
    closed(line.number, line.feed, bound_and_form(alloc, &fields))
}

fn bound_and_form(alloc: Global, fields: &[&[u8]]) -> Result<(Frac, Entries), LineError>
    ensures { LineGives (λ x. x) result (derive_in (map (λ f. f.now) fields.now)) }
{
    let rest = after_word("derive", fields)?;
    let (bound, rest) = first(rest)?;
    let bound = number(bound)?;
    let form = form(alloc, rest)?;
    Ok((bound, form))
}

fn side_line(alloc: Global, word: &str, lines: &mut Lines<'_>) -> Result<(Frac, Weights), CertError>
    ensures { Reads (λ x. x) result lines.new (line_by (side_in word.now) lines.old) }
{
    let line = lines.next()?;
    let fields = fields_in(alloc, line.text)?;
    closed(line.number, line.feed, side(alloc, word, &fields))
}

// The weight of a side's own inequality, and its other weights.
fn side(alloc: Global, word: &str, fields: &[&[u8]]) -> Result<(Frac, Weights), LineError>
    ensures { LineGives (λ x. x) result (side_in word.now (map (λ f. f.now) fields.now)) }
{
    let rest = after_word(word, fields)?;
    let (weight, rest) = first(rest)?;
    let weight = number(weight)?;
    let weights = weights(alloc, rest)?;
    Ok((weight, weights))
}

// The first line of what shows a derived row.
#[derive(Drop)]
pub(crate) enum ProofHead {
    Plain(Weights),
    Split(WholeNumber, Entries),
}

fn proof_line(alloc: Global, lines: &mut Lines<'_>) -> Result<ProofHead, CertError>
    ensures { Reads proof_line_of result lines.new (line_by proof_in lines.old) }
{
    let line = lines.next()?;
    let fields = fields_in(alloc, line.text)?;
    closed(line.number, line.feed, proof_head(alloc, &fields))
}

fn proof_head(alloc: Global, fields: &[&[u8]]) -> Result<ProofHead, LineError>
    ensures { LineGives proof_line_of result (proof_in (map (λ f. f.now) fields.now)) }
{
    let (word, rest) = first(fields)?;
    if word == b"plain".as_slice() {
        let weights = weights(alloc, rest)?;
        Ok(ProofHead::Plain(weights))
    } else if word == b"split".as_slice() {
        split_head(alloc, rest)
    } else {
        Err(LineError::Fault(FaultKind::BadLine))
    }
}

fn split_head(alloc: Global, fields: &[&[u8]]) -> Result<ProofHead, LineError>
    ensures { LineGives proof_line_of result (cases_in (map (λ f. f.now) fields.now)) }
{
    let (at, form) = form_split(alloc, fields)?;
    Ok(ProofHead::Split(at, form))
}

// What shows a derived row, after its first line.
fn proof_of_head(alloc: Global, head: ProofHead, lines: &mut Lines<'_>) -> Result<Proof, CertError>
    requires { IsHead (proof_line_of head) }
    ensures { Reads proof_of result lines.new (proof_from (proof_line_of head) lines.old) }
{
    match head {
        ProofHead::Plain(weights) => Ok(Proof::Plain(weights)),
        ProofHead::Split(at, form) => {
            let split = sides(alloc, at, form, lines)?;
            Ok(Proof::BySplit(split))
        }
    }
}

fn sides(
    alloc: Global,
    at: WholeNumber,
    form: Entries,
    lines: &mut Lines<'_>,
) -> Result<FormSplit, CertError>
    requires { IsTrue (are_entries count_max form) }
    ensures { Reads (λ s. by_split s) result lines.new (proof_from (SplitLine at form) lines.old) }
{
    let (low, low_weights) = side_line(alloc, "low", lines)?;
    let (high, high_weights) = side_line(alloc, "high", lines)?;
    Ok(FormSplit::new(at, form, low, low_weights, high, high_weights))
}

#[tactic(auto, unfolding(crate::specs::Reading::derived_at))]
fn derived_row(alloc: Global, lines: &mut Lines<'_>) -> Result<Derived, CertError>
    ensures { Reads (λ x. x) result lines.new (derived_at lines.old) }
{
    let (bound, form) = derive_line(alloc, lines)?;
    let head = proof_line(alloc, lines)?;
    let proof = proof_of_head(alloc, head, lines)?;
    Ok(Derived::new(bound, form, proof))
}

fn derived_rows(alloc: Global, count: u32, lines: &mut Lines<'_>) -> Result<DerivedRows, CertError>
    ensures { Reads (λ x. x) result lines.new (derived_rows_at count lines.old) }
{
    let mut rows = DerivedRows::new(alloc);
    for _ in 0..count {
        let row = derived_row(alloc, lines)?;
        rows.push(row)?;
    }
    Ok(rows)
}

/// The derived rows, behind the line of their number.
#[tactic(auto, unfolding(crate::specs::Reading::counted_rows_at))]
pub fn counted_rows(alloc: Global, lines: &mut Lines<'_>) -> Result<DerivedRows, CertError>
    ensures rows { Reads (λ x. x) result lines.new (counted_rows_at lines.old) }
{
    let count = count_line(alloc, lines)?;
    derived_rows(alloc, count, lines)
}

// ---- the tree

fn node_line(alloc: Global, version: Version, lines: &mut Lines<'_>) -> Result<TreeNode, CertError>
    ensures { Reads node_of result lines.new (line_by (node_in (version_of version)) lines.old) }
{
    let line = lines.next()?;
    let fields = fields_in(alloc, line.text)?;
    closed(line.number, line.feed, node(alloc, version, &fields))
}

/// The node of a line's fields.
pub fn node(alloc: Global, version: Version, fields: &[&[u8]]) -> Result<TreeNode, LineError>
    ensures node { LineGives node_of result (node_in (version_of version) (map (λ f. f.now) fields.now)) }
{
    let (word, rest) = first(fields)?;
    if word == split_word(version) {
        let split = split(alloc, version, rest)?;
        Ok(TreeNode::Branch(split))
    } else if word == b"empty".as_slice() {
        let weights = leaf_weights(alloc, version, rest)?;
        Ok(TreeNode::Empty(weights))
    } else if word == b"bound".as_slice() {
        let weights = leaf_weights(alloc, version, rest)?;
        Ok(TreeNode::Bound(weights))
    } else {
        Err(LineError::Fault(FaultKind::BadLine))
    }
}

// The word of a split's line.
fn split_word(version: Version) -> &'static [u8]
    ensures { result.now ≡ word_of_split (version_of version) }
{
    match version {
        Version::One => b"branch",
        Version::Two => b"split",
    }
}

// A split: of one column in version 1, of any form in version 2.
fn split(alloc: Global, version: Version, fields: &[&[u8]]) -> Result<Split, LineError>
    ensures { LineGives (λ s. s) result (split_in (version_of version) (map (λ f. f.now) fields.now)) }
{
    match version {
        Version::One => {
            let split = column_split(fields)?;
            Ok(split.to_split(alloc)?)
        }
        Version::Two => {
            let (at, form) = form_split(alloc, fields)?;
            Ok(Split::new(form, at))
        }
    }
}

// A column, and where the cases of its split part.
fn column_split(fields: &[&[u8]]) -> Result<ColumnSplit, FaultKind>
    ensures { Takes (λ s. s) result (column_split_in (map (λ f. f.now) fields.now)) }
{
    let (column, rest) = first(fields)?;
    let column = index(column)?;
    let (at, rest) = first(rest)?;
    let at = whole(at)?;
    end(rest)?;
    Ok(ColumnSplit::new(column, at))
}

/// How many places of a tree are open once a node fills one of these and more.
pub fn open_places(node: &TreeNode, more: u64) -> u64
    requires room { more + 2 < 2 ^ 64 }
    ensures places { result ≡ open_after (node_of node.now) more }
{
    match node {
        TreeNode::Branch(_) => more + 2,
        _ => more,
    }
}

fn tree(alloc: Global, version: Version, lines: &mut Lines<'_>) -> Result<Tree, CertError>
    ensures { Reads (λ x. x) result lines.new (nodes_at (version_of version) 1 lines.old) }
{
    let mut tree = Tree::new(alloc);
    let mut open: u64 = 1;
    while open > 0 {
        let _number = lines.number();
        let node = node_line(alloc, version, lines)?;
        open = open_places(&node, open - 1);
        tree.push(node)?;
    }
    Ok(tree)
}

// ---- the certificate

#[tactic(auto, unfolding(crate::specs::Reading::shown_at))]
fn shown(
    alloc: Global,
    version: Version,
    lines: &mut Lines<'_>,
) -> Result<(DerivedRows, Tree), CertError>
    ensures { Reads (λ x. record { derived = x.0; tree = x.1 }) result lines.new (shown_at (version_of version) lines.old) }
{
    let rows = counted_rows(alloc, lines)?;
    word_line(alloc, "tree", lines)?;
    let tree = tree(alloc, version, lines)?;
    Ok((rows, tree))
}

#[tactic(auto, unfolding(crate::specs::Reading::optimal_at))]
fn optimal(
    alloc: Global,
    version: Version,
    rows: u32,
    columns: u32,
    lines: &mut Lines<'_>,
) -> Result<Certificate, CertError>
    ensures { Reads (λ x. x) result lines.new (optimal_at (version_of version) rows columns lines.old) }
{
    let value = value_line(alloc, lines)?;
    let point = point_line(alloc, "point", columns, lines)?;
    let (derived, tree) = shown(alloc, version, lines)?;
    Ok(Certificate::optimal(version, rows, columns, value, point, derived, tree))
}

#[tactic(auto, unfolding(crate::specs::Reading::infeasible_at))]
fn infeasible(
    alloc: Global,
    version: Version,
    rows: u32,
    columns: u32,
    lines: &mut Lines<'_>,
) -> Result<Certificate, CertError>
    ensures { Reads (λ x. x) result lines.new (infeasible_at (version_of version) rows columns lines.old) }
{
    let (derived, tree) = shown(alloc, version, lines)?;
    Ok(Certificate::infeasible(version, rows, columns, derived, tree))
}

#[tactic(auto, unfolding(crate::specs::Reading::unbounded_at))]
fn unbounded(
    alloc: Global,
    version: Version,
    rows: u32,
    columns: u32,
    lines: &mut Lines<'_>,
) -> Result<Certificate, CertError>
    ensures { Reads (λ x. x) result lines.new (unbounded_at (version_of version) rows columns lines.old) }
{
    let point = point_line(alloc, "point", columns, lines)?;
    let ray = point_line(alloc, "ray", columns, lines)?;
    Ok(Certificate::unbounded(alloc, version, rows, columns, point, ray))
}

fn body(
    alloc: Global,
    version: Version,
    rows: u32,
    columns: u32,
    verdict: Verdict,
    lines: &mut Lines<'_>,
) -> Result<Certificate, CertError>
    ensures { Reads (λ x. x) result lines.new (body_at (version_of version) rows columns (verdict_of verdict) lines.old) }
{
    match verdict {
        Verdict::Optimal => optimal(alloc, version, rows, columns, lines),
        Verdict::Infeasible => infeasible(alloc, version, rows, columns, lines),
        Verdict::Unbounded => unbounded(alloc, version, rows, columns, lines),
    }
}

#[tactic(auto, unfolding(crate::specs::Reading::certificate_at))]
fn whole_text(alloc: Global, text: &[u8]) -> Result<Certificate, CertError>
    ensures { Gives (λ c. c) result (read_of text.now) }
{
    let mut lines = Lines::new(text);
    let version = version_line(alloc, &mut lines)?;
    let (rows, columns) = size_line(alloc, &mut lines)?;
    let verdict = verdict_line(alloc, &mut lines)?;
    let certificate = body(alloc, version, rows, columns, verdict, &mut lines)?;
    word_line(alloc, "end", &mut lines)?;
    if lines.is_over() {
        Ok(certificate)
    } else {
        Err(fault_at(lines.number(), FaultKind::Extra))
    }
}
