// What a check answers.

use fraction::NoFit;

/// A part of a certificate, in the order in which they are tested. Derived rows and nodes count from 1.
#[derive(Clone, Copy, Debug, PartialEq, Eq)]
pub enum Part {
    /// The numbers of rows and columns are the problem's.
    Size,
    /// The point is feasible.
    Point,
    /// The value is the objective's at the point.
    Value,
    /// The ray improves without end.
    Ray,
    /// The derived row follows from the problem, and from the rows before it where its version lets it use them.
    DerivedRow(usize),
    /// The node of the tree, in preorder, is a split of a whole form of its version, or its weights show what it says.
    Node(usize),
}

/// Whether a certificate proves its verdict.
#[derive(Clone, Copy)]
pub enum Checked {
    /// Each part holds.
    Accepted,
    /// The first part that does not hold.
    Refused(Part),
}

/// A number on the way that does not fit: the part in whose test it is, and the operation.
#[derive(Clone, Copy)]
pub struct CheckFault {
    pub part: Part,
    pub fault: NoFit,
}
