// Names for what weights stand on.

/// What the indices of a list of weights name.
#[derive(Clone, Copy)]
pub(crate) enum Kind {
    /// Rows of the problem.
    OfRow,
    /// Columns of the problem.
    OfColumn,
    /// Derived rows of the certificate.
    OfDerived,
    /// Splits on the way to a leaf, the first from the root first.
    OfSplit,
}
