// Nodes of the board's tree, as places in its log.

/// Where a node of the board's tree stands: the log owns the trees that were put in.
#[derive(Clone, Copy)]
pub enum NodeRef {
    /// A leaf that no one has worked on: the root at the start, or a reclaimed one.
    Again,
    /// The leaf that is leased by the entry at this place of the log.
    Under(usize),
    /// The node at the second place of the tree that the entry at the first place put in.
    Held(usize, usize),
    /// A split of a tree that was put in, the same by `entry` and `node`. Its low side stands at the place `low` of the nodes,
    /// and its high side at the next.
    Forked {
        entry: usize,
        node: usize,
        low: usize,
    },
}
