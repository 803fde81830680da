// What becomes of a statement.

use gmpl_resolved::{Statement, Step};

/// A statement with its names resolved.
#[derive(Drop)]
pub enum Resolved {
    Declaration(Statement),
    Step(Step),
    /// Of `data`, since data are read apart.
    Nothing,
}
