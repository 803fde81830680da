//! Certificates of verdicts on mixed-integer linear programs. Each has a text. Clauses see each type as the definitions of
//! `verdicts` see it.
#![tactic(auto)]

mod certificate;
mod derived;
mod split;
mod tree;
mod weights;
mod whole;
mod writing;

pub use certificate::{Certificate, Verdict, Version};
pub use derived::{Derived, DerivedRows, FormSplit, Proof};
pub use split::{ColumnSplit, Side, Split, Turn};
pub use tree::{Tree, TreeNode};
pub use weights::{Item, Items, LeafWeights, Weights};
pub use whole::{WholeNumber, parts_fit};
pub use writing::{counted_rows_text, head_text, node_text, point_text, text};
