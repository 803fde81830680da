// The best point of a certificate, and the weights that show it.
ghost use Rattle.std.specs.Prelude.{◌≡◌};
ghost use Rattle.certificate.specs.Values.{node_of};
ghost use Rattle.exact_ranges.specs.ShownBest.{best_point, best_weights, leaf_weights};

use certificate::{Certificate, Item, TreeNode};
use fraction::Frac;

/// The numbers of the certificate's point; none where it has none.
pub(crate) fn best_point(certificate: &Certificate) -> &[Frac]
    ensures { result.now ≡ best_point certificate.now }
{
    match certificate.point() {
        Some(point) => point.as_slice(),
        None => &[],
    }
}

/// The weights on rows of the certificate's first leaf; none where it has none.
pub(crate) fn row_weights(certificate: &Certificate) -> &[Item]
    ensures { result.now ≡ (best_weights certificate.now).rows }
{
    match certificate.tree().as_slice() {
        [first, ..] => weights_at(first),
        [] => &[],
    }
}

fn weights_at(node: &TreeNode) -> &[Item]
    ensures { result.now ≡ (leaf_weights (node_of node.now)).rows }
{
    match node {
        TreeNode::Branch(_) => &[],
        TreeNode::Empty(_) => &[],
        TreeNode::Bound(weights) => weights.weights().rows().as_slice(),
    }
}
