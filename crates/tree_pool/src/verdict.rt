// The certificate of a board's verdict.
ghost use Rattle.std.specs.Prelude.{◌≡◌, length, true, IsTrue, IfSome, Some, None, is_some};
ghost use Rattle.verdicts.specs.Certificate.{Two};
ghost use Rattle.certificate.specs.Written.{is_tree};
ghost use Rattle.search_tree.specs.Finished.{verdict_of};

use certificate::{Certificate, DerivedRows, Tree, Version};
use fraction::Frac;
use instance::Point;

// The certificate of the best point, where there is one, and else of a problem without points.
pub(crate) fn certificate_with(
    rows: u32,
    columns: u32,
    cuts: DerivedRows,
    tree: Tree,
    best: Option<Point>,
    value: Option<Frac>,
) -> Certificate
    requires tree { IsTrue (is_tree tree) }
    requires size { IfSome best (λ x. length x ≡ columns) }
    requires value { is_some value ≡ is_some best }
    ensures { result ≡ record { version = Two; rows = rows; columns = columns; verdict = verdict_of best; value = value; point = best; ray = None; derived = cuts; tree = tree } }
{
    match best {
        None => Certificate::infeasible(Version::Two, rows, columns, cuts, tree),
        Some(point) => {
            let value = known(value);
            Certificate::optimal(Version::Two, rows, columns, value, point, cuts, tree)
        }
    }
}

fn known(value: Option<Frac>) -> Frac
    ensures { is_some value ≡ true → value ≡ Some result }
{
    match value {
        None => Frac::zero(),
        Some(value) => value,
    }
}
