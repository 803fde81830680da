// Partial certificates.
ghost use Rattle.std.specs.Prelude.{◌≡◌, IsTrue, IfSome};
ghost use Rattle.std.specs.Option.{option_map};
ghost use Rattle.partial_certificate.specs.Written.{is_whole, IsBest, HasSize, HasText};

use crate::best::Best;
use crate::tree::PartialTree;
use certificate::DerivedRows;
use std::marker::Model;

/// What a search that stopped at a limit has shown: the best point that it found, if it found one, derived rows, and a
/// tree with leaves that are left to do. Splits and weights are read as in version 2 of certificates. Its type keeps that
/// it has a text.
#[derive(Drop)]
pub struct PartialCertificate {
    rows: u32,
    columns: u32,
    best: Option<Best>,
    derived: DerivedRows,
    tree: PartialTree,
}

impl Model for PartialCertificate {
    ghost use Rattle.partial_certificate.specs.Partial.{Partial};
    ghost use Rattle.partial_certificate.specs.Written.{HasText};

    ghost Value = { Partial };

    ghost view = { λ c. record { rows = c.rows; columns = c.columns; best = c.best; derived = c.derived; tree = c.tree } };

    ghost invariant = { λ c. HasText (record { rows = c.rows; columns = c.columns; best = c.best; derived = c.derived; tree = c.tree }) };
}

// The numbers of a best point have a text.
fn best_fits(best: &Option<Best>)
    ensures { IfSome best.now IsBest }
{
    match best {
        None => {}
        Some(best) => {
            let _point = best.point();
        }
    }
}

impl PartialCertificate {
    /// What was shown of a problem with these numbers of rows and columns: a whole tree, whose leaves but those that are left
    /// to do are to show that no point is better than the best one, or that there is no point. It takes no memory.
    pub fn new(
        rows: u32,
        columns: u32,
        best: Option<Best>,
        derived: DerivedRows,
        tree: PartialTree,
    ) -> Self
        requires size { IfSome best (HasSize columns) }
        requires tree { IsTrue (is_whole tree) }
        ensures same { result ≡ record { rows = rows; columns = columns; best = best; derived = derived; tree = tree } }
    {
        best_fits(&best);
        let _derived = derived.as_slice();
        let _nodes = tree.shapes();
        PartialCertificate {
            rows,
            columns,
            best,
            derived,
            tree,
        }
    }

    /// The number of rows of its problem. The certificate has a text.
    pub fn rows(&self) -> u32
        ensures rows { result ≡ self.now.rows }
        ensures written { HasText self.now }
    {
        self.rows
    }

    /// The number of columns of its problem.
    pub fn columns(&self) -> u32
        ensures columns { result ≡ self.now.columns }
    {
        self.columns
    }

    /// The best point, if one was found.
    pub fn best(&self) -> Option<&Best>
        ensures best { option_map (λ b. b.now) result ≡ self.now.best }
    {
        self.best.as_ref()
    }

    /// The derived rows.
    pub fn derived(&self) -> &DerivedRows
        ensures derived { result.now ≡ self.now.derived }
    {
        &self.derived
    }

    /// The tree.
    pub fn tree(&self) -> &PartialTree
        ensures tree { result.now ≡ self.now.tree }
    {
        &self.tree
    }
}
