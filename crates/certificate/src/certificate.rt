// Certificates.
ghost use Rattle.std.specs.Prelude.{◌≡◌, ◌≢◌, [], length, IsTrue, Some, None};
ghost use Rattle.std.specs.Option.{option_map};
ghost use Rattle.std.specs.List.{AllByRecursion};
ghost use Rattle.fraction.specs.Fits.{fits};
ghost use Rattle.verdicts.specs.Certificate.{Optimal as is_optimal, Infeasible as is_infeasible, Unbounded as is_unbounded};
ghost use Rattle.certificate.specs.Written.{is_tree, AreOf, HasText};
ghost use Rattle.certificate.specs.Values.{version_of, verdict_of};

use crate::whole::parts_fit;
use crate::{DerivedRows, Tree};
use fraction::Frac;
use instance::Point;
use std::alloc::Global;
use std::marker::Model;

/// How a certificate says what it shows.
#[derive(Clone, Copy, Debug, PartialEq, Eq)]
pub enum Version {
    /// Splits of single columns narrow their bounds, and derived rows rest on the problem's own rows alone.
    One,
    /// Splits of any form have weights of their own, and derived rows may rest on those before them.
    Two,
}

/// What is shown of a problem.
#[derive(Clone, Copy, Debug, PartialEq, Eq)]
pub enum Verdict {
    /// The point is feasible and no feasible point is better.
    Optimal,
    /// No point is feasible.
    Infeasible,
    /// The point is feasible, and the ray improves it without end.
    Unbounded,
}

/// A certificate: a verdict, and what shows it. Its type keeps that it has a text in its version.
#[derive(Drop)]
pub struct Certificate {
    version: Version,
    rows: u32,
    columns: u32,
    verdict: Verdict,
    value: Option<Frac>,
    point: Option<Point>,
    ray: Option<Point>,
    derived: DerivedRows,
    tree: Tree,
}

impl Model for Certificate {
    ghost use Rattle.verdicts.specs.Certificate.{Certificate as CertificateOf};
    ghost use Rattle.certificate.specs.Written.{HasText};
    ghost use Rattle.certificate.specs.Values.{version_of, verdict_of};

    ghost Value = { CertificateOf };

    ghost view = { λ c. record { version = version_of c.version; rows = c.rows; columns = c.columns; verdict = verdict_of c.verdict; value = c.value; point = c.point; ray = c.ray; derived = c.derived; tree = c.tree } };

    ghost invariant = { λ c. HasText (record { version = version_of c.version; rows = c.rows; columns = c.columns; verdict = verdict_of c.verdict; value = c.value; point = c.point; ray = c.ray; derived = c.derived; tree = c.tree }) };
}

// Each number is within 128 bits.
fn numbers_fit(numbers: &[Frac])
    ensures { AllByRecursion (λ v. IsTrue (fits v)) numbers.now }
{
    for number in numbers {
        parts_fit(*number);
    }
}

impl Certificate {
    /// The certificate of an optimal point and its value, for a problem with these numbers of rows and columns: a whole
    /// tree, whose leaves are to show that no point is better and for whose nodes the version has lines. It takes no memory.
    pub fn optimal(
        version: Version,
        rows: u32,
        columns: u32,
        value: Frac,
        point: Point,
        derived: DerivedRows,
        tree: Tree,
    ) -> Self
        requires size { length point ≡ columns }
        requires tree { IsTrue (is_tree tree) }
        requires lines { AreOf (version_of version) tree }
        ensures { result ≡ record { version = version_of version; rows = rows; columns = columns; verdict = is_optimal; value = Some value; point = Some point; ray = None; derived = derived; tree = tree } }
    {
        parts_fit(value);
        numbers_fit(point.as_slice());
        let _derived = derived.as_slice();
        let _nodes = tree.as_slice();
        Certificate {
            version,
            rows,
            columns,
            verdict: Verdict::Optimal,
            value: Some(value),
            point: Some(point),
            ray: None,
            derived,
            tree,
        }
    }

    /// The certificate of a problem without feasible points: a whole tree, whose leaves are to show it. It
    /// takes no memory.
    pub fn infeasible(
        version: Version,
        rows: u32,
        columns: u32,
        derived: DerivedRows,
        tree: Tree,
    ) -> Self
        requires tree { IsTrue (is_tree tree) }
        requires lines { AreOf (version_of version) tree }
        ensures { result ≡ record { version = version_of version; rows = rows; columns = columns; verdict = is_infeasible; value = None; point = None; ray = None; derived = derived; tree = tree } }
    {
        let _derived = derived.as_slice();
        let _nodes = tree.as_slice();
        Certificate {
            version,
            rows,
            columns,
            verdict: Verdict::Infeasible,
            value: None,
            point: None,
            ray: None,
            derived,
            tree,
        }
    }

    /// The certificate of a problem that improves without end: a point, and a ray to go from it. It takes no memory.
    pub fn unbounded(
        alloc: Global,
        version: Version,
        rows: u32,
        columns: u32,
        point: Point,
        ray: Point,
    ) -> Self
        requires point { length point ≡ columns }
        requires ray { length ray ≡ columns }
        ensures { result ≡ record { version = version_of version; rows = rows; columns = columns; verdict = is_unbounded; value = None; point = Some point; ray = Some ray; derived = []; tree = [] } }
    {
        numbers_fit(point.as_slice());
        numbers_fit(ray.as_slice());
        Certificate {
            version,
            rows,
            columns,
            verdict: Verdict::Unbounded,
            value: None,
            point: Some(point),
            ray: Some(ray),
            derived: DerivedRows::new(alloc),
            tree: Tree::new(alloc),
        }
    }

    /// Its version.
    pub fn version(&self) -> Version
        ensures { version_of result ≡ self.now.version }
    {
        self.version
    }

    /// The number of rows of its problem. The certificate has a text.
    pub fn rows(&self) -> u32
        ensures rows { result ≡ self.now.rows }
        ensures written { HasText self.now }
    {
        self.rows
    }

    /// The number of columns of its problem.
    pub fn columns(&self) -> u32
        ensures { result ≡ self.now.columns }
    {
        self.columns
    }

    /// What it shows.
    pub fn verdict(&self) -> Verdict
        ensures { verdict_of result ≡ self.now.verdict }
    {
        self.verdict
    }

    /// The best value, where the verdict is optimal.
    pub fn value(&self) -> Option<Frac>
        ensures { result ≡ self.now.value }
    {
        self.value
    }

    /// The point, where the verdict is optimal or unbounded.
    pub fn point(&self) -> Option<&Point>
        ensures { option_map (λ p. p.now) result ≡ self.now.point }
    {
        self.point.as_ref()
    }

    /// The ray, where the verdict is unbounded.
    pub fn ray(&self) -> Option<&Point>
        ensures { option_map (λ p. p.now) result ≡ self.now.ray }
    {
        self.ray.as_ref()
    }

    /// The best value, of a verdict that shows an optimal point.
    pub fn optimal_value(&self) -> Frac
        requires { self.now.verdict ≡ is_optimal }
        ensures { Some result ≡ self.now.value }
    {
        let _rows = self.rows();
        match self.value() {
            None => unreachable!(),
            Some(value) => value,
        }
    }

    /// The point of a verdict that shows one, with a number for each column.
    pub fn shown_point(&self) -> &Point
        requires { self.now.verdict ≢ is_infeasible }
        ensures point { Some result.now ≡ self.now.point }
        ensures size { length result.now ≡ self.now.columns }
    {
        let _rows = self.rows();
        match self.point() {
            None => unreachable!(),
            Some(point) => point,
        }
    }

    /// The ray that is to improve the point without end, with a number for each column.
    pub fn improving_ray(&self) -> &Point
        requires { self.now.verdict ≡ is_unbounded }
        ensures ray { Some result.now ≡ self.now.ray }
        ensures size { length result.now ≡ self.now.columns }
    {
        let _rows = self.rows();
        match self.ray() {
            None => unreachable!(),
            Some(ray) => ray,
        }
    }

    /// The derived rows.
    pub fn derived(&self) -> &DerivedRows
        ensures { result.now ≡ self.now.derived }
    {
        &self.derived
    }

    /// The tree; without nodes where the verdict is unbounded.
    pub fn tree(&self) -> &Tree
        ensures { result.now ≡ self.now.tree }
    {
        &self.tree
    }
}
