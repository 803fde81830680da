// The numbers of nodes: each operation of the simplex method is on site numbers.
ghost use Rattle.std.specs.Prelude.{List};
ghost use Rattle.rational.specs.Rational.{Rational};
ghost use Rattle.milp.specs.Problem.{Problem};
ghost use Rattle.verdicts.specs.Certificate.{Side, Derived};
ghost use Rattle.basis.specs.Pivots.{Operation};
ghost use Rattle.basis.specs.Node.{IsOverColumns};
ghost use Rattle.basis.specs.Operations.{IsNodeOperation};
ghost use Rattle.basis.specs.Numbers.{IsSitePair, node_numbers};

/// The operations that the simplex method makes at a node are on site numbers of the node.
pub fn operations_of_nodes()
    ensures { (p : Problem) (ds : List Derived) (sides : List Side) (a : Rational) (op : Operation) (c : Rational) →
        IsOverColumns p ds sides → IsNodeOperation p ds sides a op c → IsSitePair (node_numbers p ds sides) a c }
{}
