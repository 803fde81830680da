// What is written with parentheses is read as it was meant.
ghost use Rattle.std.specs.Prelude.{◌≤◌, ℕ, List};
ghost use Rattle.gmpl_token.specs.Token.{Token};
ghost use Rattle.gmpl_syntax.specs.declared.fault.SyntaxFaultKind.{SyntaxFaultKind};
ghost use Rattle.gmpl_laws.specs.Formulas.{Formula, HasValues, depth_of, IsReadBack};

/// A formula of numbers, names and binary operators, written with a pair of parentheses round each operand, is read as its
/// tree, where as many tokens may be open as the formula opens.
#[tactic(auto, using(crate::proofs::ReadBack::is_read_back))]
pub fn formulas_are_read_back()
    ensures { (formula : Formula) (depth : ℕ) (rest : List Token) (end : SyntaxFaultKind) → HasValues formula → depth_of formula ≤ depth → IsReadBack formula depth rest end }
{}
