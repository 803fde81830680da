// How operators bind.
ghost use Rattle.std.specs.Prelude.{[], ◌∷◌, None};
ghost use Rattle.gmpl_token.specs.declared.kind.TokenKind.TheVariants as k;
ghost use Rattle.gmpl_syntax.specs.declared.expression.Sign.TheVariants as sign;
ghost use Rattle.gmpl_syntax.specs.declared.expression.Operator.TheVariants as o;
ghost use Rattle.gmpl_syntax.specs.declared.expression.Relation.TheVariants as r;
ghost use Rattle.gmpl_syntax.specs.declared.expression.Expr.TheVariants as e;
ghost use Rattle.gmpl_syntax.specs.declared.expression.Link.{roll-Link};
ghost use Rattle.gmpl_laws.specs.Reading.{mark, name_a, name_b, name_c, a, b, c, joined, reads, binds_tighter};

/// How operators of neighbouring levels bind, by worked examples from tokens to trees (GNU MathProg Language Reference, sections
/// on the hierarchy of operations), the strongest first.
pub fn operators_bind_by_level()
    ensures power_from_the_right { reads (name_a ∷ mark k.Power ∷ name_b ∷ mark k.Power ∷ name_c ∷ []) (e.Power a (e.Power b c)) }
    ensures power_before_sign { reads (mark k.Minus ∷ name_a ∷ mark k.Power ∷ name_b ∷ []) (e.Signed sign.Minus (e.Power a b)) }
    ensures sign_of_an_exponent { reads (name_a ∷ mark k.Power ∷ mark k.Minus ∷ name_b ∷ []) (e.Power a (e.Signed sign.Minus b)) }
    ensures sign_before_product { reads (mark k.Minus ∷ name_a ∷ mark k.Times ∷ name_b ∷ []) (joined (e.Signed sign.Minus a) o.Times b) }
    ensures sign_in_a_product { reads (name_a ∷ mark k.Times ∷ mark k.Minus ∷ name_b ∷ []) (joined a o.Times (e.Signed sign.Minus b)) }
    ensures product_before_sum { binds_tighter k.Times o.Times k.Plus o.Plus }
    ensures sum_before_join { binds_tighter k.Less o.Less k.Join o.Join }
    ensures join_before_range { reads (name_a ∷ mark k.Join ∷ name_b ∷ mark k.DotDot ∷ name_c ∷ []) (e.Range (joined a o.Join b) c None) }
    ensures join_behind_a_range { reads (name_a ∷ mark k.DotDot ∷ name_b ∷ mark k.Join ∷ name_c ∷ []) (e.Range a (joined b o.Join c) None) }
    ensures range_before_cross { reads (name_a ∷ mark k.DotDot ∷ name_b ∷ mark k.Cross ∷ name_c ∷ []) (joined (e.Range a b None) o.Cross c) }
    ensures range_behind_a_cross { reads (name_a ∷ mark k.Cross ∷ name_b ∷ mark k.DotDot ∷ name_c ∷ []) (joined a o.Cross (e.Range b c None)) }
    ensures cross_before_inter { binds_tighter k.Cross o.Cross k.Inter o.Inter }
    ensures inter_before_union { binds_tighter k.Inter o.Inter k.Diff o.Diff }
    ensures union_before_relation { reads (name_a ∷ mark k.Union ∷ name_b ∷ mark k.Below ∷ name_c ∷ []) (e.Compared r.Below (joined a o.Union b) c) }
    ensures union_behind_a_relation { reads (name_a ∷ mark k.Below ∷ name_b ∷ mark k.Union ∷ name_c ∷ []) (e.Compared r.Below a (joined b o.Union c)) }
    ensures relation_before_not { reads (mark k.Not ∷ name_a ∷ mark k.Below ∷ name_b ∷ []) (e.Not (e.Compared r.Below a b)) }
    ensures not_in { reads (name_a ∷ mark k.Not ∷ mark k.In ∷ name_b ∷ []) (e.Compared r.NotIn a b) }
    ensures not_before_and { reads (mark k.Not ∷ name_a ∷ mark k.And ∷ name_b ∷ []) (joined (e.Not a) o.And b) }
    ensures not_behind_and { reads (name_a ∷ mark k.And ∷ mark k.Not ∷ name_b ∷ []) (joined a o.And (e.Not b)) }
    ensures and_before_or { binds_tighter k.And o.And k.Or o.Or }
    ensures one_level_from_the_left { reads (name_a ∷ mark k.Minus ∷ name_b ∷ mark k.Plus ∷ name_c ∷ []) (e.Chain a (roll-Link (record { operator = o.Minus; operand = b }) ∷ roll-Link (record { operator = o.Plus; operand = c }) ∷ [])) }
{}
