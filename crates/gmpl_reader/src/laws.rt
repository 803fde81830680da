// Objects have names, and no two the same.
ghost use Rattle.std.specs.Prelude.{◌≡◌, ◌∷◌, ◌++◌, [], ℕ, List, Ok, map};
ghost use Rattle.std.specs.List.{AllByRecursion};
ghost use Rattle.gmpl_token.specs.Token.{Tokens};
ghost use Rattle.gmpl_lexer.specs.Tokens.{tokens_of};
ghost use Rattle.gmpl_syntax.specs.declared.statement.Statement.{Statement};
ghost use Rattle.gmpl_resolved.specs.declared.statement.Statement.{Statement as ResolvedStatement};
ghost use Rattle.gmpl_names.specs.declared.resolved.Resolved.TheVariants.{Declaration};
ghost use Rattle.gmpl_names.specs.Statements.{judged};
ghost use Rattle.gmpl_parse.specs.declared.model.Model.{Model};
ghost use Rattle.gmpl_parse.specs.Models.{parsed};
ghost use Rattle.gmpl_rows.specs.declared.declared.Declared.{Declared};
ghost use Rattle.gmpl_rows.specs.Premises.{AreDifferent, AreObjects, IsName, declared_name};
ghost use Rattle.gmpl_reader.specs.Names.{head_of, names_of};

/// The objects that the statements of a model declare have names of letters, digits and underscores, where the model is read from
/// the tokens of a text. No two of a model have the same name, whatever its tokens. The object that a statement declares comes
/// behind those that were declared before it, so that its place is that of the statement among those that declare.
#[tactic(auto, using(crate::proofs::ObjectNames::are_names, crate::proofs::ObjectNames::differ, crate::proofs::ObjectNames::are_objects))]
pub fn objects_have_names()
    ensures names { (text : List ℕ) (model : Model) → parsed (tokens_of text) ≡ Ok model → AllByRecursion IsName (names_of model.statements) }
    ensures differ { (tokens : Tokens) (model : Model) → parsed tokens ≡ Ok model → AreDifferent (names_of model.statements) }
    ensures objects { (text : List ℕ) (model : Model) (objects : List Declared) → parsed (tokens_of text) ≡ Ok model → map declared_name objects ≡ names_of model.statements → AreObjects objects }
    ensures last { (x : Statement) (objects tables : List (List ℕ)) (declared : ResolvedStatement) (after behind : List (List ℕ)) → judged x objects tables ≡ Ok (Declaration declared, (after, behind)) → after ≡ objects ++ (head_of declared).name ∷ [] }
{}
