// What follows from the causes of answers.
ghost use Rattle.std.specs.Prelude.{◌≡◌, ℕ, List, Ok, codes};
ghost use Rattle.outside.specs.Causes.{Rose};
ghost use Rattle.outside.specs.Told.{Has};
ghost use Rattle.milp.specs.Problem.{Problem};
ghost use Rattle.verdicts.specs.Certificate.{Certificate, Two};
ghost use Rattle.verdicts.specs.Proves.{Proves};
ghost use Rattle.certificate.specs.Written.{HasText};
ghost use Rattle.mps_reader.specs.FreeMps.{declared};
ghost use Rattle.glpsol_cli.specs.Asked.{ToldNames};
ghost use Rattle.glpsol_cli.specs.Meaning.{in_version_two};
ghost use Rattle.glpsol_cli.specs.Cause.{Cause};
ghost use Rattle.glpsol_cli.specs.Complete.{IsComplete, IsRecheck, IsAcceptedOrFault};
ghost use Rattle.glpsol_cli.specs.WorkedExample.{Example, example_words, problem_of, text_of};
ghost use Rattle.glpsol_cli.specs.declared.answer.Answer.{Answer};

use certificate_reader::texts_are_read_back;
use search_tree::kept_boards;
use verdicts::migrations_prove;
use worked_problems::{
    any_whole_is_unhindered, endless_is_unhindered, least_whole_is_unhindered,
    parted_is_unhindered, pivoted_is_unhindered,
};

/// A certificate that a run wrote is accepted where the same words and texts come with `--checkcert` and its text, with or without a
/// file for it in version 2: an answer with a cause there is Accepted, a fault of the outside, or want of memory.
pub fn written_certificates_are_accepted()
    ensures { (c : Certificate) (again : List (List ℕ)) (told : ToldNames) (answer : Answer) (files files' out out' : ℕ) → HasText c → IsRecheck c again told
        → Cause again told (Rose files files') (Rose out out') answer → IsAcceptedOrFault answer }
{
    texts_are_read_back();
}

/// What a check writes of a certificate that it accepts is of version 2, and proves its verdict for the same problem.
pub fn migrated_certificates_prove()
    ensures version { (p : Problem) (c : Certificate) → (in_version_two p c).version ≡ Two }
    ensures proves { (p : Problem) (c : Certificate) → Proves p c → Proves p (in_version_two p c) }
{
    migrations_prove();
}

/// Five texts declare these problems, and the premises of completeness hold of them, so that the clause `complete` of `run`
/// says something of each verdict, of a run with a step, and of a search with a split: where the file is told with such a
/// text, and no count rose.
pub fn worked_problems_are_complete()
    ensures declares { (e : Example) → declared (text_of e) ≡ Ok (problem_of e) }
    ensures complete { (e : Example) (told : ToldNames) (files files' out out' : ℕ) → Has (told (codes "model")) (text_of e) → (Rose files files' → ⊥)
        → (Rose out out' → ⊥) → IsComplete example_words told (Rose files files') (Rose out out') }
{
    any_whole_is_unhindered();
    least_whole_is_unhindered();
    endless_is_unhindered();
    pivoted_is_unhindered();
    parted_is_unhindered();
    kept_boards();
}
