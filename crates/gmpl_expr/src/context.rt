// A model with its data, as expressions are evaluated in it.
ghost use Rattle.std.specs.Prelude.{◌≡◌};

use gmpl_data::LoadedModel;
use gmpl_meaning::Kept;
use std::alloc::Global;
use std::marker::Model;

/// A model with its data, in which expressions are evaluated. Members are kept once they are evaluated. Clauses see the model.
#[derive(Drop)]
pub struct Context<'a> {
    pub(crate) model: &'a LoadedModel,
    pub(crate) kept: Kept,
}

impl<'a> Model for Context<'a> {
    ghost use Rattle.gmpl_data.specs.declared.tables.LoadedModel.{LoadedModel};
    ghost use Rattle.gmpl_data.specs.contracts.tables.LoadedModel as tables;
    ghost use Rattle.gmpl_meaning.specs.Right.{AreRight};

    ghost Value = { LoadedModel };

    ghost coded = { tables.the_row.coded };

    ghost view = { λ c. c.model.now };

    ghost invariant = { λ c. AreRight c.model.now c.kept };
}

impl<'a> Context<'a> {
    /// The context of a model with its data.
    pub fn new(alloc: Global, model: &'a LoadedModel) -> Context<'a>
        ensures { result ≡ model.now }
    {
        Context {
            model,
            kept: Kept::new(alloc),
        }
    }
}
