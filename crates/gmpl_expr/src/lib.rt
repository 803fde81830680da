//! The value of an expression of a MathProg model with its data, or its first fault.
#![tactic(auto)]

mod attributes;
mod calls;
mod context;
mod entered;
mod evaluate;
mod handed;
mod in_place;
mod indexing;
mod iterations;
mod kept_sets;
mod listing;
mod members;
mod parts;
mod places;
mod restrictions;
mod room;
mod set_kinds;
mod sets;
mod solved;
mod tested;
mod values;
mod variables;

pub use attributes::with_bound;
pub use calls::{
    bounds_of, elements_of, elements_over, eval_bool, eval_form, eval_num, eval_set, eval_sym,
    eval_value, member_value,
};
pub use context::Context;
