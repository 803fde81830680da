//! A verdict for any problem: a certificate that the checker accepts, or why there is none; and what becomes of a node.
#![tactic(auto)]

mod any_problem;
mod continuous;
mod endless;
mod fault;
mod fragment;
mod growing;
mod rounds;
mod settling;
mod stopping;
mod testing;
mod told;
mod treatment;
mod whole;
mod whole_fault;
mod work;

pub use any_problem::{solve, solve_by};
pub use continuous::has_no_integer_column;
pub use endless::beyond;
pub use fault::{EndlessAt, LeafFault, SearchFault};
pub use fragment::{Fragment, Grown};
pub use growing::grow;
pub use stopping::stopped;
pub use told::ray_or_fault;
pub use treatment::{Found, Fractional, Treatment};
pub use whole::{search, search_by, search_on};
pub use whole_fault::{VerdictFault, Wanted};
pub use work::{treat, treat_with};
