// The rules on the table: conclusions, facts, names.
#![tactic(auto)]

pub mod conclusions;
mod draft;
pub mod facts;
pub mod hypotheses;
pub mod names;
pub mod refusal;
mod shapes;
pub mod walk;
