// The rules that Git has for the name of a ref.
#![tactic(auto)]

mod components;
mod name;
mod rules;
#[cfg(test)]
mod tests;
mod words;

pub use name::RefName;
pub use rules::check_ref_name;
