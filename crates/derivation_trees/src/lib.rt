//! Tokens, trees and derivations: how a text is cut into tokens and tokens are shown as a text, what a sentence of a
//! grammar is, and the check that a tree derives one (after the
//! Codeco notation of T. Kuhn, Controlled English for Knowledge Representation, 2010; the rules of references are
//! this project's own).
#![tactic(auto)]

mod check;
mod cuts;
mod cutting;
mod derive;
mod features;
mod fitting;
mod instances;
mod menus;
mod pieces;
mod setting;
mod showing;
mod skeletons;
mod sketch;
mod stand;
mod starts;
mod trees;
mod variables;

pub use check::{check_tree, readings_of};
pub use cuts::Cut;
pub use cutting::cut;
pub use derive::{closed, fits, rule_with};
pub use features::features_of;
pub use instances::{term_value, tests_under, under, value_under};
pub use menus::{Group, Menu};
pub use setting::Setting;
pub use showing::show;
pub use skeletons::{Skeleton, Skeletons, Words};
pub use sketch::sketch_of;
pub use stand::{Progress, pass, takes, written};
pub use starts::may_start;
pub use trees::{Binds, Places, Tree, Trees};
pub use variables::{
    is_instance, own_values, push_own_features, rule_own_features, variables_of, written_variables,
};
