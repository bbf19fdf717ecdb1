//! Derivations: what `derivation_trees` has, and beside it the least skeleton and the menu of tokens, by listing trees.
#![tactic(auto)]

mod beginnings;
mod choices;
mod entries;
mod least;
mod listing;
mod paths;
mod sought;
mod typing;
mod values;

pub use derivation_trees::{
    Binds, Cut, Group, Menu, Places, Skeleton, Skeletons, Tree, Trees, Words, check_tree, cut, show,
};
pub use least::plain_least;
pub use typing::{plain_menu, typeable_count};
