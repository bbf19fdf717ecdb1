//! Tests alone: menus that are filtered.
#![tactic(auto)]

#[cfg(test)]
mod tests;
