// What the functions that fill the table of least trees are given together.

use chart_table::Plan;
use codeco_terms::Rule;
use derivation_trees::Setting;
use scopes::{Access, Test};
use std::alloc::Global;

// What the table is filled by: the setting, the plans of the grammar's rules, and how deep categories may still be nested.
#[derive(Clone, Copy)]
pub(crate) struct Scene<'a> {
    pub(crate) alloc: Global,
    pub(crate) setting: &'a Setting<'a>,
    pub(crate) plans: &'a [Plan],
    pub(crate) depth: u32,
}

// A category whose phrases are sought, and the place and the list without openers where they begin.
#[derive(Clone, Copy)]
pub(crate) struct Sought<'a> {
    pub(crate) asked: &'a Test,
    pub(crate) place: u16,
    pub(crate) list: &'a Access,
}

// A rule that is tried, with its number and its plan.
#[derive(Clone, Copy)]
pub(crate) struct Trial<'a> {
    pub(crate) number: u16,
    pub(crate) rule: &'a Rule,
    pub(crate) plan: &'a Plan,
}
