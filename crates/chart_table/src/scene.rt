// What the functions that fill a table are given together.

use crate::choices::Plan;
use crate::states::Aim;
use codeco_terms::{Element, Rule, Value};
use derivation_trees::Setting;
use scopes::Access;
use std::alloc::Global;

/// Where phrases of a category start, and which values of its features are known.
#[derive(Clone, Copy)]
pub struct Start<'a> {
    pub known: &'a [(u16, Value)],
    pub place: u16,
    pub list: &'a Access,
}

// What a table is filled by: the setting, what is asked of cut-off phrases, the plans of the grammar's rules, and how deep
// categories may still be nested.
#[derive(Clone, Copy)]
pub(crate) struct Scene<'a> {
    pub(crate) alloc: Global,
    pub(crate) setting: &'a Setting<'a>,
    pub(crate) aim: &'a Aim<'a>,
    pub(crate) plans: &'a [Plan],
    pub(crate) depth: u32,
}

// A rule that is tried in a scene, with its plan.
#[derive(Clone, Copy)]
pub(crate) struct Trial<'a> {
    pub(crate) alloc: Global,
    pub(crate) setting: &'a Setting<'a>,
    pub(crate) aim: &'a Aim<'a>,
    pub(crate) plans: &'a [Plan],
    pub(crate) depth: u32,
    pub(crate) rule: &'a Rule,
    pub(crate) plan: &'a Plan,
}

// An element of a rule, the number of its first own variable, and the features of the category that it introduces.
#[derive(Clone, Copy)]
pub(crate) struct Step<'a> {
    pub(crate) number: u16,
    pub(crate) features: &'a [u16],
    pub(crate) element: &'a Element,
}
