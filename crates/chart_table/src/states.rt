// Where a node may stand after some of its elements, and where phrases end.

use crate::asks::Ask;
use codeco_terms::{Term, Value};
use lists::List;
use scopes::{Access, TestValues};
use std::cell::Cell;
use std::marker::Model;

/// Variables of a rule with their values: a partial instance.
pub(crate) type Bound = List<(u8, Value)>;

/// A feature with what is written for it.
pub(crate) type Feat = (u16, Term);

// A partial instance of a rule, with the place and the list after some of the rule's elements.
#[derive(Drop)]
pub(crate) struct State {
    pub(crate) binds: Bound,
    pub(crate) place: u16,
    pub(crate) list: Access,
}

// An end of phrases: the values of the features that the head writes, the place after the phrase, and what the phrase
// adds to the list.
#[derive(Drop)]
pub(crate) struct End {
    pub(crate) values: TestValues,
    pub(crate) place: u16,
    pub(crate) tail: Access,
}

// A cut-off phrase: the number of an ask that its next element meets, and the values of the features that the head writes. Equal
// ones have one mark, by which others are passed over; nothing is concluded from it.
#[derive(Drop)]
pub(crate) struct Cut {
    pub(crate) ask: usize,
    pub(crate) mark: u64,
    pub(crate) values: TestValues,
}

// Values of a category that is cut off, and the heads of a rule that they tell, each with the number 0 for an ask.
#[derive(Drop)]
pub(crate) struct Told {
    pub(crate) values: TestValues,
    pub(crate) heads: List<Cut>,
}

// The place at which phrases are cut off, and what may be asked of them there. States are counted, for those who measure a
// table; no answer depends on the count.
#[derive(Drop)]
pub(crate) struct Aim<'a> {
    pub(crate) halt: usize,
    pub(crate) asks: &'a [Ask],
    pub(crate) made: &'a Cell<usize>,
}

impl<'a> Model for Aim<'a> {
    ghost use Rattle.chart_table.specs.Aims as aiming;

    ghost Value = { aiming.Aims };

    ghost view = { λ a. record { halt = a.halt; asks = a.asks.now } };
}
