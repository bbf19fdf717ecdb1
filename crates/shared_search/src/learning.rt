// What is learnt of a clash: the facts that it rests on, of which one came last.
use crate::graph::{Clash, Event, Fact, Graph, Ground};
use crate::lessons::{Lesson, Lessons, Sources};
use std::collections::BTreeSet;
use wiki_base::Memory;

// What a clash comes to.
#[derive(Drop)]
pub(crate) enum Finding {
    // It rests on no choice, and on these axioms.
    Whole(Sources),
    // The first of these facts can't hold where the others do.
    Lesson(Lesson),
}

// The way back from a clash: places of changes that are still to be looked at, and what was found.
#[derive(Drop)]
struct Trace {
    places: BTreeSet<usize>,
    // How many axioms and nodes of names there are.
    counts: (usize, usize),
    sources: Sources,
    grounds: BTreeSet<Fact>,
    rest: Vec<Fact>,
    // The classes and offers that were gone through.
    seen: Vec<Fact>,
}

impl Graph {
    // What a clash comes to, where there are so many axioms and nodes of names, and the choices at these places. The facts that
    // were gone through are added to a list.
    pub(crate) fn traced(
        &self,
        lessons: &Lessons,
        clash: &Clash,
        choices: &[usize],
        counts: (usize, usize),
        seen: &mut Vec<Fact>,
    ) -> Result<Finding, Memory> {
        let mut trace = Trace {
            places: BTreeSet::new(self.alloc),
            counts,
            sources: Sources::new(self.alloc, counts.0.saturating_add(counts.1))?,
            grounds: BTreeSet::new(self.alloc),
            rest: Vec::new(self.alloc),
            seen: Vec::new(self.alloc),
        };
        trace.rest_on(lessons, clash.ground)?;
        for fact in &clash.facts {
            trace.put(self, *fact)?;
        }
        let last = trace.places.last().copied().unwrap_or(0);
        let Some(begin) = last_at(choices, last) else {
            return self.whole(lessons, trace);
        };
        let first = choices.first().copied().unwrap_or(0);
        let Some(found) = self.last_choice(lessons, &mut trace, begin)? else {
            return self.whole(lessons, trace);
        };
        self.go_down(lessons, &mut trace, first)?;
        seen.append(&mut trace.seen)?;
        let mut facts = Vec::new(self.alloc);
        facts.push(found)?;
        facts.append(&mut trace.rest)?;
        let mut grounds = Vec::new(self.alloc);
        for fact in trace.grounds.iter() {
            grounds.push(*fact)?;
        }
        Ok(Finding::Lesson(Lesson {
            facts,
            grounds,
            sources: trace.sources,
        }))
    }

    // The one fact from a place on by which all of the clash that came from there on came about.
    fn last_choice(
        &self,
        lessons: &Lessons,
        trace: &mut Trace,
        begin: usize,
    ) -> Result<Option<Fact>, Memory> {
        for _ in begin..=self.trail.len() {
            let Some(place) = trace.places.pop_last() else {
                return Ok(None);
            };
            let is_only = match trace.places.last() {
                Some(next) => *next < begin,
                None => true,
            };
            match self.fact_at(place) {
                Some(Fact::Edge(_)) => self.expand(lessons, trace, place)?,
                Some(fact) => {
                    trace.seen.push(fact)?;
                    if is_only {
                        return Ok(Some(fact));
                    }
                    self.expand(lessons, trace, place)?;
                }
                None => {}
            }
        }
        Ok(None)
    }

    // Sorts what is left: facts that came before the first choice, and others.
    fn go_down(&self, lessons: &Lessons, trace: &mut Trace, first: usize) -> Result<(), Memory> {
        for _ in 0..self.trail.len() {
            let Some(place) = trace.places.pop_last() else {
                return Ok(());
            };
            match self.fact_at(place) {
                Some(fact) if place < first => {
                    let _ = trace.grounds.insert(fact)?;
                }
                Some(Fact::Edge(_)) => self.expand(lessons, trace, place)?,
                Some(fact) => {
                    if self.follows(trace, place, first) {
                        self.expand(lessons, trace, place)?;
                    } else {
                        trace.rest.push(fact)?;
                    }
                }
                None => {}
            }
        }
        Ok(())
    }

    // Whether all reasons of a change are among what is left, or came before the first choice.
    fn follows(&self, trace: &Trace, place: usize, first: usize) -> bool {
        let is_chosen = match self.trail.get(place) {
            Some(change) => change.ground == Ground::Nothing,
            None => true,
        };
        let reasons = self.reasons_of(place);
        if is_chosen && reasons.is_empty() {
            return false;
        }
        reasons.iter().all(|reason| {
            let since = self.came(*reason);
            since <= first || trace.places.contains(&since.saturating_sub(1))
        })
    }

    fn fact_at(&self, place: usize) -> Option<Fact> {
        match self.trail.get(place) {
            Some(change) => match change.event {
                Event::Came(fact) => Some(fact),
                Event::Made(_) => None,
            },
            None => None,
        }
    }

    // Takes the reasons of a change in its place.
    fn expand(&self, lessons: &Lessons, trace: &mut Trace, place: usize) -> Result<(), Memory> {
        if let Some(change) = self.trail.get(place) {
            trace.rest_on(lessons, change.ground)?;
            trace.note_node(change.event);
        }
        for reason in self.reasons_of(place) {
            trace.put(self, *reason)?;
        }
        Ok(())
    }

    // The axioms of a clash that rests on no choice.
    fn whole(&self, lessons: &Lessons, trace: Trace) -> Result<Finding, Memory> {
        let mut whole = trace;
        let mut done = BTreeSet::new(self.alloc);
        for _ in 0..=self.trail.len() {
            let Some(place) = whole.places.pop_last() else {
                return Ok(Finding::Whole(whole.sources));
            };
            if done.insert(place)? {
                self.expand(lessons, &mut whole, place)?;
                whole.put_grounds(self)?;
            }
        }
        Ok(Finding::Whole(whole.sources))
    }
}

impl Trace {
    fn put(&mut self, graph: &Graph, fact: Fact) -> Result<(), Memory> {
        let since = graph.came(fact);
        if since > 0 {
            let _ = self.places.insert(since.saturating_sub(1))?;
        }
        Ok(())
    }

    // Notes that a clash has to do with a class of a name's node.
    fn note_node(&mut self, event: Event) {
        if let Event::Came(Fact::Class(node, _)) = event {
            if node < self.counts.1 {
                self.sources.add(self.counts.0.saturating_add(node));
            }
        }
    }

    // Notes what a fact rests on beside its reasons.
    fn rest_on(&mut self, lessons: &Lessons, ground: Ground) -> Result<(), Memory> {
        match ground {
            Ground::Nothing => {}
            Ground::Axiom(place) => self.sources.add(place),
            Ground::Lesson(number) => {
                if let Some(lesson) = lessons.list.get(number) {
                    self.sources.add_all(&lesson.sources);
                    for fact in &lesson.grounds {
                        let _ = self.grounds.insert(*fact)?;
                    }
                }
            }
        }
        Ok(())
    }

    // Goes on with what the lessons rest on.
    fn put_grounds(&mut self, graph: &Graph) -> Result<(), Memory> {
        for _ in 0..self.grounds.len() {
            if let Some(fact) = self.grounds.pop_first() {
                self.put(graph, fact)?;
            }
        }
        Ok(())
    }
}

// The last of these places, which rise, that is at most this one.
fn last_at(choices: &[usize], place: usize) -> Option<usize> {
    let count = choices.partition_point(|choice| *choice <= place);
    if count == 0 {
        return None;
    }
    choices.get(count.saturating_sub(1)).copied()
}
