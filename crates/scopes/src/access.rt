// Access lists, shared by their tails.
ghost use Rattle.std.specs.Prelude.{◌≡◌, ◌↔◌, ◌==◌, ◌+◌, ◌-◌, ◌<◌, ◌≤◌, ◌||◌, [], ◌∷◌, ◌++◌, IfOk, IsTrue, Some, option_map, length, slice_get, take, drop, not};
ghost use Rattle.scopes.specs.declared.entries.Entry.{Entry};
ghost use Rattle.scopes.specs.declared.entries.Entry.TheVariants.{Opener};
ghost use Rattle.std.specs.List.{list_any};
ghost use Rattle.scopes.specs.AccessList.{closed, referents, introduced, is_opener, any_opener, left_of, newest_of};
ghost use Rattle.scopes.specs.Links.{entries, Counted};
ghost use Rattle.scopes.specs.Resolution.{closest_finding, finding, finding_at, is_agreeing};
ghost use Rattle.scopes.specs.Findings.{shown};

use crate::agreement::{agrees_with_any, first_agreeing};
use crate::sameness::same_entry;
use crate::{Entry, Tests};
use codeco_terms::Ground;
use std::alloc::Global;
use std::marker::Model;
use std::rc::Rc;
use wiki_base::{Copied, Memory};

// The newest entry over the older ones, or a newer list after an older one. Other lists may share each of them.
#[derive(Drop)]
#[cycle(link)]
enum Link {
    Nil,
    Cons(Rc<Node>),
    Join(Rc<Pair>),
}

// It is plain where there is no opener, here and in the older links.
#[derive(Drop)]
#[cycle(link)]
struct Node {
    older: Link,
    entry: Entry,
    plain: bool,
}

// With the count of the newer entries. It is plain where there is no opener in either.
#[derive(Drop)]
#[cycle(link)]
struct Pair {
    older: Link,
    newer: Link,
    count: usize,
    plain: bool,
}

impl Link {
    // The same links.
    fn share(&self) -> Result<Link, Memory>
        requires { Counted self.now }
        ensures list { IfOk result (λ link. entries link ≡ entries self.now) }
        ensures counted { IfOk result (λ link. Counted link) }
    {
        match self {
            Link::Nil => Ok(Link::Nil),
            Link::Cons(node) => Ok(Link::Cons(node.clone()?)),
            Link::Join(pair) => Ok(Link::Join(pair.clone()?)),
        }
    }

    // Whether there is no opener.
    fn is_plain(&self) -> bool
        requires { Counted self.now }
        ensures { result ≡ not (any_opener (entries self.now)) }
    {
        match self {
            Link::Nil => true,
            Link::Cons(node) => node.plain,
            Link::Join(pair) => pair.plain,
        }
    }
}

/// The referents that have been introduced before a place, with the openers of scopes, oldest first. Lists that grew
/// from one share it in memory.
#[derive(Drop)]
pub struct Access {
    alloc: Global,
    newest: Link,
    len: usize,
}

impl Model for Access {
    ghost use Rattle.std.specs.Prelude.{◌≡◌, List, length};
    ghost use Rattle.scopes.specs.declared.entries.Entry.{Entry};

    ghost Value = { List Entry };

    ghost use Rattle.scopes.specs.Links.{entries, Counted};

    ghost view = { λ a. entries a.newest };

    ghost invariant = { λ a. (a.len ≡ length (entries a.newest)) × Counted a.newest };
}

/// What a reference finds: a referent with its position, and the place of the first positive test, from 0, that it
/// agrees with.
#[derive(Clone, Copy)]
pub struct Found<'a> {
    pub pos: u16,
    pub ground: &'a Ground,
    pub pattern: u8,
}

impl Access {
    /// The empty list, which takes no memory.
    pub fn empty(alloc: Global) -> Access
        ensures { result ≡ [] }
    {
        Access {
            alloc,
            newest: Link::Nil,
            len: 0,
        }
    }

    /// The list with the opener of a scope at its end.
    pub fn push_opener(&self) -> Result<Access, Memory>
        ensures { IfOk result (λ access. access ≡ self.now ++ Opener ∷ []) }
    {
        self.push(Entry::Opener)
    }

    /// The list with a referent at its end, which is introduced at the position.
    pub fn refer(&self, referent: Ground, pos: u16, strong: bool) -> Result<Access, Memory>
        ensures { IfOk result (λ access. access ≡ self.now ++ introduced referent pos strong ∷ []) }
    {
        if strong {
            self.push(Entry::Strong(referent, pos))
        } else {
            self.push(Entry::Weak(referent, pos))
        }
    }

    /// How many entries there are.
    pub fn len(&self) -> usize
        ensures { result ≡ length self.now }
    {
        self.len
    }

    /// Whether there is none.
    pub fn is_empty(&self) -> bool
        ensures { result ≡ (length self.now == 0) }
    {
        self.len() == 0
    }

    /// The entry at a place below the length, from the oldest at 0. Takes no memory.
    pub fn get(&self, place: usize) -> &Entry
        requires { place < length self.now }
        ensures { slice_get self.now place ≡ Some result.now }
    {
        entry_back(&self.newest, self.len - 1 - place)
    }

    // The list with the entry at its end.
    fn push(&self, entry: Entry) -> Result<Access, Memory>
        ensures { IfOk result (λ access. access ≡ self.now ++ entry ∷ []) }
    {
        let len = self.len.checked_add(1).ok_or(Memory)?;
        let plain = is_plain_with(&self.newest, &entry);
        let node = Node {
            older: self.newest.share()?,
            entry,
            plain,
        };
        Ok(Access {
            alloc: self.alloc,
            newest: Link::Cons(Rc::new(self.alloc, node)?),
            len,
        })
    }

    /// The same list, in the same memory.
    pub fn share(&self) -> Result<Access, Memory>
        ensures { IfOk result (λ access. access ≡ self.now) }
    {
        Ok(Access {
            alloc: self.alloc,
            newest: self.newest.share()?,
            len: self.len,
        })
    }

    /// The list with those of another one at its end. It shares the memory of both.
    pub fn join(&self, newer: &Access) -> Result<Access, Memory>
        ensures { IfOk result (λ access. access ≡ self.now ++ newer.now) }
    {
        if self.len == 0 {
            return newer.share();
        }
        if newer.len == 0 {
            return self.share();
        }
        let len = self.len.checked_add(newer.len).ok_or(Memory)?;
        let plain = are_plain(&self.newest, &newer.newest);
        let pair = Pair {
            older: self.newest.share()?,
            newer: newer.newest.share()?,
            count: newer.len,
            plain,
        };
        Ok(Access {
            alloc: self.alloc,
            newest: Link::Join(Rc::new(self.alloc, pair)?),
            len,
        })
    }

    /// The entries from a place on, which is at most the length. It shares memory with the list.
    pub fn suffix(&self, first: usize) -> Result<Access, Memory>
        requires { first ≤ length self.now }
        ensures { IfOk result (λ access. access ≡ drop first self.now) }
    {
        suffix_of(self.alloc, &self.newest, self.len, first)
    }

    /// The entries that are no openers. Where there is none, it is the same list in the same memory.
    pub fn referents(&self) -> Result<Access, Memory>
        ensures { IfOk result (λ access. access ≡ referents self.now) }
    {
        referents_of(self.alloc, &self.newest, self.len)
    }

    /// What closing leaves of the entries, as those that a phrase has added.
    pub fn closed(&self) -> Result<Access, Memory>
        ensures { IfOk result (λ access. access ≡ closed self.now) }
    {
        self.close(&Access::empty(self.alloc))
    }

    /// Whether both have the same entries. Takes no memory.
    pub fn is_same(&self, other: &Access) -> bool
        ensures { IsTrue result ↔ self.now ≡ other.now }
    {
        if self.len() != other.len() {
            return false;
        }
        for place in 0..self.len() {
            if !same_entry(self.get(place), other.get(place)) {
                return false;
            }
        }
        true
    }

    // The list, and an entry after it where that is a referent.
    fn with_referent(self, entry: &Entry) -> Result<Access, Memory>
        ensures { IfOk result (λ access. access ≡ self ++ referents (entry.now ∷ [])) }
    {
        match entry {
            Entry::Opener => Ok(self),
            Entry::Weak(..) | Entry::Strong(..) => self.push(entry.copy()),
        }
    }

    /// The list as it is after a phrase of a scope-closing rule, which began with the list `before`: what the phrase
    /// has added stays where it has no opener, else what stands before its first opener and the strong referents
    /// after that.
    pub fn close(&self, before: &Access) -> Result<Access, Memory>
        requires { take (length before.now) self.now ≡ before.now }
        ensures { IfOk result
            (λ access. access ≡ before.now ++ closed (drop (length before.now) self.now)) }
    {
        let added = self.len - before.len;
        if has_opener(&self.newest, added) {
            let (access, _) = kept(&self.newest, added, before.share()?, false)?;
            Ok(access)
        } else {
            self.share()
        }
    }

    /// The last referent that agrees with a positive test and with no negative one. It is None exactly where there is
    /// no such referent. Takes no memory.
    pub fn closest(&self, tests: &Tests) -> Option<Found<'_>>
        requires { length tests.now.positive ≤ 16 }
        ensures { option_map shown result ≡ closest_finding tests.now self.now }
    {
        closest_in(&self.newest, tests)
    }

    /// Whether no referent agrees with a positive test. Takes no memory.
    pub fn none(&self, tests: &Tests) -> bool
        ensures { result ≡ not (list_any (is_agreeing tests.now.positive) self.now) }
    {
        !is_agreeing_in(&self.newest, tests)
    }
}

// What a reference finds in the links.
fn closest_in<'a>(links: &'a Link, tests: &Tests) -> Option<Found<'a>>
    requires { length tests.now.positive ≤ 16 }
    ensures { option_map shown result ≡ closest_finding tests.now (entries links.now) }
{
    match links {
        Link::Nil => None,
        Link::Cons(node) => match find(&node.entry, tests) {
            Some(found) => Some(found),
            None => closest_in(&node.older, tests),
        },
        Link::Join(pair) => match closest_in(&pair.newer, tests) {
            Some(found) => Some(found),
            None => closest_in(&pair.older, tests),
        },
    }
}

// Whether a referent in the links agrees with a positive test.
fn is_agreeing_in(links: &Link, tests: &Tests) -> bool
    ensures { result ≡ list_any (is_agreeing tests.now.positive) (entries links.now) }
{
    match links {
        Link::Nil => false,
        Link::Cons(node) => is_agreeing_entry(&node.entry, tests)
            || is_agreeing_in(&node.older, tests),
        Link::Join(pair) => is_agreeing_in(&pair.newer, tests)
            || is_agreeing_in(&pair.older, tests),
    }
}

// What a reference finds at an entry.
fn find<'a>(entry: &'a Entry, tests: &Tests) -> Option<Found<'a>>
    requires { length tests.now.positive ≤ 16 }
    ensures { option_map shown result ≡ finding tests.now entry.now }
{
    match entry {
        Entry::Opener => None,
        Entry::Weak(referent, pos) => find_at(referent, *pos, tests),
        Entry::Strong(referent, pos) => find_at(referent, *pos, tests),
    }
}

// What a reference finds at a referent.
fn find_at<'a>(referent: &'a Ground, pos: u16, tests: &Tests) -> Option<Found<'a>>
    requires { length tests.now.positive ≤ 16 }
    ensures { option_map shown result ≡ finding_at tests.now referent.now pos }
{
    if agrees_with_any(referent, tests.negative.as_slice()) {
        return None;
    }
    match first_agreeing(referent, tests.positive.as_slice()) {
        None => None,
        Some(pattern) => Some(Found {
            pos,
            ground: referent,
            pattern: pattern as u8,
        }),
    }
}

// Whether the entry is a referent that agrees with a positive test.
fn is_agreeing_entry(entry: &Entry, tests: &Tests) -> bool
    ensures { result ≡ is_agreeing tests.now.positive entry.now }
{
    match entry {
        Entry::Opener => false,
        Entry::Weak(referent, _) => agrees_with_any(referent, tests.positive.as_slice()),
        Entry::Strong(referent, _) => agrees_with_any(referent, tests.positive.as_slice()),
    }
}

// Whether the entry opens a scope.
fn is_opening(entry: &Entry) -> bool
    ensures { result ≡ is_opener entry.now }
{
    match entry {
        Entry::Opener => true,
        Entry::Weak(..) | Entry::Strong(..) => false,
    }
}

// Whether there is no opener in the links with an entry after them.
fn is_plain_with(links: &Link, entry: &Entry) -> bool
    requires { Counted links.now }
    ensures { result ≡ not (any_opener (entries links.now ++ entry.now ∷ [])) }
{
    !is_opening(entry) && links.is_plain()
}

// Whether there is no opener in either.
fn are_plain(older: &Link, newer: &Link) -> bool
    requires older { Counted older.now }
    requires newer { Counted newer.now }
    ensures { result ≡ not (any_opener (entries older.now ++ entries newer.now)) }
{
    older.is_plain() && newer.is_plain()
}

// Whether there is an opener among so many of the newest entries.
fn has_opener(links: &Link, count: usize) -> bool
    requires counted { Counted links.now }
    requires count { count ≤ length (entries links.now) }
    ensures { result ≡ any_opener (newest_of count (entries links.now)) }
{
    if count == 0 || links.is_plain() {
        return false;
    }
    match links {
        Link::Nil => false,
        Link::Cons(node) => is_opening(&node.entry) || has_opener(&node.older, count - 1),
        Link::Join(pair) => {
            if count <= pair.count {
                has_opener(&pair.newer, count)
            } else {
                !pair.newer.is_plain() || has_opener(&pair.older, count - pair.count)
            }
        }
    }
}

// The links as a list of their own.
fn listed(alloc: Global, links: &Link, len: usize) -> Result<Access, Memory>
    requires counted { Counted links.now }
    requires len { len ≡ length (entries links.now) }
    ensures { IfOk result (λ access. access ≡ entries links.now) }
{
    Ok(Access {
        alloc,
        newest: links.share()?,
        len,
    })
}

// The entries of the links from a place on.
fn suffix_of(alloc: Global, links: &Link, len: usize, first: usize) -> Result<Access, Memory>
    requires counted { Counted links.now }
    requires len { len ≡ length (entries links.now) }
    requires first { first ≤ length (entries links.now) }
    ensures { IfOk result (λ access. access ≡ drop first (entries links.now)) }
{
    if first == 0 {
        return listed(alloc, links, len);
    }
    if first == len {
        return Ok(Access::empty(alloc));
    }
    match links {
        Link::Nil => Ok(Access::empty(alloc)),
        Link::Cons(node) => {
            let older = suffix_of(alloc, &node.older, len - 1, first)?;
            older.push(node.entry.copy())
        }
        Link::Join(pair) => {
            let before = len - pair.count;
            if first > before {
                return suffix_of(alloc, &pair.newer, pair.count, first - before);
            }
            let older = suffix_of(alloc, &pair.older, before, first)?;
            let newer = listed(alloc, &pair.newer, pair.count)?;
            older.join(&newer)
        }
    }
}

// The entries of the links that are no openers.
fn referents_of(alloc: Global, links: &Link, len: usize) -> Result<Access, Memory>
    requires counted { Counted links.now }
    requires len { len ≡ length (entries links.now) }
    ensures { IfOk result (λ access. access ≡ referents (entries links.now)) }
{
    if links.is_plain() {
        return listed(alloc, links, len);
    }
    match links {
        Link::Nil => Ok(Access::empty(alloc)),
        Link::Cons(node) => {
            let older = referents_of(alloc, &node.older, len - 1)?;
            older.with_referent(&node.entry)
        }
        Link::Join(pair) => {
            let older = referents_of(alloc, &pair.older, len - pair.count)?;
            let newer = referents_of(alloc, &pair.newer, pair.count)?;
            older.join(&newer)
        }
    }
}

// What closing leaves of so many of the newest entries, after what was left before them, which had an opener or not; and
// whether there is an opener now.
fn kept(links: &Link, count: usize, begun: Access, opened: bool) -> Result<(Access, bool), Memory>
    requires counted { Counted links.now }
    requires count { count ≤ length (entries links.now) }

    ensures list { IfOk result
        (λ r. r.0 ≡ begun ++ left_of opened (newest_of count (entries links.now))) }
    ensures opened { IfOk result
        (λ r. r.1 ≡ (opened || any_opener (newest_of count (entries links.now)))) }
{
    match links {
        Link::Cons(node) if count > 0 => {
            let (older, opened) = kept(&node.older, count - 1, begun, opened)?;
            kept_with(older, opened, &node.entry)
        }
        Link::Join(pair) => {
            if count <= pair.count {
                return kept(&pair.newer, count, begun, opened);
            }
            let (older, opened) = kept(&pair.older, count - pair.count, begun, opened)?;
            kept(&pair.newer, pair.count, older, opened)
        }
        _ => Ok((begun, opened)),
    }
}

// One more entry, after what was left of the older ones.
fn kept_with(older: Access, opened: bool, entry: &Entry) -> Result<(Access, bool), Memory>
    ensures list { IfOk result (λ r. r.0 ≡ older ++ left_of opened (entry.now ∷ [])) }
    ensures opened { IfOk result (λ r. r.1 ≡ (opened || is_opener entry.now)) }
{
    match entry {
        Entry::Opener => Ok((older, true)),
        Entry::Weak(..) if opened => Ok((older, opened)),
        Entry::Weak(..) | Entry::Strong(..) => Ok((older.push(entry.copy())?, opened)),
    }
}

// The entry with so many newer ones.
fn entry_back(links: &Link, newer: usize) -> &Entry
    requires counted { Counted links.now }
    requires newer { newer < length (entries links.now) }
    ensures { slice_get (entries links.now) (length (entries links.now) - 1 - newer) ≡ Some result.now }
{
    match links {
        Link::Cons(node) => {
            if newer == 0 {
                &node.entry
            } else {
                entry_back(&node.older, newer - 1)
            }
        }
        Link::Join(pair) => {
            if newer < pair.count {
                entry_back(&pair.newer, newer)
            } else {
                entry_back(&pair.older, newer - pair.count)
            }
        }
        Link::Nil => unreachable!(),
    }
}
