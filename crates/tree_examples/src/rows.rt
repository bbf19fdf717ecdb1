// Trees as tables: a row is a node, behind the rows of its children.
use codeco_terms::Value;
use derivation_trees::{Binds, Places, Tree, Trees};
use std::alloc::Global;
use std::test::Fail;
use wiki_base::WordId;

/// A node with its rule, the values of its variables, the positions that its references find, and how many of the trees
/// that stand before it are its children.
#[derive(Clone, Copy)]
pub struct Row {
    pub rule: u16,
    pub values: &'static [(u8, Value)],
    pub found: &'static [u16],
    pub children: usize,
}

const SG: Value = Value::Atom(0);

const CONSONANT: Value = Value::Atom(3);

const MARY: Value = Value::Word(WordId(1));

const CAT: Value = Value::Word(WordId(2));

/// Mary sees a cat.
pub static MARY_SEES_A_CAT: [Row; 12] = [
    Row {
        rule: 56,
        values: &[(0, Value::Pos(1)), (1, MARY)],
        found: &[],
        children: 0,
    },
    Row {
        rule: 48,
        values: &[(0, Value::Pos(1))],
        found: &[],
        children: 1,
    },
    Row {
        rule: 33,
        values: &[],
        found: &[],
        children: 0,
    },
    Row {
        rule: 74,
        values: &[(0, CONSONANT), (1, Value::Pos(4)), (2, CAT)],
        found: &[],
        children: 0,
    },
    Row {
        rule: 65,
        values: &[(0, Value::Pos(4)), (1, CONSONANT)],
        found: &[],
        children: 2,
    },
    Row {
        rule: 52,
        values: &[],
        found: &[],
        children: 1,
    },
    Row {
        rule: 15,
        values: &[(0, Value::Pos(1))],
        found: &[],
        children: 1,
    },
    Row {
        rule: 13,
        values: &[(0, SG), (1, Value::Pos(1))],
        found: &[],
        children: 1,
    },
    Row {
        rule: 8,
        values: &[(0, SG), (1, Value::Pos(1))],
        found: &[],
        children: 1,
    },
    Row {
        rule: 7,
        values: &[(0, Value::Pos(1))],
        found: &[],
        children: 2,
    },
    Row {
        rule: 3,
        values: &[],
        found: &[],
        children: 1,
    },
    Row {
        rule: 1,
        values: &[],
        found: &[],
        children: 1,
    },
];

/// If X sees Y then Y sees X.
pub static IF_X_SEES_Y: [Row; 20] = [
    Row {
        rule: 59,
        values: &[(0, Value::Pos(2))],
        found: &[],
        children: 0,
    },
    Row {
        rule: 48,
        values: &[(0, Value::Pos(2))],
        found: &[],
        children: 1,
    },
    Row {
        rule: 61,
        values: &[(0, Value::Pos(4))],
        found: &[],
        children: 0,
    },
    Row {
        rule: 51,
        values: &[],
        found: &[],
        children: 1,
    },
    Row {
        rule: 15,
        values: &[(0, Value::Pos(2))],
        found: &[],
        children: 1,
    },
    Row {
        rule: 13,
        values: &[(0, SG), (1, Value::Pos(2))],
        found: &[],
        children: 1,
    },
    Row {
        rule: 8,
        values: &[(0, SG), (1, Value::Pos(2))],
        found: &[],
        children: 1,
    },
    Row {
        rule: 7,
        values: &[(0, Value::Pos(2))],
        found: &[],
        children: 2,
    },
    Row {
        rule: 5,
        values: &[],
        found: &[],
        children: 1,
    },
    Row {
        rule: 62,
        values: &[(0, Value::Pos(4))],
        found: &[4],
        children: 0,
    },
    Row {
        rule: 48,
        values: &[(0, Value::Pos(4))],
        found: &[],
        children: 1,
    },
    Row {
        rule: 60,
        values: &[(0, Value::Pos(2))],
        found: &[2],
        children: 0,
    },
    Row {
        rule: 51,
        values: &[],
        found: &[],
        children: 1,
    },
    Row {
        rule: 15,
        values: &[(0, Value::Pos(4))],
        found: &[],
        children: 1,
    },
    Row {
        rule: 13,
        values: &[(0, SG), (1, Value::Pos(4))],
        found: &[],
        children: 1,
    },
    Row {
        rule: 8,
        values: &[(0, SG), (1, Value::Pos(4))],
        found: &[],
        children: 1,
    },
    Row {
        rule: 7,
        values: &[(0, Value::Pos(4))],
        found: &[],
        children: 2,
    },
    Row {
        rule: 5,
        values: &[],
        found: &[],
        children: 1,
    },
    Row {
        rule: 4,
        values: &[],
        found: &[],
        children: 2,
    },
    Row {
        rule: 1,
        values: &[],
        found: &[],
        children: 1,
    },
];

/// Every cat sees the cat.
pub static EVERY_CAT_SEES_THE_CAT: [Row; 11] = [
    Row {
        rule: 74,
        values: &[(0, CONSONANT), (1, Value::Pos(2)), (2, CAT)],
        found: &[],
        children: 0,
    },
    Row {
        rule: 66,
        values: &[(0, Value::Pos(2))],
        found: &[],
        children: 1,
    },
    Row {
        rule: 49,
        values: &[(0, Value::Pos(2))],
        found: &[],
        children: 1,
    },
    Row {
        rule: 57,
        values: &[(0, Value::Pos(2)), (1, CAT)],
        found: &[2],
        children: 0,
    },
    Row {
        rule: 51,
        values: &[],
        found: &[],
        children: 1,
    },
    Row {
        rule: 15,
        values: &[(0, Value::Pos(2))],
        found: &[],
        children: 1,
    },
    Row {
        rule: 13,
        values: &[(0, SG), (1, Value::Pos(2))],
        found: &[],
        children: 1,
    },
    Row {
        rule: 8,
        values: &[(0, SG), (1, Value::Pos(2))],
        found: &[],
        children: 1,
    },
    Row {
        rule: 7,
        values: &[(0, Value::Pos(2))],
        found: &[],
        children: 2,
    },
    Row {
        rule: 3,
        values: &[],
        found: &[],
        children: 1,
    },
    Row {
        rule: 1,
        values: &[],
        found: &[],
        children: 1,
    },
];

const K_IS_P: Value = Value::Atom(7);

const K_IS_Q: Value = Value::Atom(8);

/// A grammar in which `r` refers back to what `m` or `n` introduces.
pub static SMALL_GRAMMAR: &str = "feature k: p, q.
feature id: position.
text --> m n r [e].
m --> [m] #P > x(k: p, id: P).
n --> [n] #P > x(k: q, id: P).
r --> < +x(k: K, id: ?I) [r].";

/// m n r e, by the small grammar.
pub static M_N_R_E: [Row; 4] = [
    Row {
        rule: 2,
        values: &[(0, Value::Pos(1))],
        found: &[],
        children: 0,
    },
    Row {
        rule: 3,
        values: &[(0, Value::Pos(2))],
        found: &[],
        children: 0,
    },
    Row {
        rule: 4,
        values: &[(0, K_IS_P), (1, Value::Pos(1))],
        found: &[1],
        children: 0,
    },
    Row {
        rule: 1,
        values: &[],
        found: &[],
        children: 3,
    },
];

/// What may stand for its reference, each with whether the tree then derives the tokens.
pub static REFERENCES: [(Row, bool); 5] = [
    (
        Row {
            rule: 4,
            values: &[(0, K_IS_P), (1, Value::Pos(1))],
            found: &[1],
            children: 0,
        },
        true,
    ),
    (
        Row {
            rule: 4,
            values: &[(0, K_IS_Q), (1, Value::Pos(2))],
            found: &[2],
            children: 0,
        },
        true,
    ),
    (
        Row {
            rule: 4,
            values: &[(0, K_IS_Q), (1, Value::Pos(1))],
            found: &[1],
            children: 0,
        },
        false,
    ),
    (
        Row {
            rule: 4,
            values: &[(0, K_IS_P), (1, Value::Pos(2))],
            found: &[2],
            children: 0,
        },
        false,
    ),
    (
        Row {
            rule: 4,
            values: &[(0, K_IS_P), (1, Value::Pos(2))],
            found: &[1],
            children: 0,
        },
        false,
    ),
];

/// The tree of the last of these rows, where the row at the place is another one.
pub fn tree_of(alloc: Global, rows: &[Row], place: usize, other: Row) -> Result<Tree, Fail> {
    let mut trees = Vec::new(alloc);
    for (at, row) in rows.iter().enumerate() {
        let row = if at == place { other } else { *row };
        let children = last_of(alloc, &mut trees, row.children)?;
        trees.push(Tree {
            rule: row.rule,
            values: Binds::from_vec(row.values.to_vec(alloc)?),
            found: Places::from_vec(row.found.to_vec(alloc)?),
            children,
        })?;
    }
    Ok(trees.pop().ok_or("a row")?)
}

// Takes so many trees from the end, in their order.
fn last_of(alloc: Global, trees: &mut Vec<Tree>, count: usize) -> Result<Trees, Fail> {
    let mut children = Vec::new(alloc);
    for _ in 0..count {
        children.push(trees.pop().ok_or("a child")?)?;
    }
    children.reverse();
    Ok(Trees::from_vec(children))
}
