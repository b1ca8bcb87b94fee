//! Graphs by chance: each verdict of an inventory against the answer of a search for its item alone, and what the
//! check says to inventories that are forged.

use crate::tests::text;
use cert_graph::{
    Answer, Change, Entry, Inventory, Nodes, Reach, Verdict, answer_of, check_all_nodes,
    check_nodes,
};
use cert_search::{find_all_nodes, find_nodes};
use std::alloc::Global;
use std::process::Abort;
use std::test::Fail;

/// How many graphs are searched, each for every item.
const SEARCHED: u32 = 10_000;

/// On how many graphs inventories are forged, one for each item and up to three further ones.
const FORGED: u32 = 200;

/// A graph has at most so many items.
const ITEMS: u32 = 14;

/// A graph has so many groups, of which the last is an anchor's.
const GROUPS: u32 = 5;

const KINDS: [&str; 8] = [
    "leaf",
    "issuer",
    "self-issued",
    "issuer",
    "root",
    "late",
    "other",
    "self-issued",
];

/// Numbers that are the same in each run.
#[derive(Drop)]
struct Chance {
    state: u32,
}

impl Chance {
    // The next number below a bound; 0 where the bound is 0.
    fn below(&mut self, bound: u32) -> u32 {
        self.state = self.state.wrapping_mul(1_103_515_245).wrapping_add(12_345);
        (self.state >> 16) % bound.max(1)
    }

    fn place(&mut self, bound: u32) -> usize {
        usize::try_from(self.below(bound)).unwrap_or(0)
    }
}

// Up to two groups.
fn some_groups(alloc: Global, chance: &mut Chance) -> Result<Vec<usize>, Fail> {
    let mut groups = Vec::new(alloc);
    for _ in 0..chance.below(3) {
        groups.push(chance.place(GROUPS))?;
    }
    Ok(groups)
}

fn some_entry(alloc: Global, chance: &mut Chance) -> Result<Entry, Fail> {
    let kind = KINDS.get(chance.place(8)).copied().unwrap_or("leaf");
    let limit = if chance.below(2) == 0 {
        None
    } else {
        Some(chance.below(3))
    };
    Ok(Entry {
        node: text::node(kind, limit)?,
        groups: some_groups(alloc, chance)?,
        links: some_groups(alloc, chance)?,
    })
}

fn some_graph(alloc: Global, chance: &mut Chance) -> Result<Nodes, Fail> {
    let mut entries = Vec::new(alloc);
    for _ in 0..chance.below(ITEMS) {
        entries.push(some_entry(alloc, chance)?)?;
    }
    let anchors = [Some(4), Some(chance.place(GROUPS)), None];
    Ok(Nodes::new(alloc, &entries, &anchors, 5)?)
}

// Whether a verdict says what an answer says.
fn says(verdict: &Verdict, answer: &Answer) -> bool {
    match (verdict, answer) {
        (
            Verdict::FirstPath { positions, anchor },
            Answer::Path {
                positions: others,
                anchor: other,
                ..
            },
        ) => positions == others && anchor == other,
        (Verdict::Pathless, Answer::NoPath { .. }) => true,
        (Verdict::NoCertificate, Answer::NoTarget) => true,
        _ => false,
    }
}

// Each verdict is that of a search for the item alone, and its own answer is accepted.
fn ask_each<R: Abort>(rt: &R, alloc: Global, nodes: &Nodes) -> Result<(), Fail> {
    let inventory = find_all_nodes(alloc, nodes)?;
    assert!(rt; check_all_nodes(alloc, nodes, &inventory)?);
    assert!(rt; inventory.verdicts.len() == nodes.items.len());
    for (target, verdict) in inventory.verdicts.iter().enumerate() {
        assert!(rt; says(verdict, &find_nodes(alloc, nodes, target)?));
        let own = own_answer(alloc, nodes, target)?;
        assert!(rt; says(verdict, &own) && check_nodes(alloc, nodes, target, &own)?);
    }
    Ok(())
}

// An item's answer, of an inventory of its own.
fn own_answer(alloc: Global, nodes: &Nodes, target: usize) -> Result<Answer, Fail> {
    let inventory = find_all_nodes(alloc, nodes)?;
    Ok(answer_of(alloc, nodes, &inventory, target)?)
}

// What is not so of the same item.
fn other_than(alloc: Global, verdict: &Verdict, item: usize) -> Result<Verdict, Fail> {
    match verdict {
        Verdict::NoCertificate => Ok(Verdict::Pathless),
        Verdict::Pathless => {
            let mut positions = Vec::new(alloc);
            positions.push(item)?;
            Ok(Verdict::FirstPath {
                positions,
                anchor: 0,
            })
        }
        Verdict::FirstPath { positions, anchor } => {
            let positions = Vec::from_slice(alloc, positions)?;
            Ok(Verdict::FirstPath {
                positions,
                anchor: anchor.wrapping_add(1),
            })
        }
    }
}

// An inventory with another verdict on one item is refused.
fn forge_each<R: Abort>(rt: &R, alloc: Global, nodes: &Nodes) -> Result<(), Fail> {
    for item in 0..nodes.items.len() {
        let mut inventory = find_all_nodes(alloc, nodes)?;
        if item < inventory.verdicts.len() {
            inventory.verdicts[item] = other_than(alloc, &inventory.verdicts[item], item)?;
            assert!(rt; !check_all_nodes(alloc, nodes, &inventory)?);
        }
    }
    Ok(())
}

// So is one with a verdict more or fewer, and one with a last row that reaches nothing, where some item reaches an
// anchor.
fn forge_whole<R: Abort>(rt: &R, alloc: Global, nodes: &Nodes) -> Result<(), Fail> {
    let mut inventory = find_all_nodes(alloc, nodes)?;
    inventory.verdicts.push(Verdict::NoCertificate)?;
    assert!(rt; !check_all_nodes(alloc, nodes, &inventory)?);
    let mut inventory = find_all_nodes(alloc, nodes)?;
    if inventory.verdicts.pop().is_some() {
        assert!(rt; !check_all_nodes(alloc, nodes, &inventory)?);
    }
    let mut inventory = find_all_nodes(alloc, nodes)?;
    if let Some(step) = without(alloc, &inventory)? {
        inventory.steps.push(step)?;
        assert!(rt; !check_all_nodes(alloc, nodes, &inventory)?);
    }
    Ok(())
}

// The changes that take all away that the first row of an inventory has, if it has something.
fn without(alloc: Global, inventory: &Inventory) -> Result<Option<Vec<Change>>, Fail> {
    let Some(first) = inventory.steps.first() else {
        return Ok(None);
    };
    if first.is_empty() {
        return Ok(None);
    }
    let mut step = Vec::new(alloc);
    for change in first {
        step.push(Change {
            position: change.position,
            reach: Reach::No,
        })?;
    }
    Ok(Some(step))
}

#[test]
fn verdicts_are_those_of_each_search(rt: HostRuntime) -> Result<(), Fail> {
    let mut chance = Chance { state: 11 };
    for _ in 0..SEARCHED {
        let nodes = some_graph(rt.alloc(), &mut chance)?;
        ask_each(&rt, rt.alloc(), &nodes)?;
    }
    Ok(())
}

#[test]
fn forged_inventories_are_refused(rt: HostRuntime) -> Result<(), Fail> {
    let mut chance = Chance { state: 29 };
    for _ in 0..FORGED {
        let nodes = some_graph(rt.alloc(), &mut chance)?;
        forge_each(&rt, rt.alloc(), &nodes)?;
        forge_whole(&rt, rt.alloc(), &nodes)?;
    }
    Ok(())
}
