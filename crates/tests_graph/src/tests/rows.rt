//! Worked bundles as graphs, and of each what is known of its items, what the check says to an answer, and the answer
//! that is found.

use crate::tests::text;
use cert_graph::{Nodes, check_nodes};
use cert_search::find_nodes;
use std::alloc::Global;
use std::process::Abort;
use std::test::Fail;

// A row is `CALL POSITION: TEXT = OUTCOME`, asked of the graph above it.
const ROWS: &str = "
# a target that is its own anchor's holder: a path of one, or none without a link
graph 1: leaf 0>0; anchor 0
check 0: 0 to 0 = yes
check 0: 0 to 0 / - = no
check 0: none / - = no
graph 1: leaf 0>-; anchor 0
check 0: none / - = yes
check 0: none = no
check 0: none / - / - = no
check 0: none / - - = no
check 0: no target = no
check 0: 0 to 0 = no

# no item at all
graph 0
check 0: no target = yes
check 18446744073709551615: no target = yes
check 0: none / = no
check 0: - to 0 = no

# one issuer with path length 0 under the anchor: the target is not counted; then answers that are forged
graph 3: leaf 0>1; issuer 1>2 0; anchor 2
check 0: 0,1 to 0 / - 0 = yes
check 0: none / - 0 = no
check 0: none / any any = no
check 0: 0,1 to 0 = no
check 0: 0,1 to 0 / - 0 / - 0 = no
check 0: 0,1 to 0 / - = no
check 0: 0,1 to 1 / - 0 = no
check 0: 0,18446744073709551615 to 0 / - 0 = no
check 1: 0,1 to 0 / - 0 = no

# an issuer that may not issue reaches nothing
graph 3: leaf 0>1; leaf 1>2 0; anchor 2
check 0: none / - - = yes
check 0: 0,1 to 0 / - 0 = no

# two issuers, the upper of path length 0: the lower is counted, so there is no path
graph 4: leaf 0>1; issuer 1>2; issuer 2>3 0; anchor 3
check 0: none / - - 0 = yes
check 0: none / - - - = no
check 0: 0,1,2 to 0 / - - 0 / - - 0 = no
check 0: 0,1,2 to 0 / - 0 0 / - 0 0 = no
check 0: 0,1,2 to 0 / any any any / any any any = no

# a self-issued issuer between is not counted
graph 4: leaf 0>1; self-issued 1>2; issuer 2>3 0; anchor 3
check 0: 0,1,2 to 0 / - - 0 / - 0 0 = yes
check 0: 0,1,2 to 0 / - 0 0 / - - 0 = no

# two ways: the shorter counts too much at the top, the longer goes over self-issued issuers
graph 7: leaf 0>1; issuer 1>2; issuer 2>5; self-issued 1>3; self-issued 3>4; issuer 4>5; issuer 5>6 1; anchor 6
check 0: 0,3,4,5,6 to 0 / - - - - - - 1 / - - 0 - - 0 1 / - - 0 - 0 0 1 / - - 0 0 0 0 1 = yes
check 0: 0,1,2,6 to 0 / - - - - - - 1 / - - 0 - - 0 1 / - - 0 - 0 0 1 = no
check 0: none / - - 0 0 0 0 1 = no

# two equal issuers and two equal anchors: the smallest positions, then the smallest anchor
graph 3: leaf 0>1; issuer 1>2 0; issuer 1>2 0; anchor 2; anchor 2
check 0: 0,1 to 0 / - 0 0 = yes
check 0: 0,1 to 0 / any any any = yes
check 0: 0,1 to 0 / - - - = no
check 0: 0,2 to 0 / - 0 0 = no
check 0: 0,1 to 1 / - 0 0 = no
check 0: 0,1 to 2 / - 0 0 = no
check 0: 0,3 to 0 / - 0 0 = no
check 0: - to 0 / - 0 0 = no

# issuers that issue each other, and a self-issued one, lead to no anchor
graph 4: leaf 0>1; issuer 1>2; issuer 2>1; anchor 3
check 0: none / - - - = yes
check 0: none / - - any = no
graph 3: leaf 0>1; self-issued 1>1; anchor 2
check 0: none / - - = yes

# an issuer in two groups, one of them named twice: whoever is linked to either has it
graph 4: leaf ->1; leaf 0>2; issuer 1,2,1>3; anchor 3
check 0: 0,2 to 0 / - - any = yes
check 1: 1,2 to 0 / - - any = yes
known 0 = certificate true, usable true, fit false, self-issued false, anchored false, Any
linked 0: 1 = issuer false, anchor false, anchor below false
linked 0: 2 = issuer true, anchor false, anchor below false
linked 1: 2 = issuer true, anchor false, anchor below false
linked 2: 2 = issuer false, anchor false, anchor below true

# what is known of items and past them; an anchor without a group is none
graph 3: leaf 0>1; issuer 1>2 7; anchor -; anchor 2
known 0 = certificate true, usable true, fit false, self-issued false, anchored false, Any
known 1 = certificate true, usable true, fit true, self-issued false, anchored true, UpTo(7)
known 2 = certificate false, usable false, fit false, self-issued false, anchored false, No
linked 0: 1 = issuer true, anchor false, anchor below false
linked 1: 0 = issuer false, anchor false, anchor below false
linked 1: 1 = issuer false, anchor true, anchor below false
linked 1: 2 = issuer false, anchor false, anchor below true
issued 0: 1 = true of 3
issued 1: 1 = false of 3

# a root alone: it may not be usable at the moment, be without a voucher, or without an anchor
graph 8: root 0>0; anchor 0
find 0 = 0 to 0
told 0 = path [0] to 0 by []
graph 8: late 0>0; anchor 0
find 0 = none / -
told 0 = no path by [[No]]
graph 8: root 0>-; anchor 0
find 0 = none / -
graph 8: root 0>0
find 0 = none / -
graph 8: equal 300 root 0>0; anchor 0
find 299 = 299 to 0

# no target
graph 8
find 0 = no target
told 0 = no target
graph 8: other 0>-
find 0 = no target
graph 8: leaf 0>-
find 18446744073709551615 = no target

# an issuer with path length 0: the target is not counted
graph 8: leaf 0>1; issuer 1>2 0; anchor 2
find 0 = 0,1 to 0 / - 0
told 0 = path [0, 1] to 0 by [[No, UpTo(0)]]
# no issuer of the target's, since it may not issue or has another name
graph 8: leaf 0>1; leaf 1>2; anchor 2
find 0 = none / - -
graph 8: leaf 0>3; issuer 1>2 0; anchor 2
find 0 = none / - 0

# the lower of two issuers is counted, unless it is self-issued
graph 8: leaf 0>1; issuer 1>2; issuer 2>3 0; anchor 3
find 0 = none / - - 0
graph 8: leaf 0>1; self-issued 1>2; issuer 2>3 0; anchor 3
find 0 = 0,1,2 to 0 / - - 0 / - 0 0

# a longer way counts less
graph 8: leaf 0>1; issuer 1>2; issuer 2>3; self-issued 1>4; self-issued 4>5; issuer 5>3; issuer 3>6 1; anchor 6
find 0 = 0,3,4,5,6 to 0 / - - - - - - 1 / - - 0 - - 0 1 / - - 0 - 0 0 1 / - - 0 0 0 0 1

# the count at which an issuer is met first may be one too many: a longer way meets it at a lower one
graph 8: leaf 0>1; issuer 1>2; issuer 2>3; self-issued 1>4; self-issued 4>5; issuer 5>3; issuer 3>6; issuer 6>7 2; anchor 7
find 0 = 0,3,4,5,6,7 to 0 / - - - - - - - 2 / - - - - - - 1 2 / - - 0 - - 0 1 2 / - - 0 - 0 0 1 2 / - - 0 0 0 0 1 2
graph 8: leaf 0>1; issuer 1>2; issuer 2>3; issuer 3>5 1; issuer 3>4; issuer 4>5; anchor 5
find 0 = 0,1,2,4,5 to 0 / - - - 1 - any / - - 0 1 any any / - - any 1 any any / - any any 1 any any

# the smallest positions, then the smallest anchor
graph 8: leaf 0>1; issuer 1>2 0; issuer 1>2 0; anchor 2; anchor 2
find 0 = 0,1 to 0 / - 0 0

# issuers that issue each other, and one that issues itself
graph 8: leaf 0>1; issuer 1>2; issuer 2>1; anchor 3
find 0 = none / - - -
graph 8: leaf 0>1; self-issued 1>1; anchor 2
find 0 = none / - -
# the greatest limits
graph 8: leaf 0>-; issuer 1>1 4294967295; issuer 1>1,2 4294967295; anchor 2
find 0 = none / - 4294967294 4294967295
";

// Whether the check says yes to an answer on a target.
fn checked(alloc: Global, nodes: &Nodes, target: usize, text: &str) -> Result<String, Fail> {
    let answer = text::answer(alloc, text)?;
    let word = if check_nodes(alloc, nodes, target, &answer)? {
        "yes"
    } else {
        "no"
    };
    Ok(String::from_str(alloc, word)?)
}

// The answer on a target with its rows, where the check says yes to it.
fn found(alloc: Global, nodes: &Nodes, target: usize) -> Result<String, Fail> {
    let answer = find_nodes(alloc, nodes, target)?;
    if !check_nodes(alloc, nodes, target, &answer)? {
        return Err(Fail::from("the check says no"));
    }
    text::told(alloc, &answer)
}

// The text of the answer that is wanted, where it is the one that is found; else the one that is found.
fn found_as(alloc: Global, nodes: &Nodes, target: usize, want: &str) -> Result<String, Fail> {
    let found = found(alloc, nodes, target)?;
    let answer = text::answer(alloc, want)?;
    if found == text::told(alloc, &answer)? {
        return Ok(String::from_str(alloc, want)?);
    }
    Ok(found)
}

// What is known of a position.
fn known(alloc: Global, nodes: &Nodes, position: usize) -> Result<String, Fail> {
    Ok(format!(in alloc;
        "certificate {}, usable {}, fit {}, self-issued {}, anchored {}, {:?}",
        nodes.is_certificate(position),
        nodes.is_usable(position),
        nodes.is_fit(position),
        nodes.is_self_issued(position),
        nodes.has_anchor(position),
        nodes.limit(position)
    )?)
}

// Whether a position is linked to another as an item and as an anchor, and to an anchor below it.
fn linked(alloc: Global, nodes: &Nodes, position: usize, other: usize) -> Result<String, Fail> {
    Ok(format!(in alloc;
        "issuer {}, anchor {}, anchor below {}",
        nodes.links(position, other),
        nodes.links_to_anchor(position, other),
        nodes.has_anchor_below(position, other)
    )?)
}

// Whether a position is linked to a group, and how many groups there are.
fn issued(alloc: Global, nodes: &Nodes, position: usize, group: usize) -> Result<String, Fail> {
    let group = nodes.groups.get(group).ok_or("no group")?;
    Ok(format!(in alloc; "{} of {}", group.has_issued(position), nodes.groups.len())?)
}

// The outcome of a call, where one is wanted.
fn outcome(alloc: Global, nodes: &Nodes, call: &str, want: &str) -> Result<String, Fail> {
    let (head, text) = call.split_once(": ").unwrap_or((call, ""));
    let (name, position) = head.split_once(' ').ok_or("no position")?;
    let position = position.parse::<usize>()?;
    match name {
        "check" => checked(alloc, nodes, position, text),
        "find" => found_as(alloc, nodes, position, want),
        "told" => found(alloc, nodes, position),
        "known" => known(alloc, nodes, position),
        "linked" => linked(alloc, nodes, position, text.parse::<usize>()?),
        "issued" => issued(alloc, nodes, position, text.parse::<usize>()?),
        _ => Err(Fail::from("no call")),
    }
}

// A row's outcome is the one after it.
fn same<R: Abort>(rt: &R, row: &str, got: &str, want: &str) {
    assert_eq!(rt; got, want, "{row}");
}

// The rows below a graph.
fn ask<R: Abort>(rt: &R, alloc: Global, graph: &str, rows: &str) -> Result<(), Fail> {
    let nodes = text::graph(alloc, graph)?;
    for row in rows.lines() {
        if !row.is_empty() && !row.starts_with('#') {
            let (call, want) = row.split_once(" = ").ok_or("no outcome")?;
            let got = outcome(alloc, &nodes, call, want)?;
            same(rt, row, got.as_str(), want);
        }
    }
    Ok(())
}

#[test]
fn rows_are_answered(rt: HostRuntime) -> Result<(), Fail> {
    for part in ROWS.split("\ngraph ").skip(1) {
        let (graph, rows) = part.split_once('\n').unwrap_or((part, ""));
        ask(&rt, rt.alloc(), graph, rows)?;
    }
    Ok(())
}
