//! The edges of a graph that no path of several edges stands for, where edges lead to lower nodes.
ghost use Rattle.std.specs.Prelude.{◌≡◌, ◌↔◌, ◌⊎◌, ◌<◌, ◌≤◌, ℕ, List, [], false, true, length, All, Contains, IfOk, OnOk};
ghost use Rattle.vob_block.specs.Packing.{item};
ghost use Rattle.vob_flow.specs.Closure.{IsEdge};
ghost use Rattle.files_graph.specs.Direct.{GainDirect, HasFound, HasFoundMore, IsClear, IsDirect, IsFrom, IsSearch, LeadsDown};

use std::alloc::{AllocError, Global};
use vob::Vob;
use vob_rows::Graph;

/// A search for the ends of one node's edges.
#[derive(Drop)]
struct Search {
    // The nodes that were found, and of how many of them the edges were followed.
    found: Vec<usize>,
    followed: usize,
    seen: Vob,
    // The ends that weren't found, and their number.
    missing: Vob,
    left: usize,
}

/// Makes a search among some nodes.
fn new_search(alloc: Global, count: usize) -> Result<Search, AllocError>
    ensures { IfOk result (IsClear count) }
{
    Ok(Search {
        found: Vec::with_capacity(alloc, count)?,
        followed: 0,
        seen: Vob::from_elem(alloc, false, count)?,
        missing: Vob::from_elem(alloc, false, count)?,
        left: 0,
    })
}

/// Lets some ends be missing, and returns the lowest of them, or `above` if none is lower.
fn want(search: &mut Search, ends: &[usize], above: usize) -> usize
    requires clear { IsClear (length search.old.seen.bits) search.old }
    requires inside { All (λ end. end < length search.old.seen.bits) ends.now }
    ensures search { IsSearch (length search.old.seen.bits) search.new }
    ensures from { (links : List (List ℕ)) → IsFrom links ends.now [] result search.new }
    ensures lowest { (t : ℕ) → Contains ends.now t → result ≤ t }
{
    let mut lowest = above;
    for end in ends {
        // The number of nodes is in the range of its type: a proof knows it from this read.
        let _count = search.missing.len();
        if search.missing.set(*end, true) {
            search.left += 1;
        }
        lowest = lowest.min(*end);
    }
    lowest
}

/// Finds a node that wasn't found before.
fn find(search: &mut Search, node: usize) -> Result<(), AllocError>
    requires there { node < length search.old.seen.bits }
    requires search { IsSearch (length search.old.seen.bits) search.old }
    ensures { OnOk result (HasFound node search.old search.new) }
{
    search.seen.set(node, true);
    if search.missing.set(node, false) {
        search.left -= 1;
    }
    search.found.push(node)?;
    Ok(())
}

/// Finds the ends of a node's edges at or above another one.
fn find_ends(
    search: &mut Search,
    links: &Graph,
    node: usize,
    lowest: usize,
) -> Result<(), AllocError>
    requires there { node < length links.now }
    requires search { IsSearch (length links.now) search.old }
    ensures search { OnOk result (IsSearch (length links.now) search.new) }
    ensures more { OnOk result (HasFoundMore search.old search.new) }
    ensures from { OnOk result ((ends starts : List ℕ) → item search.old.seen.bits node ≡ true
        → IsFrom links.now ends starts lowest search.old
        → IsFrom links.now ends starts lowest search.new) }
    ensures given { OnOk result ((y : ℕ) → IsEdge links.now node y → lowest ≤ y
        → item search.new.seen.bits y ≡ true) }
{
    let ends = links.next(node);
    for end in ends {
        if *end >= lowest && !search.seen.get_unchecked(*end) {
            find(search, *end)?;
        }
    }
    Ok(())
}

/// Follows edges to nodes at or above one, until no end is missing or all edges are followed.
fn follow(search: &mut Search, links: &Graph, lowest: usize) -> Result<(), AllocError>
    requires { IsSearch (length links.now) search.old }
    ensures search { OnOk result (IsSearch (length links.now) search.new) }
    ensures fewer { OnOk result (search.new.left ≤ search.old.left) }
    ensures kept { OnOk result ((x : ℕ) → item search.old.seen.bits x ≡ true
        → item search.new.seen.bits x ≡ true) }
    ensures from { OnOk result ((ends starts : List ℕ) → IsFrom links.now ends starts lowest search.old
        → IsFrom links.now ends starts lowest search.new) }
    ensures done { OnOk result ((search.new.left ≡ 0)
        ⊎ (search.new.followed ≡ length search.new.found.items)) }
{
    'turns: while search.left > 0 && search.followed < search.found.len() {
        let node = search.found[search.followed];
        find_ends(search, links, node, lowest)?;
        search.followed += 1;
    }
    Ok(())
}

/// Forgets what was found, where nothing is missing.
fn clear(search: &mut Search)
    requires search { IsSearch (length search.old.seen.bits) search.old }
    requires none { (x : ℕ) → item search.old.missing.bits x ≡ false }
    ensures { IsClear (length search.old.seen.bits) search.new }
{
    for k in 0..search.found.len() {
        let node = search.found[k];
        search.seen.set(node, false);
    }
    search.found.clear();
    search.followed = 0;
}

/// Appends the edges of a node that no path of several edges stands for.
fn put_direct(
    links: &Graph,
    node: usize,
    search: &mut Search,
    edges: &mut Vec<(usize, usize)>,
) -> Result<(), AllocError>
    requires there { node < length links.now }
    requires down { LeadsDown links.now }
    requires clear { IsClear (length links.now) search.old }
    ensures clear { OnOk result (IsClear (length links.now) search.new) }
    ensures direct { OnOk result (GainDirect links.now node edges.old.items edges.new.items) }
{
    let lowest = want(search, links.next(node), node);
    let mut at = node;
    'ends: while let Some(end) = search.missing.previous_set(at) {
        edges.push((node, end))?;
        find(search, end)?;
        follow(search, links, lowest)?;
        at = end;
    }
    clear(search);
    Ok(())
}

/// Returns the edges of a graph, whose edges lead to lower nodes, for which no path of several edges
/// stands.
pub(crate) fn direct_edges(alloc: Global, links: &Graph) -> Result<Vec<(usize, usize)>, AllocError>
    requires { LeadsDown links.now }
    ensures { IfOk result (λ edges.
        (n m : ℕ) → Contains edges.items (n, m) ↔ IsDirect links.now n m) }
{
    let mut search = new_search(alloc, links.nodes())?;
    let mut edges = Vec::new(alloc);
    for node in 0..links.nodes() {
        put_direct(links, node, &mut search, &mut edges)?;
    }
    Ok(edges)
}
