//! Nodes by their names, and the edges between them.
ghost use Rattle.std.specs.Prelude.{◌≡◌, ◌++◌, [], drop, map, IfOk, OnOk};
ghost use Rattle.files_text.specs.Names.{names_in};
ghost use Rattle.files_dot.specs.Graphs.{between};
ghost use Rattle.files_dot.specs.Held.{edges_of, names_of};

use files_text::Names;
use std::alloc::{AllocError, Global};

/// Numbers names in the order in which they first come. Fails if memory runs out.
pub fn numbered<'a>(alloc: Global, mentions: &[&'a [u8]]) -> Result<Names<'a>, AllocError>
    ensures { IfOk result (λ names. names ≡ names_in (names_of mentions.now)) }
{
    let mut names = Names::new(alloc);
    'mentions: for name in mentions {
        names.number(*name)?;
    }
    Ok(names)
}

/// Returns the names in a list. Fails if memory runs out.
fn listed<'a>(alloc: Global, names: &Names<'a>) -> Result<Vec<&'a [u8]>, AllocError>
    ensures { IfOk result (λ all. names_of all.items ≡ names.now) }
{
    let mut all = Vec::new(alloc);
    'numbers: for number in 0..names.len() {
        all.push(names.name(number))?;
    }
    Ok(all)
}

/// Returns the nodes that are mentioned behind a number of others, in the order in which they first
/// come. Fails if memory runs out.
pub fn nodes_since<'a>(
    alloc: Global,
    mentions: &[&'a [u8]],
    start: usize,
) -> Result<Vec<&'a [u8]>, AllocError>
    ensures { IfOk result (λ all. names_of all.items
        ≡ names_in (drop start (names_of mentions.now))) }
{
    if start > mentions.len() {
        return Ok(Vec::new(alloc));
    }
    let names = numbered(alloc, &mentions[start..])?;
    listed(alloc, &names)
}

/// Adds the edges from a node to others. Fails if memory runs out.
fn lead_from<'a>(
    edges: &mut Vec<(&'a [u8], &'a [u8])>,
    tail: &'a [u8],
    heads: &[&'a [u8]],
) -> Result<(), AllocError>
    ensures { OnOk result (edges_of edges.new.items ≡ edges_of edges.old.items
        ++ map (λ head. (tail.now, head)) (names_of heads.now)) }
{
    'heads: for head in heads {
        edges.push((tail, *head))?;
    }
    Ok(())
}

/// Adds the edges from each of some nodes to each of others. Fails if memory runs out.
pub fn lead<'a>(
    edges: &mut Vec<(&'a [u8], &'a [u8])>,
    tails: &[&'a [u8]],
    heads: &[&'a [u8]],
) -> Result<(), AllocError>
    ensures { OnOk result (edges_of edges.new.items ≡ edges_of edges.old.items
        ++ between (names_of tails.now) (names_of heads.now)) }
{
    'tails: for tail in tails {
        lead_from(edges, *tail, heads)?;
    }
    Ok(())
}
