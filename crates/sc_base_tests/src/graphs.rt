//! Tests of what can be reached.
use sc_graphs::{Reachability, least_cycle};
use sc_lists::Seq;
use std::alloc::{AllocError, Global};
use std::test::Fail;

fn nodes(alloc: Global, numbers: &[usize]) -> Result<Seq<usize>, AllocError> {
    let mut list = Seq::new(alloc);
    for number in numbers {
        list.push(*number)?;
    }
    Ok(list)
}

fn graph_of(alloc: Global, lists: &[&[usize]]) -> Result<Seq<Seq<usize>>, AllocError> {
    let mut graph = Seq::new(alloc);
    for list in lists {
        graph.push(nodes(alloc, list)?)?;
    }
    Ok(graph)
}

/// 0 goes to 2 and 1, 1 to 3, 3 back to 1 and to a node past the lists, 2 to none, 4 to itself, 5 to
/// nodes past the lists alone, to one of them twice, 6 to nodes of the lists alone.
const GRAPH: &[&[usize]] = &[&[2, 1], &[3], &[], &[1, 9], &[4], &[9, 7, 9], &[4, 2, 4]];

/// Whether searches from these nodes, one after another, find just the nodes beside them.
fn reach(alloc: Global, searches: &[(usize, &[usize])]) -> Result<bool, AllocError> {
    let graph = graph_of(alloc, GRAPH)?;
    let mut reachability = Reachability::new(alloc);
    let mut all = true;
    for &(start, wanted) in searches {
        let found = reachability.of(alloc, graph.as_slice(), start)?;
        all &= found.as_slice() == wanted;
    }
    Ok(all)
}

#[test]
fn a_node_reaches_what_follows_it_and_what_follows_that(rt: HostRuntime) -> Result<(), Fail> {
    let alloc = rt.alloc();
    assert!(rt; reach(alloc, &[(0, &[1, 2, 3, 9])])?);
    Ok(())
}

#[test]
fn a_node_reaches_itself_on_a_cycle_alone(rt: HostRuntime) -> Result<(), Fail> {
    let alloc = rt.alloc();
    assert!(rt; reach(alloc, &[(1, &[1, 3, 9])])?);
    assert!(rt; reach(alloc, &[(4, &[4])])?);
    Ok(())
}

#[test]
fn a_node_that_the_graph_does_not_list_reaches_none(rt: HostRuntime) -> Result<(), Fail> {
    let alloc = rt.alloc();
    assert!(rt; reach(alloc, &[(9, &[]), (2, &[])])?);
    assert!(rt; reach(alloc, &[(5, &[7, 9]), (6, &[2, 4])])?);
    Ok(())
}

/// Searches one after another, each with what it finds.
const SEARCHES: &[(usize, &[usize])] = &[
    (0, &[1, 2, 3, 9]),
    (3, &[1, 3, 9]),
    (4, &[4]),
    (2, &[]),
    (1, &[1, 3, 9]),
    (5, &[7, 9]),
    (6, &[2, 4]),
    (0, &[1, 2, 3, 9]),
];

#[test]
fn a_search_finds_the_same_after_others(rt: HostRuntime) -> Result<(), Fail> {
    let alloc = rt.alloc();
    assert!(rt; reach(alloc, SEARCHES)?);
    Ok(())
}

/// Whether this is the least node of the graph on a cycle.
fn has_least(alloc: Global, lists: &[&[usize]], least: Option<usize>) -> Result<bool, AllocError> {
    let graph = graph_of(alloc, lists)?;
    Ok(least_cycle(alloc, graph.as_slice())? == least)
}

/// Graphs, each with its least node on a cycle.
const LEAST: &[(&[&[usize]], Option<usize>)] = &[
    (&[], None),
    (&[&[1], &[2], &[]], None),
    (&[&[1, 2], &[2], &[7]], None),
    (&[&[0]], Some(0)),
    (&[&[1], &[2], &[1]], Some(1)),
    (&[&[2], &[2], &[3], &[2]], Some(2)),
    (&[&[3], &[0], &[1], &[2]], Some(0)),
    (&[&[1], &[4], &[0, 3], &[2], &[5], &[]], Some(2)),
    (&[&[], &[2], &[0], &[4], &[1, 3]], Some(3)),
    (&[&[1], &[2, 3], &[0], &[3]], Some(0)),
];

#[test]
fn a_node_between_cycles_lies_on_none(rt: HostRuntime) -> Result<(), Fail> {
    let alloc = rt.alloc();
    for &(lists, least) in LEAST {
        assert!(rt; has_least(alloc, lists, least)?);
    }
    Ok(())
}
