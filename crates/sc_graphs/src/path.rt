//! What a search for cycles keeps: a path through the graph, in parts whose nodes all reach one
//! another.

/// How far the search has come with a node.
#[derive(Clone, Copy, Debug, PartialEq, Eq)]
pub(crate) enum Mark {
    /// It wasn't met yet.
    New,
    /// It is on the path, at this place.
    OnPath(usize),
    /// It was left, and lies on a cycle or not.
    Left(bool),
}

/// A part of the path, up to where the next one begins. All of its nodes reach one another.
#[derive(Clone, Copy, Debug, PartialEq, Eq)]
pub(crate) struct Part {
    /// The place of its first node on the path.
    pub first: usize,
    /// How many nodes waited when it was put on the path. What waits from there on follows it, or a
    /// later part.
    pub waiting: usize,
    /// Whether a cycle through it was met. Without one it has one node alone.
    pub cyclic: bool,
}

/// A search for cycles.
#[derive(Drop)]
pub(crate) struct Search {
    /// How far it has come with each node.
    pub marks: Vec<Mark>,
    /// The path: each node on it reaches all later ones.
    pub path: Vec<usize>,
    /// The parts of the path.
    pub parts: Vec<Part>,
    /// Nodes that follow those on the path and are still to be looked at.
    pub waiting: Vec<usize>,
}
