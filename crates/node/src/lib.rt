// A node of the tree, and the lent list of nodes: plain data, so that one growth serves Rattle callers and C hosts.
#![tactic(auto)]

ghost use Rattle.std.specs.Prelude.{◌≡◌, ◌<◌, length, get_or, set};
ghost use Rattle.std.proofs.Math.Option.{none, some};
ghost use Rattle.optimizer.specs.Records.{to_record};
ghost use Rattle.node.specs.Nodes.{in_numbers, to_node, leaf_of, cut_of};

use optimizer::optimizer_result::GainRecord;
use rows::{Position, Segment};

// A gain record in plain numbers: its origin by kind, 0 direct, 1 layer, 2 draw, and number.
// The C interface wants plain numbers in it.
#[repr(C)]
#[derive(Clone, Copy, Debug, PartialEq)]
pub struct Choice {
    pub start: Position,
    pub stop: Position,
    pub best_split: Position,
    pub max_gain: f64,
    pub kind: usize,
    pub number: usize,
}

// A segment, whether it is cut, its choice (all zero where there is none), and the places of its parts (0 and 0 for a leaf).
// The C interface wants this layout, so no Option and no Segment stand in it.
#[repr(C)]
#[derive(Clone, Copy, Debug, PartialEq)]
pub struct Node {
    pub start: Position,
    pub stop: Position,
    pub significant: bool,
    pub has_choice: bool,
    pub choice: Choice,
    pub left: usize,
    pub right: usize,
}

impl From<GainRecord> for Choice {
    ghost from_gives = { λ found choice. choice ≡ in_numbers (to_record found) };

    fn from(found: GainRecord) -> Choice {
        Choice {
            start: found.start,
            stop: found.stop,
            best_split: found.best_split,
            max_gain: found.max_gain,
            kind: found.origin.kind(),
            number: found.origin.number(),
        }
    }
}

impl Node {
    // A leaf without a record.
    pub fn without_choice(segment: Segment) -> Node
        ensures { result ≡ to_node (leaf_of segment.start.0 segment.stop.0 none) }
    {
        Node {
            start: segment.start,
            stop: segment.stop,
            significant: false,
            has_choice: false,
            choice: Choice {
                start: Position(0),
                stop: Position(0),
                best_split: Position(0),
                max_gain: 0.0,
                kind: 0,
                number: 0,
            },
            left: 0,
            right: 0,
        }
    }

    // A leaf whose choice does not cut it.
    pub fn uncut(segment: Segment, choice: GainRecord) -> Node
        ensures { result ≡ to_node (leaf_of segment.start.0 segment.stop.0 (some (to_record choice))) }
    {
        Node {
            has_choice: true,
            choice: Choice::from(choice),
            ..Node::without_choice(segment)
        }
    }

    // A segment that is cut by its choice, with the places of both parts.
    pub fn cut(segment: Segment, choice: GainRecord, left: usize, right: usize) -> Node
        ensures { result ≡ to_node (cut_of segment.start.0 segment.stop.0 (to_record choice) left right) }
    {
        Node {
            significant: true,
            left,
            right,
            ..Node::uncut(segment, choice)
        }
    }
}

// Stores a node at a place.
pub fn put_node(nodes: &mut [Node], at: usize, node: Node)
    requires { at < length nodes.old }
    ensures { nodes.new ≡ set nodes.old at node }
{
    nodes[at] = node;
}

// The node at a place.
pub fn node_at(nodes: &[Node], at: usize) -> Node
    requires { at < length nodes.now }
    ensures { result ≡ get_or nodes.now at (to_node (leaf_of 0 0 none)) }
{
    nodes[at]
}
