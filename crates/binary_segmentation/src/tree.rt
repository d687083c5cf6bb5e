// Growing the tree: each segment is judged and its direct record appended; if it is cut, its left part is grown, then its right part.
// What decides stands in small functions. `grow` and `binary_segmentation` hand the lent slices on and decide nothing.
ghost use Rattle.std.specs.Prelude.{◌≡◌, ◌+◌, ◌*◌, ◌<◌, ◌≤◌, ◌^◌, length, set};
ghost use Rattle.verdict.specs.Rules.{over, Sized};
ghost use Rattle.binary_segmentation.specs.Growth.{lent_of, SameSlices, behind, behind_cut, Judging, Growing, Fits, Ready, Segmented};

use node::Node;
use optimizer::optimizer_result::GainRecord;
use rows::{Position, Segment};
use stored::records;
use stored::records::Records;
use verdict::{Asked, Verdict};

// How many nodes, records and cuts there are: the places of the next ones.
#[derive(Clone, Copy, Debug, PartialEq, Eq)]
pub struct Counts {
    pub nodes: usize,
    pub records: usize,
    pub cuts: usize,
}

// A segment once it is judged, and the counts behind its node and its record: the leaf that it is, or the record that cuts it.
#[derive(Clone, Copy, Debug)]
pub enum Judged {
    Uncut(Node, Counts),
    Cut(GainRecord, Counts),
}

impl Counts {
    // One node more, and the records that it made.
    fn behind(self, made: usize) -> Counts
        requires { (self.nodes + 1 < 2 ^ 64) × (self.records + made < 2 ^ 64) }
        ensures { result ≡ behind self made }
    {
        Counts {
            nodes: self.nodes + 1,
            records: self.records + made,
            ..self
        }
    }
}

// Judges the segment after the records before, and appends its direct record. Of `Lent` it needs two slices.
fn judge(
    asked: Asked,
    segment: Segment,
    rows: &mut [usize],
    gains: &mut [f64],
    counts: Counts,
) -> Judged
    requires { (segment.start.0 ≤ segment.stop.0) × Sized asked segment.stop.0 × (counts.nodes + 1 < 2 ^ 64) × (counts.records + 1 < 2 ^ 64) × (5 * counts.records + 5 ≤ length rows.old) × (counts.records < length gains.old) }
    ensures { Judging (over asked.entry) segment.start.0 segment.stop.0 counts rows.old gains.old rows.new gains.new result }
{
    let before = Records {
        rows,
        gains,
        count: counts.records,
    };
    match verdict::judge(asked, segment, before) {
        Verdict::WithoutChoice => Judged::Uncut(Node::without_choice(segment), counts.behind(0)),
        Verdict::Uncut(direct, choice) => {
            records::put_record(rows, gains, counts.records, direct);
            Judged::Uncut(Node::uncut(segment, choice), counts.behind(1))
        }
        Verdict::Cut(direct, choice) => {
            records::put_record(rows, gains, counts.records, direct);
            Judged::Cut(choice, counts.behind(1))
        }
    }
}

// Appends a cut.
fn put_cut(cuts: &mut [usize], counts: Counts, split: Position) -> Counts
    requires { counts.cuts < length cuts.old }
    ensures { (result ≡ behind_cut counts) × (cuts.new ≡ set cuts.old counts.cuts split.0) }
{
    cuts[counts.cuts] = split.0;
    Counts {
        cuts: counts.cuts + 1,
        ..counts
    }
}

// Where a run is grown: its records' whole numbers and gains, its nodes and its cuts, each in a lent slice.
#[derive(Drop)]
struct Lent<'a> {
    rows: &'a mut [usize],
    gains: &'a mut [f64],
    nodes: &'a mut [Node],
    cuts: &'a mut [usize],
}

impl<'a> Lent<'a> {
    // Grows the segment: its nodes in preorder, its records, and its cuts from left to right, behind those that are counted. Tells the counts behind them.
    // What is asked is lent, so that no level of the tree holds it once more.
    fn grow(&mut self, asked: &Asked, segment: Segment, counts: Counts) -> Counts
        requires { Sized asked.now segment.stop.0 × Fits (over asked.now) segment.start.0 segment.stop.0 counts (lent_of self.old) }
        ensures grown { Growing (over asked.now) segment.start.0 segment.stop.0 counts (lent_of self.old) (lent_of self.new) result }
        ensures same { SameSlices self.old self.new }
    {
        match judge(*asked, segment, self.rows, self.gains, counts) {
            Judged::Uncut(leaf, behind) => {
                node::put_node(self.nodes, counts.nodes, leaf);
                behind
            }
            Judged::Cut(choice, first) => {
                let split = choice.best_split;
                let left = Segment {
                    stop: split,
                    ..segment
                };
                let right = Segment {
                    start: split,
                    ..segment
                };
                let second = self.grow(asked, left, first);
                let behind = put_cut(self.cuts, second, split);
                node::put_node(
                    self.nodes,
                    counts.nodes,
                    Node::cut(segment, choice, first.nodes, second.nodes),
                );
                self.grow(asked, right, behind)
            }
        }
    }
}

// Grows the whole run of n rows behind the stored segments' records, the first `count` ones. Tells how many nodes, records and cuts there are.
pub fn binary_segmentation(
    asked: Asked,
    n: usize,
    rows: &mut [usize],
    gains: &mut [f64],
    nodes: &mut [Node],
    cuts: &mut [usize],
    count: usize,
) -> Counts
    requires { Sized asked n × Ready asked n count (record { rows = rows.old; gains = gains.old; nodes = nodes.old; cuts = cuts.old }) }
    ensures { Segmented asked.entry n count (record { rows = rows.old; gains = gains.old; nodes = nodes.old; cuts = cuts.old }) (record { rows = rows.new; gains = gains.new; nodes = nodes.new; cuts = cuts.new }) result }
{
    let before = Counts {
        nodes: 0,
        records: count,
        cuts: 0,
    };
    let mut lent = Lent {
        rows,
        gains,
        nodes,
        cuts,
    };
    lent.grow(&asked, Segment::run(n), before)
}
