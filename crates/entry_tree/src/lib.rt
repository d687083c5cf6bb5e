// The tree of a run: its node list, its records and its sheet; from its matrix, or from the sums that a fed run has left.
// Entry points: whatever is passed in, each ends with an answer or with a refusal, which has changed no lent memory. None has a `requires`.
// The lent slices stay apart: a struct of `&mut` slices would be built for one call and taken apart in it, and the contract names each.
#![tactic(auto)]

ghost use Rattle.control.specs.Settings.{matrix_of, settings_of};
ghost use Rattle.feed.specs.States.{state_of};
ghost use Rattle.entry_tree.specs.Left.{TreeLeft, FedLeft, PointsLeft};

use binary_segmentation::tree;
use binary_segmentation::tree::Counts;
use change_in_mean::ChangeInMean;
use control::{Matrix, Refusal, Settings};
use feed::State;
use node::Node;
use rows::Segment;
use verdict::Asked;

// How many nodes, records and cuts were written, and how many of the records are the stored segments'.
#[derive(Clone, Copy, Debug, PartialEq, Eq)]
pub struct Grown {
    pub counts: Counts,
    pub stored: usize,
}

// The tree of the run: its nodes in preorder into `nodes`, its cuts from left to right into `cuts`; start, stop, best split and the origin's kind and number of
// each record into `rows`, its gain into `gains`, those of the stored segments first, which come from the layers or from the draws. The prefix sums are left in `sums`.
pub fn binary_segmentation(
    matrix: Matrix,
    settings: Settings,
    sums: &mut [f64],
    rows: &mut [usize],
    gains: &mut [f64],
    nodes: &mut [Node],
    cuts: &mut [usize],
) -> Result<Grown, Refusal>
    ensures { TreeLeft (matrix_of matrix.entry) (settings_of settings.entry) result (record { sums = sums.old; rows = rows.old; gains = gains.old; nodes = nodes.old; cuts = cuts.old }) (record { sums = sums.new; rows = rows.new; gains = gains.new; nodes = nodes.new; cuts = cuts.new }) }
{
    let prepared = prepared::prepare(matrix, settings, sums, rows, gains, nodes.len(), cuts.len())?;
    let gain = ChangeInMean {
        sums: &sums[..prepared.len],
        d: matrix.d,
    };
    let counts = tree::binary_segmentation(
        Asked { gain, settings },
        matrix.n,
        rows,
        gains,
        nodes,
        cuts,
        prepared.stored,
    );
    Ok(Grown {
        counts,
        stored: prepared.stored,
    })
}

// The later sheet: the same of a run that was fed, whose prefix sums stand in `sums`. There is no matrix, and the sums are read alone.
// Each grows over its own sums: one function for both would take seven parameters and a contract longer than these lines.
pub fn fed_tree(
    sums: &[f64],
    state: State,
    settings: Settings,
    rows: &mut [usize],
    gains: &mut [f64],
    nodes: &mut [Node],
    cuts: &mut [usize],
) -> Result<Grown, Refusal>
    ensures { FedLeft (state_of state) (settings_of settings.entry) result (record { sums = sums.now; rows = rows.old; gains = gains.old; nodes = nodes.old; cuts = cuts.old }) (record { sums = sums.now; rows = rows.new; gains = gains.new; nodes = nodes.new; cuts = cuts.new }) }
{
    let prepared = prepared::fed::prepare(
        sums,
        state,
        settings,
        rows,
        gains,
        nodes.len(),
        cuts.len(),
    )?;
    let gain = ChangeInMean {
        sums: &sums[..prepared.len],
        d: state.d,
    };
    let counts = tree::binary_segmentation(
        Asked { gain, settings },
        state.n,
        rows,
        gains,
        nodes,
        cuts,
        prepared.stored,
    );
    Ok(Grown {
        counts,
        stored: prepared.stored,
    })
}

// The most nodes that any run has: those of 4,096 rows at m = 1, with the closed end.
const MOST_NODES: usize = 8191;

// The cuts, for a caller with no use for the nodes: their room is local.
pub fn split_points(
    matrix: Matrix,
    settings: Settings,
    sums: &mut [f64],
    rows: &mut [usize],
    gains: &mut [f64],
    cuts: &mut [usize],
) -> Result<Grown, Refusal>
    ensures { PointsLeft (matrix_of matrix.entry) (settings_of settings.entry) result (record { sums = sums.old; rows = rows.old; gains = gains.old }) (record { sums = sums.new; rows = rows.new; gains = gains.new }) cuts.old cuts.new }
{
    let mut nodes = [Node::without_choice(Segment::run(0)); MOST_NODES];
    binary_segmentation(matrix, settings, sums, rows, gains, &mut nodes, cuts)
}
