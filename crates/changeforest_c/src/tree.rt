// The tree, exported.
ghost use Rattle.changeforest_c.specs.Stored.{TreeStored};

use control::{Allowed, Matrix, Settings, Shortest, Source};
use node::Node;

// The tree of the run: its nodes in preorder into nodes, its cuts into cuts; start, stop, best split and the origin's kind and number of each
// record into rows, its gain into gains, those of the stored segments first, which come from layers or from draws; sums takes the prefix sums. How many nodes, records
// and cuts there are, and how many stored records, goes into counts, which has four entries or is refused.
#[unsafe(no_mangle)]
pub extern "C" fn changeforest_tree(
    cells: &[f64],
    n: usize,
    d: usize,
    m: usize,
    closed: bool,
    threshold: f64,
    forbidden: &[usize],
    layers: &[f64],
    draws: &[usize],
    w: usize,
    sums: &mut [f64],
    rows: &mut [usize],
    gains: &mut [f64],
    nodes: &mut [Node],
    cuts: &mut [usize],
    counts: &mut [usize],
) -> u32
    ensures { TreeStored (record { cells = cells.now; n = n; d = d }) (record { shortest = record { m = m; closed = closed }; threshold = threshold; forbidden = forbidden.now; source = record { layers = layers.now; draws = draws.now; W = w } }) result (record { sums = sums.old; rows = rows.old; gains = gains.old; nodes = nodes.old; cuts = cuts.old }) (record { sums = sums.new; rows = rows.new; gains = gains.new; nodes = nodes.new; cuts = cuts.new }) counts.old counts.new }
{
    let shortest = Shortest { m, closed };
    let settings = Settings {
        allowed: Allowed {
            shortest,
            forbidden,
        },
        threshold,
        source: Source { layers, draws, w },
    };
    let room = told::counted_room(nodes.len(), counts.len());
    let grown = entry_tree::binary_segmentation(
        Matrix { cells, n, d },
        settings,
        sums,
        rows,
        gains,
        &mut nodes[..room],
        cuts,
    );
    told::tell(grown, counts)
}
