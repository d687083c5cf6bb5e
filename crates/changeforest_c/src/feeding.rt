// Rows while the deck feeds, exported: a run is opened, takes its cells in lots, is closed, and has its later sheet. Its state is n, d and count.
ghost use Rattle.std.specs.Prelude.{length};
ghost use Rattle.changeforest_c.specs.Stored.{OpenStored, FeedStored, CloseStored, FedStored};

use control::{Allowed, Settings, Shortest, Source};
use feed::State;
use node::Node;

// Opens a run of n rows of d columns: count is 0, and so are the first d sums.
#[unsafe(no_mangle)]
pub extern "C" fn changeforest_open(n: usize, d: usize, sums: &mut [f64], count: &mut usize) -> u32
    ensures { OpenStored (record { n = n; d = d; room = length sums.old }) result sums.old sums.new count.old count.new }
{
    let opened = entry_feed::open(n, d, sums);
    told::tell_value(opened.map(|state| state.count), count)
}

// Takes a lot of cells behind the first count ones: their prefix sums into sums, and count is then that of all taken.
#[unsafe(no_mangle)]
pub extern "C" fn changeforest_feed(
    lot: &[f64],
    n: usize,
    d: usize,
    sums: &mut [f64],
    count: &mut usize,
) -> u32
    ensures { FeedStored (record { state = record { n = n; d = d; count = count.old }; lot = lot.now; sums = sums.old }) result sums.new count.new }
{
    let state = State {
        n,
        d,
        count: *count,
    };
    let fed = entry_feed::feed(lot, state, sums);
    told::tell_value(fed.map(|next| next.count), count)
}

// Closes a run whose cells were all taken.
#[unsafe(no_mangle)]
pub extern "C" fn changeforest_close(n: usize, d: usize, count: usize) -> u32
    ensures { CloseStored (record { n = n; d = d; count = count }) result }
{
    let closed = entry_feed::close(State { n, d, count });
    told::tell_done(closed.map(|_state| ()))
}

// The later sheet: what changeforest_tree gives, over the sums that were fed, which are read alone.
#[unsafe(no_mangle)]
pub extern "C" fn changeforest_fed_tree(
    sums: &[f64],
    n: usize,
    d: usize,
    count: usize,
    m: usize,
    closed: bool,
    threshold: f64,
    forbidden: &[usize],
    layers: &[f64],
    draws: &[usize],
    w: usize,
    rows: &mut [usize],
    gains: &mut [f64],
    nodes: &mut [Node],
    cuts: &mut [usize],
    counts: &mut [usize],
) -> u32
    ensures { FedStored (record { n = n; d = d; count = count }) (record { shortest = record { m = m; closed = closed }; threshold = threshold; forbidden = forbidden.now; source = record { layers = layers.now; draws = draws.now; W = w } }) result (record { sums = sums.now; rows = rows.old; gains = gains.old; nodes = nodes.old; cuts = cuts.old }) (record { sums = sums.now; rows = rows.new; gains = gains.new; nodes = nodes.new; cuts = cuts.new }) counts.old counts.new }
{
    let shortest = Shortest { m, closed };
    let settings = Settings {
        allowed: Allowed {
            shortest,
            forbidden,
        },
        threshold,
        source: Source { layers, draws, w },
    };
    let state = State { n, d, count };
    let room = told::counted_room(nodes.len(), counts.len());
    let grown = entry_tree::fed_tree(sums, state, settings, rows, gains, &mut nodes[..room], cuts);
    told::tell(grown, counts)
}
