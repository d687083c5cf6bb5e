// A call for the tree, up to its growing: judged, and where nothing is refused the prefix sums and the stored segments' records stored. What any run is
// refused for first stands here as well. Inside the library.
// The lent slices stay apart: a struct of `&mut` slices would be built for one call and taken apart in it, and the contract names each.
#![tactic(auto)]

ghost use Rattle.std.specs.Prelude.{◌≡◌, false, ◌≤◌};
ghost use Rattle.scope.specs.Refusals.{first_of, wrong_layers};
ghost use Rattle.scope.specs.Calls.{run_tests, room_tests, tree_refusal};
ghost use Rattle.control.specs.Refused.{number_in};
ghost use Rattle.control.specs.Settings.{matrix_of, shortest_of, source_of, settings_of};
ghost use Rattle.prepared.specs.Answers.{room_of, room_in, tree_asked, TreePrepares};

use control::{Matrix, Refusal, Settings, Shortest, Source};

pub mod fed;

// The lent room, counted: prefix sums, records, nodes and cuts.
#[derive(Clone, Copy, Debug, PartialEq, Eq)]
pub struct Room {
    pub sums: usize,
    pub records: usize,
    pub nodes: usize,
    pub cuts: usize,
}

impl Room {
    // The room where these slices are lent, and others for so many nodes and cuts.
    fn lent(sums: &[f64], rows: &[usize], gains: &[f64], nodes: usize, cuts: usize) -> Room
        ensures { room_of result ≡ room_in (record { sums = sums.now; rows = rows.now; gains = gains.now }) nodes cuts }
    {
        Room {
            sums: sums.len(),
            records: control::record_room(rows.len(), gains.len()),
            nodes,
            cuts,
        }
    }
}

// How many prefix sums stand, and how many records the stored segments left.
#[derive(Clone, Copy, Debug, PartialEq, Eq)]
pub struct Prepared {
    pub len: usize,
    pub stored: usize,
}

// What a run is refused for up to 6: what every call that judges segments by a threshold is refused for first.
pub fn run_refusal(matrix: Matrix, settings: Settings) -> Result<(), Refusal>
    ensures { number_in result ≡ first_of (run_tests (matrix_of matrix.entry) (settings_of settings.entry)) }
{
    control::sizes_refusal(matrix, settings.allowed.shortest)?;
    if settings.threshold.is_nan() {
        return Err(Refusal::Threshold);
    }
    control::values_refusal(matrix.cells, settings.allowed.forbidden)?;
    draws::source_refusal(settings.source)
}

// The room of a tree: B nodes and (B-1)/2 cuts at most, and a record for each node beside those of the stored segments.
pub fn room_refusal(
    n: usize,
    d: usize,
    shortest: Shortest,
    source: Source,
    room: Room,
) -> Result<(), Refusal>
    requires { (n ≤ 4096) × (d ≤ 64) × (1 ≤ shortest.m) × (wrong_layers source.layers.now ≡ false) × (source.w ≤ 4096) }
    ensures { number_in result ≡ first_of (room_tests n d (shortest_of shortest) (source_of source.entry) (room_of room)) }
{
    if room.sums < control::sums_len(n, d) {
        return Err(Refusal::Room);
    }
    let most = control::most_nodes(n, shortest);
    if room.records < draws::most_stored(source) + most {
        return Err(Refusal::Room);
    }
    if room.nodes < most {
        return Err(Refusal::Room);
    }
    if room.cuts < (most - 1) / 2 {
        return Err(Refusal::Room);
    }
    Ok(())
}

// What a call for the tree is refused for.
#[tactic(auto, unfolding(scope::specs::Calls::tree_refusal))]
pub fn tree_refusal(matrix: Matrix, settings: Settings, room: Room) -> Result<(), Refusal>
    ensures { number_in result ≡ tree_refusal (record { matrix = matrix_of matrix.entry; settings = settings_of settings.entry; room = room_of room }) }
{
    run_refusal(matrix, settings)?;
    room_refusal(
        matrix.n,
        matrix.d,
        settings.allowed.shortest,
        settings.source,
        room,
    )?;
    if draws::any_past(settings.source.draws, matrix.n) {
        return Err(Refusal::Segment);
    }
    Ok(())
}

// Judges every refusal of a call for the tree; then the prefix sums and the stored segments' records, which the tree is grown behind.
pub fn prepare(
    matrix: Matrix,
    settings: Settings,
    sums: &mut [f64],
    rows: &mut [usize],
    gains: &mut [f64],
    nodes: usize,
    cuts: usize,
) -> Result<Prepared, Refusal>
    ensures { TreePrepares (tree_asked (matrix_of matrix.entry) (settings_of settings.entry) (record { sums = sums.old; rows = rows.old; gains = gains.old }) nodes cuts) result (record { sums = sums.old; rows = rows.old; gains = gains.old }) (record { sums = sums.new; rows = rows.new; gains = gains.new }) }
{
    let room = Room::lent(sums, rows, gains, nodes, cuts);
    tree_refusal(matrix, settings, room)?;
    let stored = segmentation::store_segments(
        matrix,
        settings.allowed,
        settings.source,
        sums,
        rows,
        gains,
    );
    Ok(Prepared {
        len: control::sums_len(matrix.n, matrix.d),
        stored,
    })
}
