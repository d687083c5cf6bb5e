// The segments that are searched before a tree is grown, of layers or of draws: their records, in order, in lent memory. Inside the library.
// After segmentation.rs, "SBS" and "WBS"; neither layers nor draws means "BS".
#![tactic(auto)]

ghost use Rattle.std.specs.Prelude.{◌≡◌, false, map, ◌+◌, ◌≤◌, length};
ghost use Rattle.scope.specs.Refusals.{wrong_layers};
ghost use Rattle.scope.specs.Origin.{layer as of_layer, draw as of_draw};
ghost use Rattle.scope.specs.Layers.{of_origin, one, labelled, seeded, layer_segments, layers_total};
ghost use Rattle.scope.specs.Draws.{drawn, stored_segments, most_stored};
ghost use Rattle.scope.specs.Calls.{stored_refusal};
ghost use Rattle.control.specs.Refused.{number_in};
ghost use Rattle.control.specs.Settings.{matrix_of, shortest_of, source_of};
ghost use Rattle.optimizer.specs.Records.{to_origin};
ghost use Rattle.stored.specs.Flat.{Put};
ghost use Rattle.rows.specs.Segments.{to_segment};
ghost use Rattle.segmentation.specs.Segments.{Sized, RoomFor, search_over, stored_over, draw_record, Within, stored_asked, StoresSegments};

use change_in_mean::ChangeInMean;
use control::{Allowed, Matrix, Refusal, Source};
use layers::Layer;
use optimizer::optimizer_result::Origin;
use rows::Segment;
use stored::records;

// Searches a segment and stores its record, with its origin, at the place `at`; a segment that the search refuses leaves none. Tells the next place.
// `rows`, `gains` and the place go together here and below, and stay apart: of a struct of two lent slices each contract would say besides that they are
// the same loans.
fn store_segment(
    gain: ChangeInMean,
    allowed: Allowed,
    segment: Segment,
    origin: Origin,
    rows: &mut [usize],
    gains: &mut [f64],
    at: usize,
) -> usize
    requires start_le_stop { (segment.start.0 ≤ segment.stop.0) × Sized gain allowed segment.stop.0 }
    requires at_in_bounds { RoomFor (at + 1) rows.old gains.old }
    ensures { Put (one (labelled (to_origin origin) (search_over gain.entry allowed.entry segment.start.0 segment.stop.0))) at rows.old gains.old rows.new gains.new result }
{
    let Ok(found) = grid_search::search_segment(gain, allowed, segment) else {
        return at;
    };
    records::put_record(rows, gains, at, found.with_origin(origin));
    at + 1
}

// The records of a layer's segments, with its number, stored from the place `at` on. Tells the next place.
fn store_layer(
    gain: ChangeInMean,
    allowed: Allowed,
    layer: Layer,
    number: usize,
    rows: &mut [usize],
    gains: &mut [f64],
    at: usize,
) -> usize
    requires n_bound { Sized gain allowed layer.n }
    requires count_in_bounds { RoomFor (at + layer.count) rows.old gains.old }
    ensures { Put (stored_over gain.entry allowed.entry (map (of_origin (of_layer number)) (layer_segments layer.n layer.value layer.count))) at rows.old gains.old rows.new gains.new result }
{
    let mut next = at;
    for id in 0..layer.count {
        next = store_segment(
            gain,
            allowed,
            layer.segment(id),
            Origin::Layer(number),
            rows,
            gains,
            next,
        );
    }
    next
}

// The records of all layers' segments, in order, stored from the start; the layers are numbered from 1. Tells how many.
fn store_layers(
    gain: ChangeInMean,
    n: usize,
    allowed: Allowed,
    layers: &[f64],
    rows: &mut [usize],
    gains: &mut [f64],
) -> usize
    requires n_bound { Sized gain allowed n }
    requires layers_value { wrong_layers layers.now ≡ false }
    requires layers_in_bounds { RoomFor (layers_total layers.now) rows.old gains.old }
    ensures { Put (stored_over gain.entry allowed.entry (seeded n layers.now)) 0 rows.old gains.old rows.new gains.new result }
{
    let mut count = 0;
    for (i, value) in layers.iter().enumerate() {
        let layer = Layer::new(n, *value);
        count = store_layer(gain, allowed, layer, i + 1, rows, gains, count);
    }
    count
}

// The record of a draw, with its number, stored at the place `at`; one that is passed over leaves none. Tells the next place.
fn store_draw(
    gain: ChangeInMean,
    allowed: Allowed,
    draw: Segment,
    number: usize,
    rows: &mut [usize],
    gains: &mut [f64],
    at: usize,
) -> usize
    requires stop_bound { Sized gain allowed draw.stop.0 }
    requires at_in_bounds { RoomFor (at + 1) rows.old gains.old }
    ensures { Put (one (labelled (of_draw number) (draw_record (search_over gain.entry allowed.entry) (to_segment draw)))) at rows.old gains.old rows.new gains.new result }
{
    if !draws::is_searched(draw) {
        return at;
    }
    store_segment(gain, allowed, draw, Origin::Draw(number), rows, gains, at)
}

// The records of the draws, in order, stored from the start until w stand or the list ends; the pairs of the list are numbered from 0, those passed over too.
// Tells how many.
fn store_draws(
    gain: ChangeInMean,
    allowed: Allowed,
    draws: &[usize],
    w: usize,
    rows: &mut [usize],
    gains: &mut [f64],
) -> usize
    requires m_bound { (allowed.shortest.m ≤ 4096) × Within draws.now gain.d (length gain.sums.now) }
    requires w_in_bounds { RoomFor w rows.old gains.old }
    ensures { Put (stored_over gain.entry allowed.entry (drawn (search_over gain.entry allowed.entry) draws.now w)) 0 rows.old gains.old rows.new gains.new result }
{
    let mut count = 0;
    for (number, pair) in draws.chunks_exact(2).enumerate() {
        if count >= w {
            return count;
        }
        let draw = draws::draw_at(pair, 0);
        count = store_draw(gain, allowed, draw, number, rows, gains, count);
    }
    count
}

// The stored records: those of the draws where there are any, else those of the layers. Tells how many.
pub fn store_records(
    gain: ChangeInMean,
    n: usize,
    allowed: Allowed,
    source: Source,
    rows: &mut [usize],
    gains: &mut [f64],
) -> usize
    requires n_bound { Sized gain allowed n }
    requires layers_value { (wrong_layers source.layers.now ≡ false) × Within source.draws.now gain.d (length gain.sums.now) }
    requires w_in_bounds { RoomFor (most_stored (source_of source)) rows.old gains.old }
    ensures { Put (stored_over gain.entry allowed.entry (stored_segments (search_over gain.entry allowed.entry) n (source_of source.entry))) 0 rows.old gains.old rows.new gains.new result }
{
    if source.draws.is_empty() {
        return store_layers(gain, n, allowed, source.layers, rows, gains);
    }
    store_draws(gain, allowed, source.draws, source.w, rows, gains)
}

// The refusal that applies to a call for the stored segments' records: each takes five whole numbers and one gain.
#[tactic(auto, using(crate::proofs::Clean::by_source, crate::proofs::Clean::sizes_passed), unfolding(scope::specs::Calls::stored_refusal))]
pub fn stored_refusal(
    matrix: Matrix,
    allowed: Allowed,
    source: Source,
    sums: usize,
    records: usize,
) -> Result<(), Refusal>
    ensures { number_in result ≡ stored_refusal (record { matrix = matrix_of matrix.entry; shortest = shortest_of allowed.entry.shortest; forbidden = allowed.entry.forbidden.now; source = source_of source.entry; sums = sums; records = records }) }
{
    control::sizes_refusal(matrix, allowed.shortest)?;
    control::values_refusal(matrix.cells, allowed.forbidden)?;
    draws::source_refusal(source)?;
    if sums < control::sums_len(matrix.n, matrix.d) {
        return Err(Refusal::Room);
    }
    if records < draws::most_stored(source) {
        return Err(Refusal::Room);
    }
    if draws::any_past(source.draws, matrix.n) {
        return Err(Refusal::Segment);
    }
    Ok(())
}

// What is stored once nothing is refused: the prefix sums, and the records of the stored segments. Tells how many records.
pub fn store_segments(
    matrix: Matrix,
    allowed: Allowed,
    source: Source,
    sums: &mut [f64],
    rows: &mut [usize],
    gains: &mut [f64],
) -> usize
    requires { stored_refusal (stored_asked (matrix_of matrix) (shortest_of allowed.shortest) allowed.forbidden.now (source_of source) (record { sums = sums.old; rows = rows.old; gains = gains.old })) ≡ 0 }
    ensures { StoresSegments (matrix_of matrix.entry) (shortest_of allowed.entry.shortest) allowed.entry.forbidden.now (source_of source.entry) result (record { sums = sums.old; rows = rows.old; gains = gains.old }) (record { sums = sums.new; rows = rows.new; gains = gains.new }) }
{
    change_in_mean::calculate_cumsum(matrix.cells, matrix.d, sums);
    let gain = ChangeInMean {
        sums: &sums[..control::sums_len(matrix.n, matrix.d)],
        d: matrix.d,
    };
    store_records(gain, matrix.n, allowed, source, rows, gains)
}
