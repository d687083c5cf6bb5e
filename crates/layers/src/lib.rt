// The layers of seeded segments: how many segments a layer has, and where each starts and stops. Inside the library. After segmentation.rs.
#![tactic(auto)]

ghost use Rattle.std.specs.Prelude.{◌≡◌, true, false, ◌+◌, ◌<◌, ◌≤◌, min};
ghost use Rattle.scope.specs.Refusals.{is_layer, wrong_layers};
ghost use Rattle.scope.specs.Rounding.{to_f32, truncation, ceiling};
ghost use Rattle.scope.specs.Layers.{layer_count, layer_start, layer_stop, layers_total};
ghost use Rattle.rounding.specs.Range.{in_range};
ghost use Rattle.layers.specs.Layer.{Made};

use rows::{Offset, Position, Segment};

// More layers than these are refused.
pub const MOST_LAYERS: usize = 64;

// The least value of a layer: 1/4096.
const LEAST: f64 = 0.000244140625;

// A layer of a run of n rows, worked out once for all its segments.
#[derive(Clone, Copy)]
pub struct Layer {
    pub n: usize,
    pub value: f64,
    pub count: usize,
    pub step: f64,
    // in rows, rounded up
    pub length: usize,
    ghost made: { Made n value count step length },
}

// Whether v is a layer's value.
fn is_layer(v: f64) -> bool
    ensures { result ≡ is_layer v }
{
    LEAST <= v && v < 1.0
}

// Whether the layers are refused: too many, or a value that is none of a layer.
pub fn wrong_layers(layers: &[f64]) -> bool
    ensures { result ≡ wrong_layers layers.now }
{
    MOST_LAYERS < layers.len() || !layers.iter().all(|value| is_layer(*value))
}

// Truncation of f32(x).
fn truncated(x: f64) -> usize
    requires { in_range (to_f32 x) }
    ensures { result ≡ truncation (to_f32 x) }
{
    let narrow = rounding::nearest_f32(x);
    rounding::truncation(f64::from(narrow)) as usize
}

// ceil(f32(x)).
fn rounded_up(x: f64) -> usize
    requires { in_range (to_f32 x) }
    ensures { result ≡ ceiling (to_f32 x) }
{
    let narrow = rounding::nearest_f32(x);
    rounding::ceiling(f64::from(narrow)) as usize
}

// How many segments a layer has.
pub fn layer_count(v: f64) -> usize
    requires { is_layer v ≡ true }
    ensures { result ≡ layer_count v }
{
    2 * rounded_up(1.0 / v) - 1
}

// T, the layers' counts summed.
pub fn layers_total(layers: &[f64]) -> usize
    requires { wrong_layers layers.now ≡ false }
    ensures { result ≡ layers_total layers.now }
{
    let mut total = 0;
    for value in layers {
        total += layer_count(*value);
    }
    total
}

impl Layer {
    // A layer of one segment has no step: its start is 0, and step is not read.
    pub fn new(n: usize, v: f64) -> Layer
        requires { (n ≤ 4096) × (is_layer v ≡ true) }
        ensures { (result.n ≡ n) × (result.value ≡ v) }
    {
        let len = n as f64 * v;
        let count = layer_count(v);
        Layer {
            n,
            value: v,
            count,
            step: (n as f64 - len) / (count - 1) as f64,
            length: rounded_up(len),
        }
    }

    // Where the segment number id starts.
    fn start(self, id: usize) -> Position
        requires { id < self.count }
        ensures { result.0 ≡ layer_start self.n self.value id }
    {
        if self.count == 1 {
            return Position(0);
        }
        Position(truncated(id as f64 * self.step))
    }

    // Where a segment that starts there stops.
    fn stop(self, start: Position) -> Position
        requires { start.0 ≤ self.n }
        ensures { result.0 ≡ min (start.0 + self.length) self.n }
    {
        let stop = Offset(self.length).position_from(start);
        stop.min(Position(self.n))
    }

    // The segment number id. It lies in the run.
    pub fn segment(self, id: usize) -> Segment
        requires { id < self.count }
        ensures { (result.start.0 ≡ layer_start self.n self.value id) × (result.stop.0 ≡ layer_stop self.n self.value id) × (result.start.0 ≤ result.stop.0) × (result.stop.0 ≤ self.n) }
    {
        let start = self.start(id);
        let stop = self.stop(start);
        Segment { start, stop }
    }
}
