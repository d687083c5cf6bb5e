// The minimal length and the nearest f32, exported.
ghost use Rattle.std.specs.Prelude.{◌≡◌};
ghost use Rattle.scope.specs.Rounding.{to_f32};
ghost use Rattle.changeforest_c.specs.Stored.{LengthStored};

// m from a relative length and n rows.
#[unsafe(no_mangle)]
pub extern "C" fn changeforest_minimal_segment_length(relative: f64, n: usize, m: &mut usize) -> u32
    ensures { LengthStored relative n result m.old m.new }
{
    told::tell_value(entry_lengths::minimal_segment_length(relative, n), m)
}

// The f32 nearest to x.
#[unsafe(no_mangle)]
pub extern "C" fn changeforest_nearest_f32(x: f64) -> f32
    ensures answer { result ≡ to_f32 x }
{
    entry_lengths::nearest_f32(x)
}
