// The streams of the variables of inequalities.
ghost use Rattle.std.specs.Prelude.{◌≡◌, ◌<◌, ◌^◌, ◌++◌, length, replicate, IfOk, OnOk};
ghost use Rattle.lucy_shape.specs.Fitting.{position_count, variable_count};
ghost use Rattle.lucy_explain.specs.Streams as spec;

use lucy_shape::ClockShape;
use std::alloc::{AllocError, Global};

// A stream so many times, put last.
fn put_positions(
    alloc: Global,
    stream: u32,
    count: usize,
    streams: &mut Vec<u32>,
) -> Result<(), AllocError>
    ensures { OnOk result (streams.new.items ≡ streams.old.items ++ replicate count stream) }
{
    let more = vec![in alloc; stream; count]?;
    streams.extend_from_slice(&more)?;
    Ok(())
}

// The stream of a clock for each of its positions, put last.
fn put_clock(
    alloc: Global,
    stream: u32,
    shape: &ClockShape,
    streams: &mut Vec<u32>,
) -> Result<(), AllocError>
    requires { position_count shape.now < 2 ^ 32 }
    ensures { OnOk result (streams.new.items ≡ streams.old.items ++ replicate (position_count shape.now) stream) }
{
    if shape.used {
        put_positions(alloc, stream, (shape.lead + shape.ones) as usize, streams)
    } else {
        Ok(())
    }
}

/// The stream of each variable by its number, from those of the clocks, in a shape with so many variables. The origin has the
/// number that is given.
pub(crate) fn variable_streams(
    alloc: Global,
    origin: u32,
    streams: &[u32],
    shapes: &[ClockShape],
    count: u32,
) -> Result<Vec<u32>, AllocError>
    requires clocks { length streams.now ≡ length shapes.now }
    requires count { count ≡ variable_count shapes.now }
    ensures is { IfOk result (λ v. v.items ≡ spec.variable_streams origin streams.now shapes.now) }
    ensures all { IfOk result (λ v. length v.items ≡ count) }
{
    let mut found = vec![in alloc; origin; 1]?;
    'each: for clock in 0..shapes.len() {
        put_clock(alloc, streams[clock], &shapes[clock], &mut found)?;
    }
    Ok(found)
}
