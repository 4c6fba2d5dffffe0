// The way back from doubles as C functions, for tests/nan_payload.c: the logic has one NaN, so only a run can see that the bits of a
// component off the grid come back unchanged.
#![tactic(auto)]

ghost use Rattle.std.specs.Prelude.{◌≡◌};
ghost use Rattle.test_off_grid.specs.Component.{off_grid_index, off_grid_component};
ghost use Rattle.operation.specs.Doubles.{on_grid};

use operation::doubles::{Doubles, OffGrid, from_doubles};

// The index of the first component off the grid, or 3 where all three are on it.
#[unsafe(no_mangle)]
pub extern "C" fn off_grid_index(x: f64, y: f64, z: f64) -> u8
    ensures { result ≡ off_grid_index (on_grid (record { x = x; y = y; z = z })) }
{
    match from_doubles(Doubles { x, y, z }) {
        Ok(_) => 3,
        Err(off) => off.index,
    }
}

// The first component off the grid as it was given, or x where all three are on it.
#[unsafe(no_mangle)]
pub extern "C" fn off_grid_component(x: f64, y: f64, z: f64) -> f64
    ensures { result ≡ off_grid_component x (on_grid (record { x = x; y = y; z = z })) }
{
    match from_doubles(Doubles { x, y, z }) {
        Ok(_) => x,
        Err(off) => off.component,
    }
}
