// Translations as three doubles, for older callers, and the way back. New beside moyo 0.21.0, where a translation is doubles throughout.

ghost use Rattle.std.specs.Prelude.{◌≡◌};
ghost use Rattle.operation.specs.Doubles.{quotient, doubles_of, grid_number, on_grid, grid_answer};

use crate::Translation;

#[derive(Clone, Copy)]
pub struct Doubles {
    pub x: f64,
    pub y: f64,
    pub z: f64,
}

// The first component that is off the grid, as it was given: refusal 16, with the index of the component, 0, 1 or 2, for its place.
#[derive(Clone, Copy)]
pub struct OffGrid {
    pub index: u8,
    pub component: f64,
}

// Each coordinate divided by 12 once, whatever it is.
pub fn to_doubles(t: Translation) -> Doubles
    ensures { result ≡ doubles_of t }
{
    Doubles {
        x: over_twelve(t.x),
        y: over_twelve(t.y),
        z: over_twelve(t.z),
    }
}

// The translation with exactly these bits, or the first component that no translation has.
pub fn from_doubles(d: Doubles) -> Result<Translation, OffGrid>
    ensures { grid_answer result ≡ on_grid d }
{
    let Some(x) = grid_number(d.x) else {
        return Err(OffGrid {
            index: 0,
            component: d.x,
        });
    };
    let Some(y) = grid_number(d.y) else {
        return Err(OffGrid {
            index: 1,
            component: d.y,
        });
    };
    let Some(z) = grid_number(d.z) else {
        return Err(OffGrid {
            index: 2,
            component: d.z,
        });
    };
    Ok(Translation { x, y, z })
}

fn over_twelve(k: u8) -> f64
    ensures { result ≡ quotient k }
{
    k as f64 / 12.0
}

// The k below 12 whose k / 12 has the bits of the component.
fn grid_number(component: f64) -> Option<u8>
    ensures { result ≡ grid_number component }
{
    if component.is_nan() {
        return None;
    }
    match component.to_bits() {
        0 => Some(0),
        4590669220166325589 => Some(1),
        4595172819793696085 => Some(2),
        4598175219545276416 => Some(3),
        4599676419421066581 => Some(4),
        4601177619296856747 => Some(5),
        4602678819172646912 => Some(6),
        4603429419110541995 => Some(7),
        4604180019048437077 => Some(8),
        4604930618986332160 => Some(9),
        4605681218924227243 => Some(10),
        4606431818862122325 => Some(11),
        _ => None,
    }
}
