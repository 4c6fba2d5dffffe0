// Lists of generators, and their move to a shifted origin.
// Ported from data/hall_symbol.rs of moyo 0.21.0, and changed: twelfths for f64, the inversion modulo 12 too, and a list of nine places.
ghost use Rattle.std.specs.Prelude.{◌≡◌, ◌+◌, ◌*◌, ◌<◌, ◌≤◌};
ghost use Rattle.hall_symbol.specs.Generators.{inversion_operation, shifted_coordinate, shifted};
ghost use Rattle.hall_symbol.specs.Listed.{Started, Pushed, Moved};

use operation::product::identity;
use operation::{Operation, Rotation, Translation};

// The first `count` operations are the list.
#[derive(Clone, Copy)]
pub(crate) struct Generators {
    pub count: usize,
    pub operations: [Operation; 9],
}

fn inversion() -> Operation
    ensures { result ≡ inversion_operation }
{
    Operation {
        rotation: Rotation {
            xx: 0,
            xy: 1,
            xz: 1,
            yx: 1,
            yy: 0,
            yz: 1,
            zx: 1,
            zy: 1,
            zz: 0,
        },
        translation: Translation { x: 0, y: 0, z: 0 },
    }
}

// An entry is a − 1, and modulo 12 its negative is 11·a + 1, so that no number here is negative.
fn turned_back(a: u8, u: u8) -> u32
    ensures { (result ≡ (11 * a + 1) * u) × (result ≤ 715530) }
{
    (11 * u32::from(a) + 1) * u32::from(u)
}

// One coordinate of t + v − Rv modulo 12.
fn shifted_coordinate(a: u8, b: u8, c: u8, v: Translation, w: u8, t: u8) -> u8
    ensures { result ≡ shifted_coordinate a b c v w t }
{
    let still = u32::from(t) + u32::from(w);
    let sum = still + turned_back(a, v.x) + turned_back(b, v.y) + turned_back(c, v.z);
    (sum % 12) as u8
}

// A generator at the origin moved by v.
pub(crate) fn shifted(g: Operation, v: Translation) -> Operation
    ensures { result ≡ shifted v g }
{
    let r = g.rotation;
    let t = g.translation;
    let x = shifted_coordinate(r.xx, r.xy, r.xz, v, v.x, t.x);
    let y = shifted_coordinate(r.yx, r.yy, r.yz, v, v.y, t.y);
    let z = shifted_coordinate(r.zx, r.zy, r.zz, v, v.z, t.z);
    Operation {
        rotation: r,
        translation: Translation { x, y, z },
    }
}

impl Generators {
    pub(crate) fn push(&mut self, generator: Operation)
        requires { self.now.count < 9 }
        ensures { Pushed self.old generator self.new }
    {
        self.operations[self.count] = generator;
        self.count += 1;
    }
}

// The generators that the first token gives: the inversion, or none.
pub(crate) fn leading(inverted: bool) -> Generators
    ensures { Started inverted result }
{
    let mut list = Generators {
        count: 0,
        operations: [identity(); 9],
    };
    if inverted {
        list.push(inversion());
    }
    list
}

// Every generator moved, and the identity in the slots past them.
pub(crate) fn shifted_all(list: Generators, v: Translation) -> Generators
    requires { list.count ≤ 9 }
    ensures { Moved list v result }
{
    let mut moved = [identity(); 9];
    for i in 0..list.count {
        moved[i] = shifted(list.operations[i], v);
    }
    Generators {
        count: list.count,
        operations: moved,
    }
}
