// The identity, and the product (R,t)(S,u) = (RS, Ru + t) with the translation modulo 12.
// Ported from base/operation.rs of moyo 0.21.0 (`identity`, `mul`), and changed: digits and twelfths, and an answer for a product whose entries leave −1..1.
ghost use Rattle.std.specs.Prelude.{◌≡◌, ◌*◌, ◌≤◌};
ghost use Rattle.operation.specs.Lanes.{lanes_of, rows_times, raised_column, fours_of};
ghost use Rattle.operation.specs.Twelves.{reduced_of, SmallLanes};
ghost use Rattle.operation.specs.Product.{identity_operation, column_times, rotation_times, moved_of, rotated_of, product_of};

use crate::lanes::{EACH, SECOND, THIRD, bytes, lanes};
use crate::{Operation, Rotation, Translation};

// The digits of one column of a product of rotations.
#[derive(Clone, Copy)]
struct Column {
    x: u8,
    y: u8,
    z: u8,
}

pub fn identity() -> Operation
    ensures { result ≡ identity_operation }
{
    Operation {
        rotation: Rotation {
            xx: 2,
            xy: 1,
            xz: 1,
            yx: 1,
            yy: 2,
            yz: 1,
            zx: 1,
            zy: 1,
            zz: 2,
        },
        translation: Translation { x: 0, y: 0, z: 0 },
    }
}

fn lanes_times(x: u8, y: u8, z: u8, a: u8) -> u64
    ensures { (result ≡ lanes_of (x * a) (y * a) (z * a)) × (result ≤ 285983110751911425) }
{
    lanes(x, y, z) * u64::from(a)
}

// The three rows of digits times a column.
fn rows_times(r: Rotation, a: u8, b: u8, c: u8) -> u64
    ensures { (result ≡ rows_times r a b c) × (result ≤ 857949332255734275) }
{
    lanes_times(r.xx, r.yx, r.zx, a)
        + lanes_times(r.xy, r.yy, r.zy, b)
        + lanes_times(r.xz, r.yz, r.zz, c)
}

// Σ(a−1)(x−1) + 1 is Σax + 4 less Σ(a+x). With 2048 more in each lane no number here is negative, and none borrows from the next.
fn raised_column(r: Rotation, a: u8, b: u8, c: u8) -> u64
    ensures { (result ≡ raised_column r a b c) × (result ≤ 866974127999877639) }
{
    let base = 2052 * EACH - rows_times(r, 1, 1, 1);
    rows_times(r, a, b, c) + base - (u64::from(a) + u64::from(b) + u64::from(c)) * EACH
}

// Each lane's largest multiple of 4.
fn fours(n: u64) -> u64
    ensures { result ≡ fours_of n }
{
    n - (n % 4 + n / SECOND % 4 * SECOND + n / THIRD % 4 * THIRD)
}

// A column of a product of rotations: each lane is 2048, 2049 or 2050 where it and the next number both have the multiple 2048.
fn column_times(r: Rotation, a: u8, b: u8, c: u8) -> Option<Column>
    ensures { result ≡ column_times r a b c }
{
    let raised = raised_column(r, a, b, c);
    if fours(raised) != 2048 * EACH || fours(raised + EACH) != 2048 * EACH {
        return None;
    }
    Some(Column {
        x: (raised % 256) as u8,
        y: (raised / SECOND % 256) as u8,
        z: (raised / THIRD % 256) as u8,
    })
}

// The product of rotations, if no entry has left −1..1.
fn rotation_times(r: Rotation, s: Rotation) -> Option<Rotation>
    ensures { result ≡ rotation_times r s }
{
    let x = column_times(r, s.xx, s.yx, s.zx)?;
    let y = column_times(r, s.xy, s.yy, s.zy)?;
    let z = column_times(r, s.xz, s.yz, s.zz)?;
    Some(Rotation {
        xx: x.x,
        xy: y.x,
        xz: z.x,
        yx: x.y,
        yy: y.y,
        yz: z.y,
        zx: x.z,
        zy: y.z,
        zz: z.z,
    })
}

// Each lane modulo 12, and no remainder taken: 1020, which is 85 times 12, goes off as often as 1024 fits, and then 12 as often as it fits, which below 2040 is
// 683 / 8192 of what is there. Each step is one for the three lanes.
fn reduced(sum: u64) -> Translation
    requires { SmallLanes sum }
    ensures { result ≡ reduced_of sum }
{
    let rest = sum - bytes(sum / 1024) * 1020;
    let left = rest - bytes(rest * 683 / 8192) * 12;
    Translation {
        x: (left % 256) as u8,
        y: (left / SECOND % 256) as u8,
        z: (left / THIRD % 256) as u8,
    }
}

// Ru + t modulo 12. An entry is a − 1, so modulo 12 it is a + 11.
fn moved(r: Rotation, u: Translation, t: Translation) -> Translation
    ensures { result ≡ moved_of r u t }
{
    let sum = rows_times(r, u.x, u.y, u.z)
        + lanes(t.x, t.y, t.z)
        + (u64::from(u.x) + u64::from(u.y) + u64::from(u.z)) * (11 * EACH);
    reduced(sum)
}

// Rt modulo 12.
pub fn rotated(r: Rotation, t: Translation) -> Translation
    ensures { result ≡ rotated_of r t }
{
    moved(r, t, Translation { x: 0, y: 0, z: 0 })
}

pub fn mul(f: Operation, g: Operation) -> Option<Operation>
    ensures { result ≡ product_of f g }
{
    let Some(rotation) = rotation_times(f.rotation, g.rotation) else {
        return None;
    };
    let translation = moved(f.rotation, g.translation, f.translation);
    Some(Operation {
        rotation,
        translation,
    })
}
