// Products of operations with any bytes, and of operations as numbers, in numbers for C: a test library, so that tests/products.c can hold the product to
// integers, and count what it executes.
#![tactic(auto)]

ghost use Rattle.std.specs.Prelude.{◌≡◌, ◌+◌, ◌%◌};
ghost use Rattle.operation.specs.Product.{product_of};
ghost use Rattle.packed_operation.specs.Number.{said_by, flag_of, numbered};
ghost use Rattle.test_products.specs.Packed.{operation_in, rows_of, rest_of, product_rows, product_rest, number_told};

use operation::product::mul;
use operation::{Operation, Rotation, Translation};
use packed_operation::product;

// Of the operations in f and p, and in g and q: the first eight entries of the product, a byte each, the first lowest; 0 where an entry has left −1..1.
#[unsafe(no_mangle)]
pub extern "C" fn product_rows(f: u64, p: u64, g: u64, q: u64) -> u64
    ensures { result ≡ product_rows (product_of (operation_in f p) (operation_in g q)) }
{
    match mul(operation_in(f, p), operation_in(g, q)) {
        Some(o) => rows(o),
        None => 0,
    }
}

// The last entry of the product and its translation, a byte each; 4294967296 where an entry has left −1..1.
#[unsafe(no_mangle)]
pub extern "C" fn product_rest(f: u64, p: u64, g: u64, q: u64) -> u64
    ensures { result ≡ product_rest (product_of (operation_in f p) (operation_in g q)) }
{
    match mul(operation_in(f, p), operation_in(g, q)) {
        Some(o) => rest(o),
        None => 4294967296,
    }
}

// The number of the product of two numbers; 4611686018427387904 where an entry has left −1..1.
#[unsafe(no_mangle)]
pub extern "C" fn number_product(f: u64, g: u64) -> u64
    ensures { result ≡ number_told (numbered (product_of (said_by f) (said_by g)) ((flag_of f + flag_of g) % 2)) }
{
    match product(f, g) {
        Some(n) => n,
        None => 4611686018427387904,
    }
}

fn operation_in(rows: u64, rest: u64) -> Operation
    ensures { result ≡ operation_in rows rest }
{
    Operation {
        rotation: Rotation {
            xx: (rows % 256) as u8,
            xy: (rows / 256 % 256) as u8,
            xz: (rows / 65536 % 256) as u8,
            yx: (rows / 16777216 % 256) as u8,
            yy: (rows / 4294967296 % 256) as u8,
            yz: (rows / 1099511627776 % 256) as u8,
            zx: (rows / 281474976710656 % 256) as u8,
            zy: (rows / 72057594037927936 % 256) as u8,
            zz: (rest % 256) as u8,
        },
        translation: Translation {
            x: (rest / 256 % 256) as u8,
            y: (rest / 65536 % 256) as u8,
            z: (rest / 16777216 % 256) as u8,
        },
    }
}

fn rows(o: Operation) -> u64
    ensures { result ≡ rows_of o }
{
    let r = o.rotation;
    u64::from(r.xx)
        + u64::from(r.xy) * 256
        + u64::from(r.xz) * 65536
        + u64::from(r.yx) * 16777216
        + u64::from(r.yy) * 4294967296
        + u64::from(r.yz) * 1099511627776
        + u64::from(r.zx) * 281474976710656
        + u64::from(r.zy) * 72057594037927936
}

fn rest(o: Operation) -> u64
    ensures { result ≡ rest_of o }
{
    let r = o.rotation;
    let t = o.translation;
    u64::from(r.zz) + u64::from(t.x) * 256 + u64::from(t.y) * 65536 + u64::from(t.z) * 16777216
}
