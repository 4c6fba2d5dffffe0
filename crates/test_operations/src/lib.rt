// The group of a Hall symbol in numbers for C: a test library, so that tests/operations.c can hold the groups to other programs.
#![tactic(auto)]

ghost use Rattle.std.specs.Prelude.{◌≡◌};
ghost use Rattle.test_operations.specs.Packed.{packed_order, packed_operation, component_of};
ghost use Rattle.symbol_group.specs.Answers.{order_of, operation_at, translation_at};

use operation::code::rotation_code;

// The order modulo 65536; or number·65536 + place modulo 65536.
#[unsafe(no_mangle)]
pub extern "C" fn symbol_order(text: &[u8]) -> u64
    ensures { result ≡ packed_order (order_of text.now) }
{
    match symbol_group::order(text) {
        Ok(n) => (n % 65536) as u64,
        Err(refusal) => { (refusal.number() as u64) * 65536 + (refusal.place() % 65536) as u64 }
    }
}

// Rotation code·4096 + x·256 + y·16 + z of an operation, each coordinate modulo 16; 1 where there is none.
#[unsafe(no_mangle)]
pub extern "C" fn symbol_operation(text: &[u8], index: usize) -> u64
    ensures { result ≡ packed_operation (operation_at text.now index) }
{
    match symbol_group::operation_at(text, index) {
        Ok(Some(o)) => {
            let r = o.rotation;
            let t = o.translation;
            (rotation_code(r) as u64) * 4096
                + ((t.x % 16) as u64) * 256
                + ((t.y % 16) as u64) * 16
                + (t.z % 16) as u64
        }
        Ok(None) => 1,
        Err(_) => 1,
    }
}

// Component 0, 1 or 2 of an operation's translation as a double, 2 for any other; 2.0 where there is no such operation.
#[unsafe(no_mangle)]
pub extern "C" fn symbol_translation(text: &[u8], index: usize, axis: u8) -> f64
    ensures { result ≡ component_of axis (translation_at text.now index) }
{
    match symbol_group::translation_at(text, index) {
        Ok(Some(d)) => match axis {
            0 => d.x,
            1 => d.y,
            _ => d.z,
        },
        Ok(None) => 2.0,
        Err(_) => 2.0,
    }
}
