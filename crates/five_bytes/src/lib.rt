// The five bytes of an operation, as records and lists have them: the rotation's code, high byte first, then x, y, z in twelfths.
#![tactic(auto)]

ghost use Rattle.std.specs.Prelude.{◌≡◌};
ghost use Rattle.five_bytes.specs.FiveBytes.{five_bytes_of, below_twelve, with_translation};

use operation::code::rotation_of_code;
use operation::{Operation, Rotation, Translation};

// Wrong unless there are exactly five bytes, the code is at most 19682 and each coordinate at most 11.
pub fn operation_in(bytes: &[u8]) -> Option<Operation>
    ensures { result ≡ five_bytes_of bytes.now }
{
    let &[high, low, x, y, z] = bytes else {
        return None;
    };
    let code = u32::from(high) * 256 + u32::from(low);
    let translation = Translation { x, y, z };
    if !below_twelve(translation) {
        return None;
    }
    with_translation(rotation_of_code(code), translation)
}

fn below_twelve(t: Translation) -> bool
    ensures { result ≡ below_twelve t }
{
    t.x < 12 && t.y < 12 && t.z < 12
}

fn with_translation(decoded: Option<Rotation>, translation: Translation) -> Option<Operation>
    ensures { result ≡ with_translation decoded translation }
{
    match decoded {
        Some(rotation) => Some(Operation {
            rotation,
            translation,
        }),
        None => None,
    }
}
