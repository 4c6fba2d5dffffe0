// The rotation code, 0 to 19682, and the way back. New in the port: the Rust has no such number.
ghost use Rattle.std.specs.Prelude.{◌≡◌};
ghost use Rattle.operation.specs.Code.{code_of, decoded_of};

use super::Rotation;

pub fn rotation_code(r: Rotation) -> u32
    ensures { result ≡ code_of r }
{
    let x = (r.xx as u32) * 6561 + (r.xy as u32) * 2187 + (r.xz as u32) * 729;
    let y = (r.yx as u32) * 243 + (r.yy as u32) * 81 + (r.yz as u32) * 27;
    let z = (r.zx as u32) * 9 + (r.zy as u32) * 3 + (r.zz as u32);
    x + y + z
}

pub fn rotation_of_code(code: u32) -> Option<Rotation>
    ensures { result ≡ decoded_of code }
{
    if 19683 <= code {
        return None;
    }
    Some(Rotation {
        xx: (code / 6561 % 3) as u8,
        xy: (code / 2187 % 3) as u8,
        xz: (code / 729 % 3) as u8,
        yx: (code / 243 % 3) as u8,
        yy: (code / 81 % 3) as u8,
        yz: (code / 27 % 3) as u8,
        zx: (code / 9 % 3) as u8,
        zy: (code / 3 % 3) as u8,
        zz: (code % 3) as u8,
    })
}
