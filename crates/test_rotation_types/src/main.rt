// Writes the rotation type of all 19,683 matrices with entries in −1..1, by rotation code, 81 a line: a digit for the type's place
// in the Rust's enum, a point for refusal 15. The expected output was recorded from the Rust (oracle/recorded/rotation_types.txt).
#![tactic(auto)]

ghost use Rattle.std.specs.Prelude.{◌<◌};

use operation::code::rotation_of_code;
use operation::rotation_type::{RotationType, identify_rotation_type};
use std::io;

fn entry(digit: u8) -> i32 {
    match digit {
        0 => -1,
        1 => 0,
        _ => 1,
    }
}

fn place(rotation_type: RotationType) -> u8 {
    match rotation_type {
        RotationType::Rotation1 => b'0',
        RotationType::Rotation2 => b'1',
        RotationType::Rotation3 => b'2',
        RotationType::Rotation4 => b'3',
        RotationType::Rotation6 => b'4',
        RotationType::RotoInversion1 => b'5',
        RotationType::RotoInversion2 => b'6',
        RotationType::RotoInversion3 => b'7',
        RotationType::RotoInversion4 => b'8',
        RotationType::RotoInversion6 => b'9',
    }
}

fn character(code: u32) -> u8 {
    let Some(r) = rotation_of_code(code) else {
        return b'?';
    };
    let identified = identify_rotation_type(
        entry(r.xx),
        entry(r.xy),
        entry(r.xz),
        entry(r.yx),
        entry(r.yy),
        entry(r.yz),
        entry(r.zx),
        entry(r.zy),
        entry(r.zz),
    );
    match identified {
        Some(rotation_type) => place(rotation_type),
        None => b'.',
    }
}

fn write_line<R: Print>(rt: &R, first: u32) -> io::Result<()>
    requires { first < 19683 }
{
    let mut line = [b'\n'; 82];
    for i in 0..81 {
        line[i] = character(first + i as u32);
    }
    rt.write_all(&line)
}

fn main(rt: HostRuntime) -> io::Result<()> {
    for line in 0..243 {
        write_line(&rt, line * 81)?;
    }
    Ok(())
}
