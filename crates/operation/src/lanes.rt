// Three numbers in one, each in a lane of 21 bits, so that one sum or product does the work of three.
ghost use Rattle.std.specs.Prelude.{◌≡◌, ◌≤◌};
ghost use Rattle.operation.specs.Lanes.{lanes_of};
ghost use Rattle.operation.specs.Twelves.{bytes_of};

// 1 in the second lane, in the third, and in each.
pub const SECOND: u64 = 1 << 21;

pub const THIRD: u64 = 1 << 42;

pub const EACH: u64 = 1 + SECOND + THIRD;

pub fn lanes(x: u8, y: u8, z: u8) -> u64
    ensures { (result ≡ lanes_of x y z) × (result ≤ 1121502395105535) }
{
    u64::from(x) + u64::from(y) * SECOND + u64::from(z) * THIRD
}

// Each lane's lowest byte.
pub fn bytes(n: u64) -> u64
    ensures { (result ≡ bytes_of n) × (result ≤ 1121502395105535) }
{
    n % 256 + n / SECOND % 256 * SECOND + n / THIRD % 256 * THIRD
}
