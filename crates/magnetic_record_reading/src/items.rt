// The items of a magnetic record: where each stands, what its bytes say, and by which number it is compared.
ghost use Rattle.std.specs.Prelude.{◌≡◌, ◌+◌, ◌*◌, ◌≤◌, length};
ghost use Rattle.magnetic_record.specs.SecondEdition.{magnetic_key};
ghost use Rattle.magnetic_record_reading.specs.Search.{item_at};

use group_record::items::Item;
use operation::Translation;

// The code, high byte first, then x y z; the flag stands behind them.
pub(crate) fn plain_at(bytes: &[u8], i: usize) -> Item
    requires { 6 * i + 6 ≤ length bytes.now }
    ensures { result ≡ (item_at bytes.now i).plain }
{
    let at = 6 * i;
    let code = bytes[at] as u32 * 256 + bytes[at + 1] as u32;
    let translation = Translation {
        x: bytes[at + 2],
        y: bytes[at + 3],
        z: bytes[at + 4],
    };
    Item { code, translation }
}

pub(crate) fn flag_at(bytes: &[u8], i: usize) -> u8
    requires { 6 * i + 6 ≤ length bytes.now }
    ensures { result ≡ (item_at bytes.now i).flag }
{
    bytes[6 * i + 5]
}

// Keys ascend by code, and then by flag.
pub(crate) fn key_at(bytes: &[u8], i: usize) -> u64
    requires { 6 * i + 6 ≤ length bytes.now }
    ensures { result ≡ magnetic_key (item_at bytes.now i) }
{
    let item = plain_at(bytes, i);
    2 * item.code as u64 + flag_at(bytes, i) as u64
}
