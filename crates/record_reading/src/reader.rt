// Reading a record: the rules of refusals 30 to 35, in order, tried on the bytes as they stand.
ghost use Rattle.std.specs.Prelude.{◌≡◌, ◌+◌, ◌*◌, ◌≤◌, length, drop, map};
ghost use Rattle.laws.specs.Truth.{all};
ghost use Rattle.group_record.specs.Reading.{operation_of_item, read_of, read_first_of};
ghost use Rattle.layer_group.specs.Layers.{is_layer};
ghost use Rattle.group_record.specs.Signs.{layers_if};
ghost use Rattle.group_record.specs.Editions.{from_end};
ghost use Rattle.group_record.specs.BothEditions.{width_in};
ghost use Rattle.group_record.specs.Rules.{length_fits};
ghost use Rattle.record_items.specs.Items.{items_of};
ghost use Rattle.record_reading.specs.Trailer.{read_counted, read_lettered};
ghost use Rattle.record_reading.specs.Found.{nothing_found, laid_out, Stands};

use centering::Centering;
use group_record::sign::Sign;
use group_record::{Edition, Reading, RecordGroup, Refusal};
use layer_group::is_layer;
use operation::product::identity;
use record_items::items::{items_length, operation_in};
use record_items::rules::items_answer;

// What is found at a buffer's end: the answer, and of a record that is accepted the edition, the letter, the count and the place of its first item.
#[derive(Clone, Copy)]
struct Found {
    answer: Reading,
    edition: Edition,
    sign: Sign,
    count: usize,
    start: usize,
}

// The record that ends where the bytes end, of edition 1 or 3.
pub fn read_record(bytes: &[u8]) -> RecordGroup
    ensures { result ≡ read_of bytes.now }
{
    lay_found(bytes, find(bytes))
}

// The same where edition 1 alone is known.
pub fn read_first_record(bytes: &[u8]) -> RecordGroup
    ensures { result ≡ read_first_of bytes.now }
{
    lay_found(bytes, find_first(bytes))
}

// Operations are laid out in one place for every answer, so that the code for 48 slots stands once.
fn lay_found(bytes: &[u8], found: Found) -> RecordGroup
    requires { (found.count ≤ 48) × (found.start + width_in found.edition * found.count ≤ length bytes.now) }
    ensures { result ≡ laid_out found.answer found.edition found.sign found.count (drop found.start bytes.now) }
{
    let start = found.start;
    let answer = found.answer;
    let edition = found.edition;
    let sign = found.sign;
    laid_out(&bytes[start..], answer, edition, sign, found.count)
}

fn find(bytes: &[u8]) -> Found
    ensures { Stands bytes.now result (read_of bytes.now) }
{
    if bytes.len() < 9 {
        return nothing(Refusal::Short);
    }
    match from_end(bytes, 4) {
        1 => find_lettered(bytes, Edition::First),
        3 => find_lettered(bytes, Edition::Third),
        _ => nothing(Refusal::WrongEdition),
    }
}

fn find_first(bytes: &[u8]) -> Found
    ensures { Stands bytes.now result (read_first_of bytes.now) }
{
    if bytes.len() < 10 {
        return nothing(Refusal::Short);
    }
    if from_end(bytes, 4) != 1 {
        return nothing(Refusal::WrongEdition);
    }
    find_lettered(bytes, Edition::First)
}

fn nothing(why: Refusal) -> Found
    ensures { result ≡ nothing_found why }
{
    Found {
        answer: Reading::Refused(why),
        edition: Edition::First,
        sign: Sign::Plain(Centering::P),
        count: 0,
        start: 0,
    }
}

// The byte that stands k places before the end.
fn from_end(bytes: &[u8], k: usize) -> u8
    requires { (1 ≤ k) × (k ≤ length bytes.now) }
    ensures { result ≡ from_end bytes.now k }
{
    bytes[bytes.len() - k]
}

fn find_lettered(bytes: &[u8], edition: Edition) -> Found
    requires { 9 ≤ length bytes.now }
    ensures { Stands bytes.now result (read_lettered edition (from_end bytes.now 5) bytes.now) }
{
    let letter = from_end(bytes, 5);
    if letter == b'p' {
        return find_counted(bytes, edition, Sign::SmallP);
    }
    if letter == b'c' {
        return find_counted(bytes, edition, Sign::SmallC);
    }
    let Some(c) = Centering::from_byte(letter) else {
        return nothing(Refusal::WrongLetter);
    };
    find_counted(bytes, edition, Sign::Plain(c))
}

fn find_counted(bytes: &[u8], edition: Edition, sign: Sign) -> Found
    requires { 9 ≤ length bytes.now }
    ensures { Stands bytes.now result (read_counted edition sign (from_end bytes.now 3) bytes.now) }
{
    let size = bytes.len();
    let n = from_end(bytes, 3) as usize;
    let stated = from_end(bytes, 2) as usize * 256 + from_end(bytes, 1) as usize;
    if !length_fits(edition, n, stated, size) {
        return nothing(Refusal::WrongLength);
    }
    let start = size - stated;
    let c = sign.lattice();
    let small = sign.is_small();
    let Reading::Refused(why) = items_answer(&bytes[start..], edition, c, n) else {
        if !are_layers(&bytes[start..], edition, small, n) {
            return nothing(Refusal::NotAllowed);
        }
        return Found {
            answer: Reading::Accepted,
            edition,
            sign,
            count: n,
            start,
        };
    };
    nothing(why)
}

// 1 to 48 operations, and the stated length right and within the buffer.
fn length_fits(edition: Edition, n: usize, stated: usize, size: usize) -> bool
    ensures { result ≡ length_fits (width_in edition) 48 n stated size }
{
    if n < 1 || 48 < n {
        return false;
    }
    let total = items_length(edition, n as u8) + 5;
    stated == total && total <= size
}

// Under a small letter every operation is one of a layer.
fn are_layers(bytes: &[u8], edition: Edition, small: bool, n: usize) -> bool
    requires { (n ≤ 48) × (width_in edition * n ≤ length bytes.now) }
    ensures { result ≡ layers_if small (map operation_of_item (items_of edition n bytes.now)) }
{
    !small || all_layers(bytes, edition, n)
}

fn all_layers(bytes: &[u8], edition: Edition, n: usize) -> bool
    requires { (n ≤ 48) × (width_in edition * n ≤ length bytes.now) }
    ensures { result ≡ all (λ i. is_layer (operation_of_item i)) (items_of edition n bytes.now) }
{
    for i in 0..n {
        if !is_layer(operation_in(bytes, edition, i as u8)) {
            return false;
        }
    }
    true
}

fn laid_out(bytes: &[u8], answer: Reading, edition: Edition, sign: Sign, n: usize) -> RecordGroup
    requires { (n ≤ 48) × (width_in edition * n ≤ length bytes.now) }
    ensures { result ≡ laid_out answer edition sign n bytes.now }
{
    let mut operations = [identity(); 48];
    for i in 0..n {
        operations[i] = operation_in(bytes, edition, i as u8);
    }
    RecordGroup {
        answer,
        edition,
        layer: sign.is_small(),
        centering: sign.lattice(),
        count: n,
        operations,
    }
}
