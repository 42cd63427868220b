// A payload of small pairs in no order.
ghost use Rattle.std.specs.Prelude.{◌<◌};

use expiring_map::Memory;
use kv_pairs::append_item;
use std::alloc::Global;

// Where a payload begins.
const HEADING: [u8; 4] = [0xff, 0xff, 0xff, 0x07];

/// The payload of so many pairs as `key000123` with a value of eight digits. Of none for 0.
pub fn payload_of(alloc: Global, count: u32) -> Result<Vec<u8>, Memory> {
    let mut payload = HEADING.to_vec(alloc)?;
    let mut number = 0;
    for _ in 0..count {
        number = next_number(number, count);
        append_item(false, &key_of(number), &value_of(number), 0, &mut payload)?;
    }
    Ok(payload)
}

// With a count of powers of two and five, each number below it comes once.
fn next_number(number: u32, count: u32) -> u32
    requires { 0 < count }
{
    ((u64::from(number) * 21 + 7919) % u64::from(count)) as u32
}

fn key_of(number: u32) -> [u8; 9] {
    let mut key = *b"key000000";
    write_digits(number, &mut key[3..]);
    key
}

fn value_of(number: u32) -> [u8; 8] {
    let mut value = *b"00000000";
    write_digits(number.wrapping_mul(2_654_435_761), &mut value);
    value
}

fn write_digits(number: u32, digits: &mut [u8]) {
    let mut rest = number;
    for digit in digits.iter_mut().rev() {
        *digit = b'0' + (rest % 10) as u8;
        rest /= 10;
    }
}
