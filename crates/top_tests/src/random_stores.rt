// Random stores, dumped by the top call and read a second time.
ghost use Rattle.std.specs.Prelude.{◌<◌, ◌≤◌};

use crate::runs::dumped;
use crate::second_reading::dump_of;
use meta_record::{
    WORD_CHECKSUM, WORD_FLAGS_LOW, WORD_LAST_CHECKSUM, WORD_LAST_SIZE, WORD_SEQUENCE, WORD_SIZE,
    WORD_VERSION, store_word,
};
use std::alloc::Global;
use std::test::Fail;

// Marsaglia's generator of 32 bits.
#[derive(Drop)]
struct Dice(u32);

impl Dice {
    fn roll(&mut self, faces: usize) -> usize
        requires { 0 < faces }
        ensures { result < faces }
    {
        self.0 ^= self.0 << 13;
        self.0 ^= self.0 >> 17;
        self.0 ^= self.0 << 5;
        self.0 as usize % faces
    }

    // One of these words.
    fn pick(&mut self, of: &[u32]) -> u32 {
        match of.len() {
            0 => 0,
            faces => of.get(self.roll(faces)).copied().unwrap_or(0),
        }
    }
}

fn size_of(bytes: &[u8]) -> u32 {
    u32::try_from(bytes.len()).unwrap_or(0)
}

// A field of fewer than 128 bytes, each below this one.
fn add_field(dice: &mut Dice, out: &mut Vec<u8>, size: u32, below: usize) -> Result<(), Fail>
    requires some { 0 < below }
    requires bytes { below ≤ 256 }
{
    let size = size % 128;
    out.push(size as u8)?;
    for _ in 0..size {
        out.push(dice.roll(below) as u8)?;
    }
    Ok(())
}

// A payload of a few items, now and then cut off.
fn payload(alloc: Global, dice: &mut Dice, flag: bool) -> Result<Vec<u8>, Fail> {
    let mut out = [0xffu8, 0xff, 0xff, 0x07].to_vec(alloc)?;
    for _ in 0..dice.roll(5) {
        let key = dice.pick(&[0, 1, 1, 1, 2]);
        add_field(dice, &mut out, key, 3)?;
        let value = if flag {
            dice.pick(&[0, 5, 5, 7, 12, 12, 1, 4])
        } else {
            dice.pick(&[0, 1, 3, 8])
        };
        if key > 0 {
            add_field(dice, &mut out, value, 256)?;
        }
    }
    if dice.roll(6) == 0 {
        out.truncate(dice.roll(64));
    }
    Ok(out)
}

// Two files whose words agree, or nearly so.
fn store(alloc: Global, dice: &mut Dice) -> Result<(Vec<u8>, [u8; 112]), Fail> {
    let flags = dice.pick(&[0, 0, 1, 1, 1, 2]);
    let payload = payload(alloc, dice, flags == 1)?;
    let size = size_of(&payload);
    let last = payload.get(..dice.roll(12)).unwrap_or(b"");
    let cut = size_of(last);
    let wrong = dice.pick(&[0, 0, 0, 1]);
    let mut meta = [0u8; 112];
    store_word(&mut meta, WORD_CHECKSUM, crc_words::crc32(&payload) ^ wrong);
    store_word(
        &mut meta,
        WORD_VERSION,
        dice.pick(&[3, 4, 3, 4, 3, 4, 0, 9]),
    );
    store_word(&mut meta, WORD_SEQUENCE, dice.pick(&[0, 1, 7, u32::MAX]));
    store_word(
        &mut meta,
        WORD_SIZE,
        dice.pick(&[size, size, size, cut, 4093, u32::MAX]),
    );
    store_word(&mut meta, WORD_LAST_SIZE, dice.pick(&[cut, cut, cut, 4093]));
    store_word(
        &mut meta,
        WORD_LAST_CHECKSUM,
        crc_words::crc32(last) ^ dice.pick(&[0, 0, 1]),
    );
    store_word(&mut meta, WORD_FLAGS_LOW, flags);
    let mut body = dice
        .pick(&[size, size, cut, u32::MAX])
        .to_le_bytes()
        .to_vec(alloc)?;
    body.extend_from_slice(&payload)?;
    Ok((body, meta))
}

#[test]
fn random_stores_are_dumped_as_a_second_reading_says(rt: HostRuntime) -> Result<(), Fail> {
    let alloc = rt.alloc();
    let mut dice = Dice(2_463_534_242);
    let mut shown = 0u32;
    for _ in 0..200 {
        let (body, meta) = store(alloc, &mut dice)?;
        let (status, text) = dump_of(alloc, &body, &meta)?;
        let (got, wrote) = dumped(alloc, body, &meta)?;
        assert_eq!(rt; wrote.as_slice(), text.as_bytes());
        assert_eq!(rt; got, status);
        shown = u32::from(status == 0).saturating_add(shown);
    }
    assert!(rt; 50 < shown && shown < 150, "{shown} shown");
    Ok(())
}
