// Scripts in which openers die, as the program plays them.
use crate::plays::{has, joined};
use crate::switches::played_by_two;
use expiring_map::Memory;
use meta_record::{
    WORD_CHECKSUM, WORD_LAST_CHECKSUM, WORD_LAST_SIZE, WORD_SEQUENCE, WORD_SIZE, WORD_VERSION,
    store_word,
};
use std::alloc::Global;
use std::test::Fail;

// A store with the key k and the text abc. The checksums are those of zlib.
fn one_pair(alloc: Global) -> Result<(Vec<u8>, Vec<u8>), Memory> {
    let body = joined(alloc, &[b"\x0b\0\0\0\xff\xff\xff\x07\x01k\x04\x03abc"])?;
    let mut meta = vec![in alloc; 0u8; 112]?;
    store_word(&mut meta, WORD_CHECKSUM, 0x3a65_95d3);
    store_word(&mut meta, WORD_VERSION, 3);
    store_word(&mut meta, WORD_SEQUENCE, 1);
    store_word(&mut meta, WORD_SIZE, 11);
    store_word(&mut meta, WORD_LAST_SIZE, 4);
    store_word(&mut meta, WORD_LAST_CHECKSUM, 0x4c99_85d1);
    Ok((body, meta))
}

// The status and the text of a script on that store: opener 1 gets the pair, begins a put of another value, and goes on so; opener 2 gets it.
fn cut_put(alloc: Global, death: &[u8]) -> Result<(u8, Vec<u8>), Memory> {
    let (body, meta) = one_pair(alloc)?;
    let begin =
        b"open leave\nopen leave\nbegin 1 100 get 6b\nstep 1 100\nbegin 1 100 put 6b text 64 0\n";
    let script = joined(alloc, &[begin, death, b"begin 2 100 get 6b\nstep 2 100\n"])?;
    played_by_two(alloc, body, &meta, &script)
}

// The word that is stored by the sixth step gets the bytes 61 62 63 FF, of which those of the old payload stand.
#[test]
fn the_next_opener_sees_what_a_death_in_a_put_left(rt: HostRuntime) -> Result<(), Fail> {
    let alloc = rt.alloc();
    let old =
        b"answer 2 get 6b now 100 begun 0 place 0 ended 0 loads 13 stores 0 locks 1 reply value 03616263\nchanges 0\n".as_slice();
    let new =
        b"answer 2 get 6b now 100 begun 1 place 1 ended 1 loads 14 stores 0 locks 1 reply value 0164\nchanges 1\nchange 0 1 put 6b 0164 0\n".as_slice();
    let rows: [(&[u8], &[u8], &[u8]); 5] = [
        (
            b"step 1 5\ndie 1 ffffffff\n",
            old,
            b"sizes header 11 record 11 last 4\n",
        ),
        (
            b"step 1 6\ndie 1\n",
            old,
            b"sizes header 11 record 11 last 4\n",
        ),
        (
            b"step 1 6\ndie 1 00000000\n",
            old,
            b"sizes header 11 record 11 last 4\n",
        ),
        (
            b"step 1 8\ndie 1\n",
            old,
            b"sizes header 16 record 11 last 4\n",
        ),
        (
            b"step 1 10\ndie 1\n",
            new,
            b"sizes header 16 record 16 last 4\n",
        ),
    ];
    for (death, answer, sizes) in rows {
        let (status, text) = cut_put(alloc, death)?;
        assert_eq!(rt; status, 0);
        assert_eq!(rt; has(&text, answer), true);
        assert_eq!(rt; has(&text, sizes), true);
    }
    Ok(())
}

// After the checksum was stored, and before the record's size, header and record disagree.
#[test]
fn an_image_that_a_death_left_in_part_is_not_repaired_yet(rt: HostRuntime) -> Result<(), Fail> {
    let (status, text) = cut_put(rt.alloc(), b"step 1 9\ndie 1\n")?;
    assert_eq!(rt; status, 17);
    assert_eq!(rt; text.as_slice(), b"not yet\n".as_slice());
    Ok(())
}

#[test]
fn a_holder_that_dies_blocks_nobody(rt: HostRuntime) -> Result<(), Fail> {
    let alloc = rt.alloc();
    let (body, meta) = one_pair(alloc)?;
    let script =
        b"open leave\nopen leave\nbegin 2 100 hold\nstep 2 9\nbegin 1 100 put 6b text 64 0\nstep 1 1\ndie 2\nstep 1 100\n";
    let (status, text) = played_by_two(alloc, body, &meta, script)?;
    let want =
        b"answer 2 hold now 100 begun 0 place 0 ended 0 loads 0 stores 0 locks 1 reply done\nblocked 1 by 2\nanswer 1 put 6b 0164 0 now 100 begun 0 place 0 ended 1 loads 14 stores 5 locks 1 reply done\nchanges 1\nchange 0 1 put 6b 0164 0\n";
    assert_eq!(rt; status, 0);
    assert_eq!(rt; has(&text, want), true);
    Ok(())
}

#[test]
fn a_dead_opener_is_named_no_more(rt: HostRuntime) -> Result<(), Fail> {
    let rows: [(&[u8], &[u8]); 4] = [
        (b"die 1\nstep 1 1\n", b"script 7\n"),
        (b"die 1\nbegin 1 1 count\n", b"script 7\n"),
        (b"die 1\ndie 1\n", b"script 7\n"),
        (b"die 3\n", b"script 6\n"),
    ];
    for (lines, refused) in rows {
        let (status, text) = cut_put(rt.alloc(), lines)?;
        assert_eq!(rt; status, 9);
        assert_eq!(rt; text.as_slice(), refused);
    }
    Ok(())
}
