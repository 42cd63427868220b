// Scripts that switch the expiry, as the program plays them.
ghost use Rattle.std.specs.Prelude.{◌≡◌, [], IfOk};
ghost use Rattle.mmkv_top.specs.Stocked.{OfAll};

use crate::plays::{add, handlers, has, joined, large_store, played_on};
use crate::runs::{ran, shelf_with};
use expiring_map::Memory;
use handlers::{HandlerStock, Steady, Strategy};
use meta_record::{
    WORD_CHECKSUM, WORD_LAST_CHECKSUM, WORD_LAST_SIZE, WORD_SEQUENCE, WORD_SIZE, WORD_VERSION,
    store_word,
};
use region_words::MemSource;
use std::alloc::{AllocError, Global};
use std::test::Fail;

// A stock of two handlers, which leave a damaged store as it is.
fn two_handlers(alloc: Global) -> Result<HandlerStock, AllocError>
    ensures { IfOk result (λ stock. OfAll (λ h. (told h ≡ []) × (changes_told h ≡ [])) stock) }
{
    let mut leave = handlers(alloc, Strategy::Leave)?;
    add(
        &mut leave,
        Box::new(alloc, Steady::new(alloc, Strategy::Leave))?,
    )?;
    Ok(HandlerStock::new(Vec::new(alloc), Vec::new(alloc), leave))
}

// The status and the text of `play` of a script of at most two openers, on a store of these files.
pub(crate) fn played_by_two(
    alloc: Global,
    body: Vec<u8>,
    meta: &[u8],
    script: &[u8],
) -> Result<(u8, Vec<u8>), Memory> {
    let mut shelf = shelf_with(alloc, body, meta)?;
    let input = MemSource::new(script.to_vec(alloc)?, Vec::new(alloc));
    let words = [b".".as_slice(), b"play", b"s"];
    ran(
        alloc,
        &words,
        &mut shelf,
        input,
        two_handlers(alloc)?,
        65_536,
    )
}

// A store with the key k and the bytes 76 00 00 00 00, without expiry. Under the flag the same payload has the value 76, for ever. The
// checksum is that of zlib.
fn five_bytes(alloc: Global) -> Result<(Vec<u8>, Vec<u8>), Memory> {
    let body = joined(alloc, &[b"\x0c\0\0\0\xff\xff\xff\x07\x01k\x05\x76\0\0\0\0"])?;
    let mut meta = vec![in alloc; 0u8; 112]?;
    store_word(&mut meta, WORD_CHECKSUM, 0xb195_0220);
    store_word(&mut meta, WORD_VERSION, 3);
    store_word(&mut meta, WORD_SEQUENCE, 1);
    store_word(&mut meta, WORD_SIZE, 12);
    store_word(&mut meta, WORD_LAST_SIZE, 12);
    store_word(&mut meta, WORD_LAST_CHECKSUM, 0xb195_0220);
    Ok((body, meta))
}

// The second get looks at the checksum before the switch, which leaves the same checksum, and at the sequence behind it.
#[test]
fn a_switch_between_two_looks_is_noticed_by_the_sequence(rt: HostRuntime) -> Result<(), Fail> {
    let alloc = rt.alloc();
    let (body, meta) = five_bytes(alloc)?;
    let script =
        b"open leave\nopen leave\nbegin 1 100 get 6b\nstep 1 100\nbegin 2 100 put 6b raw 76 0\nstep 2 100\nbegin 1 100 get 6b\nstep 1 1\nbegin 2 100 enable 0\nstep 2 100\nstep 1 100\n";
    let (status, text) = played_by_two(alloc, body, &meta, script)?;
    let want =
        b"answer 1 get 6b now 100 begun 0 place 0 ended 0 loads 13 stores 0 locks 1 reply value 7600000000\nanswer 2 put 6b 76 0 now 100 begun 0 place 0 ended 1 loads 14 stores 4 locks 1 reply done\nanswer 2 enable 0 now 100 begun 1 place 1 ended 2 loads 3 stores 14 locks 1 reply done\nanswer 1 get 6b now 100 begun 1 place 2 ended 2 loads 15 stores 0 locks 1 reply value 76\nchanges 2\nchange 0 2 put 6b 76 0\nchange 1 2 enable 100 0\nregion data 4096 version 4 sequence 2 flags 1\nsizes header 12 record 12 last 12\nchecksums record b1950220 last b1950220\nshown whole 12\npairs 1\npair 6b 76 0\n";
    assert_eq!(rt; status, 0);
    assert_eq!(rt; text.as_slice(), want.as_slice());
    Ok(())
}

// The script of two openers, of which the second packs what has not expired at second 200.
fn ten_seconds(alloc: Global) -> Result<Vec<u8>, AllocError> {
    let mut script = joined(
        alloc,
        &[
            b"open leave\nopen leave\nbegin 1 100 enable 0\nstep 1 100\nbegin 1 100 put 6b text 61 10\nstep 1 100\n",
            b"begin 1 109 get 6b\nstep 1 100\nbegin 1 110 get 6b\nstep 1 100\nbegin 1 109 keys\nstep 1 100\n",
            b"begin 1 110 keys\nstep 1 100\nbegin 1 110 count\nstep 1 100\nbegin 2 200 put 6a raw ",
        ],
    )?;
    for _ in 0..4090 {
        script.extend_from_slice(b"07")?;
    }
    script.extend_from_slice(b" 0\nstep 2 10000\nbegin 1 105 get 6b\nstep 1 10000\n")?;
    Ok(script)
}

#[test]
fn a_pair_lives_for_its_seconds_and_a_pack_drops_it(rt: HostRuntime) -> Result<(), Fail> {
    let alloc = rt.alloc();
    let script = ten_seconds(alloc)?;
    let (status, text) = played_by_two(alloc, Vec::new(alloc), b"", &script)?;
    assert_eq!(rt; status, 0);
    let pieces: [&[u8]; 10] = [
        b"answer 1 enable 0 now 100 begun 0 place 0 ended 1 loads 11 stores 12 locks 1 reply done\n",
        b"answer 1 put 6b 0161 10 now 100 begun 1 place 1 ended 2 loads 3 stores 6 locks 1 reply done\n",
        b"answer 1 get 6b now 109 begun 2 place 2 ended 2 loads 2 stores 0 locks 0 reply value 0161\n",
        b"answer 1 get 6b now 110 begun 2 place 2 ended 2 loads 2 stores 0 locks 0 reply none\n",
        b"answer 1 keys now 109 begun 2 place 2 ended 2 loads 2 stores 0 locks 0 reply keys 1 6b\n",
        b"answer 1 keys now 110 begun 2 place 2 ended 2 loads 2 stores 0 locks 0 reply keys 0\n",
        b"answer 1 count now 110 begun 2 place 2 ended 2 loads 2 stores 0 locks 0 reply count 0\n",
        b"answer 1 get 6b now 105 begun 4 place 4 ended 4 loads 1038 stores 0 locks 1 reply none\n",
        b"changes 4\nchange 0 1 enable 100 0\nchange 1 1 put 6b 0161 110\nchange 2 2 pack 200\nchange 3 2 put 6a 0707",
        b"region data 65536 version 4 sequence 2 flags 1\nsizes header 4102 record 4102 last 4\nchecksums record 43aa4782 last 4c9985d1\nshown whole 4102\npairs 1\npair 6a 0707",
    ];
    for piece in pieces {
        assert_eq!(rt; has(&text, piece), true);
    }
    Ok(())
}

#[test]
fn switching_off_drops_what_has_expired_and_keeps_the_rest_for_ever(
    rt: HostRuntime,
) -> Result<(), Fail> {
    let alloc = rt.alloc();
    let script =
        b"open leave\nbegin 1 100 enable 0\nstep 1 100\nbegin 1 100 put 6b text 61 10\nstep 1 100\nbegin 1 100 put 6a text 62 0\nstep 1 100\nbegin 1 110 disable\nstep 1 100\nbegin 1 111 disable\nstep 1 100\n";
    let (status, text) = played_by_two(alloc, Vec::new(alloc), b"", script)?;
    let want =
        b"stopped 1 already-off\nchanges 4\nchange 0 1 enable 100 0\nchange 1 1 put 6b 0161 110\nchange 2 1 put 6a 0162 0\nchange 3 1 disable 110\nregion data 4096 version 4 sequence 2 flags 0\nsizes header 9 record 9 last 9\nchecksums record d6e6bf07 last d6e6bf07\nshown whole 9\npairs 1\npair 6a 0162 0\n";
    assert_eq!(rt; status, 0);
    assert_eq!(rt; has(&text, want), true);
    Ok(())
}

// The status and the text of a script on the store of 4,008 bytes, whose pair takes four more under the flag.
fn played_on_large(alloc: Global, sequence: u32, script: &[u8]) -> Result<(u8, Vec<u8>), Memory> {
    let (body, meta) = large_store(alloc, sequence)?;
    played_on(alloc, body, &meta, script, &[])
}

#[test]
fn a_switch_grows_the_file_and_needs_a_sequence(rt: HostRuntime) -> Result<(), Fail> {
    let alloc = rt.alloc();
    let enable =
        b"open leave\nbegin 1 100 enable 60\nstep 1 5000\nbegin 1 100 disable\nstep 1 5000\n";
    let (status, text) = played_on_large(alloc, u32::MAX - 1, enable)?;
    assert_eq!(rt; status, 0);
    let want =
        b"answer 1 enable 60 now 100 begun 0 place 0 ended 1 loads 1013 stores 1014 locks 1 reply done\nstopped 1 sequence-end\nchanges 1\nchange 0 1 enable 100 60\nregion data 65536 version 4 sequence 4294967295 flags 1\nsizes header 4012 record 4012 last 4012\nchecksums record df54b829 last df54b829\nshown whole 4012\npairs 1\n";
    assert_eq!(rt; has(&text, want), true);
    let (status, text) = played_on_large(alloc, u32::MAX, enable)?;
    assert_eq!(rt; status, 0);
    let want = b"stopped 1 sequence-end\nstopped 1 already-off\nchanges 0\n";
    assert_eq!(rt; has(&text, want), true);
    Ok(())
}

#[test]
fn an_expiry_out_of_range_is_refused_and_so_is_a_second_switch(
    rt: HostRuntime,
) -> Result<(), Fail> {
    let alloc = rt.alloc();
    let script =
        b"open leave\nbegin 1 4294967295 enable 1\nstep 1 100\nbegin 1 4294967294 enable 1\nstep 1 100\nbegin 1 5 enable 0\nstep 1 100\n";
    let (status, text) = played_by_two(alloc, Vec::new(alloc), b"", script)?;
    let want =
        b"stopped 1 expiry-range\nanswer 1 enable 1 now 4294967294 begun 0 place 0 ended 1 loads 11 stores 12 locks 1 reply done\nstopped 1 already-on\nchanges 1\nchange 0 1 enable 4294967294 1\nregion data 4096 version 4 sequence 1 flags 1\nsizes header 4 record 4 last 4\nchecksums record 4c9985d1 last 4c9985d1\nshown whole 4\npairs 0\n";
    assert_eq!(rt; status, 0);
    assert_eq!(rt; text.as_slice(), want.as_slice());
    Ok(())
}
