// Scripts of one opener at a region in memory, as the program plays them.
ghost use Rattle.std.specs.Prelude.{◌≡◌, [], All, IfOk, IfSome, OnOk, replicate};
ghost use Rattle.region_words.specs.Local.{no_account};
ghost use Rattle.region_words.specs.Region.{IsAccepted};
ghost use Rattle.world.specs.World.{IsSound};
ghost use Rattle.mmkv_top.specs.Stocked.{OfAll};

use crate::runs::{ran, shelf_with};
use bstr::ByteSlice;
use expiring_map::Memory;
use handlers::{Handler, HandlerStock, Steady, Strategy};
use meta_record::{
    WORD_CHECKSUM, WORD_LAST_CHECKSUM, WORD_LAST_SIZE, WORD_SEQUENCE, WORD_SIZE, WORD_VERSION,
    store_word,
};
use mmkv_top::play_on;
use region_words::{LocalRegion, MemSource, shown};
use std::alloc::{AllocError, Global};
use std::mem;
use std::test::Fail;
use world::World;

// What a first put into a fresh store leaves.
const AFTER_A_PUT: &[u8] =
    b"changes 2\nchange 0 1 pack 100\nchange 1 1 put 6b 03616263 0\nregion data 4096 version 3 sequence 1 flags 0\nsizes header 11 record 11 last 4\nchecksums record 3a6595d3 last 4c9985d1\nshown whole 11\npairs 1\npair 6b 03616263 0\n";

const FRESH: &[u8] =
    b"changes 0\nregion data 4096 version 0 sequence 0 flags 0\nsizes header 0 record 0 last 0\nchecksums record 00000000 last 00000000\nshown whole 0\npairs 0\n";

const PUT: &[u8] = b"open leave\nbegin 1 100 put 6b text 616263 0\nstep 1 100\n";

const PUT_ANSWER: &[u8] =
    b"answer 1 put 6b 03616263 0 now 100 begun 0 place 1 ended 2 loads 11 stores 13 locks 1 reply done\n";

// One handler that always answers the same.
pub(crate) fn handlers(
    alloc: Global,
    strategy: Strategy,
) -> Result<Vec<Box<dyn Handler + Send>>, AllocError>
    ensures { IfOk result (λ all. All (λ h. (told h ≡ []) × (changes_told h ≡ [])) all.items) }
{
    let mut all: Vec<Box<dyn Handler + Send>> = Vec::new(alloc);
    all.push(Box::new(alloc, Steady::new(alloc, strategy))?)?;
    Ok(all)
}

// Adds a handler that was not asked or told anything yet.
pub(crate) fn add(
    all: &mut Vec<Box<dyn Handler + Send>>,
    handler: Box<dyn Handler + Send>,
) -> Result<(), AllocError>
    requires so_far { All (λ h. (told h ≡ []) × (changes_told h ≡ [])) all.old.items }
    requires new { (told handler ≡ []) × (changes_told handler ≡ []) }
    ensures { OnOk result (All (λ h. (told h ≡ []) × (changes_told h ≡ [])) all.new.items) }
{
    all.push(handler)?;
    Ok(())
}

// A stock of one handler, which leaves a damaged store as it is.
fn one_handler(alloc: Global) -> Result<HandlerStock, AllocError>
    ensures { IfOk result (λ stock. OfAll (λ h. (told h ≡ []) × (changes_told h ≡ [])) stock) }
{
    Ok(HandlerStock::new(
        Vec::new(alloc),
        Vec::new(alloc),
        handlers(alloc, Strategy::Leave)?,
    ))
}

// The status and the text of `play` of a script, on a store of these files; the reads of these numbers fail.
pub(crate) fn played_on(
    alloc: Global,
    body: Vec<u8>,
    meta: &[u8],
    script: &[u8],
    fails: &[u64],
) -> Result<(u8, Vec<u8>), Memory> {
    let mut shelf = shelf_with(alloc, body, meta)?;
    let input = MemSource::new(script.to_vec(alloc)?, fails.to_vec(alloc)?);
    let words = [b".".as_slice(), b"play", b"s"];
    ran(
        alloc,
        &words,
        &mut shelf,
        input,
        one_handler(alloc)?,
        16_384,
    )
}

// The same on a fresh store.
fn played(alloc: Global, script: &[u8]) -> Result<(u8, Vec<u8>), Memory> {
    played_on(alloc, Vec::new(alloc), b"", script, &[])
}

// A fresh region.
fn fresh(alloc: Global) -> Option<LocalRegion>
    ensures past { IfSome result (λ r. r.past ≡ []) }
    ensures new { IfSome result (λ r. r.accounts ≡ replicate 65 no_account) }
    ensures steady { IfSome result (λ r. r.failing.listed ≡ []) }
    ensures accepted { IfSome result (λ r. IsAccepted r.start) }
{
    let region = LocalRegion::new(alloc, Vec::new(alloc), Vec::new(alloc)).ok()?;
    shown(region.data_bytes(), region.meta_bytes()).ok()?;
    Some(region)
}

// A world over it.
fn fresh_world(alloc: Global, region: LocalRegion) -> World
    requires past { region.past ≡ [] }
    requires new { region.accounts ≡ replicate 65 no_account }
    requires steady { region.failing.listed ≡ [] }
    requires accepted { IsAccepted region.start }
    ensures sound { IsSound result.core }
    ensures unopened { result.core.openers ≡ [] }
    ensures steady { result.core.region.failing.listed ≡ [] }
{
    World::new(alloc, region)
}

// The status of a script that is played on a fresh world, and its text behind what stood in the buffer.
fn played_behind(alloc: Global, before: &[u8], script: &[u8], cut: bool) -> Option<(u8, Vec<u8>)> {
    let mut world = fresh_world(alloc, fresh(alloc)?);
    let Ok(mut stock) = one_handler(alloc) else {
        return None;
    };
    let mut out = before.to_vec(alloc).ok()?;
    let status = play_on(alloc, &mut world, script, cut, &mut stock, &mut out);
    mem::drop(world);
    Some((status.0, out))
}

// These pieces one after another.
pub(crate) fn joined(alloc: Global, pieces: &[&[u8]]) -> Result<Vec<u8>, AllocError> {
    let mut all = Vec::new(alloc);
    for piece in pieces {
        all.extend_from_slice(piece)?;
    }
    Ok(all)
}

#[test]
fn a_first_put_packs_and_a_get_after_it_looks_at_two_words(rt: HostRuntime) -> Result<(), Fail> {
    let alloc = rt.alloc();
    let (status, text) = played(alloc, PUT)?;
    assert_eq!(rt; status, 0);
    assert_eq!(rt;
        text.as_slice(),
        joined(alloc, &[PUT_ANSWER, AFTER_A_PUT])?.as_slice()
    );
    let script = joined(alloc, &[PUT, b"begin 1 100 get 6b\nstep 1 1\nstep 1 1\n"])?;
    let (status, text) = played(alloc, &script)?;
    let answer =
        b"answer 1 get 6b now 100 begun 2 place 2 ended 2 loads 2 stores 0 locks 0 reply value 03616263\n";
    assert_eq!(rt; status, 0);
    assert_eq!(rt;
        text.as_slice(),
        joined(alloc, &[PUT_ANSWER, answer, AFTER_A_PUT])?.as_slice()
    );
    Ok(())
}

#[test]
fn a_script_without_a_call_leaves_the_store_as_it_was(rt: HostRuntime) -> Result<(), Fail> {
    let alloc = rt.alloc();
    for script in [
        b"".as_slice(),
        b"# nothing\n\nopen leave",
        b"open leave\nstep 1 7\n",
    ] {
        let (status, text) = played(alloc, script)?;
        assert_eq!(rt; status, 0);
        assert_eq!(rt; text.as_slice(), FRESH);
    }
    Ok(())
}

#[test]
fn the_first_line_that_cannot_be_done_is_named(rt: HostRuntime) -> Result<(), Fail> {
    let rows: [(&[u8], &[u8]); 12] = [
        (b"open leave\nstep 2 1\n", b"script 2\n"),
        (b"step 1 1\n", b"script 1\n"),
        (b"begin 1 1 count\n", b"script 1\n"),
        (b"open leave\nopen leave\n", b"script 2\n"),
        (b"open discard\n", b"script 1\n"),
        (b"open leave\ndie 2\n", b"script 2\n"),
        (b"open leave\ncall 1 1 count\n", b"script 2\n"),
        (b"open leave\nbegin 1 1 enable\n", b"script 2\n"),
        (b"open leave\nbegin 1 1 disable 0\n", b"script 2\n"),
        (b"open leave\nbegin 1 1 put - raw 00 0\n", b"script 2\n"),
        (b"open leave\nbegin 1 1 release\n", b"script 2\n"),
        (
            b"open leave\nbegin 1 1 get 61\nbegin 1 1 get 61\n",
            b"script 3\n",
        ),
    ];
    for (script, text) in rows {
        let (status, wrote) = played(rt.alloc(), script)?;
        assert_eq!(rt; status, 9);
        assert_eq!(rt; wrote.as_slice(), text);
    }
    Ok(())
}

#[test]
fn a_put_that_wants_an_expiry_is_stopped_where_the_store_has_none(
    rt: HostRuntime,
) -> Result<(), Fail> {
    let alloc = rt.alloc();
    let (status, text) = played(
        alloc,
        b"open leave\nbegin 1 5 put 61 i32 -1 9\nstep 1 100\nstep 1 7\n",
    )?;
    assert_eq!(rt; status, 0);
    assert_eq!(rt;
        text.as_slice(),
        joined(alloc, &[b"stopped 1 expiry-off\n", FRESH])?.as_slice()
    );
    Ok(())
}

#[test]
fn a_read_fault_and_a_line_that_is_too_long_are_told(rt: HostRuntime) -> Result<(), Fail> {
    let alloc = rt.alloc();
    let (status, text) = played_on(alloc, Vec::new(alloc), b"", b"open leave\n", &[0])?;
    assert_eq!(rt; status, 3);
    assert_eq!(rt; text.as_slice(), b"read fault\n".as_slice());
    let mut long = vec![in alloc; b'#'; 65_537]?;
    let (status, _) = played(alloc, &long)?;
    assert_eq!(rt; status, 9);
    long.truncate(65_536);
    let (status, _) = played(alloc, &long)?;
    assert_eq!(rt; status, 0);
    Ok(())
}

#[test]
fn a_store_without_a_whole_image_is_not_played_on_yet(rt: HostRuntime) -> Result<(), Fail> {
    let alloc = rt.alloc();
    let mut meta = vec![in alloc; 0u8; 112]?;
    store_word(&mut meta, WORD_VERSION, 3);
    store_word(&mut meta, WORD_CHECKSUM, 5);
    let (status, text) = played_on(alloc, Vec::new(alloc), &meta, b"step 1 1\n", &[0])?;
    assert_eq!(rt; status, 17);
    assert_eq!(rt; text.as_slice(), b"not yet\n".as_slice());
    Ok(())
}

// A store with the key a and a value of 4,000 dots: 4,008 bytes. The checksum is that of zlib.
pub(crate) fn large_store(alloc: Global, sequence: u32) -> Result<(Vec<u8>, Vec<u8>), Memory> {
    let body = joined(
        alloc,
        &[b"\xa8\x0f\0\0\xff\xff\xff\x07\x01a\xa0\x1f", &[b'.'; 4000]],
    )?;
    let mut meta = vec![in alloc; 0u8; 112]?;
    store_word(&mut meta, WORD_CHECKSUM, 0x859f_c89a);
    store_word(&mut meta, WORD_VERSION, 3);
    store_word(&mut meta, WORD_SEQUENCE, sequence);
    store_word(&mut meta, WORD_SIZE, 4008);
    store_word(&mut meta, WORD_LAST_SIZE, 4);
    store_word(&mut meta, WORD_LAST_CHECKSUM, 0x4c99_85d1);
    Ok((body, meta))
}

// The status and the text of a put of so many bytes into it.
fn put_into_large(alloc: Global, sequence: u32, count: usize) -> Result<(u8, Vec<u8>), Memory> {
    let (body, meta) = large_store(alloc, sequence)?;
    let mut script = joined(alloc, &[b"open leave\nbegin 1 100 put 6b raw "])?;
    for _ in 0..count {
        script.extend_from_slice(b"76")?;
    }
    script.extend_from_slice(b" 0\nstep 1 10000\n")?;
    played_on(alloc, body, &meta, &script, &[])
}

pub(crate) fn has(text: &[u8], piece: &[u8]) -> bool {
    text.contains_str(piece)
}

#[test]
fn an_item_that_fits_exactly_is_appended_and_one_byte_more_packs(
    rt: HostRuntime,
) -> Result<(), Fail> {
    let alloc = rt.alloc();
    let (status, text) = put_into_large(alloc, 1, 81)?;
    assert_eq!(rt; status, 0);
    assert_eq!(rt;
        has(
            &text,
            b" now 100 begun 0 place 0 ended 1 loads 1013 stores 24 locks 1 reply done\n"
        ),
        true
    );
    assert_eq!(rt;
        has(
            &text,
            b"region data 4096 version 3 sequence 1 flags 0\nsizes header 4092 record 4092 last 4\nchecksums record a06da747 last 4c9985d1\nshown whole 4092\npairs 2\n"
        ),
        true
    );
    let (status, text) = put_into_large(alloc, 1, 82)?;
    assert_eq!(rt; status, 0);
    assert_eq!(rt;
        has(
            &text,
            b" now 100 begun 0 place 1 ended 2 loads 1013 stores 1033 locks 1 reply done\n"
        ),
        true
    );
    assert_eq!(rt;
        has(&text, b"change 0 1 pack 100\nchange 1 1 put 6b "),
        true
    );
    assert_eq!(rt;
        has(
            &text,
            b"region data 65536 version 3 sequence 2 flags 0\nsizes header 4093 record 4093 last 4008\nchecksums record 89fcff12 last 859fc89a\nshown whole 4093\npairs 2\n"
        ),
        true
    );
    Ok(())
}

#[test]
fn a_put_that_would_pack_is_stopped_at_the_last_sequence(rt: HostRuntime) -> Result<(), Fail> {
    let alloc = rt.alloc();
    let (status, text) = put_into_large(alloc, u32::MAX, 82)?;
    assert_eq!(rt; status, 0);
    assert_eq!(rt;
        has(
            &text,
            b"stopped 1 sequence-end\nchanges 0\nregion data 4096 version 3 sequence 4294967295 flags 0\n"
        ),
        true
    );
    Ok(())
}

#[test]
fn a_script_on_a_lent_world_adds_its_text_to_the_buffer(rt: HostRuntime) -> Result<(), Fail> {
    let alloc = rt.alloc();
    let text = joined(alloc, &[b"before ", PUT_ANSWER, AFTER_A_PUT])?;
    let (status, out) = played_behind(alloc, b"before ", PUT, false).expect(&rt, "ample memory");
    assert_eq!(rt; status, 0);
    assert!(rt; out == text);
    let (status, out) = played_behind(alloc, b"", PUT, true).expect(&rt, "ample memory");
    assert_eq!(rt; status, 9);
    assert!(rt; out.as_slice() == b"script 4\n".as_slice());
    let (status, out) = played_behind(alloc, b"before ", b"step 1 1\n", false).expect(
        &rt,
        "ample memory",
    );
    assert_eq!(rt; status, 9);
    assert!(rt; out.as_slice() == b"before script 1\n".as_slice());
    Ok(())
}
