// What stops an opener's calls that no script can bring about: a share that fails, and files that a script's store hasn't.
use crate::calls::{End, first_end, get, put};
use change_log::Call;
use expiring_map::Memory;
use meta_record::Shown;
use opener::Stop;
use std::alloc::Global;
use std::test::Fail;
use test_support::{BODY, META};

const FAULT: Option<End> = Some(End::Stopped(Stop::Fault));

#[test]
fn each_of_the_calls_of_a_get_may_fail(rt: HostRuntime) -> Result<(), Fail> {
    let alloc = rt.alloc();
    for fails in 0..15u64 {
        let end = first_end(alloc, &BODY, &META, &[fails], get(alloc)?);
        assert_eq!(rt; end, FAULT, "call {fails}");
    }
    let end = first_end(alloc, &BODY, &META, &[15], get(alloc)?);
    assert_eq!(rt; end, Some(End::Answered));
    Ok(())
}

// The end of a first put into a fresh store whose call of this number on the share fails.
fn put_end(alloc: Global, fails: u64) -> Result<Option<End>, Memory> {
    Ok(first_end(alloc, b"", b"", &[fails], put(alloc, 0)?))
}

#[test]
fn each_of_the_calls_of_a_first_put_may_fail(rt: HostRuntime) -> Result<(), Fail> {
    for fails in 0..27u64 {
        assert_eq!(rt; put_end(rt.alloc(), fails)?, FAULT, "call {fails}");
    }
    assert_eq!(rt; put_end(rt.alloc(), 27)?, Some(End::Answered));
    Ok(())
}

#[test]
fn a_region_that_shows_no_whole_image_stops_the_call(rt: HostRuntime) {
    let mut meta = META;
    meta[28] = 4;
    let end = first_end(rt.alloc(), &BODY, &meta, &[], Call::Sync);
    assert_eq!(rt; end, Some(End::Stopped(Stop::NotWhole(Shown::Header(11)))));
}

// A get over a record of this version with this low word of its flags, whose call of this number fails.
fn end_of_record(alloc: Global, version: u8, flags: u8, fails: u64) -> Result<Option<End>, Memory> {
    let mut meta = [0; 108];
    meta[..40].copy_from_slice(&META);
    meta[4] = version;
    meta[104] = flags;
    Ok(first_end(alloc, &BODY, &meta, &[fails], get(alloc)?))
}

#[test]
fn a_record_that_is_refused_is_named_after_ten_loads(rt: HostRuntime) -> Result<(), Fail> {
    let alloc = rt.alloc();
    let refused = [
        (9, 0, Stop::Version(9)),
        (9, 2, Stop::Version(9)),
        (4, 2, Stop::Flags(2)),
    ];
    for (version, flags, stop) in refused {
        // a lock, ten loads, an unlock
        for fails in 0..12u64 {
            let end = end_of_record(alloc, version, flags, fails)?;
            assert_eq!(rt; end, FAULT, "version {version}, call {fails}");
        }
        let end = end_of_record(alloc, version, flags, 12)?;
        assert_eq!(rt; end, Some(End::Stopped(stop)));
    }
    Ok(())
}

#[test]
fn a_put_wants_an_expiry_of_32_bits(rt: HostRuntime) -> Result<(), Fail> {
    let mut meta = [0; 108];
    meta[4] = 4;
    meta[104] = 1;
    let late = put(rt.alloc(), u32::MAX)?;
    let end = first_end(rt.alloc(), b"", &meta, &[], late);
    assert_eq!(rt; end, Some(End::Stopped(Stop::ExpiryRange)));
    Ok(())
}
