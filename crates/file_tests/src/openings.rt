// What comes of opening real files.
use crate::folder::{Folder, part};
use file_region::OpenStop;
use std::fs;
use std::test::Fail;

#[test]
fn an_absent_store_is_created_only_where_that_is_asked(rt: HostRuntime) -> Result<(), Fail> {
    let folder = Folder::new(&rt, "absent")?;
    assert_eq!(rt; folder.refusal(&rt, false), Some(OpenStop::Absent));
    assert!(rt; !fs::exists(&rt, folder.data.as_str())?);
    assert!(rt; !fs::exists(&rt, folder.meta.as_str())?);
    assert_eq!(rt; folder.refusal(&rt, true), None);
    let (data, meta) = folder.bytes(&rt)?;
    assert_eq!(rt; data.as_slice(), [0; 4096].as_slice());
    assert_eq!(rt; meta.as_slice(), [0; 4096].as_slice());
    folder.clear(&rt)?;
    Ok(())
}

#[test]
fn files_are_filled_up_with_zeros(rt: HostRuntime) -> Result<(), Fail> {
    let folder = Folder::new(&rt, "short")?;
    folder.write(&rt, &[1; 4097], b"meta")?;
    assert_eq!(rt; folder.refusal(&rt, false), None);
    let (data, meta) = folder.bytes(&rt)?;
    assert_eq!(rt; data.len(), 8192);
    assert_eq!(rt; part(&data, 4095, 4098), b"\x01\x01\0".as_slice());
    assert_eq!(rt; meta.len(), 4096);
    assert_eq!(rt; part(&meta, 0, 5), b"meta\0".as_slice());
    folder.clear(&rt)?;
    Ok(())
}

#[test]
fn a_file_over_its_limit_is_refused_with_its_length(rt: HostRuntime) -> Result<(), Fail> {
    let folder = Folder::new(&rt, "long")?;
    folder.write(&rt, b"", &[0; 65_537])?;
    assert_eq!(rt;
        folder.refusal(&rt, false),
        Some(OpenStop::SizeRefused(65_537))
    );
    folder.set_length(&rt, 67_112_960)?;
    assert_eq!(rt;
        folder.refusal(&rt, false),
        Some(OpenStop::SizeRefused(67_112_960))
    );
    folder.clear(&rt)?;
    Ok(())
}

#[test]
fn a_folder_in_place_of_a_file_is_a_fault(rt: HostRuntime) -> Result<(), Fail> {
    let folder = Folder::new(&rt, "folders")?;
    fs::create_dir(&rt, folder.meta.as_str())?;
    assert_eq!(rt; folder.refusal(&rt, true), Some(OpenStop::Fault));
    fs::remove_file(&rt, folder.data.as_str())?;
    fs::create_dir(&rt, folder.data.as_str())?;
    assert_eq!(rt; folder.refusal(&rt, true), Some(OpenStop::Fault));
    folder.clear(&rt)?;
    // and where the folder of the store isn't there
    let gone = Folder::new(&rt, "gone")?;
    fs::remove_dir_all(&rt, gone.path.as_str())?;
    assert_eq!(rt; gone.refusal(&rt, true), Some(OpenStop::Fault));
    Ok(())
}
