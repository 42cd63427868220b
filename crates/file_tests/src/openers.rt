// An opener's calls over real files.
ghost use Rattle.std.specs.Prelude.{◌≡◌, false, None, IfSome};
ghost use Rattle.opener.specs.Opener.{Tied};

use crate::folder::{Folder, part};
use change_log::{Call, Reply};
use expiring_map::{Bytes, Memory};
use handlers::{Handler, Steady, Strategy};
use opener::{Opener, Step};
use region_words::Share;
use std::alloc::Global;
use std::mem;
use std::test::Fail;

fn opener_of<S: Share>(alloc: Global, share: &S) -> Option<Opener>
    requires alive { (S.state share.now).ended ≡ false }
    requires free { (S.state share.now).holds ≡ None }
    ensures { IfSome result (λ o. Tied o.core (S.state share.now)) }
{
    let steady = Steady::new(alloc, Strategy::Leave);
    let handler: Box<dyn Handler + Send> = Box::new(alloc, steady).ok()?;
    Some(Opener::new(alloc, share.who(), handler))
}

// The reply to a new opener's call, where it is answered.
fn reply_of<S: Share>(alloc: Global, share: &mut S, call: Call) -> Option<Reply>
    requires alive { (S.state share.old).ended ≡ false }
    requires free { (S.state share.old).holds ≡ None }
{
    let mut opener = opener_of(alloc, share)?;
    let begun = opener.begin(share, call, 100).is_ok();
    let reply = if begun {
        finish(&mut opener, share)
    } else {
        None
    };
    mem::drop(opener);
    reply
}

fn finish<S: Share>(opener: &mut Opener, share: &mut S) -> Option<Reply>
    requires { Tied opener.old.core (S.state share.old) }
{
    for _ in 0..40_000u32 {
        match opener.step(share) {
            Step::Going => {}
            Step::Answered(answer) => return Some(answer.reply),
            _ => return None,
        }
    }
    None
}

fn get(alloc: Global) -> Result<Call, Memory> {
    Ok(Call::Get {
        key: Bytes::copy_of(alloc, b"k")?,
    })
}

fn put(alloc: Global, value: &[u8]) -> Result<Call, Memory> {
    Ok(Call::Put {
        key: Bytes::copy_of(alloc, b"k")?,
        value: Bytes::copy_of(alloc, value)?,
        seconds: 0,
    })
}

fn is_value(reply: Option<Reply>, value: &[u8]) -> bool {
    match reply {
        Some(Reply::Value(found)) => found.as_slice() == value,
        _ => false,
    }
}

// The bytes are those of the format: the payload of one pair with its checksum, the sequence raised by the write-back.
#[test]
fn what_one_opener_puts_another_gets(rt: HostRuntime) -> Result<(), Fail> {
    let alloc = rt.alloc();
    let folder = Folder::new(&rt, "put")?;
    let done = reply_of(alloc, &mut folder.share(&rt)?, put(alloc, b"\x03abc")?);
    assert!(rt; matches!(done, Some(Reply::Done)));
    let found = reply_of(alloc, &mut folder.share(&rt)?, get(alloc)?);
    assert!(rt; is_value(found, b"\x03abc"));
    let (data, meta) = folder.bytes(&rt)?;
    let payload = b"\x0b\0\0\0\xff\xff\xff\x07\x01k\x04\x03abc\0";
    assert_eq!(rt; part(&data, 0, 16), payload.as_slice());
    assert_eq!(rt;
        part(&meta, 0, 12),
        b"\xd3\x95\x65\x3a\x03\0\0\0\x01\0\0\0".as_slice()
    );
    folder.clear(&rt)?;
    Ok(())
}

#[test]
fn a_value_over_the_size_of_the_file_makes_it_grow(rt: HostRuntime) -> Result<(), Fail> {
    let alloc = rt.alloc();
    let folder = Folder::new(&rt, "grow")?;
    let value = vec![in alloc; 7u8; 20_000]?;
    let done = reply_of(alloc, &mut folder.share(&rt)?, put(alloc, &value)?);
    assert!(rt; matches!(done, Some(Reply::Done)));
    let found = reply_of(alloc, &mut folder.share(&rt)?, get(alloc)?);
    assert!(rt; is_value(found, &value));
    let (data, _) = folder.bytes(&rt)?;
    assert_eq!(rt; data.len(), 262_144);
    folder.clear(&rt)?;
    Ok(())
}
