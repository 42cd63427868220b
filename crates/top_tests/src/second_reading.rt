// A second reading of a store's two files, of a page at most: what a dump has to say of them. It shares no code with the product.
ghost use Rattle.std.specs.Prelude.{◌≤◌};

use std::alloc::Global;
use std::collections::BTreeMap;
use std::fmt::Write;
use std::test::Fail;

const PAGE: usize = 4096;

// The words of the two files, but for the payload.
#[derive(Drop)]
struct Words {
    header: u32,
    checksum: u32,
    version: u32,
    sequence: u32,
    size: u32,
    last_size: u32,
    last_checksum: u32,
    flags: u64,
}

// What is left of some bytes.
#[derive(Drop)]
struct Rest<'a>(&'a [u8]);

impl<'a> Rest<'a> {
    fn front(&mut self, size: usize) -> Option<&'a [u8]> {
        let (front, rest) = self.0.split_at_checked(size)?;
        self.0 = rest;
        Some(front)
    }

    // A length: seven bits a byte, in at most five of them.
    fn length(&mut self) -> Option<usize> {
        let mut value = 0u64;
        for place in 0..5u32 {
            let byte = *self.front(1)?.first()?;
            value |= u64::from(byte & 127) << (7 * place);
            if byte < 128 {
                return if value < 1 << 31 {
                    Some(value as usize)
                } else {
                    None
                };
            }
        }
        None
    }

    fn field(&mut self) -> Option<&'a [u8]> {
        let size = self.length()?;
        self.front(size)
    }
}

type Found<'a> = BTreeMap<&'a [u8], (&'a [u8], u32)>;

fn word(bytes: &[u8], place: usize) -> u32
    requires { place ≤ 27 }
{
    let at = |n: usize| bytes.get(4 * place + n).copied().unwrap_or(0);
    u32::from_le_bytes([at(0), at(1), at(2), at(3)])
}

fn crc(bytes: &[u8]) -> u32 {
    let mut register = u32::MAX;
    for byte in bytes {
        register ^= u32::from(*byte);
        for _ in 0..8 {
            let odd = register & 1 == 1;
            register >>= 1;
            if odd {
                register ^= 0xedb8_8320;
            }
        }
    }
    !register
}

fn words_of(body: &[u8], meta: &[u8]) -> Words {
    Words {
        header: word(body, 0),
        checksum: word(meta, 0),
        version: word(meta, 1),
        sequence: word(meta, 2),
        size: word(meta, 7),
        last_size: word(meta, 8),
        last_checksum: word(meta, 9),
        flags: u64::from(word(meta, 26)) | u64::from(word(meta, 27)) << 32,
    }
}

fn image(body: &[u8], size: u32) -> Option<&[u8]> {
    body.get(4..4 + size as usize)
}

fn agrees(body: &[u8], size: u32, checksum: u32) -> bool {
    image(body, size).is_some_and(|bytes| crc(bytes) == checksum)
}

// The map of a payload, the last item of a key counting, or none.
fn found_in<'a>(alloc: Global, flag: bool, payload: &'a [u8]) -> Result<Option<Found<'a>>, Fail> {
    let mut found = BTreeMap::new(alloc);
    let mut rest = Rest(payload);
    if !payload.is_empty() && rest.length().is_none() {
        return Ok(None);
    }
    for _ in 0..payload.len() {
        if rest.0.is_empty() {
            break;
        }
        let Some(key) = rest.field() else {
            return Ok(None);
        };
        if key.is_empty() {
            continue;
        }
        let Some(value) = rest.field() else {
            return Ok(None);
        };
        found.remove(&key);
        if value.is_empty() {
            continue;
        }
        if !flag {
            found.insert(key, (value, 0))?;
            continue;
        }
        match value.split_last_chunk::<4>() {
            Some((value, expiry)) if !value.is_empty() => {
                found.insert(key, (value, u32::from_le_bytes(*expiry)))?;
            }
            _ => return Ok(None),
        }
    }
    Ok(Some(found))
}

fn hex(text: &mut String, bytes: &[u8]) -> Result<(), Fail> {
    if bytes.is_empty() {
        text.push_str("-")?;
    }
    for byte in bytes {
        write!(text, "{byte:02x}")?;
    }
    Ok(())
}

fn damaged(alloc: Global, kind: &str) -> Result<(u8, String), Fail> {
    Ok((6, format!(in alloc; "damaged {kind}\n")?))
}

/// The status and the text of a dump of these files, which are cut or filled up to a page.
pub fn dump_of(alloc: Global, body: &[u8], meta: &[u8]) -> Result<(u8, String), Fail> {
    let mut body = body.to_vec(alloc)?;
    body.resize(PAGE, 0)?;
    let w = words_of(&body, meta);
    let fresh = w.header == 0 && w.checksum == 0 && w.version == 0 && w.size == 0 && w.flags == 0;
    if w.version != 3 && w.version != 4 && !fresh {
        return Ok((10, format!(in alloc; "version {}\n", w.version)?));
    }
    if w.flags > 1 {
        return Ok((10, format!(in alloc; "flags {}\n", w.flags)?));
    }
    let (name, size) = if agrees(&body, w.size, w.checksum) {
        ("whole", w.size)
    } else if agrees(&body, w.header, w.checksum) {
        ("header", w.header)
    } else if agrees(&body, w.last_size, w.last_checksum) {
        ("last", w.last_size)
    } else if image(&body, w.size).is_some() {
        return damaged(alloc, "checksum");
    } else {
        return damaged(alloc, "length");
    };
    let payload = image(&body, size).unwrap_or(b"");
    match found_in(alloc, w.flags == 1, payload)? {
        None => damaged(alloc, "content"),
        Some(found) => Ok((0, region_text(alloc, &w, name, size, &found)?)),
    }
}

fn region_text(
    alloc: Global,
    w: &Words,
    name: &str,
    size: u32,
    found: &Found<'_>,
) -> Result<String, Fail> {
    let mut text = String::new(alloc);
    write!(
        text,
        "region data {PAGE} version {} sequence {} flags {}\n",
        w.version, w.sequence, w.flags
    )?;
    write!(
        text,
        "sizes header {} record {} last {}\n",
        w.header, w.size, w.last_size
    )?;
    write!(
        text,
        "checksums record {:08x} last {:08x}\n",
        w.checksum, w.last_checksum
    )?;
    write!(text, "shown {name} {size}\npairs {}\n", found.len())?;
    for (key, (value, expiry)) in found {
        text.push_str("pair ")?;
        hex(&mut text, key)?;
        text.push_str(" ")?;
        hex(&mut text, value)?;
        write!(text, " {expiry}\n")?;
    }
    Ok(text)
}
