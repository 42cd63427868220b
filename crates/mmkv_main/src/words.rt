// The words of the command line.
use expiring_map::Bytes;
use std::env::Env;
use std::{env, io};

/// The words after the program's name.
pub(crate) fn words(rt: &(impl Env + AllocGlobal)) -> io::Result<Vec<Bytes>> {
    let mut words = Vec::new(rt.alloc());
    for word in env::args(rt)?.skip(1) {
        words.push(Bytes::of_vec(word.into_bytes()))?;
    }
    Ok(words)
}

#[cfg(test)]
mod tests {
    use super::*;
    use std::alloc::Global;
    use std::env::FillError;

    // A command line: the program's name and what follows it.
    #[derive(Clone, Copy)]
    struct Line(&'static [&'static [u8]]);

    impl Env for Line {
        fn arg(&self, i: usize, buf: &mut [u8]) -> Result<usize, FillError> {
            let Some(word) = self.0.get(i) else {
                return Err(FillError::NotPresent);
            };
            let Some(front) = buf.get_mut(..word.len()) else {
                return Err(FillError::TooLong);
            };
            front.copy_from_slice(word);
            Ok(word.len())
        }

        fn var(&self, _name: &str, _buf: &mut [u8]) -> Result<usize, FillError> {
            Err(FillError::NotPresent)
        }

        fn var_at(&self, _i: usize, _buf: &mut [u8]) -> Result<usize, FillError> {
            Err(FillError::NotPresent)
        }
    }

    fn words_of(alloc: Global, line: &'static [&'static [u8]]) -> io::Result<Vec<Bytes>> {
        words(&(Line(line), alloc))
    }

    #[test]
    fn the_programs_name_is_no_word(rt: HostRuntime) {
        let words = words_of(rt.alloc(), &[b"mmkv", b"stores", b"", b"put"]);
        let words = words.expect(&rt, "ample memory");
        let wanted = [&b"stores"[..], b"", b"put"];
        assert_eq!(rt; words.len(), wanted.len());
        for (word, want) in words.iter().zip(wanted) {
            assert_eq!(rt; word.as_slice(), want);
        }
    }

    #[test]
    fn a_line_of_the_name_alone_has_no_words(rt: HostRuntime) {
        let words = words_of(rt.alloc(), &[b"mmkv"]).expect(&rt, "ample memory");
        assert_eq!(rt; words.len(), 0);
    }

    #[test]
    fn a_word_that_is_no_text_is_refused(rt: HostRuntime) {
        let kind = words_of(rt.alloc(), &[b"mmkv", b"a", b"\xff"])
            .err()
            .map(|e| e.kind());
        assert_eq!(rt; kind, Some(io::ErrorKind::InvalidData));
    }
}
