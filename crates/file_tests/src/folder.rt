// An empty folder for the files of one test.
ghost use Rattle.std.specs.Prelude.{◌≡◌, IfOk};
ghost use Rattle.file_region.specs.Shares.{fresh};

use file_region::{FileShare, OpenStop};
use std::env::Env;
use std::fs::{File, Files};
use std::io::{Error, ErrorKind};
use std::{env, fs, io};

// A folder with the paths of a store's two files. It stands until `clear`.
#[derive(Drop)]
pub(crate) struct Folder {
    pub(crate) path: String,
    pub(crate) data: String,
    pub(crate) meta: String,
}

impl Folder {
    // A folder of this name, in which nothing lies.
    pub(crate) fn new(rt: &(impl Env + Files + AllocGlobal), name: &str) -> io::Result<Folder> {
        let alloc = rt.alloc();
        let path = env::temp_dir(rt)?.join(alloc, name)?.into_string();
        match fs::remove_dir_all(rt, path.as_str()) {
            Err(error) if error.kind() != ErrorKind::NotFound => return Err(error),
            _ => {}
        }
        fs::create_dir(rt, path.as_str())?;
        let data = format!(in alloc; "{path}/s")?;
        let meta = format!(in alloc; "{path}/s.crc")?;
        Ok(Folder { path, data, meta })
    }

    // A share over the two files, which are created where they are absent.
    pub(crate) fn share(
        &self,
        rt: &(impl Files<File = File> + AllocGlobal),
    ) -> io::Result<FileShare<File>>
        ensures { IfOk result (λ share. share.ledger ≡ fresh) }
    {
        match FileShare::open(rt, self.data.as_str(), self.meta.as_str(), true) {
            Ok(share) => Ok(share),
            Err(_) => Err(Error::from(ErrorKind::Other)),
        }
    }

    // Why the two files aren't opened.
    pub(crate) fn refusal(
        &self,
        rt: &(impl Files<File = File> + AllocGlobal),
        create: bool,
    ) -> Option<OpenStop> {
        FileShare::open(rt, self.data.as_str(), self.meta.as_str(), create).err()
    }

    pub(crate) fn write(&self, rt: &impl Files, data: &[u8], meta: &[u8]) -> io::Result<()> {
        fs::write(rt, self.data.as_str(), data)?;
        fs::write(rt, self.meta.as_str(), meta)
    }

    pub(crate) fn bytes(&self, rt: &(impl Files + AllocGlobal)) -> io::Result<(Vec<u8>, Vec<u8>)> {
        Ok((
            fs::read(rt, self.data.as_str())?,
            fs::read(rt, self.meta.as_str())?,
        ))
    }

    // Cuts the data file, or fills it up with zeros, to this length.
    pub(crate) fn set_length(&self, rt: &impl Files, length: u64) -> io::Result<()> {
        let mut options = fs::OpenOptions::new();
        options.write(true).create(true);
        fs::OpenFile::set_len(&options.open(rt, self.data.as_str())?, length)
    }

    pub(crate) fn clear(self, rt: &(impl Files + AllocGlobal)) -> io::Result<()> {
        fs::remove_dir_all(rt, self.path.as_str())
    }
}

// The bytes from this place to that one, where there are so many.
pub(crate) fn part(bytes: &[u8], from: usize, to: usize) -> &[u8] {
    bytes.get(from..to).unwrap_or(&[])
}
