// What an opener knows of the image that stands.

/// What an opener knows of the image.
#[derive(Clone, Copy, Debug, PartialEq, Eq)]
pub struct Standing {
    pub sequence: u32,
    pub version: u32,
    pub flag: bool,
    pub size: u32,
    pub checksum: u32,
    pub tail: u32,
    pub file_size: u32,
}
