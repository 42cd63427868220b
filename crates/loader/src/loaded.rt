// What a load gives.
ghost use Rattle.std.specs.Prelude.{◌≡◌};
ghost use Rattle.loader.specs.Maps.{map_of_image};

use expiring_map::{Bytes, ExpiringMap};
use meta_record::{Record, Shown};
use region_words::Standing;

/// The image that a region shows. That of a damaged region is empty.
#[derive(Drop)]
pub struct Image {
    pub standing: Standing,
    pub map: ExpiringMap,
}

impl Image {
    /// The pairs of the image.
    pub fn map(&self) -> &ExpiringMap
        ensures { result.now ≡ map_of_image self.now }
    {
        &self.map
    }
}

/// What was loaded of a region. `payload` are the payload bytes that were loaded: whole words, so there may be more of
/// them than the image has.
#[derive(Drop)]
pub struct Loaded {
    pub shown: Shown,
    pub rec: Record,
    pub header: u32,
    pub image: Image,
    pub payload: Bytes,
}
