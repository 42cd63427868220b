// A value under a key.
use crate::bytes::Bytes;
use std::alloc::AllocError;

// A value with its expiry second, 0 for never.
#[derive(Debug, Drop)]
pub(crate) struct Kept {
    pub(crate) value: Bytes,
    pub(crate) expiry: u32,
}

impl Kept {
    ghost use Rattle.std.specs.Prelude.{◌≡◌};
    ghost use Rattle.expiring_map.specs.Live.{is_live};
    ghost use Rattle.expiring_map.specs.Kept.{value_kept};

    pub(crate) fn is_live(&self, now: u32) -> bool
        ensures { result ≡ is_live now (value_kept self.now) }
    {
        self.expiry == 0 || now < self.expiry
    }
}

impl Clone for Kept {
    ghost use Rattle.std.specs.Prelude.{◌≡◌};

    ghost is_clone = { λ kept copy. copy ≡ kept };

    fn clone(&self) -> Result<Kept, AllocError> {
        Ok(Kept {
            value: self.value.clone()?,
            expiry: self.expiry,
        })
    }
}
