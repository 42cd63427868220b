// The endings of commands that are refused.
ghost use Rattle.std.specs.Prelude.{◌≡◌, IfOk};
ghost use Rattle.mmkv_top.specs.Due.{IsUnbrought, over_limit, refused};

use crate::ending::Ending;
use expiring_map::Memory;
use meta_record::RecordFault;
use region_words::ShelfStop;
use std::alloc::Global;

/// Why a shelf brought nothing.
pub(crate) fn unbrought(alloc: Global, stop: ShelfStop) -> Result<Ending, Memory>
    ensures { IfOk result (λ e. IsUnbrought stop e) }
{
    match stop {
        ShelfStop::Failed => Ending::of_text(alloc, 5, "region fault\n"),
        ShelfStop::Absent => Ending::of_text(alloc, 13, "no store\n"),
        ShelfStop::SizeRefused(size) => over_limit(alloc, size),
        ShelfStop::Memory => Err(Memory),
    }
}

/// A file has so many bytes, which is over its limit.
pub(crate) fn over_limit(alloc: Global, size: u64) -> Result<Ending, Memory>
    ensures { IfOk result (λ e. e ≡ over_limit size) }
{
    Ok(Ending::of_string(14, format!(in alloc; "size {size}\n")?))
}

/// Why a record is refused.
pub(crate) fn refused(alloc: Global, fault: RecordFault) -> Result<Ending, Memory>
    ensures { IfOk result (λ e. e ≡ refused fault) }
{
    let text = match fault {
        RecordFault::Version(version) => format!(in alloc; "version {version}\n")?,
        RecordFault::Flags(flags) => format!(in alloc; "flags {flags}\n")?,
    };
    Ok(Ending::of_string(10, text))
}
