// How far a data file grows for a rewrite.
ghost use Rattle.std.specs.Prelude.{◌≡◌, ◌+◌, ◌*◌, ◌^◌, ◌<◌, ◌≤◌, ◌↔◌, IsNone};
ghost use Rattle.kv_pairs.specs.declared.growth.TheConstants.{LARGEST_FILE};
ghost use Rattle.kv_pairs.specs.Growth.{grown_size, grown_to, IsFileSize};

/// The greatest size of a data file in bytes, 2^26.
pub const LARGEST_FILE: u64 = 67_108_864;

/// The size in bytes of a file that has this size, for a rewrite to packed pairs of so many bytes, with so
/// many bytes to append. None where `LARGEST_FILE` doesn't do.
pub fn grown_size(packed: u64, need: u64, pairs: u64, file: u32) -> Option<u32>
    requires packed { packed ≤ 2 ^ 30 }
    requires need { need ≤ 2 ^ 30 }
    requires pairs { pairs ≤ 2 ^ 30 }
    requires file { IsFileSize file }
    ensures value { result ≡ grown_size packed need pairs file }
    ensures none { IsNone result ↔ (LARGEST_FILE < 4 + packed + need) }
{
    let needs = 4 + packed + need;
    if needs > LARGEST_FILE {
        return None;
    }
    let spare = needs / pairs.max(1) * ((pairs + 1) / 2).max(8);
    Some(doubled(u64::from(file), needs + spare) as u32)
}

// The first of a size, its double and so on that is above what is wanted, and at most the greatest.
fn doubled(file: u64, wanted: u64) -> u64
    requires { IsFileSize file }
    ensures value { result ≡ grown_to wanted file }
    ensures most { result ≤ LARGEST_FILE }
{
    let mut size = file;
    while size <= wanted {
        if 2 * size > LARGEST_FILE {
            return LARGEST_FILE;
        }
        size *= 2;
    }
    size
}

#[cfg(test)]
mod tests {
    use super::*;

    #[test]
    fn a_file_doubles_until_there_is_room(rt: HostRuntime) {
        assert_eq!(rt; grown_size(4_008, 85, 1, 4_096), Some(65_536));
        assert_eq!(rt; grown_size(4, 7, 0, 4_096), Some(4_096));
        assert_eq!(rt; grown_size(67_108_860, 0, 1, 4_096), Some(67_108_864));
        assert_eq!(rt; grown_size(67_108_860, 1, 1, 67_108_864), None);
    }
}
