ghost use Rattle.std.specs.Prelude.{◌≡◌, IfOk, [], length, map, slice_index_or, string_bytes};
ghost use Rattle.stair_conf.specs.Commands.{HasNoOption};
ghost use Rattle.stair_conf.specs.Words.{IsVolumeWord, SpellsVolume};
ghost use Rattle.stair_conf.specs.declared.job.VolumeJob.{VolumeJob};

use crate::commands::{read_name, read_new_volume, read_volume_blocks};
use crate::matches::{NewVolume, VolumeBlocks};
use crate::{VolumeJob, WordsFault};
use std::alloc::Global;

// Reads the words of a command on volumes that has operands: `vmake NAME BLOCKS`, `vdrop NAME`, `vread NAME BLOCK COUNT` or
// `vwrite NAME BLOCK COUNT`.
pub(crate) fn read_volume(alloc: Global, words: &[String]) -> Result<VolumeJob, WordsFault>
    requires { HasNoOption (map string_bytes words.now) }
    ensures ok { IfOk result (λ job. SpellsVolume (map string_bytes words.now) job) }
    ensures usage { result ≡ Err WordsFault.Usage
        → (job : VolumeJob) → SpellsVolume (map string_bytes words.now) job → length words.now ≡ 1 }
    ensures memory { result ≡ Err WordsFault.Memory
        → IsVolumeWord (slice_index_or (map string_bytes words.now) 0 []) }
{
    let [command, ..] = words else {
        return Err(WordsFault::Usage);
    };
    match command.as_str() {
        "vmake" => {
            let NewVolume { name, blocks } = read_new_volume(alloc, words)?;
            Ok(VolumeJob::Make { name, blocks })
        }
        "vdrop" => Ok(VolumeJob::Remove {
            name: read_name(alloc, words)?,
        }),
        "vread" => {
            let VolumeBlocks { name, block, count } = read_volume_blocks(alloc, words)?;
            Ok(VolumeJob::Read { name, block, count })
        }
        "vwrite" => {
            let VolumeBlocks { name, block, count } = read_volume_blocks(alloc, words)?;
            Ok(VolumeJob::Write { name, block, count })
        }
        _ => Err(WordsFault::Usage),
    }
}
