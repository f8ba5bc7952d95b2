// The commands, with an input of each.
use crate::racks::{WRITTEN, blank_device};
use crate::script::script;
use stair_calls::{CALLS, FOUR, blocks_of, with_blocks};
use stair_memrack::MemRack;
use std::alloc::{AllocError, Global};

/// A command of each kind.
#[derive(Clone, Copy, PartialEq, Eq)]
pub(crate) enum Command {
    Check,
    Stripe,
    Restore,
    Create,
    Show,
    Read,
    Write,
    Scrub,
    Replace,
    Rebuild,
    Run,
    Exercise,
    Freeze,
    Thaw,
    Label,
}

impl Command {
    pub(crate) const EACH: [Command; 15] = [
        Command::Check,
        Command::Stripe,
        Command::Restore,
        Command::Create,
        Command::Show,
        Command::Read,
        Command::Write,
        Command::Scrub,
        Command::Replace,
        Command::Rebuild,
        Command::Run,
        Command::Exercise,
        Command::Freeze,
        Command::Thaw,
        Command::Label,
    ];

    pub(crate) fn line(self) -> &'static str {
        match self {
            Command::Check => "check 4 1 2 1",
            Command::Stripe => "stripe up 4 1 2 1",
            Command::Restore => "restore 4 1 2 1",
            Command::Create => "create",
            Command::Show => "show",
            Command::Read => "read 0 15",
            Command::Write => "write 0 15",
            Command::Scrub => "scrub",
            Command::Replace => "replace 2",
            Command::Rebuild => "rebuild",
            Command::Run => "run",
            Command::Exercise => "exercise 1 20",
            Command::Freeze => "freeze",
            Command::Thaw => "thaw",
            Command::Label => "label shelf",
        }
    }

    /// Its input, where it takes one. Zeros are a codeword, and no cell is erased.
    pub(crate) fn input(self, alloc: Global) -> Result<Vec<u8>, AllocError> {
        match self {
            Command::Check => blocks_of(alloc, &[0; 8]),
            Command::Stripe => blocks_of(alloc, &[0; 5]),
            Command::Restore => {
                let mut bytes = Vec::new(alloc);
                bytes.extend_from_slice(b"........")?;
                bytes.extend_from_slice(&[0; 8 * 512])?;
                Ok(bytes)
            }
            Command::Create => FOUR.text.as_bytes().to_vec(alloc),
            Command::Write => blocks_of(alloc, &[WRITTEN; 15]),
            Command::Run => script(alloc),
            _ => Ok(Vec::new(alloc)),
        }
    }

    /// The rack before it: blank media for `create`, and else an array with blocks, one of whose devices is blank where it is to be
    /// replaced.
    pub(crate) fn rack(self, alloc: Global) -> Result<MemRack, AllocError> {
        match self {
            Command::Create => MemRack::new(alloc, 4, 17, &[], CALLS),
            Command::Replace => with_blocks(alloc, &blank_device(2)),
            _ => with_blocks(alloc, &[]),
        }
    }
}
