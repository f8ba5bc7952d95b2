ghost use Rattle.std.specs.Prelude.{◌*◌, ◌<◌, ◌≤◌};

use crate::layout::Layout;
use crate::writes::Part;
use stair_codec::By;
use std::fmt;

/// A code with n devices, m row parities and one more parity in each row. All parities are computed.
#[derive(Clone, Copy)]
pub(crate) struct Code {
    pub(crate) n: u8,
    pub(crate) m: u8,
    ghost devices: { (3 ≤ n) × (n ≤ 32) },
    ghost parity: { 1 ≤ m },
    ghost majority: { 2 * m < n },
}

/// A row whose symbols are solved.
#[derive(Clone, Copy)]
pub(crate) enum Row {
    /// Of 8 devices, with 2 row parities.
    EightTwo,
    /// Of 32 devices, with 3 row parities.
    ThirtyTwoThree,
}

impl Row {
    fn name(self) -> &'static str {
        match self {
            Row::EightTwo => "8-2",
            Row::ThirtyTwoThree => "32-3",
        }
    }

    /// The code of the row.
    pub(crate) fn code(self) -> Code {
        match self {
            Row::EightTwo => Code { n: 8, m: 2 },
            Row::ThirtyTwoThree => Code { n: 32, m: 3 },
        }
    }
}

/// How many devices get the same sector.
#[derive(Clone, Copy)]
pub(crate) enum Devices {
    Eight,
    ThirtyTwo,
}

impl Devices {
    fn name(self) -> &'static str {
        match self {
            Devices::Eight => "8",
            Devices::ThirtyTwo => "32",
        }
    }

    /// The number of them.
    pub(crate) fn count(self) -> u8
        ensures some { 0 < result }
        ensures within { result ≤ 32 }
    {
        match self {
            Devices::Eight => 8,
            Devices::ThirtyTwo => 32,
        }
    }
}

/// Work on a stripe.
#[derive(Clone, Copy)]
pub(crate) enum StripeWork {
    /// Computes all its parities from its data cells.
    Encode(By),
    /// Restores the cells of the worst covered pattern, always in the same chunks.
    Restore,
    /// Restores the same cells, in other chunks in each round.
    RestoreInTurn,
    /// The parities of one of 64 stripes after another.
    EncodeMany(By),
    /// The cells of the worst pattern, of one of 64 stripes after another.
    RestoreMany,
    /// Sets the middle block of the encoded stripe to other bytes.
    Update,
    /// Copies the data cells that the parities are encoded from.
    CopyCells,
}

impl StripeWork {
    fn name(self) -> &'static str {
        match self {
            StripeWork::Encode(by) => name_of(by),
            StripeWork::Restore => "restore",
            StripeWork::RestoreInTurn => "restore-in-turn",
            StripeWork::EncodeMany(by) => many_of(by),
            StripeWork::RestoreMany => "many-restore",
            StripeWork::Update => "update",
            StripeWork::CopyCells => "copy-cells",
        }
    }
}

/// Work on image files.
#[derive(Clone, Copy)]
pub(crate) enum FileWork {
    /// Seals sectors in memory, writes them and then syncs.
    WriteSectors,
    /// Reads the same sectors.
    ReadSectors,
    /// Writes a sector to each device of an array.
    WriteAll(Devices),
    /// Creates an array.
    CreateArray,
    /// Sets the middle block of a stripe to other bytes by a redo.
    Redo(Layout),
    /// Writes blocks of a stripe of an array.
    WriteBlocks(Part, Layout),
}

impl FileWork {
    /// What it does, and the numbers that it does it for.
    fn words(self) -> (&'static str, &'static str) {
        match self {
            FileWork::WriteSectors => ("write", "sectors"),
            FileWork::ReadSectors => ("read", "sectors"),
            FileWork::WriteAll(devices) => ("write-all", devices.name()),
            FileWork::CreateArray => ("create", "array"),
            FileWork::Redo(layout) => ("redo", layout.name()),
            FileWork::WriteBlocks(part, layout) => (part.name(), layout.name()),
        }
    }
}

/// What is run and timed.
#[derive(Clone, Copy)]
pub(crate) enum Kernel {
    /// A multiple of one symbol added to another.
    MultiplyAdd,
    /// All parities of a row, from its held symbols.
    Solve(Row),
    /// A copy of the symbols that those are solved from.
    CopySymbols(Row),
    /// Work on a stripe.
    Stripe(StripeWork, Layout),
    /// Sectors of an image file, sealed one by one.
    SealSectors,
    /// The same sectors, sealed eight at a time.
    SealSectorsByEight,
    /// Work on image files.
    Files(FileWork),
}

/// The kernels that need no file.
pub(crate) static IN_MEMORY: [Kernel; 44] = [
    Kernel::MultiplyAdd,
    Kernel::Solve(Row::EightTwo),
    Kernel::CopySymbols(Row::EightTwo),
    Kernel::Solve(Row::ThirtyTwoThree),
    Kernel::CopySymbols(Row::ThirtyTwoThree),
    Kernel::Stripe(StripeWork::Encode(By::Downstairs), Layout::FourDevices),
    Kernel::Stripe(StripeWork::Encode(By::Upstairs), Layout::FourDevices),
    Kernel::Stripe(StripeWork::Encode(By::Standard), Layout::FourDevices),
    Kernel::Stripe(StripeWork::Restore, Layout::FourDevices),
    Kernel::Stripe(StripeWork::RestoreInTurn, Layout::FourDevices),
    Kernel::Stripe(StripeWork::CopyCells, Layout::FourDevices),
    Kernel::Stripe(StripeWork::Encode(By::Downstairs), Layout::EightDevices),
    Kernel::Stripe(StripeWork::Encode(By::Upstairs), Layout::EightDevices),
    Kernel::Stripe(StripeWork::Encode(By::Standard), Layout::EightDevices),
    Kernel::Stripe(StripeWork::Restore, Layout::EightDevices),
    Kernel::Stripe(StripeWork::RestoreInTurn, Layout::EightDevices),
    Kernel::Stripe(StripeWork::Update, Layout::EightDevices),
    Kernel::Stripe(StripeWork::CopyCells, Layout::EightDevices),
    Kernel::Stripe(StripeWork::Encode(By::Downstairs), Layout::SixteenDevices),
    Kernel::Stripe(StripeWork::Encode(By::Upstairs), Layout::SixteenDevices),
    Kernel::Stripe(StripeWork::Encode(By::Standard), Layout::SixteenDevices),
    Kernel::Stripe(StripeWork::Restore, Layout::SixteenDevices),
    Kernel::Stripe(StripeWork::RestoreInTurn, Layout::SixteenDevices),
    Kernel::Stripe(StripeWork::CopyCells, Layout::SixteenDevices),
    Kernel::Stripe(StripeWork::Encode(By::Downstairs), Layout::ThirtyTwoDevices),
    Kernel::Stripe(StripeWork::Encode(By::Upstairs), Layout::ThirtyTwoDevices),
    Kernel::Stripe(StripeWork::Encode(By::Standard), Layout::ThirtyTwoDevices),
    Kernel::Stripe(StripeWork::Restore, Layout::ThirtyTwoDevices),
    Kernel::Stripe(StripeWork::RestoreInTurn, Layout::ThirtyTwoDevices),
    Kernel::Stripe(StripeWork::CopyCells, Layout::ThirtyTwoDevices),
    Kernel::Stripe(StripeWork::EncodeMany(By::Downstairs), Layout::EightDevices),
    Kernel::Stripe(StripeWork::EncodeMany(By::Upstairs), Layout::EightDevices),
    Kernel::Stripe(StripeWork::EncodeMany(By::Standard), Layout::EightDevices),
    Kernel::Stripe(StripeWork::RestoreMany, Layout::EightDevices),
    Kernel::Stripe(
        StripeWork::EncodeMany(By::Downstairs),
        Layout::SixteenDevices,
    ),
    Kernel::Stripe(StripeWork::EncodeMany(By::Upstairs), Layout::SixteenDevices),
    Kernel::Stripe(StripeWork::EncodeMany(By::Standard), Layout::SixteenDevices),
    Kernel::Stripe(StripeWork::RestoreMany, Layout::SixteenDevices),
    Kernel::Stripe(
        StripeWork::EncodeMany(By::Downstairs),
        Layout::ThirtyTwoDevices,
    ),
    Kernel::Stripe(
        StripeWork::EncodeMany(By::Upstairs),
        Layout::ThirtyTwoDevices,
    ),
    Kernel::Stripe(
        StripeWork::EncodeMany(By::Standard),
        Layout::ThirtyTwoDevices,
    ),
    Kernel::Stripe(StripeWork::RestoreMany, Layout::ThirtyTwoDevices),
    Kernel::SealSectors,
    Kernel::SealSectorsByEight,
];

/// The kernels over image files.
static OVER_FILES: [Kernel; 9] = [
    Kernel::Files(FileWork::WriteSectors),
    Kernel::Files(FileWork::ReadSectors),
    Kernel::Files(FileWork::WriteAll(Devices::Eight)),
    Kernel::Files(FileWork::WriteAll(Devices::ThirtyTwo)),
    Kernel::Files(FileWork::CreateArray),
    Kernel::Files(FileWork::Redo(Layout::EightDevices)),
    Kernel::Files(FileWork::WriteBlocks(Part::Block, Layout::EightDevices)),
    Kernel::Files(FileWork::WriteBlocks(Part::Stripe, Layout::EightDevices)),
    Kernel::Files(FileWork::WriteBlocks(Part::EachBlock, Layout::EightDevices)),
];

impl Kernel {
    /// What it does, and the numbers that it does it for.
    fn words(self) -> (&'static str, &'static str) {
        match self {
            Kernel::MultiplyAdd => ("multiply", "add"),
            Kernel::Solve(row) => ("solve", row.name()),
            Kernel::CopySymbols(row) => ("copy", row.name()),
            Kernel::Stripe(work, layout) => (work.name(), layout.name()),
            Kernel::SealSectors => ("seal", "sectors"),
            Kernel::SealSectorsByEight => ("seal", "sectors-by-eight"),
            Kernel::Files(work) => work.words(),
        }
    }

    /// Returns the kernel of this name.
    pub(crate) fn named(name: &str) -> Option<Kernel> {
        named_of(&IN_MEMORY, name).or(named_of(&OVER_FILES, name))
    }
}

/// Returns the first of these kernels that has this name.
fn named_of(kernels: &[Kernel], name: &str) -> Option<Kernel> {
    for kernel in kernels {
        if is_pair(name, kernel.words()) {
            return Some(*kernel);
        }
    }
    None
}

/// How the encoder is called.
fn name_of(by: By) -> &'static str {
    match by {
        By::Standard => "standard",
        By::Upstairs => "upstairs",
        By::Downstairs => "downstairs",
        By::Fewest => "fewest",
    }
}

/// How the encoder is called where it encodes many stripes.
fn many_of(by: By) -> &'static str {
    match by {
        By::Standard => "many-standard",
        By::Upstairs => "many-upstairs",
        By::Downstairs => "many-downstairs",
        By::Fewest => "many-fewest",
    }
}

/// Returns whether the name is these words, joined by hyphens.
fn is_pair(name: &str, words: (&str, &str)) -> bool {
    let (first, second) = words;
    match name.strip_prefix(first) {
        Some(rest) => rest.strip_prefix('-') == Some(second),
        None => false,
    }
}

impl fmt::Display for Kernel {
    fn fmt<W: fmt::Write>(&self, f: &mut fmt::Formatter<W>) -> fmt::Result {
        let (first, second) = self.words();
        write!(f, "{first}-{second}")
    }
}
