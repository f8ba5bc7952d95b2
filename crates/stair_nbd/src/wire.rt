// The messages of the protocol.
ghost use Rattle.std.specs.Prelude.{◌≡◌, ◌+◌, ◌≤◌, length};
ghost use Rattle.std.specs.Int.{w16, w32, w64};
ghost use Rattle.stair_nbd.specs.Client.{is_disconnect as ends_session};
ghost use Rattle.stair_nbd.specs.Wire.{
  flags_said,
  data_length as length_of_data,
  export_answer as answer_to_export,
  greeting as first_words,
  option_reply as reply_to_option,
  read_option as option_in,
  read_request as request_in,
  simple_reply as reply_to_request,
  u16_at as number16_at,
  u32_at as number32_at,
  u64_at as number64_at,
};

use stair_watch::Line;

/// The length in bytes of the client's flags, its first message.
pub(crate) const FLAGS_LENGTH: usize = 4;
/// The length in bytes of the header of an option.
pub(crate) const OPTION_LENGTH: usize = 16;
/// The most bytes that an option may have after its header.
const OPTION_DATA_LIMIT: u32 = 4096;
/// The length in bytes of the header of a request.
pub(crate) const REQUEST_LENGTH: usize = 28;
/// The length in bytes of the header of a reply.
pub(crate) const REPLY_LENGTH: usize = 16;

const NBD_MAGIC: &[u8; 8] = b"NBDMAGIC";

const OPTION_MAGIC: &[u8; 8] = b"IHAVEOPT";

const OPTION_REPLY_MAGIC: u64 = 0x0003_e889_0455_65a9;

const REQUEST_MAGIC: u32 = 0x2560_9513;

const REPLY_MAGIC: u32 = 0x6744_6698;

// Of the handshake: the fixed newstyle (bit 0), and that zeros are left out for a client that asks for it (bit 1).
const HANDSHAKE_FLAGS: u16 = 3;
// Of the export: that there are flags (bit 0), and that FLUSH is served (bit 2).
const TRANSMISSION_FLAGS: u16 = 5;

/// The option that names the export, after which come requests.
pub(crate) const EXPORT_NAME: u32 = 1;
/// The option that ends the session.
pub(crate) const ABORT: u32 = 2;

/// The reply to an option that was done.
pub(crate) const ACK: u32 = 1;
/// The reply to one that isn't known.
pub(crate) const ERR_UNSUP: u32 = 0x8000_0001;

/// What an option asks for.
#[derive(Clone, Copy)]
pub(crate) struct OptionRequest {
    pub(crate) option: u32,
    /// How many bytes come after its header, at most 4,096.
    pub(crate) length: u32,
}

/// What a request is to do.
#[derive(Clone, Copy)]
pub(crate) enum Command {
    Read,
    Write,
    Disconnect,
    Flush,
    /// An unknown command.
    Other,
}

/// A request of a client.
#[derive(Clone, Copy)]
pub(crate) struct Request {
    pub(crate) command: Command,
    /// The number by which the client recognizes the reply.
    pub(crate) cookie: u64,
    /// The first of its bytes, and how many there are.
    pub(crate) offset: u64,
    pub(crate) length: u32,
}

/// What a reply says of its request.
#[derive(Clone, Copy)]
pub(crate) enum ReplyError {
    None,
    /// A step on the array was refused.
    Io,
    /// The request is unknown or too long, or a READ past the end.
    Invalid,
    /// A WRITE past the end of the array.
    NoSpace,
}

impl ReplyError {
    ghost use Rattle.stair_nbd.specs.Wire.{error_code};

    fn code(self) -> u32
        ensures { result ≡ error_code self }
    {
        match self {
            ReplyError::None => 0,
            ReplyError::Io => 5,
            ReplyError::Invalid => 22,
            ReplyError::NoSpace => 28,
        }
    }
}

impl Command {
    ghost use Rattle.stair_nbd.specs.Wire.{command_of};

    fn of(kind: u16) -> Command
        ensures { result ≡ command_of kind }
    {
        match kind {
            0 => Command::Read,
            1 => Command::Write,
            2 => Command::Disconnect,
            3 => Command::Flush,
            _ => Command::Other,
        }
    }
}

impl Request {
    /// Returns what a header asks for, or None if its magic is wrong. Flags are ignored: each write that is answered is
    /// done.
    pub(crate) fn read(header: &[u8; REQUEST_LENGTH]) -> Option<Request>
        ensures { result ≡ request_in header.now }
    {
        if u32_at(header, 0) != REQUEST_MAGIC {
            return None;
        }
        Some(Request {
            command: Command::of(u16_at(header, 6)),
            cookie: u64_at(header, 8),
            offset: u64_at(header, 16),
            length: u32_at(header, 24),
        })
    }

    /// Returns whether the client disconnects.
    pub(crate) fn is_disconnect(&self) -> bool
        ensures { result ≡ ends_session self.now.command }
    {
        matches!(self.command, Command::Disconnect)
    }

    /// Returns how many bytes come after its header.
    pub(crate) fn data_length(&self) -> u32
        ensures { result ≡ length_of_data self.now }
    {
        match self.command {
            Command::Write => self.length,
            _ => 0,
        }
    }
}

impl OptionRequest {
    /// Returns what a header asks for, or None if its magic is wrong or too many bytes come after it.
    pub(crate) fn read(header: &[u8; OPTION_LENGTH]) -> Option<OptionRequest>
        ensures { result ≡ option_in header.now }
    {
        if u64_at(header, 0) != u64::from_be_bytes(*OPTION_MAGIC) {
            return None;
        }
        let length = u32_at(header, 12);
        if length > OPTION_DATA_LIMIT {
            return None;
        }
        Some(OptionRequest {
            option: u32_at(header, 8),
            length,
        })
    }
}

/// Returns whether a client's flags ask for zeros to be left out, or None if an unknown flag is set.
pub(crate) fn read_flags(flags: &[u8; FLAGS_LENGTH]) -> Option<bool>
    ensures { result ≡ flags_said flags.now }
{
    match u32_at(flags, 0) {
        0 | 1 => Some(false),
        2 | 3 => Some(true),
        _ => None,
    }
}

/// Returns the greeting, the first bytes of a session.
pub(crate) fn greeting() -> Line
    ensures { result ≡ first_words }
{
    let mut words = Line::new();
    words.push(NBD_MAGIC);
    words.push(OPTION_MAGIC);
    words.push(&HANDSHAKE_FLAGS.to_be_bytes());
    words
}

/// Returns the reply to an option other than the one that names the export.
pub(crate) fn option_reply(option: u32, reply: u32) -> Line
    ensures { result ≡ reply_to_option option reply }
{
    let mut words = Line::new();
    words.push(&OPTION_REPLY_MAGIC.to_be_bytes());
    words.push(&option.to_be_bytes());
    words.push(&reply.to_be_bytes());
    words.push(&0u32.to_be_bytes());
    words
}

/// Returns the answer to the option that names the export, which has `size` bytes.
pub(crate) fn export_answer(size: u64, brief: bool) -> Line
    ensures { result ≡ answer_to_export size brief }
{
    let mut words = Line::new();
    words.push(&size.to_be_bytes());
    words.push(&TRANSMISSION_FLAGS.to_be_bytes());
    if !brief {
        words.push(&[0; 124]);
    }
    words
}

/// Returns the header of the reply to a request.
pub(crate) fn simple_reply(error: ReplyError, cookie: u64) -> Line
    ensures bytes { result ≡ reply_to_request error cookie }
    ensures long { length result ≡ REPLY_LENGTH }
{
    let mut words = Line::new();
    words.push(&REPLY_MAGIC.to_be_bytes());
    words.push(&error.code().to_be_bytes());
    words.push(&cookie.to_be_bytes());
    words
}

fn u16_at(bytes: &[u8], at: usize) -> u16
    requires { at + 2 ≤ length bytes.now }
    ensures { result ≡ number16_at at bytes.now }
{
    u16::from_be_bytes([bytes[at], bytes[at + 1]])
}

fn u32_at(bytes: &[u8], at: usize) -> u32
    requires { at + 4 ≤ length bytes.now }
    ensures { result ≡ number32_at at bytes.now }
{
    u32::from_be_bytes([bytes[at], bytes[at + 1], bytes[at + 2], bytes[at + 3]])
}

fn u64_at(bytes: &[u8], at: usize) -> u64
    requires { at + 8 ≤ length bytes.now }
    ensures { result ≡ number64_at at bytes.now }
{
    let mut number = [0; 8];
    number.copy_from_slice(&bytes[at..at + 8]);
    u64::from_be_bytes(number)
}
