// The channels of the board and their names.

ghost use Rattle.std.specs.Prelude.{◌≡◌};
ghost use Rattle.rtio_types.specs.Board.{kind_of_channel, channel_of_name, has_address, is_input, is_output};

/// What a channel of the board does. The board, its channels and their names are this project's own.
#[derive(Clone, Copy, Debug, PartialEq, Eq)]
pub enum ChannelKind {
    /// An output; a later one of the same stamp replaces it.
    Out,
    /// An output that nothing replaces, with 256 addresses.
    OutRaw,
    /// An input, whose one address sets its sensitivity.
    Input,
}

/// The kind of a channel; None above 31, where the board has none.
pub fn kind_of(channel: u8) -> Option<ChannelKind>
    ensures { result ≡ kind_of_channel channel }
{
    match channel {
        0..16 => Some(ChannelKind::Out),
        16..24 => Some(ChannelKind::OutRaw),
        24..32 => Some(ChannelKind::Input),
        _ => None,
    }
}

/// Whether the channel is an output of the board, raw or not.
pub fn is_output(channel: u8) -> bool
    ensures { result ≡ is_output channel }
{
    matches!(
        kind_of(channel),
        Some(ChannelKind::Out | ChannelKind::OutRaw)
    )
}

/// Whether the channel is an input of the board.
pub fn is_input(channel: u8) -> bool
    ensures { result ≡ is_input channel }
{
    matches!(kind_of(channel), Some(ChannelKind::Input))
}

/// Whether the board has the channel, and the channel the address: an output has address 0, a raw output any, and an
/// input address 2, which sets its sensitivity.
pub fn has_address(channel: u8, address: u8) -> bool
    ensures { result ≡ has_address (kind_of_channel channel) address }
{
    match kind_of(channel) {
        Some(ChannelKind::Out) => address == 0,
        Some(ChannelKind::OutRaw) => true,
        Some(ChannelKind::Input) => address == 2,
        None => false,
    }
}

/// The channel with this name, from `ttl0` to `ttl15`, `raw0` to `raw7` and `in0` to `in7`; None for any other text.
pub fn channel_named(name: &[u8]) -> Option<u8>
    ensures { result ≡ channel_of_name name.now }
{
    (0..32).find(|channel| is_called(*channel, name))
}

ghost use Rattle.std.specs.Prelude.{◌<◌, ◌++◌, bytes_eq};
ghost use Rattle.rtio_types.specs.Board.{name_of_channel, digits_of};

// Whether a channel of the board has this name.
fn is_called(channel: u8, name: &[u8]) -> bool
    requires { channel < 32 }
    ensures { result ≡ bytes_eq (name_of_channel channel) name.now }
{
    match channel {
        0..16 => is_numbered(b"ttl", channel, name),
        16..24 => is_numbered(b"raw", channel - 16, name),
        _ => is_numbered(b"in", channel - 24, name),
    }
}

// Whether the name is the prefix with the number in decimal digits behind it.
fn is_numbered(prefix: &[u8], number: u8, name: &[u8]) -> bool
    requires { number < 16 }
    ensures { result ≡ bytes_eq (prefix.now ++ digits_of number) name.now }
{
    match name.strip_prefix(prefix) {
        Some(digits) => are_digits_of(number, digits),
        None => false,
    }
}

// Whether the digits spell the number, with no zero in front.
fn are_digits_of(number: u8, digits: &[u8]) -> bool
    requires { number < 16 }
    ensures { result ≡ bytes_eq (digits_of number) digits.now }
{
    match digits {
        [ones] => number < 10 && *ones == b'0' + number,
        [tens, ones] => 10 <= number && *tens == b'0' + number / 10 && *ones == b'0' + number % 10,
        _ => false,
    }
}
