// The modes, with the table of document 01's "Four modes" and request K1's two rows as associated constants. Each column of the table is a method, as one method for
// all would have its callers name the column as well; the MAC's start word and limit are computed from the length of its tags (request K2).
#![tactic(auto)]

ghost use Rattle.std.specs.Prelude.{◌≡◌};
ghost use Rattle.mode.specs.Mode.{number_of, named, number_named, mode_number, row};

#[derive(Clone, Copy, Debug, PartialEq, Eq)]
pub enum Mode {
    Prf,
    // The length of its tags, in bytes. The hub opens it with 8 to 16.
    Mac(u8),
    Hash,
    Xof,
    HashA,
    XofA,
}

impl Mode {
    pub const KEYED_FEED_RATE: usize = 32;

    pub const KEYED_DRAW_RATE: usize = 16;

    pub const UNKEYED_RATE: usize = 8;

    pub const PRF_START: u64 = 0x8080_8c00_0000_0000;

    // The length of its tags in bits is added.
    pub const MAC_START: u64 = 0x8080_8c00_0000_0000;

    pub const HASH_START: u64 = 0x0040_0c00_0000_0100;

    pub const XOF_START: u64 = 0x0040_0c00_0000_0000;

    pub const HASHA_START: u64 = 0x0040_0c04_0000_0100;

    pub const XOFA_START: u64 = 0x0040_0c04_0000_0000;

    pub const KEY_LENGTH: usize = 16;

    pub const NO_KEY: usize = 0;

    pub const LONG_OUTPUT: usize = 1_048_576;

    pub const HASH_OUTPUT: usize = 32;

    // Of the first run and of the one after the last message block.
    pub const OUTER_ROUNDS: u64 = 12;

    // Of all other runs.
    pub const INNER_ROUNDS: u64 = 12;

    pub const LIGHTER_INNER_ROUNDS: u64 = 8;

    // The number of the mode in document 01 and request K1. A method, since `u32::from` would not say which number.
    pub fn number(self) -> u32
        ensures { result ≡ number_of self }
    {
        match self {
            Mode::Prf => 1,
            Mode::Mac(_) => 2,
            Mode::Hash => 3,
            Mode::Xof => 4,
            Mode::HashA => 5,
            Mode::XofA => 6,
        }
    }

    // The mode that a number and a tag length name. A number that is not 1 to 6 names none; only mode 2 has a tag length. Two
    // values name it, so that this is no `TryFrom`.
    #[tactic(auto, unfolding(crate::specs::Mode::named, crate::specs::Mode::mode_number))]
    pub fn of_number(number: u32, length: u8) -> Option<Mode>
        ensures number { number_named result ≡ mode_number number }
        ensures named { result ≡ named number length }
    {
        match number {
            1 => Some(Mode::Prf),
            2 => Some(Mode::Mac(length)),
            3 => Some(Mode::Hash),
            4 => Some(Mode::Xof),
            5 => Some(Mode::HashA),
            6 => Some(Mode::XofA),
            _ => None,
        }
    }

    // R: so many bytes are fed to a block.
    pub fn feed_rate(self) -> usize
        ensures { result ≡ (row self).feed_rate }
    {
        match self {
            Mode::Prf | Mode::Mac(_) => Mode::KEYED_FEED_RATE,
            Mode::Hash | Mode::Xof | Mode::HashA | Mode::XofA => Mode::UNKEYED_RATE,
        }
    }

    // r: so many bytes are drawn from a block.
    pub fn draw_rate(self) -> usize
        ensures { result ≡ (row self).draw_rate }
    {
        match self {
            Mode::Prf | Mode::Mac(_) => Mode::KEYED_DRAW_RATE,
            Mode::Hash | Mode::Xof | Mode::HashA | Mode::XofA => Mode::UNKEYED_RATE,
        }
    }

    // The first word of the start.
    pub fn start_word(self) -> u64
        ensures { result ≡ (row self).start_word }
    {
        match self {
            Mode::Prf => Mode::PRF_START,
            Mode::Mac(length) => Mode::MAC_START + 8 * u64::from(length),
            Mode::Hash => Mode::HASH_START,
            Mode::Xof => Mode::XOF_START,
            Mode::HashA => Mode::HASHA_START,
            Mode::XofA => Mode::XOFA_START,
        }
    }

    // The length of the key, 0 where there is none.
    pub fn key_length(self) -> usize
        ensures { result ≡ (row self).key_length }
    {
        match self {
            Mode::Prf | Mode::Mac(_) => Mode::KEY_LENGTH,
            Mode::Hash | Mode::Xof | Mode::HashA | Mode::XofA => Mode::NO_KEY,
        }
    }

    // At most so many bytes are drawn in all, of the MAC its tag. The hub holds its tickets to it; a record asks for it only to judge a tag.
    pub fn most_drawn(self) -> usize
        ensures { result ≡ (row self).most_drawn }
    {
        match self {
            Mode::Prf | Mode::Xof | Mode::XofA => Mode::LONG_OUTPUT,
            Mode::Mac(length) => usize::from(length),
            Mode::Hash | Mode::HashA => Mode::HASH_OUTPUT,
        }
    }

    // Whether the lowest bit of x4 is flipped before the run of the last block.
    pub fn flips(self) -> bool
        ensures { result ≡ (row self).flips }
    {
        match self {
            Mode::Prf | Mode::Mac(_) => true,
            Mode::Hash | Mode::Xof | Mode::HashA | Mode::XofA => false,
        }
    }

    // The rounds of every run that is neither the first nor the one after the last message block.
    pub fn inner_rounds(self) -> u64
        ensures { result ≡ (row self).inner_rounds }
    {
        match self {
            Mode::Prf | Mode::Mac(_) | Mode::Hash | Mode::Xof => Mode::INNER_ROUNDS,
            Mode::HashA | Mode::XofA => Mode::LIGHTER_INNER_ROUNDS,
        }
    }
}
