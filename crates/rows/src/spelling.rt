ghost use Rattle.std.specs.Prelude.{◌≡◌};
ghost use Rattle.rows.specs.Letters.{point_letter, instrument_letter, block_letter, point_of, instrument_of, block_of, has_refund};
ghost use Rattle.rows.specs.Named.{named_by};

use crate::letters::{Block, InstrumentKind, PointKind, UnknownLetter};

/// The kind of point that a letter names.
impl TryFrom<char> for PointKind {
    type Error = UnknownLetter;

    ghost try_from_gives = { λ l r. r ≡ named_by point_of l };

    fn try_from(letter: char) -> Result<PointKind, UnknownLetter> {
        match letter {
            'Z' => Ok(PointKind::LoadZone),
            'H' => Ok(PointKind::Hub),
            'R' => Ok(PointKind::ResourceNode),
            _ => Err(UnknownLetter { letter }),
        }
    }
}

/// The instrument that a letter names.
impl TryFrom<char> for InstrumentKind {
    type Error = UnknownLetter;

    ghost try_from_gives = { λ l r. r ≡ named_by instrument_of l };

    fn try_from(letter: char) -> Result<InstrumentKind, UnknownLetter> {
        match letter {
            'B' => Ok(InstrumentKind::Obligation),
            'O' => Ok(InstrumentKind::PtpOption),
            'b' => Ok(InstrumentKind::ObligationWithRefund),
            'o' => Ok(InstrumentKind::OptionWithRefund),
            _ => Err(UnknownLetter { letter }),
        }
    }
}

/// The block that a letter names.
impl TryFrom<char> for Block {
    type Error = UnknownLetter;

    ghost try_from_gives = { λ l r. r ≡ named_by block_of l };

    fn try_from(letter: char) -> Result<Block, UnknownLetter> {
        match letter {
            'W' => Ok(Block::PeakWeekday),
            'E' => Ok(Block::PeakWeekend),
            'N' => Ok(Block::OffPeak),
            _ => Err(UnknownLetter { letter }),
        }
    }
}

// a method, and no number of the enum or From: it says that the number is a letter
impl PointKind {
    /// The letter that names the kind.
    pub fn letter(self) -> u8
        ensures { result ≡ point_letter self }
    {
        match self {
            PointKind::LoadZone => b'Z',
            PointKind::Hub => b'H',
            PointKind::ResourceNode => b'R',
        }
    }
}

impl InstrumentKind {
    /// The letter that names the instrument.
    pub fn letter(self) -> u8
        ensures { result ≡ instrument_letter self }
    {
        match self {
            InstrumentKind::Obligation => b'B',
            InstrumentKind::PtpOption => b'O',
            InstrumentKind::ObligationWithRefund => b'b',
            InstrumentKind::OptionWithRefund => b'o',
        }
    }

    /// Whether the instrument is one with Refund.
    pub fn has_refund(self) -> bool
        ensures { result ≡ has_refund self }
    {
        match self {
            InstrumentKind::Obligation | InstrumentKind::PtpOption => false,
            InstrumentKind::ObligationWithRefund | InstrumentKind::OptionWithRefund => true,
        }
    }
}

impl Block {
    /// The letter that names the block.
    pub fn letter(self) -> u8
        ensures { result ≡ block_letter self }
    {
        match self {
            Block::PeakWeekday => b'W',
            Block::PeakWeekend => b'E',
            Block::OffPeak => b'N',
        }
    }
}
