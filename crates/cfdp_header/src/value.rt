ghost use Rattle.std.specs.Prelude.{◌≡◌, ◌↔◌, IsTrue};
ghost use Rattle.cfdp_header.specs.Crc as crc;
ghost use Rattle.cfdp_header.specs.Header.{header_len, FitsHeader, FitsWidth};
ghost use Rattle.cfdp_header.specs.Header.{type_bit, direction_bit};

// Octets of the CRC of a PDU.
pub(crate) const CRC_LEN: usize = 2;

/// Names a transaction: the entity that sends the file, and the number that it gave the transaction
/// (CCSDS 727.0-B-5). Two ids are the same if both numbers are, whatever their widths. They are
/// ordered by source, then by number.
#[derive(Clone, Copy, Debug, PartialEq, Eq, PartialOrd, Ord, Hash)]
pub struct TransactionId {
    /// The entity id of the file's sender.
    pub source: u64,
    /// The sequence number of the transaction at that entity.
    pub number: u64,
}

/// What a PDU is: the PDU type of its header (CCSDS 727.0-B-5, table 5-1).
#[derive(Clone, Copy, Debug, PartialEq, Eq)]
pub enum PduType {
    /// A directive, whose code begins its data field.
    FileDirective,
    /// Octets of the file.
    FileData,
}

impl PduType {
    /// Returns its bit in the header, 0 or 1.
    pub fn bit(self) -> u8
        ensures { result ≡ type_bit self }
    {
        match self {
            PduType::FileDirective => 0,
            PduType::FileData => 1,
        }
    }
}

/// Which way a PDU goes between the two ends of its transaction (CCSDS 727.0-B-5, table 5-1).
#[derive(Clone, Copy, Debug, PartialEq, Eq)]
pub enum Direction {
    /// To the entity that receives the file, from the one that sends it.
    TowardReceiver,
    /// To the entity that sends the file, from the one that receives it.
    TowardSender,
}

impl Direction {
    /// Returns its bit in the header, 0 or 1.
    pub fn bit(self) -> u8
        ensures { result ≡ direction_bit self }
    {
        match self {
            Direction::TowardReceiver => 0,
            Direction::TowardSender => 1,
        }
    }
}

/// The fixed header of a PDU (CCSDS 727.0-B-5, table 5-1).
#[derive(Clone, Copy, Debug, PartialEq, Eq)]
pub struct Header {
    /// Whether it is file data or a file directive.
    pub pdu_type: PduType,
    /// Whether it goes toward the file's receiver or its sender.
    pub direction: Direction,
    /// The CRC flag: if it is set, the data field ends in two octets that are the check of all
    /// before them (CCSDS 727.0-B-5, 4.1).
    pub crc: bool,
    /// Octets of the data field, after the header: 0 to 65,535. The octets of a CRC are counted.
    pub length: u16,
    /// Whether segment metadata stands before each offset of file data. This stack's senders never
    /// set it.
    pub segment_metadata: bool,
    /// The large file flag: a file size or an offset has 8 octets if it is true, otherwise 4 (CCSDS
    /// 727.0-B-5, 5.1 and 5.1.10).
    pub large: bool,
    /// Octets of an entity id: 1 to 8.
    pub id_width: u8,
    /// Octets of a sequence number: 1 to 8.
    pub number_width: u8,
    /// The transaction. Its source is the file's sender in both directions.
    pub id: TransactionId,
    /// The entity id of the file's receiver, in both directions.
    pub destination: u64,
}

impl Header {
    /// Returns how many octets the header has, without the data field after it: 7 to 28.
    pub fn len(&self) -> usize
        ensures { result ≡ header_len self.now.id_width self.now.number_width }
    {
        Header::len_in_widths(self.id_width, self.number_width)
    }

    /// Returns how many octets a header has if its entity ids and sequence number have so many
    /// octets. The data field after it isn't counted.
    pub fn len_in_widths(id_width: u8, number_width: u8) -> usize
        ensures { result ≡ header_len id_width number_width }
    {
        4 + usize::from(id_width) + usize::from(number_width) + usize::from(id_width)
    }

    /// Returns the number of octets of the CRC at the end of the data field: 2, or 0 if the CRC
    /// flag is 0.
    pub fn crc_len(&self) -> usize
        ensures { result ≡ crc.crc_len self.now.crc }
    {
        if self.crc { CRC_LEN } else { 0 }
    }

    /// Returns `true` if the header can be written: both widths must be 1 to 8, and each number
    /// must fit its width.
    pub fn fits(&self) -> bool
        ensures { IsTrue result ↔ FitsHeader self.now }
    {
        // For the prover: a `u16` has a range.
        let _any_length_fits = self.length;
        fits_width(self.id.source, self.id_width)
            && fits_width(self.id.number, self.number_width)
            && fits_width(self.destination, self.id_width)
    }
}

/// Returns `true` if `width` is 1 to 8 and the value can be written as an entity id or a sequence
/// number of so many octets.
#[tactic(auto, using(crate::proofs::Fits::fits_below))]
pub fn fits_width(value: u64, width: u8) -> bool
    ensures { IsTrue result ↔ FitsWidth value width }
{
    1 <= width && (width == 8 || width < 8 && value >> (8 * u32::from(width)) == 0)
}
