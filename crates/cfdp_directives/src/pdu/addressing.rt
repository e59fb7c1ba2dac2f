ghost use Rattle.std.specs.Prelude.{◌≡◌, ◌+◌, ◌^◌, ◌<◌, ◌≤◌, ◌↔◌, ◌++◌, ℕ, Bool, List, length};
ghost use Rattle.std.specs.Prelude.{take, drop, true, false, IsTrue};
ghost use Rattle.cfdp_header.specs.declared.value.Direction.TheVariants.{TowardReceiver};
ghost use Rattle.cfdp_header.specs.declared.value.Direction.TheVariants.{TowardSender};
ghost use Rattle.cfdp_directives.specs.declared.pdu.addressing.Addressing.{Addressing};
ghost use Rattle.cfdp_directives.specs.Pdu.Content.{Content, FileData, view};
ghost use Rattle.cfdp_header.specs.Crc.{crc_len, with_crc};
ghost use Rattle.cfdp_header.specs.Header.{header_len};
ghost use Rattle.cfdp_directives.specs.Pdu.Written.{FitsContent, CanWrite, pdu_octets};
ghost use Rattle.cfdp_directives.specs.Pdu.Codes.{file_size_octets};
ghost use Rattle.cfdp_directives.specs.Pdu.Direction as directions;
ghost use Rattle.cfdp_directives.specs.Pdu.Direction.{direction_of};
ghost use Rattle.cfdp_directives.specs.Pdu.Addressing as addressings;
ghost use Rattle.cfdp_directives.specs.Pdu.Addressing.{addressing_of, data_field_len};
ghost use Rattle.cfdp_directives.specs.Pdu.Addressing.{FitsAddressing};

use crate::pdu::content::Pdu;
use crate::pdu::file_size::{file_size_octets, put_file_size};
use crate::pdu::writing::{CRC_LEN, encode, put_crc_if};
use cfdp_header::{Direction, Header, PduType, TransactionId, fits_width};

/// What the headers of a transaction's PDUs have in common: the two entities, the transaction's
/// number, how wide they are written, and whether a CRC stands at the end (CCSDS 727.0-B-5, table
/// 5-1). It makes the header of each PDU, and writes PDUs.
#[derive(Clone, Copy, Debug, PartialEq, Eq)]
pub struct Addressing {
    /// The transaction. Its source is the file's sender.
    pub id: TransactionId,
    /// The entity id of the file's receiver.
    pub destination: u64,
    /// Octets of an entity id: 1 to 8.
    pub id_width: u8,
    /// Octets of a sequence number: 1 to 8.
    pub number_width: u8,
    /// The CRC flag: if it is set, each PDU ends in a CRC (CCSDS 727.0-B-5, 4.1).
    pub crc: bool,
}

impl Addressing {
    /// Takes them from the header of a PDU that was received. An answer then has the same widths,
    /// and a CRC if that PDU has one.
    pub fn of(header: &Header) -> Addressing
        ensures { result ≡ addressing_of header.now }
    {
        Addressing {
            id: header.id,
            destination: header.destination,
            id_width: header.id_width,
            number_width: header.number_width,
            crc: header.crc,
        }
    }

    /// Returns `true` if PDUs can be written with it: both widths must be 1 to 8 octets, and the
    /// ids and the number must fit them.
    pub fn is_writable(&self) -> bool
        ensures { IsTrue result ↔ FitsAddressing self.now }
    {
        fits_width(self.id.source, self.id_width)
            && fits_width(self.id.number, self.number_width)
            && fits_width(self.destination, self.id_width)
    }

    /// Returns the header of a PDU with this large file flag. Its data field must have at most
    /// 65,535 octets, a CRC among them.
    pub fn header_of(&self, large: bool, pdu: &Pdu<'_>) -> Header
        requires { data_field_len self.now large (view pdu.now) < 2 ^ 16 }
        ensures { result ≡ addressings.header_of self.now large (view pdu.now) }
    {
        let length = (pdu.len(large) + self.crc_len()) as u16;
        self.header(large, pdu.pdu_type(), pdu.direction(), length)
    }

    /// Returns the number of octets of the CRC at the end of each PDU: 2, or 0 if there is none.
    pub fn crc_len(&self) -> usize
        ensures len { result ≡ crc_len self.now.crc }
        ensures short { result ≤ 2 }
    {
        if self.crc { CRC_LEN } else { 0 }
    }

    fn header(&self, large: bool, pdu_type: PduType, direction: Direction, length: u16) -> Header
        ensures { result ≡ addressings.header_by self.now large pdu_type direction length }
    {
        Header {
            pdu_type,
            direction,
            crc: self.crc,
            large,
            length,
            segment_metadata: false,
            id_width: self.id_width,
            number_width: self.number_width,
            id: self.id,
            destination: self.destination,
        }
    }

    /// Returns the number of octets of the whole PDU as `write_pdu` writes it, its header and its
    /// CRC too.
    pub fn written_len(&self, large: bool, pdu: &Pdu<'_>) -> usize
        requires { data_field_len self.now large (view pdu.now) < 2 ^ 16 }
        ensures { result ≡ addressings.written_len self.now large (view pdu.now) }
    {
        self.front_len() + pdu.len(large) + self.crc_len()
    }

    // Returns the number of octets of each header.
    fn front_len(&self) -> usize
        ensures { result ≡ header_len self.now.id_width self.now.number_width }
    {
        Header::len_in_widths(self.id_width, self.number_width)
    }

    /// Writes a PDU with its header into the first octets of `out`, and returns how many they are.
    /// The octets after them stay as they were. It takes no memory.
    #[tactic(auto, using(crate::proofs::Addressed::can_write))]
    pub fn write_pdu(&self, large: bool, pdu: &Pdu<'_>, out: &mut [u8]) -> usize
        requires addressing { FitsAddressing self.now }
        requires content { FitsContent (file_size_octets large) (view pdu.now) }
        requires short { data_field_len self.now large (view pdu.now) < 2 ^ 16 }
        requires room { addressings.written_len self.now large (view pdu.now) ≤ length out.old }
        ensures end { result ≡ addressings.written_len self.now large (view pdu.now) }
        ensures front { let v = view pdu.now in take result out.new
            ≡ pdu_octets (addressings.header_of self.now large v) v }
        ensures behind { drop result out.new ≡ drop result out.old }
    {
        let header = self.header_of(large, pdu);
        encode(&header, pdu, out)
    }

    /// Writes a file data PDU, except its data of `count` octets and its CRC, into the first octets
    /// of `out`, and returns how many it wrote. The caller must write the data there, and after
    /// them the CRC (`write_crc`). The octets after them stay as they were. It takes no memory.
    #[tactic(auto, using(crate::proofs::Addressed::header_fits))]
    pub fn write_data_front(&self, large: bool, offset: u64, count: usize, out: &mut [u8]) -> usize
        requires addressing { FitsAddressing self.now }
        requires offset { offset < 256 ^ file_size_octets large }
        requires short { file_size_octets large + count + crc_len self.now.crc < 2 ^ 16 }
        requires room { addressings.data_front_len self.now large ≤ length out.old }
        ensures end { result ≡ addressings.data_front_len self.now large }
        ensures front { (octets : List ℕ) → length octets ≡ count →
            let v = FileData offset octets in
            let h = addressings.header_of self.now large v in
            with_crc self.now.crc (take result out.new ++ octets) ≡ pdu_octets h v }
        ensures behind { drop result out.new ≡ drop result out.old }
    {
        let length = (file_size_octets(large) + count + self.crc_len()) as u16;
        let header = self.header(large, PduType::FileData, Direction::TowardReceiver, length);
        let at = cfdp_header::encode(&header, out);
        put_file_size(out, at, large, offset)
    }

    /// Ends a PDU whose other octets are the first `at` of `out`: writes its CRC after them, if it
    /// has one, and returns how many octets the PDU has. The octets after them stay as they were.
    pub fn write_crc(&self, at: usize, out: &mut [u8]) -> usize
        requires { at + crc_len self.now.crc ≤ length out.old }
        ensures end { result ≡ at + crc_len self.now.crc }
        ensures front { take result out.new ≡ with_crc self.now.crc (take at out.old) }
        ensures behind { drop result out.new ≡ drop result out.old }
    {
        put_crc_if(self.crc, out, at)
    }
}

/// A law: if the ids, the number and the fields of a PDU fit, it can be written after the header
/// that `header_of` makes.
#[tactic(auto, using(crate::proofs::Addressed::can_write))]
pub fn addressed_pdu_can_be_written()
    ensures { (a : Addressing) (large : Bool) (v : Content) → FitsAddressing a
        → FitsContent (file_size_octets large) v
        → data_field_len a large v < 2 ^ 16
        → CanWrite (addressings.header_of a large v) v }
{}

/// A law: the header that `header_of` makes has the direction bit of its PDU, and the PDU is for
/// the entity that it goes to.
pub fn addressed_pdu_goes_to_the_other_end()
    ensures fits { (a : Addressing) (large : Bool) (v : Content) →
        directions.direction_fits (addressings.header_of a large v) v ≡ true }
    ensures toward_sender { (a : Addressing) (large : Bool) (v : Content) →
        direction_of v ≡ TowardSender
        → directions.is_for a.id.source a.destination (addressings.header_of a large v) ≡ true }
    ensures toward_receiver { (a : Addressing) (large : Bool) (v : Content) →
        direction_of v ≡ TowardReceiver
        → directions.is_for a.destination a.id.source (addressings.header_of a large v) ≡ true }
{}
