// The length of a data field, known before its PDU is made: a sender asks whether the next PDU has
// room.
ghost use Rattle.std.specs.Prelude.{◌≡◌, ◌+◌, ◌^◌, ◌<◌, ◌∷◌, [], ℕ, Bool, List, length};
ghost use Rattle.std.specs.List.{flat_map};
ghost use Rattle.cfdp_directives.specs.declared.pdu.codes.Acknowledged.{Acknowledged};
ghost use Rattle.cfdp_directives.specs.declared.pdu.codes.Delivery.{Delivery};
ghost use Rattle.cfdp_directives.specs.declared.pdu.codes.FileStatus.{FileStatus};
ghost use Rattle.cfdp_directives.specs.declared.pdu.codes.TransactionStatus.{TransactionStatus};
ghost use Rattle.cfdp_directives.specs.Pdu.Codes.{file_size_octets};
ghost use Rattle.cfdp_directives.specs.Pdu.Content.{FileData, Metadata, Eof, Finished, Ack, Nak};
ghost use Rattle.cfdp_directives.specs.Pdu.Content.{Prompt, KeepAlive};
ghost use Rattle.cfdp_directives.specs.Pdu.Tlv.{Tlv, tlv, fault_location};
ghost use Rattle.cfdp_directives.specs.Pdu.Written.{content_len};

use crate::pdu::file_size::file_size_octets;

/// Returns the number of octets of a data field of file data that carries so many octets of the
/// file.
pub fn file_data_len(large: bool, octets: usize) -> usize
    requires { octets < 2 ^ 32 }
    ensures { (offset : ℕ) (bytes : List ℕ) → length bytes ≡ octets
        → content_len (file_size_octets large) (FileData offset bytes) ≡ result }
{
    let width = file_size_octets(large);
    width + octets
}

/// Returns the number of octets of the data field of a Metadata whose names and options have so
/// many octets.
pub fn metadata_len(large: bool, source: usize, destination: usize, options: usize) -> usize
    requires source { source < 2 ^ 32 }
    requires destination { destination < 2 ^ 32 }
    requires options { options < 2 ^ 32 }
    ensures { (kind size : ℕ) (from to : List ℕ) (tlvs : List Tlv)
        → length from ≡ source
        → length to ≡ destination
        → length (flat_map tlv tlvs) ≡ options
        → content_len (file_size_octets large) (Metadata kind size from to tlvs) ≡ result }
{
    let width = file_size_octets(large);
    4 + width + source + destination + options
}

/// Returns the number of octets of the data field of an EOF whose options have so many octets: 0,
/// or the octets of a fault location.
pub fn eof_len(large: bool, options: usize) -> usize
    requires { options < 2 ^ 32 }
    ensures { (condition checksum size : ℕ) (tlvs : List Tlv)
        → length (flat_map tlv tlvs) ≡ options
        → content_len (file_size_octets large) (Eof condition checksum size tlvs) ≡ result }
{
    let width = file_size_octets(large);
    6 + width + options
}

/// Returns the number of octets of the data field of a Finished whose options have so many octets:
/// 0, or the octets of a fault location.
pub fn finished_len(options: usize) -> usize
    requires { options < 2 ^ 32 }
    ensures { (large : Bool) (condition : ℕ) (delivery : Delivery) (status : FileStatus)
        (tlvs : List Tlv) → length (flat_map tlv tlvs) ≡ options
        → content_len (file_size_octets large) (Finished condition delivery status tlvs) ≡ result }
{
    2 + options
}

/// Returns the number of octets of a fault location, as an option, that names its entity by an id
/// of `width` octets.
#[tactic(auto, using(crate::proofs::Options::location_len))]
pub fn fault_location_len(width: u8) -> usize
    ensures len { result ≡ 2 + width }
    ensures all { (entity : ℕ)
        → length (flat_map tlv (fault_location entity width ∷ [])) ≡ result }
{
    2 + usize::from(width)
}

/// Returns the number of octets of the data field of an ACK: 3.
pub fn ack_len() -> usize
    ensures { (large : Bool) (of : Acknowledged) (condition : ℕ) (status : TransactionStatus)
        → content_len (file_size_octets large) (Ack of condition status) ≡ result }
{
    3
}

/// Returns the number of octets of the data field of a NAK that asks for so many ranges.
pub fn nak_len(large: bool, pairs: usize) -> usize
    requires { pairs < 2 ^ 32 }
    ensures { (start end : ℕ) (ranges : List (ℕ × ℕ)) → length ranges ≡ pairs
        → content_len (file_size_octets large) (Nak start end ranges) ≡ result }
{
    let width = file_size_octets(large);
    1 + 2 * width + 2 * width * pairs
}

/// Returns the number of octets of the data field of a Prompt: 2.
pub fn prompt_len() -> usize
    ensures { (large keep_alive : Bool)
        → content_len (file_size_octets large) (Prompt keep_alive) ≡ result }
{
    2
}

/// Returns the number of octets of the data field of a Keep Alive.
pub fn keep_alive_len(large: bool) -> usize
    ensures { (progress : ℕ) → content_len (file_size_octets large) (KeepAlive progress) ≡ result }
{
    let width = file_size_octets(large);
    1 + width
}
