//! What octets spell, field by field.
ghost use Rattle.std.specs.Prelude.{◌≡◌, drop, Some};
ghost use Rattle.std.specs.List.{flat_map};
ghost use Rattle.cfdp_dump.specs.Spelled.Lines.{options_of};
ghost use Rattle.cfdp_dump.specs.Spelled.Fields.{checksum_field, content_fields, end_fields};
ghost use Rattle.cfdp_dump.specs.Spelled.Fields.{fixed_fields, frame_fields, id_fields, name_field};
ghost use Rattle.cfdp_dump.specs.Spelled.Fields.{behind_fields, insert_field};
ghost use Rattle.cfdp_dump.specs.Spelled.Fields.{name_fields};
ghost use Rattle.cfdp_dump.specs.Spelled.Fields.{option_field, options_fields, pdu_fields};
ghost use Rattle.cfdp_dump.specs.Spelled.Fields.{channel_fields, count_fields, zone_fields};
ghost use Rattle.cfdp_dump.specs.Spelled.Fields.{prompt_fields, range_field, segment_fields};
ghost use Rattle.cfdp_dump.specs.Spelled.Fields.{short_fields};
ghost use Rattle.cfdp_dump.specs.Spelled.Fields as fields;

use crate::spelled::field::{CodeField, FlagField, NumberField, OctetsField, PartField};
use crate::spelled::line::{
    FrameLine, FrameParts, HexOctet, HexOctets, crc_octets, fault_location,
};
use aos_frame::FrameHeader;
use cfdp_directives::{Acknowledged, Pdu, SegmentRequests, Tlvs, TransactionStatus};
use cfdp_header::{Direction, Header, PduType};
use cfdp_report::{HexNumber, Name, delivery_word, status_word};
use std::fmt;

const HEADER: &str = "CFDP 5.1";

const DIRECTIVE: &str = "CFDP 5.2.1";

const EOF: &str = "CFDP 5.2.2";

const FINISHED: &str = "CFDP 5.2.3";

const ACK: &str = "CFDP 5.2.4";

const METADATA: &str = "CFDP 5.2.5";

const NAK: &str = "CFDP 5.2.6";

const FILE_DATA: &str = "CFDP 5.3";

const ZONE: &str = "AOS 4.1.4.2";

// First header pointers that are no offset (CCSDS 732.0-B-4, 4.1.4.2.2).
const NO_PACKET: u16 = 2047;

const ONLY_IDLE: u16 = 2046;

/// A PDU field by field, in the order of its octets.
#[derive(Clone, Copy)]
pub struct PduFields<'a> {
    pub header: Header,
    pub pdu: &'a Pdu<'a>,
    /// The octets of the whole PDU, which have what the two others don't keep.
    pub octets: &'a [u8],
}

impl fmt::Display for PduFields<'_> {
    ghost output = { λ it. Some (pdu_fields it.header it.pdu.now it.octets.now) };

    fn fmt<W: fmt::Write>(&self, f: &mut fmt::Formatter<W>) -> fmt::Result {
        let (header, pdu) = (self.header, self.pdu);
        let fixed = FixedFields {
            header,
            octets: self.octets,
        };
        let content = ContentFields {
            segmented: header.segment_metadata,
            pdu,
            rest: octets_behind(self.octets, header.len()),
        };
        let crc = PartField("PDU CRC", crc_octets(header, self.octets), "CFDP 4.1");
        write!(
            f,
            "{fixed}{}{content}{}{crc}",
            IdFields(header),
            OptionFields(pdu)
        )
    }
}

/// Returns the octets after the first `count`.
fn octets_behind(octets: &[u8], count: usize) -> &[u8]
    ensures { result.now ≡ drop count octets.now }
{
    octets.get(count..).unwrap_or(&[])
}

/// Returns the octet at an index, or 0 after the end.
fn octet_at(octets: &[u8], at: usize) -> u8
    ensures { result ≡ fields.octet_at octets.now at }
{
    match octets.get(at) {
        Some(octet) => *octet,
        None => 0,
    }
}

/// What every header has in its first four octets, except for the lengths of the ids.
#[derive(Clone, Copy)]
struct FixedFields<'a> {
    header: Header,
    octets: &'a [u8],
}

impl fmt::Display for FixedFields<'_> {
    ghost output = { λ it. Some (fixed_fields it.header it.octets.now) };

    fn fmt<W: fmt::Write>(&self, f: &mut fmt::Formatter<W>) -> fmt::Result {
        let header = self.header;
        let (kind, way) = (header.pdu_type, header.direction);
        let version = NumberField("version", 1, HEADER);
        let kind = CodeField("PDU type", u64::from(kind.bit()), type_word(kind), HEADER);
        let way = CodeField(
            "direction",
            u64::from(way.bit()),
            direction_word(way),
            HEADER,
        );
        let mode = CodeField("transmission mode", 0, "acknowledged", HEADER);
        let crc = FlagField("CRC", header.crc, HEADER);
        let large = FlagField("large file", header.large, HEADER);
        let length = OctetsField("data field", u64::from(header.length), HEADER);
        let control = octet_at(self.octets, 3) / 128;
        let control = NumberField("segmentation control", u64::from(control), HEADER);
        write!(f, "{version}{kind}{way}{mode}{crc}{large}{length}{control}")
    }
}

/// The lengths of a header's ids, the flag between these, and the ids.
#[derive(Clone, Copy)]
struct IdFields(Header);

impl fmt::Display for IdFields {
    ghost output = { λ it. Some (id_fields it.0) };

    fn fmt<W: fmt::Write>(&self, f: &mut fmt::Formatter<W>) -> fmt::Result {
        let header = self.0;
        let ids = OctetsField("entity id length", u64::from(header.id_width), HEADER);
        let segment = FlagField("segment metadata", header.segment_metadata, HEADER);
        let width = u64::from(header.number_width);
        let width = OctetsField("sequence number length", width, HEADER);
        let source = NumberField("source entity", header.id.source, HEADER);
        let number = NumberField("sequence number", header.id.number, HEADER);
        let destination = NumberField("destination entity", header.destination, HEADER);
        write!(f, "{ids}{segment}{width}{source}{number}{destination}")
    }
}

/// Returns what this PDU type is.
fn type_word(kind: PduType) -> &'static str
    ensures { result.now ≡ fields.type_word kind }
{
    match kind {
        PduType::FileDirective => "directive",
        PduType::FileData => "file data",
    }
}

/// Returns which end PDUs of this direction go to.
fn direction_word(direction: Direction) -> &'static str
    ensures { result.now ≡ fields.direction_word direction }
{
    match direction {
        Direction::TowardReceiver => "toward receiver",
        Direction::TowardSender => "toward sender",
    }
}

/// What a PDU says, except for its options.
#[derive(Clone, Copy)]
struct ContentFields<'a> {
    /// Whether segment metadata stand before file data.
    segmented: bool,
    pdu: &'a Pdu<'a>,
    /// The octets of the data field.
    rest: &'a [u8],
}

impl fmt::Display for ContentFields<'_> {
    ghost output = { λ it. Some (content_fields it.segmented it.pdu.now it.rest.now) };

    fn fmt<W: fmt::Write>(&self, f: &mut fmt::Formatter<W>) -> fmt::Result {
        match self.pdu {
            Pdu::FileData { offset, bytes } => {
                let segment = SegmentFields {
                    present: self.segmented,
                    first: octet_at(self.rest, 0),
                };
                let offset = NumberField("offset", *offset, FILE_DATA);
                let count = OctetsField("file data", bytes.len() as u64, FILE_DATA);
                write!(f, "{segment}{offset}{count}")
            }
            Pdu::Metadata {
                checksum_kind,
                size,
                source,
                destination,
                ..
            } => {
                let directive = CodeField("directive", 7, "Metadata", DIRECTIVE);
                let closure = octet_at(self.rest, 1) / 64 % 2 == 1;
                let closure = FlagField("closure requested", closure, METADATA);
                let kind = u64::from(checksum_kind.code());
                let kind = NumberField("checksum type", kind, METADATA);
                let size = NumberField("file size", *size, METADATA);
                let names = NameFields(source, destination);
                write!(f, "{directive}{closure}{kind}{size}{names}")
            }
            _ => write!(f, "{}", EndFields(self.pdu, self.rest)),
        }
    }
}

/// Segment metadata before file data, if there are some.
#[derive(Clone, Copy)]
struct SegmentFields {
    present: bool,
    /// The first octet of the data field.
    first: u8,
}

impl fmt::Display for SegmentFields {
    ghost output = { λ it. Some (segment_fields it.present it.first) };

    fn fmt<W: fmt::Write>(&self, f: &mut fmt::Formatter<W>) -> fmt::Result {
        if !self.present {
            return write!(f, "");
        }
        let state = u64::from(self.first / 64);
        let state = NumberField("record continuation state", state, FILE_DATA);
        let count = u64::from(self.first % 64);
        let count = OctetsField("segment metadata length", count, FILE_DATA);
        write!(f, "{state}{count}")
    }
}

/// The names of a file, at its source and at its destination.
#[derive(Clone, Copy)]
struct NameFields<'a>(&'a [u8], &'a [u8]);

impl fmt::Display for NameFields<'_> {
    ghost output = { λ it. Some (name_fields it.0.now it.1.now) };

    fn fmt<W: fmt::Write>(&self, f: &mut fmt::Formatter<W>) -> fmt::Result {
        let source = NameField("source file name", self.0);
        let destination = NameField("destination file name", self.1);
        write!(f, "{source}{destination}")
    }
}

/// The name of a file: which of the two it is, and its octets.
#[derive(Clone, Copy)]
struct NameField<'a>(&'static str, &'a [u8]);

impl fmt::Display for NameField<'_> {
    ghost output = { λ it. Some (name_field it.0.now it.1.now) };

    fn fmt<W: fmt::Write>(&self, f: &mut fmt::Formatter<W>) -> fmt::Result {
        write!(f, "{}: {} (CFDP 5.2.5)\n", self.0, Name(self.1))
    }
}

/// How a file ends, as an EOF or a Finished says it, with the octets of the data field.
#[derive(Clone, Copy)]
struct EndFields<'a>(&'a Pdu<'a>, &'a [u8]);

impl fmt::Display for EndFields<'_> {
    ghost output = { λ it. Some (end_fields it.0.now it.1.now) };

    fn fmt<W: fmt::Write>(&self, f: &mut fmt::Formatter<W>) -> fmt::Result {
        match self.0 {
            Pdu::Eof {
                condition,
                checksum,
                size,
                ..
            } => {
                let directive = CodeField("directive", 4, "EOF", DIRECTIVE);
                let condition = u64::from(condition.code());
                let condition = NumberField("condition code", condition, EOF);
                let checksum = ChecksumField(*checksum);
                let size = NumberField("file size", *size, EOF);
                write!(f, "{directive}{condition}{checksum}{size}")
            }
            Pdu::Finished {
                condition,
                delivery,
                status,
                ..
            } => {
                let (delivery, status) = (*delivery, *status);
                let directive = CodeField("directive", 5, "Finished", DIRECTIVE);
                let condition = u64::from(condition.code());
                let condition = NumberField("condition code", condition, FINISHED);
                let (code, word) = (u64::from(delivery.code()), delivery_word(delivery));
                let delivery = CodeField("delivery code", code, word, FINISHED);
                let (code, word) = (u64::from(status.code()), status_word(status));
                let status = CodeField("file status", code, word, FINISHED);
                write!(f, "{directive}{condition}{delivery}{status}")
            }
            _ => write!(f, "{}", ShortFields(self.0, self.1)),
        }
    }
}

/// The checksum of a file.
#[derive(Clone, Copy)]
struct ChecksumField(u32);

impl fmt::Display for ChecksumField {
    ghost output = { λ it. Some (checksum_field it.0) };

    fn fmt<W: fmt::Write>(&self, f: &mut fmt::Formatter<W>) -> fmt::Result {
        write!(f, "file checksum: {} (CFDP 5.2.2)\n", HexNumber(self.0))
    }
}

/// What an ACK, a NAK, a Prompt or a Keep Alive says, with the octets of the data field.
#[derive(Clone, Copy)]
struct ShortFields<'a>(&'a Pdu<'a>, &'a [u8]);

impl fmt::Display for ShortFields<'_> {
    ghost output = { λ it. Some (short_fields it.0.now it.1.now) };

    fn fmt<W: fmt::Write>(&self, f: &mut fmt::Formatter<W>) -> fmt::Result {
        match self.0 {
            Pdu::Ack {
                of,
                condition,
                status,
            } => {
                let directive = CodeField("directive", 6, "ACK", DIRECTIVE);
                let (code, word) = (u64::from(of.code()), acknowledged_word(*of));
                let of = CodeField("directive acknowledged", code, word, ACK);
                let subtype = u64::from(octet_at(self.1, 1) % 16);
                let subtype = NumberField("directive subtype", subtype, ACK);
                let condition = u64::from(condition.code());
                let condition = NumberField("condition code", condition, ACK);
                let (code, word) = (u64::from(status.code()), transaction_word(*status));
                let status = CodeField("transaction status", code, word, ACK);
                write!(f, "{directive}{of}{subtype}{condition}{status}")
            }
            Pdu::Nak {
                start,
                end,
                requests,
            } => {
                let directive = CodeField("directive", 8, "NAK", DIRECTIVE);
                let start = NumberField("start of scope", *start, NAK);
                let end = NumberField("end of scope", *end, NAK);
                let requests = RangeFields(requests);
                write!(f, "{directive}{start}{end}{requests}")
            }
            Pdu::Prompt { keep_alive } => write!(f, "{}", PromptFields(*keep_alive)),
            Pdu::KeepAlive { progress } => {
                let directive = CodeField("directive", 12, "Keep Alive", DIRECTIVE);
                let progress = NumberField("progress", *progress, "CFDP 5.2.8");
                write!(f, "{directive}{progress}")
            }
            _ => write!(f, ""),
        }
    }
}

/// A Prompt, for a Keep Alive or for a NAK.
#[derive(Clone, Copy)]
struct PromptFields(bool);

impl fmt::Display for PromptFields {
    ghost output = { λ it. Some (prompt_fields it.0) };

    fn fmt<W: fmt::Write>(&self, f: &mut fmt::Formatter<W>) -> fmt::Result {
        let directive = CodeField("directive", 9, "Prompt", DIRECTIVE);
        let (code, word) = if self.0 {
            (1, "Keep Alive")
        } else {
            (0, "NAK")
        };
        let response = CodeField("response required", code, word, "CFDP 5.2.7");
        write!(f, "{directive}{response}")
    }
}

/// Returns the directive that an ACK acknowledges.
fn acknowledged_word(of: Acknowledged) -> &'static str
    ensures { result.now ≡ fields.acknowledged_word of }
{
    match of {
        Acknowledged::Eof => "EOF",
        Acknowledged::Finished => "Finished",
    }
}

/// Returns what an ACK says of its transaction.
fn transaction_word(status: TransactionStatus) -> &'static str
    ensures { result.now ≡ fields.transaction_word status }
{
    match status {
        TransactionStatus::Undefined => "undefined",
        TransactionStatus::Active => "active",
        TransactionStatus::Terminated => "terminated",
        TransactionStatus::Unrecognized => "unrecognized",
    }
}

/// The options of a PDU, and before them the entity that the first fault location names.
#[derive(Clone, Copy)]
struct OptionFields<'a>(&'a Pdu<'a>);

impl fmt::Display for OptionFields<'_> {
    ghost output = { λ it. Some (options_fields it.0.now) };

    fn fmt<W: fmt::Write>(&self, f: &mut fmt::Formatter<W>) -> fmt::Result {
        let options = OptionFieldsOf(self.0);
        match fault_location(self.0) {
            Some(entity) => {
                let location = NumberField("fault location", entity, "CFDP 5.4.6");
                write!(f, "{location}{options}")
            }
            None => write!(f, "{options}"),
        }
    }
}

/// The ranges that a NAK asks for.
#[derive(Clone, Copy)]
struct RangeFields<'a>(&'a SegmentRequests<'a>);

impl fmt::Display for RangeFields<'_> {
    ghost output = { λ ranges. Some (flat_map range_field ranges.0.now) };

    fn fmt<W: fmt::Write>(&self, f: &mut fmt::Formatter<W>) -> fmt::Result {
        let mut next = self.0.split_first();
        for _index in 0..self.0.len() {
            let Some((start, end, behind)) = next else {
                unreachable!()
            };
            write!(f, "{}", RangeField(start, end))?;
            next = behind.split_first();
        }
        Ok(())
    }
}

/// The options of a PDU.
#[derive(Clone, Copy)]
struct OptionFieldsOf<'a>(&'a Pdu<'a>);

impl fmt::Display for OptionFieldsOf<'_> {
    ghost output = { λ it. Some (flat_map option_field (options_of it.0.now)) };

    fn fmt<W: fmt::Write>(&self, f: &mut fmt::Formatter<W>) -> fmt::Result {
        match self.0 {
            Pdu::Metadata { options, .. } => write!(f, "{}", OptionFieldList(options)),
            Pdu::Eof { tlvs, .. } => write!(f, "{}", OptionFieldList(tlvs)),
            Pdu::Finished { tlvs, .. } => write!(f, "{}", OptionFieldList(tlvs)),
            _ => write!(f, ""),
        }
    }
}

/// Options, each as a field.
#[derive(Clone, Copy)]
struct OptionFieldList<'a>(&'a Tlvs<'a>);

impl fmt::Display for OptionFieldList<'_> {
    ghost output = { λ options. Some (flat_map option_field options.0.now) };

    fn fmt<W: fmt::Write>(&self, f: &mut fmt::Formatter<W>) -> fmt::Result {
        for (kind, value) in self.0 {
            write!(f, "{}", OptionField(kind, value))?;
        }
        Ok(())
    }
}

/// A range that a NAK asks for, from its start to its end, as a field.
#[derive(Clone, Copy)]
struct RangeField(u64, u64);

impl fmt::Display for RangeField {
    ghost output = { λ it. Some (range_field (it.0, it.1)) };

    fn fmt<W: fmt::Write>(&self, f: &mut fmt::Formatter<W>) -> fmt::Result {
        write!(f, "segment request: {}-{} (CFDP 5.2.6)\n", self.0, self.1)
    }
}

/// An option, its type and its value, as a field.
#[derive(Clone, Copy)]
struct OptionField<'a>(u8, &'a [u8]);

impl fmt::Display for OptionField<'_> {
    ghost output = { λ it. Some (option_field (record { kind = it.0; value = it.1.now })) };

    fn fmt<W: fmt::Write>(&self, f: &mut fmt::Formatter<W>) -> fmt::Result {
        let (kind, value) = (HexOctet(self.0), HexOctets(self.1));
        write!(f, "option: type {kind} value {value} (CFDP 5.4)\n")
    }
}

/// A frame with a packet zone of so many octets, field by field, in the order of its octets.
#[derive(Clone, Copy)]
pub struct FrameFieldLines<'a> {
    pub frame: FrameLine,
    /// The octets of the packet zone.
    pub zone: u16,
    /// Its fields beside the M_PDU.
    pub parts: FrameParts<'a>,
}

impl fmt::Display for FrameFieldLines<'_> {
    ghost output = { λ it. Some (frame_fields it.frame.header it.frame.pointer it.zone
        it.parts.insert.now it.parts.control.now it.parts.check.now) };

    fn fmt<W: fmt::Write>(&self, f: &mut fmt::Formatter<W>) -> fmt::Result {
        let (channel, count) = (
            ChannelFields(self.frame.header),
            CountFields(self.frame.header),
        );
        let zone = ZoneFields {
            pointer: self.frame.pointer,
            zone: self.zone,
        };
        let insert = InsertField(self.parts.insert);
        let behind = BehindFields(self.parts);
        write!(f, "{channel}{count}{insert}{zone}{behind}")
    }
}

/// The spacecraft and the channel of a frame, as its primary header says.
#[derive(Clone, Copy)]
struct ChannelFields(FrameHeader);

impl fmt::Display for ChannelFields {
    ghost output = { λ it. Some (channel_fields it.0) };

    fn fmt<W: fmt::Write>(&self, f: &mut fmt::Formatter<W>) -> fmt::Result {
        let header = self.0;
        let version = NumberField("version", 1, "AOS 4.1.2.2");
        let spacecraft = u64::from(header.spacecraft);
        let spacecraft = NumberField("spacecraft", spacecraft, "AOS 4.1.2.2");
        let channel = u64::from(header.virtual_channel);
        let channel = NumberField("virtual channel", channel, "AOS 4.1.2.3");
        write!(f, "{version}{spacecraft}{channel}")
    }
}

/// The count of a frame, and the flags after it, which end its primary header.
#[derive(Clone, Copy)]
struct CountFields(FrameHeader);

impl fmt::Display for CountFields {
    ghost output = { λ it. Some (count_fields it.0) };

    fn fmt<W: fmt::Write>(&self, f: &mut fmt::Formatter<W>) -> fmt::Result {
        let header = self.0;
        let count = NumberField("frame count", u64::from(header.count), "AOS 4.1.2.4");
        let replay = FlagField("replay", false, "AOS 4.1.2.5");
        let cycle = FlagField("count cycle in use", header.cycle, "AOS 4.1.2.5");
        write!(f, "{count}{replay}{cycle}")
    }
}

/// The first header pointer of a frame, and the octets of its packet zone.
#[derive(Clone, Copy)]
struct ZoneFields {
    pointer: u16,
    zone: u16,
}

impl fmt::Display for ZoneFields {
    ghost output = { λ it. Some (zone_fields it.pointer it.zone) };

    fn fmt<W: fmt::Write>(&self, f: &mut fmt::Formatter<W>) -> fmt::Result {
        let (pointer, word) = (u64::from(self.pointer), pointer_word(self.pointer));
        let pointer = CodeField("first header pointer", pointer, word, ZONE);
        let zone = OctetsField("packet zone", u64::from(self.zone), ZONE);
        write!(f, "{pointer}{zone}")
    }
}

/// The insert zone of a frame, before its M_PDU, if it has one.
#[derive(Clone, Copy)]
struct InsertField<'a>(&'a [u8]);

impl fmt::Display for InsertField<'_> {
    ghost output = { λ it. Some (insert_field it.0.now) };

    fn fmt<W: fmt::Write>(&self, f: &mut fmt::Formatter<W>) -> fmt::Result {
        write!(f, "{}", PartField("insert zone", self.0, "AOS 4.1.3"))
    }
}

/// The fields of a frame after its M_PDU, if it has them.
#[derive(Clone, Copy)]
struct BehindFields<'a>(FrameParts<'a>);

impl fmt::Display for BehindFields<'_> {
    ghost output = { λ it. Some (behind_fields it.0.control.now it.0.check.now) };

    fn fmt<W: fmt::Write>(&self, f: &mut fmt::Formatter<W>) -> fmt::Result {
        let parts = self.0;
        let control = PartField("operational control", parts.control, "AOS 4.1.5");
        let check = PartField("frame error control", parts.check, "AOS 4.1.6");
        write!(f, "{control}{check}")
    }
}

/// Returns what a first header pointer says.
fn pointer_word(pointer: u16) -> &'static str
    ensures { result.now ≡ fields.pointer_word pointer }
{
    if pointer == NO_PACKET {
        "no packet begins here"
    } else if pointer == ONLY_IDLE {
        "idle data only"
    } else {
        "octets before a packet begins"
    }
}
