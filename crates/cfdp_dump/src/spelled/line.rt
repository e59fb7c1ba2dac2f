//! The lines of a dump.
ghost use Rattle.std.specs.Prelude.{◌≡◌, Some};
ghost use Rattle.std.specs.List.{flat_map};
ghost use Rattle.cfdp_directives.specs.Pdu.Tlv.{location_of};
ghost use Rattle.cfdp_dump.specs.Spelled.Lines.{fields_text, frame_text};
ghost use Rattle.cfdp_dump.specs.Spelled.Lines.{hex_octet_text, location_text};
ghost use Rattle.cfdp_dump.specs.Spelled.Lines.{long_text, option_text, options_of};
ghost use Rattle.cfdp_dump.specs.Spelled.Lines.{part_text, parts_text, pdu_text, range_text};
ghost use Rattle.cfdp_dump.specs.Spelled.Shape as shapes;
ghost use Rattle.cfdp_dump.specs.Spelled.Told.{frame_line, pdu_line};

use crate::spelled::fields::{FrameFieldLines, PduFields};
use crate::spelled::form::DumpForm;
use aos_frame::FrameHeader;
use cfdp_directives::{Pdu, SegmentRequests, Tlvs};
use cfdp_header::{Direction, Header, TransactionId};
use cfdp_report::{HexNumber, Id, Name, delivery_word, hex_digit, status_word};
use std::fmt;

/// A PDU as a dump shows it.
#[derive(Clone, Copy)]
pub struct DumpedPdu<'a> {
    pub header: Header,
    pub pdu: &'a Pdu<'a>,
    /// The octets of the whole PDU.
    pub octets: &'a [u8],
    pub form: DumpForm,
}

impl fmt::Display for DumpedPdu<'_> {
    ghost output = { λ it. Some (pdu_line it.form it.header it.pdu.now it.octets.now) };

    fn fmt<W: fmt::Write>(&self, f: &mut fmt::Formatter<W>) -> fmt::Result {
        let DumpedPdu {
            header,
            pdu,
            octets,
            form,
        } = *self;
        let line = PduLine { id: header.id, pdu };
        match form {
            DumpForm::Short => write!(f, "{line}"),
            DumpForm::Long => {
                let crc = PartWords(" crc ", crc_octets(header, octets));
                write!(f, "{line}{}{crc}", LongPart { header, pdu })
            }
            DumpForm::Fields => write!(
                f,
                "{}",
                PduFields {
                    header,
                    pdu,
                    octets
                }
            ),
        }
    }
}

/// Returns the CRC at the end of a PDU, if it has one.
pub fn crc_octets(header: Header, octets: &[u8]) -> &[u8]
    ensures { result.now ≡ shapes.crc_octets header octets.now }
{
    let at = octets.len().saturating_sub(header.crc_len());
    &octets[at..]
}

/// A PDU, with the transaction that its header names.
#[derive(Clone, Copy)]
pub struct PduLine<'a> {
    pub id: TransactionId,
    pub pdu: &'a Pdu<'a>,
}

impl fmt::Display for PduLine<'_> {
    ghost output = { λ line. Some (pdu_text line.id line.pdu.now) };

    fn fmt<W: fmt::Write>(&self, f: &mut fmt::Formatter<W>) -> fmt::Result {
        let (word, fields) = (pdu_word(self.pdu), PduWords(self.pdu));
        write!(f, "{word} {} {fields}", Id(self.id))
    }
}

/// Returns the word for this kind of PDU.
fn pdu_word(pdu: &Pdu<'_>) -> &'static str
    ensures { result.now ≡ Rattle.cfdp_dump.specs.Spelled.Lines.pdu_word pdu.now }
{
    match pdu {
        Pdu::FileData { .. } => "data",
        Pdu::Metadata { .. } => "metadata",
        Pdu::Eof { .. } => "eof",
        Pdu::Finished { .. } => "finished",
        Pdu::Ack { .. } => "ack",
        Pdu::Nak { .. } => "nak",
        Pdu::Prompt { .. } => "prompt",
        Pdu::KeepAlive { .. } => "keepalive",
    }
}

/// What a PDU says, with a space between its parts.
#[derive(Clone, Copy)]
struct PduWords<'a>(&'a Pdu<'a>);

impl fmt::Display for PduWords<'_> {
    ghost output = { λ fields. Some (fields_text fields.0.now) };

    fn fmt<W: fmt::Write>(&self, f: &mut fmt::Formatter<W>) -> fmt::Result {
        match self.0 {
            Pdu::FileData { offset, bytes } => write!(f, "{offset} {}", bytes.len()),
            Pdu::Metadata {
                checksum_kind,
                size,
                source,
                destination,
                ..
            } => {
                let (from, to) = (Name(source), Name(destination));
                write!(f, "{} {size} {from} {to}", checksum_kind.code())
            }
            Pdu::Eof {
                condition,
                checksum,
                size,
                ..
            } => {
                let checksum = HexNumber(*checksum);
                write!(f, "{} {checksum} {size}", condition.code())
            }
            Pdu::Finished {
                condition,
                delivery,
                status,
                ..
            } => {
                let (delivery, status) = (delivery_word(*delivery), status_word(*status));
                write!(f, "{} {delivery} {status}", condition.code())
            }
            Pdu::Ack {
                of,
                condition,
                status,
            } => {
                let (of, status) = (of.code(), status.code());
                write!(f, "{of} {} {status}", condition.code())
            }
            Pdu::Nak {
                start,
                end,
                requests,
            } => write!(f, "{start} {end}{}", Ranges(requests)),
            Pdu::Prompt { keep_alive: false } => write!(f, "nak"),
            Pdu::Prompt { keep_alive: true } => write!(f, "keep"),
            Pdu::KeepAlive { progress } => write!(f, "{progress}"),
        }
    }
}

/// The ranges that a NAK asks for, with a space before each.
#[derive(Clone, Copy)]
struct Ranges<'a>(&'a SegmentRequests<'a>);

impl fmt::Display for Ranges<'_> {
    ghost output = { λ ranges. Some (flat_map range_text ranges.0.now) };

    fn fmt<W: fmt::Write>(&self, f: &mut fmt::Formatter<W>) -> fmt::Result {
        let mut next = self.0.split_first();
        for _index in 0..self.0.len() {
            let Some((start, end, behind)) = next else {
                unreachable!()
            };
            write!(f, " {start}-{end}")?;
            next = behind.split_first();
        }
        Ok(())
    }
}

/// What a long line has after a short one: which end the PDU goes to, whether its file is large,
/// and its options.
#[derive(Clone, Copy)]
struct LongPart<'a> {
    header: Header,
    pdu: &'a Pdu<'a>,
}

impl fmt::Display for LongPart<'_> {
    ghost output = { λ part. Some (long_text part.header part.pdu.now) };

    fn fmt<W: fmt::Write>(&self, f: &mut fmt::Formatter<W>) -> fmt::Result {
        let (end, destination) = (end_word(self.header.direction), self.header.destination);
        let large = large_word(self.header.large);
        let (location, options) = (Location(fault_location(self.pdu)), Options(self.pdu));
        write!(
            f,
            " toward {end} destination {destination}{large}{location}{options}"
        )
    }
}

/// Returns the word for the end of a transaction that a PDU goes to.
fn end_word(direction: Direction) -> &'static str
    ensures { result.now ≡ Rattle.cfdp_dump.specs.Spelled.Lines.end_word direction }
{
    match direction {
        Direction::TowardSender => "sender",
        Direction::TowardReceiver => "receiver",
    }
}

/// Returns the word for a PDU of a large file, with a space before it.
fn large_word(large: bool) -> &'static str
    ensures { result.now ≡ Rattle.cfdp_dump.specs.Spelled.Lines.large_word large }
{
    if large { " large" } else { "" }
}

/// Returns the entity that a PDU names as the one at which a fault was found.
pub fn fault_location(pdu: &Pdu<'_>) -> Option<u64>
    ensures { result ≡ location_of (options_of pdu.now) }
{
    match pdu {
        Pdu::Metadata { options, .. } => options.fault_location(),
        Pdu::Eof { tlvs, .. } => tlvs.fault_location(),
        Pdu::Finished { tlvs, .. } => tlvs.fault_location(),
        _ => None,
    }
}

/// A fault location, with a space before it.
#[derive(Clone, Copy)]
struct Location(Option<u64>);

impl fmt::Display for Location {
    ghost output = { λ location. Some (location_text location.0) };

    fn fmt<W: fmt::Write>(&self, f: &mut fmt::Formatter<W>) -> fmt::Result {
        match self.0 {
            Some(entity) => write!(f, " fault-location {entity}"),
            None => write!(f, ""),
        }
    }
}

/// The options of a PDU, with a space before each.
#[derive(Clone, Copy)]
struct Options<'a>(&'a Pdu<'a>);

impl fmt::Display for Options<'_> {
    ghost output = { λ options. Some (flat_map option_text (options_of options.0.now)) };

    fn fmt<W: fmt::Write>(&self, f: &mut fmt::Formatter<W>) -> fmt::Result {
        match self.0 {
            Pdu::Metadata { options, .. } => write!(f, "{}", OptionList(options)),
            Pdu::Eof { tlvs, .. } => write!(f, "{}", OptionList(tlvs)),
            Pdu::Finished { tlvs, .. } => write!(f, "{}", OptionList(tlvs)),
            _ => write!(f, ""),
        }
    }
}

/// Options, with a space before each.
#[derive(Clone, Copy)]
struct OptionList<'a>(&'a Tlvs<'a>);

impl fmt::Display for OptionList<'_> {
    ghost output = { λ options. Some (flat_map option_text options.0.now) };

    fn fmt<W: fmt::Write>(&self, f: &mut fmt::Formatter<W>) -> fmt::Result {
        for (kind, value) in self.0 {
            write!(f, "{}", OptionWords { kind, value })?;
        }
        Ok(())
    }
}

/// One option, with a space before it.
#[derive(Clone, Copy)]
struct OptionWords<'a> {
    kind: u8,
    value: &'a [u8],
}

impl fmt::Display for OptionWords<'_> {
    ghost output = { λ words. Some
        (option_text (record { kind = words.kind; value = words.value.now })) };

    fn fmt<W: fmt::Write>(&self, f: &mut fmt::Formatter<W>) -> fmt::Result {
        write!(f, " tlv {}:{}", HexOctet(self.kind), HexOctets(self.value))
    }
}

/// Octets, each as two upper-case hexadecimal digits.
#[derive(Clone, Copy)]
pub struct HexOctets<'a>(pub &'a [u8]);

impl fmt::Display for HexOctets<'_> {
    ghost output = { λ octets. Some (flat_map hex_octet_text octets.0.now) };

    fn fmt<W: fmt::Write>(&self, f: &mut fmt::Formatter<W>) -> fmt::Result {
        for octet in self.0 {
            write!(f, "{}", HexOctet(*octet))?;
        }
        Ok(())
    }
}

/// An octet as two upper-case hexadecimal digits.
#[derive(Clone, Copy)]
pub struct HexOctet(pub u8);

impl fmt::Display for HexOctet {
    ghost output = { λ octet. Some (hex_octet_text octet.0) };

    #[tactic(auto, using(std::proofs::lemmas::Str::encode_ascii))]
    fn fmt<W: fmt::Write>(&self, f: &mut fmt::Formatter<W>) -> fmt::Result {
        write!(f, "{}{}", hex_digit(self.0 / 16), hex_digit(self.0 % 16))
    }
}

/// A frame as a dump shows it.
#[derive(Clone, Copy)]
pub struct DumpedFrame<'a> {
    pub frame: FrameLine,
    /// The octets of its packet zone.
    pub zone: u16,
    /// Its fields beside the M_PDU.
    pub parts: FrameParts<'a>,
    pub form: DumpForm,
}

impl fmt::Display for DumpedFrame<'_> {
    ghost output = { λ it. Some (frame_line it.form it.frame.header it.frame.pointer it.zone
        it.parts.insert.now it.parts.control.now it.parts.check.now) };

    fn fmt<W: fmt::Write>(&self, f: &mut fmt::Formatter<W>) -> fmt::Result {
        let DumpedFrame {
            frame,
            zone,
            parts,
            form,
        } = *self;
        match form {
            DumpForm::Short => write!(f, "{frame}"),
            DumpForm::Long => {
                let lane = lane_word(frame.header.virtual_channel);
                let cycle = cycle_word(frame.header.cycle);
                write!(f, "{frame}{lane}{cycle}{}", FrameWords(parts))
            }
            DumpForm::Fields => write!(f, "{}", FrameFieldLines { frame, zone, parts }),
        }
    }
}

/// The fields of a frame beside its M_PDU; no octets if it lacks one.
#[derive(Clone, Copy)]
pub struct FrameParts<'a> {
    /// The insert zone.
    pub insert: &'a [u8],
    /// The operational control field.
    pub control: &'a [u8],
    /// The frame error control field.
    pub check: &'a [u8],
}

/// The fields of a frame in a long line.
#[derive(Clone, Copy)]
struct FrameWords<'a>(FrameParts<'a>);

impl fmt::Display for FrameWords<'_> {
    ghost output = { λ it. Some (parts_text it.0.insert.now it.0.control.now it.0.check.now) };

    fn fmt<W: fmt::Write>(&self, f: &mut fmt::Formatter<W>) -> fmt::Result {
        let FrameParts {
            insert,
            control,
            check,
        } = self.0;
        let insert = PartWords(" insert ", insert);
        let control = PartWords(" control ", control);
        let check = PartWords(" check ", check);
        write!(f, "{insert}{control}{check}")
    }
}

/// Octets of a part in hexadecimal digits, after a word with spaces around it; nothing if there are
/// none.
#[derive(Clone, Copy)]
struct PartWords<'a>(&'static str, &'a [u8]);

impl fmt::Display for PartWords<'_> {
    ghost output = { λ it. Some (part_text it.0.now it.1.now) };

    fn fmt<W: fmt::Write>(&self, f: &mut fmt::Formatter<W>) -> fmt::Result {
        if self.1.len() == 0 {
            write!(f, "")
        } else {
            write!(f, "{}{}", self.0, HexOctets(self.1))
        }
    }
}

/// Returns the word for the lane of a virtual channel, with a space before it, if it is one that
/// scripts use, and stations that aren't set to others.
fn lane_word(channel: u8) -> &'static str
    ensures { result.now ≡ Rattle.cfdp_dump.specs.Spelled.Lines.lane_word channel }
{
    if channel == 5 || channel == 6 {
        " dir"
    } else if channel == 7 || channel == 8 {
        " data"
    } else {
        ""
    }
}

/// Returns the word for a frame whose count has 28 bits, with a space before it.
fn cycle_word(cycle: bool) -> &'static str
    ensures { result.now ≡ Rattle.cfdp_dump.specs.Spelled.Lines.cycle_word cycle }
{
    if cycle { " cycle" } else { "" }
}

/// A frame, with the first header pointer of its packet zone.
#[derive(Clone, Copy)]
pub struct FrameLine {
    pub header: FrameHeader,
    pub pointer: u16,
}

impl fmt::Display for FrameLine {
    ghost output = { λ line. Some (frame_text line.header line.pointer) };

    fn fmt<W: fmt::Write>(&self, f: &mut fmt::Formatter<W>) -> fmt::Result {
        let FrameHeader {
            spacecraft,
            virtual_channel,
            count,
            ..
        } = self.header;
        write!(
            f,
            "frame {spacecraft} {virtual_channel} {count} {}",
            self.pointer
        )
    }
}
