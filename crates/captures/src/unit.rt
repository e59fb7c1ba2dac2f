//! What a UDP datagram carries in a captured packet, over Ethernet, loopback or neither, and IPv4
//! or IPv6.
ghost use Rattle.std.specs.Option.{is_some};
ghost use Rattle.std.specs.Prelude.{◌≡◌, ◌≤◌, drop, length, unwrap_or, IfOk, IfSome};
ghost use Rattle.std.specs.Result.{result_err};
ghost use Rattle.captures.specs.Packets.{packet_text};
ghost use Rattle.captures.specs.Units as units;
ghost use Rattle.captures.specs.Units.{udp_fault, udp_payload, unit_fault, unit_in};

use crate::packet::CapturedPacket;
use cfd_bits::get;
use std::fmt;

/// The link type of Wireshark's upper PDUs.
const UPPER: u16 = 252;

/// What stands before an upper PDU that is one of CFDP: the tag of the dissector's name, and the
/// tag that ends the tags.
const UPPER_HEADER: [u8; 12] = [0, 12, 0, 4, b'c', b'f', b'd', b'p', 0, 0, 0, 0];

/// Why nothing is read in a captured packet.
#[derive(Clone, Copy, Debug, PartialEq, Eq)]
pub enum SkipCause {
    /// Fewer octets of it were captured than it had: these, and all of these.
    CutShort(usize, u32),
    /// Packets of its link type aren't read: this one.
    OtherLink(u16),
    /// It is no IP packet.
    NotIp,
    /// It is a fragment of an IP packet.
    Fragment,
    /// Its IP packet carries no UDP datagram: its protocol number, or the kind of the next header
    /// if it is IPv6.
    NotUdp(u8),
    /// A header says that there is more, or less, than there can be.
    Malformed,
}

impl fmt::Display for SkipCause {
    ghost use Rattle.std.specs.Prelude.{Some};
    ghost use Rattle.captures.specs.Texts.{passed_text};

    ghost output = { λ passed. Some (passed_text passed) };

    fn fmt<W: fmt::Write>(&self, f: &mut fmt::Formatter<W>) -> fmt::Result {
        match self {
            SkipCause::CutShort(captured, all) => {
                write!(f, "error 25 SnapLength {captured} octets of {all}")
            }
            SkipCause::OtherLink(link_type) => write!(f, "error 26 OtherLink {link_type}"),
            SkipCause::NotIp => f.write_str("error 27 NotIp"),
            SkipCause::Fragment => f.write_str("error 28 Fragment"),
            SkipCause::NotUdp(protocol) => write!(f, "error 29 NotUdp {protocol}"),
            SkipCause::Malformed => f.write_str("error 30 Malformed"),
        }
    }
}

/// Returns what is captured as it is if the link type is 147 to 162, which are free for any use;
/// the PDU in an upper PDU of CFDP (252); and otherwise the payload of a packet's UDP datagram.
///
/// The link types that are read are Ethernet (1), loopback (0, 108), IP without a link header (101,
/// 12, 14), and Linux's cooked captures (113, 276).
///
/// # Errors
///
/// The first of `SkipCause` that holds, from the outermost header on.
pub fn unit_of(packet: CapturedPacket<'_>) -> Result<&[u8], SkipCause>
    ensures found { IfOk result (λ unit. unit.now ≡ unit_in (packet_text packet.entry)) }
    ensures refused { result_err result ≡ unit_fault (packet_text packet.entry) }
{
    let octets = packet.octets;
    if octets.len() < packet.original as usize {
        return Err(SkipCause::CutShort(octets.len(), packet.original));
    }
    if is_free(packet.link_type) {
        return Ok(octets);
    }
    match upper_pdu(packet.link_type, octets) {
        Some(pdu) => Ok(pdu),
        None => udp_payload(packet.link_type, octets),
    }
}

/// Returns the PDU after its header if the packet is an upper PDU of CFDP.
fn upper_pdu(link_type: u16, octets: &[u8]) -> Option<&[u8]>
    ensures found { IfSome result (λ pdu. pdu.now ≡ drop 12 octets.now) }
    ensures upper { is_some result ≡ units.is_upper link_type octets.now }
{
    if link_type == UPPER {
        octets.strip_prefix(UPPER_HEADER.as_slice())
    } else {
        None
    }
}

/// Returns the payload of the UDP datagram in the octets of a packet.
///
/// # Errors
///
/// The first of `SkipCause` that holds, except `CutShort`.
#[tactic(auto, unfolding(crate::specs::Units::udp_payload, crate::specs::Units::udp_fault))]
fn udp_payload(link_type: u16, octets: &[u8]) -> Result<&[u8], SkipCause>
    ensures found { IfOk result (λ unit. unit.now ≡ units.udp_payload link_type octets.now) }
    ensures refused { result_err result ≡ units.udp_fault link_type octets.now }
{
    let network = network_packet(link_type, octets)?;
    let datagram = datagram_of(network)?;
    payload_of(datagram)
}

/// Returns `true` if a link type is free for any use.
fn is_free(link_type: u16) -> bool
    ensures { result ≡ units.is_free link_type }
{
    147 <= link_type && link_type <= 162
}

/// Returns the IP packet after the link header.
///
/// # Errors
///
/// `OtherLink`, `Malformed` or `NotIp`: the first that holds, if one does.
fn network_packet(link_type: u16, octets: &[u8]) -> Result<&[u8], SkipCause>
    ensures found { IfOk result (λ network. network.now
        ≡ units.network_in link_type octets.now) }
    ensures refused { result_err result ≡ units.link_fault link_type octets.now }
{
    let Some(header) = link_header(link_type) else {
        return Err(SkipCause::OtherLink(link_type));
    };
    if octets.len() < header {
        return Err(SkipCause::Malformed);
    }
    if !says_ip(link_type, octets) {
        return Err(SkipCause::NotIp);
    }
    let (_, network) = octets.split_at(header);
    Ok(network)
}

/// Returns the number of octets of a link header, if the link type is read.
fn link_header(link_type: u16) -> Option<usize>
    ensures { result ≡ units.link_header link_type }
{
    match link_type {
        0 => Some(4),
        1 => Some(14),
        12 => Some(0),
        14 => Some(0),
        101 => Some(0),
        108 => Some(4),
        113 => Some(16),
        276 => Some(20),
        _ => None,
    }
}

/// Returns `true` if a link header says that an IP packet is after it.
fn says_ip(link_type: u16, octets: &[u8]) -> bool
    requires { unwrap_or (units.link_header link_type) 0 ≤ length octets.now }
    ensures { result ≡ units.says_ip link_type octets.now }
{
    match link_type {
        1 => is_ip_type(get(octets, 96, 16)),
        113 => is_ip_type(get(octets, 112, 16)),
        276 => is_ip_type(get(octets, 0, 16)),
        _ => true,
    }
}

/// Returns `true` if an EtherType is IPv4's or IPv6's.
fn is_ip_type(ether_type: u64) -> bool
    ensures { result ≡ units.is_ip_type ether_type }
{
    ether_type == 0x0800 || ether_type == 0x86DD
}

/// Returns the UDP datagram in an IP packet.
///
/// # Errors
///
/// `NotIp` if its version is neither 4 nor 6, or the fault of the packet.
fn datagram_of(network: &[u8]) -> Result<&[u8], SkipCause>
    ensures found { IfOk result (λ datagram. datagram.now ≡ units.datagram_in network.now) }
    ensures refused { result_err result ≡ units.network_fault network.now }
{
    if network.is_empty() {
        return Err(SkipCause::NotIp);
    }
    match get(network, 0, 4) {
        4 => datagram_in_four(network),
        6 => datagram_in_six(network),
        _ => Err(SkipCause::NotIp),
    }
}

/// Returns the UDP datagram in an IPv4 packet (RFC 791, 3.1).
///
/// # Errors
///
/// `Malformed`, `Fragment` or `NotUdp`: the first that holds, if one does.
fn datagram_in_four(network: &[u8]) -> Result<&[u8], SkipCause>
    ensures found { IfOk result (λ datagram. datagram.now ≡ units.datagram_in_four network.now) }
    ensures refused { result_err result ≡ units.four_fault network.now }
{
    if network.len() < 20 {
        return Err(SkipCause::Malformed);
    }
    let header = 4 * get(network, 4, 4) as usize;
    let total = get(network, 16, 16) as usize;
    if header < 20 || total < header || network.len() < total {
        return Err(SkipCause::Malformed);
    }
    if get(network, 50, 1) != 0 || get(network, 51, 13) != 0 {
        return Err(SkipCause::Fragment);
    }
    let protocol = get(network, 72, 8);
    if protocol != 17 {
        return Err(SkipCause::NotUdp(protocol as u8));
    }
    Ok(&network[header..total])
}

/// Returns the UDP datagram in an IPv6 packet without extension headers (RFC 8200, 3).
///
/// # Errors
///
/// `Malformed`, `Fragment` or `NotUdp`: the first that holds, if one does.
fn datagram_in_six(network: &[u8]) -> Result<&[u8], SkipCause>
    ensures found { IfOk result (λ datagram. datagram.now ≡ units.datagram_in_six network.now) }
    ensures refused { result_err result ≡ units.six_fault network.now }
{
    if network.len() < 40 {
        return Err(SkipCause::Malformed);
    }
    let (_, behind) = network.split_at(40);
    let len = get(network, 32, 16) as usize;
    if behind.len() < len {
        return Err(SkipCause::Malformed);
    }
    let next = get(network, 48, 8);
    if next == 44 {
        return Err(SkipCause::Fragment);
    }
    if next != 17 {
        return Err(SkipCause::NotUdp(next as u8));
    }
    let (datagram, _) = behind.split_at(len);
    Ok(datagram)
}

/// Returns the payload of a UDP datagram (RFC 768).
///
/// # Errors
///
/// `Malformed` if its length doesn't fit.
fn payload_of(datagram: &[u8]) -> Result<&[u8], SkipCause>
    ensures found { IfOk result (λ unit. unit.now ≡ units.payload_in datagram.now) }
    ensures refused { result_err result ≡ units.datagram_fault datagram.now }
{
    if datagram.len() < 8 {
        return Err(SkipCause::Malformed);
    }
    let len = get(datagram, 32, 16) as usize;
    if len < 8 || datagram.len() < len {
        return Err(SkipCause::Malformed);
    }
    Ok(&datagram[8..len])
}
