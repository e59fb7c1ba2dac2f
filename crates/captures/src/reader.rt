//! Captures, taken off the front of a file one record or block after the other.
ghost use Rattle.std.specs.Prelude.{◌≡◌, ◌<◌, ◌≤◌, ◌+◌, ℕ, List, length, IfOk, MatchOption, None};
ghost use Rattle.std.specs.Prelude.{◌++◌, ◌∷◌, [], IfErr, OnErr, OnOk, Some};
ghost use Rattle.std.specs.Option.{option_map};
ghost use Rattle.std.specs.Result.{result_err};
ghost use Rattle.captures.specs.Blocks.{block_text, interface_fault, interface_in, section_fault};
ghost use Rattle.captures.specs.Captures.{HasTaken, body_fault, item_of, start_of, state_after};
ghost use Rattle.captures.specs.Captures.{unread};
ghost use Rattle.captures.specs.Packets.{CaptureState, Captured, Faulty, ItemText, PassedOver};
ghost use Rattle.captures.specs.Packets.{item_text, packet_text};

use crate::block::{
    Block, SECTION, check_section, read_enhanced, read_interface, read_simple, take_block,
};
use crate::fault::CaptureFault;
use crate::order::{ByteOrder, number};
use crate::packet::{CapturedPacket, Interface};
use crate::record::{has_magic, take_header, take_record};
use std::alloc::{AllocError, Global};
use std::marker::Model;

/// The kind of a block that describes an interface.
const INTERFACE: u32 = 1;

/// The kind of a simple packet block.
const SIMPLE: u32 = 3;

/// The kind of an enhanced packet block.
const ENHANCED: u32 = 6;

/// What stands next in a capture.
#[derive(Clone, Copy, Debug, PartialEq, Eq)]
pub enum Next {
    /// The header of a pcap file.
    FileHeader,
    /// A packet record of a pcap file.
    Record,
    /// A block of a pcapng file.
    Block,
}

/// What can't be read, and where.
#[derive(Clone, Copy, Debug)]
pub struct PlacedFault {
    /// Why it can't be read.
    pub cause: CaptureFault,
    /// How many octets of the file there are from its first one on.
    pub left: usize,
}

/// What stands at the front of the rest of a file.
#[derive(Clone, Copy, Debug)]
pub enum Item<'a> {
    /// A packet that was captured.
    Packet(CapturedPacket<'a>),
    /// Something else, such as the description of an interface.
    Passed,
    /// What can't be read. Nothing after it is read.
    Faulty(PlacedFault),
}

/// What was read so far of a capture.
#[derive(Debug, Drop)]
pub struct Capture {
    next: Next,
    order: ByteOrder,
    interfaces: Vec<Interface>,
}

impl Model for Capture {
    ghost use Rattle.captures.specs.Packets.{CaptureState};

    ghost Value = { CaptureState };

    ghost view = { λ c. record {
      next = c.next;
      order = c.order;
      interfaces = c.interfaces.items;
    } };
}

impl Capture {
    /// Returns the capture that a file is; nothing of it was read. `None` if it begins neither
    /// with a magic number of pcap, in either order of octets, nor with the kind of a section
    /// header of pcapng.
    pub fn of(alloc: Global, file: &[u8]) -> Option<Capture>
        ensures { MatchOption result (start_of file.now ≡ None) (λ c. start_of file.now ≡ Some c) }
    {
        let (next, order) = beginning(file)?;
        Some(Capture {
            next,
            order,
            interfaces: Vec::new(alloc),
        })
    }

    /// Takes what stands at the front of the rest of the file, and returns what it is, and the rest
    /// after it.
    ///
    /// # Errors
    ///
    /// `AllocError` if there is no memory for an interface.
    pub fn take<'a>(&mut self, text: &'a [u8]) -> Result<(Item<'a>, &'a [u8]), AllocError>
        requires { 0 < length text.now }
        ensures taken { IfOk result (λ x. HasTaken self.old text.now (item_text x.0) self.new
            x.1.now) }
        ensures only { (item : ItemText) (after : CaptureState) (rest : List ℕ) →
            HasTaken self.old text.now item after rest → IfOk result (λ x. (item_text x.0 ≡ item)
            × (self.new ≡ after) × (x.1.now ≡ rest)) }
        ensures shorter { IfOk result (λ x. length x.1.now < length text.now) }
    {
        match self.next {
            Next::FileHeader => self.pass_header(text),
            Next::Record => Ok(self.read_record(text)),
            Next::Block => self.read_block(text),
        }
    }

    /// Takes the header of a file.
    ///
    /// # Errors
    ///
    /// `AllocError` if there is no memory for its interface.
    fn pass_header<'a>(&mut self, text: &'a [u8]) -> Result<(Item<'a>, &'a [u8]), AllocError>
        requires some { 0 < length text.now }
        requires next { self.old.next ≡ Next.FileHeader }
        ensures taken { IfOk result (λ x. HasTaken self.old text.now (item_text x.0) self.new
            x.1.now) }
        ensures shorter { IfOk result (λ x. length x.1.now < length text.now) }
    {
        match take_header(self.order, text) {
            Ok((interface, rest)) => {
                self.interfaces.clear();
                self.interfaces.push(interface)?;
                self.next = Next::Record;
                Ok((Item::Passed, rest))
            }
            Err(cause) => Ok(faulty(cause, text)),
        }
    }

    /// Takes a record.
    fn read_record<'a>(&self, text: &'a [u8]) -> (Item<'a>, &'a [u8])
        requires some { 0 < length text.now }
        requires next { self.now.next ≡ Next.Record }
        ensures taken { HasTaken self.now text.now (item_text result.0) self.now result.1.now }
        ensures shorter { length result.1.now < length text.now }
    {
        let link_type = match self.interfaces.first() {
            Some(interface) => interface.link_type,
            None => 0,
        };
        match take_record(self.order, link_type, text) {
            Ok((packet, rest)) => (Item::Packet(packet), rest),
            Err(cause) => faulty(cause, text),
        }
    }

    /// Takes a block.
    ///
    /// # Errors
    ///
    /// `AllocError` if there is no memory for an interface.
    fn read_block<'a>(&mut self, text: &'a [u8]) -> Result<(Item<'a>, &'a [u8]), AllocError>
        requires some { 0 < length text.now }
        requires next { self.old.next ≡ Next.Block }
        ensures taken { IfOk result (λ x. HasTaken self.old text.now (item_text x.0) self.new
            x.1.now) }
        ensures shorter { IfOk result (λ x. length x.1.now < length text.now) }
    {
        match take_block(self.order, text) {
            Ok((block, rest)) => match self.read_body(block)? {
                Ok(item) => Ok((item, rest)),
                Err(cause) => Ok(faulty(cause, text)),
            },
            Err(cause) => Ok(faulty(cause, text)),
        }
    }

    /// Reads what is in a block.
    ///
    /// # Errors
    ///
    /// `AllocError` if there is no memory for an interface; within that the fault of the body, if
    /// it has one.
    fn read_body<'a>(
        &mut self,
        block: Block<'a>,
    ) -> Result<Result<Item<'a>, CaptureFault>, AllocError>
        requires { self.old.next ≡ Next.Block }
        ensures found { IfOk result (λ read. IfOk read (λ item.
            (body_fault self.old (block_text block.entry) ≡ None)
            × (item_text item ≡ item_of self.old (block_text block.entry))
            × (self.new ≡ state_after self.old (block_text block.entry)))) }
        ensures refused { IfOk result (λ read. IfErr read (λ cause.
            (body_fault self.old (block_text block.entry) ≡ Some cause) × (self.new ≡ self.old))) }
    {
        let Block { order, kind, body } = block;
        match kind {
            SECTION => Ok(self.begin_section(order, body)),
            INTERFACE => self.add_interface(order, body),
            SIMPLE => Ok(packet_item(read_simple(order, &self.interfaces, body))),
            ENHANCED => Ok(packet_item(read_enhanced(order, &self.interfaces, body))),
            _ => Ok(Ok(Item::Passed)),
        }
    }

    /// Begins the section of this header.
    ///
    /// # Errors
    ///
    /// The fault of the header, if it has one.
    fn begin_section<'a>(
        &mut self,
        order: ByteOrder,
        body: &'a [u8],
    ) -> Result<Item<'a>, CaptureFault>
        requires { self.old.next ≡ Next.Block }
        ensures refused { result_err result ≡ section_fault order body.now }
        ensures begun { OnOk result (self.new ≡ unread Next.Block order) }
        ensures item { IfOk result (λ item. item_text item ≡ PassedOver) }
        ensures kept { OnErr result (self.new ≡ self.old) }
    {
        check_section(order, body)?;
        self.order = order;
        self.interfaces.clear();
        Ok(Item::Passed)
    }

    /// Adds the interface of this block.
    ///
    /// # Errors
    ///
    /// `AllocError` if there is no memory for it; within that the fault of the block, if it has
    /// one.
    fn add_interface<'a>(
        &mut self,
        order: ByteOrder,
        body: &'a [u8],
    ) -> Result<Result<Item<'a>, CaptureFault>, AllocError>
        ensures refused { IfOk result (λ read. result_err read ≡ interface_fault body.now) }
        ensures added { IfOk result (λ read. OnOk read (self.new ≡ record self.old {
          interfaces = self.old.interfaces ++ interface_in order body.now ∷ [];
        })) }
        ensures item { IfOk result (λ read. IfOk read (λ item. item_text item ≡ PassedOver)) }
        ensures kept { IfOk result (λ read. OnErr read (self.new ≡ self.old)) }
    {
        match read_interface(order, body) {
            Ok(interface) => {
                self.interfaces.push(interface)?;
                Ok(Ok(Item::Passed))
            }
            Err(cause) => Ok(Err(cause)),
        }
    }
}

/// Returns the item of a packet that was read.
fn packet_item<'a>(read: Result<CapturedPacket<'a>, CaptureFault>) -> Result<Item<'a>, CaptureFault>
    ensures found { IfOk read.entry (λ packet. IfOk result (λ item. item_text item
        ≡ Captured (packet_text packet))) }
    ensures refused { result_err result ≡ result_err read.entry }
{
    match read {
        Ok(packet) => Ok(Item::Packet(packet)),
        Err(cause) => Err(cause),
    }
}

/// Returns that the front of a text can't be read, and no rest.
fn faulty<'a>(cause: CaptureFault, text: &'a [u8]) -> (Item<'a>, &'a [u8])
    ensures item { item_text result.0 ≡ Faulty (record { cause = cause; left = length text.now }) }
    ensures rest { result.1.now ≡ [] }
{
    let left = text.len();
    (Item::Faulty(PlacedFault { cause, left }), &text[left..])
}

/// Returns how a file begins: what stands at its front, and the order of the octets of its numbers.
fn beginning(file: &[u8]) -> Option<(Next, ByteOrder)>
    ensures { option_map (λ x. unread x.0 x.1) result ≡ start_of file.now }
{
    if file.len() < 4 {
        None
    } else if has_magic(ByteOrder::BigEndian, file) {
        Some((Next::FileHeader, ByteOrder::BigEndian))
    } else if has_magic(ByteOrder::LittleEndian, file) {
        Some((Next::FileHeader, ByteOrder::LittleEndian))
    } else if number(ByteOrder::BigEndian, file, 0) == SECTION {
        Some((Next::Block, ByteOrder::BigEndian))
    } else {
        None
    }
}
