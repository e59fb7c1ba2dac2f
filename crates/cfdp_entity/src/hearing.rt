// What an entity hears.
ghost use Rattle.std.specs.Prelude.{◌≡◌, ◌<◌, length, IfErr, OnOk, OnErr};
ghost use Rattle.cfdp_directives.specs.Pdu.Addressing.{addressing_of, FitsAddressing};
ghost use Rattle.cfdp_directives.specs.Pdu.Content.{view};
ghost use Rattle.cfdp_directives.specs.Pdu.Faults.{pdu_fault};
ghost use Rattle.cfdp_entity.specs.declared.error.EntityDrop.TheVariants as drops;
ghost use Rattle.cfdp_entity.specs.declared.route.Route.TheVariants as routes;
ghost use Rattle.cfdp_entity.specs.Hearing as hearings;
ghost use Rattle.cfdp_entity.specs.Hearing.{MayOpen, StepsAt, LacksAt, OpensOne, Takes, DropsBy};
ghost use Rattle.cfdp_entity.specs.Hearing.{FindsNoMemory, HearsOctets, DropsOctets, queued};

use crate::entity::{Entity, MOST_STRAYS};
use crate::error::EntityDrop;
use crate::route::Route;
use crate::stray::Stray;
use crate::table::MOST_RECORDS;
use cfdp_directives::{
    Acknowledged, Addressing, Pdu, a_pdu_read_can_be_answered, decode, direction_fits, is_for,
};
use cfdp_header::Header;
use cfdp_store::{Inbox, Outbox};
use std::alloc::AllocError;

// Returns `true` if a PDU is Metadata with an empty name.
fn names_no_file(pdu: &Pdu<'_>) -> bool
    ensures { result ≡ hearings.names_no_file (view pdu.now) }
{
    match pdu {
        Pdu::Metadata {
            source,
            destination,
            ..
        } => source.is_empty() || destination.is_empty(),
        _ => false,
    }
}

impl<O: Outbox, I: Inbox> Entity<O, I> {
    /// Hears a PDU, which must be all the octets. It makes one step of its transaction's record.
    /// If the transaction has no record, Metadata, file data and an EOF open one, and a Finished
    /// is answered. Answers are written in the widths of the PDU that opened the
    /// record, or of that Finished. They have the large file flag if a PDU that a receiver heard
    /// had it, or if that Finished has it.
    ///
    /// # Errors
    ///
    /// The first that holds, in this order: `Pdu`, `WrongDirection`, `NotForUs`, `NoFile`,
    /// `Unknown`, `TableFull`, `NoMemory`. It is counted by its number, and nothing else changes,
    /// except for two things if there was no memory: a NAK may have asked for a prefix of its
    /// ranges, and file data of a transaction with a record may have staged octets at offsets that
    /// don't count as held. No call of a store failed then.
    pub fn receive(&mut self, pdu: &[u8]) -> Result<(), EntityDrop>
        ensures heard { OnOk result (HearsOctets pdu.now self.old self.new) }
        ensures dropped { IfErr result (λ by. DropsOctets (pdu_fault pdu.now) pdu.now by self.old
            self.new) }
    {
        match decode(pdu) {
            Ok((header, pdu)) => {
                a_pdu_read_can_be_answered();
                self.hear_pdu(&header, &pdu)
            }
            Err(e) => {
                let drop = EntityDrop::Pdu(e);
                self.count(drop);
                Err(drop)
            }
        }
    }

    fn hear_pdu(&mut self, header: &Header, pdu: &Pdu<'_>) -> Result<(), EntityDrop>
        requires { FitsAddressing (addressing_of header.now) }
        ensures heard { OnOk result (Takes (hearings.route header.now (view pdu.now)
            self.old.state) header.now (view pdu.now) self.old self.new) }
        ensures dropped { IfErr result (λ by. DropsBy (hearings.route header.now (view pdu.now)
            self.old.state) by (view pdu.now) self.old self.new) }
    {
        match self.route(header, pdu) {
            Route::Drops(drop) => {
                self.count(drop);
                Err(drop)
            }
            Route::Steps(place) => self.hear_at(place, header.large, pdu),
            Route::Opens => self.hear_first(Addressing::of(header), header.large, pdu),
            Route::Queues(stray) => {
                self.queue(stray);
                Ok(())
            }
            Route::Passes => Ok(()),
        }
    }

    // Returns where a PDU goes.
    fn route(&self, header: &Header, pdu: &Pdu<'_>) -> Route
        requires { FitsAddressing (addressing_of header.now) }
        ensures { result ≡ hearings.route header.now (view pdu.now) self.now.state }
    {
        if !direction_fits(header, pdu) {
            return Route::Drops(EntityDrop::WrongDirection);
        }
        if !is_for(self.config.entity, self.config.peer, header) {
            return Route::Drops(EntityDrop::NotForUs);
        }
        if names_no_file(pdu) {
            return Route::Drops(EntityDrop::NoFile);
        }
        match self.table.place_of(header.id) {
            Some(place) => Route::Steps(place),
            None => {
                if self.forgotten.contains(header.id) {
                    self.route_over(header, pdu)
                } else {
                    self.route_new(header, pdu)
                }
            }
        }
    }

    // Returns where a PDU goes if its transaction was discarded.
    fn route_over(&self, header: &Header, pdu: &Pdu<'_>) -> Route
        requires { FitsAddressing (addressing_of header.now) }
        ensures { result ≡ hearings.route_over header.now (view pdu.now) self.now.state }
    {
        match pdu {
            Pdu::Eof { condition, .. } => {
                self.route_stray(Stray::over(header, Acknowledged::Eof, *condition))
            }
            Pdu::Finished { condition, .. } => {
                self.route_stray(Stray::over(header, Acknowledged::Finished, *condition))
            }
            _ => Route::Passes,
        }
    }

    // Returns where a PDU goes if it has no record.
    fn route_new(&self, header: &Header, pdu: &Pdu<'_>) -> Route
        requires { FitsAddressing (addressing_of header.now) }
        ensures { result ≡ hearings.route_new header.now (view pdu.now) self.now.state }
    {
        match pdu {
            Pdu::Metadata { .. } | Pdu::FileData { .. } | Pdu::Eof { .. } => self.route_to_open(),
            Pdu::Finished { condition, .. } => self.route_stray(Stray::of(header, *condition)),
            _ => Route::Drops(EntityDrop::Unknown),
        }
    }

    fn route_to_open(&self) -> Route
        ensures { result ≡ hearings.opens_record self.now.state }
    {
        if self.table.len() < MOST_RECORDS {
            Route::Opens
        } else {
            Route::Drops(EntityDrop::TableFull)
        }
    }

    fn route_stray(&self, stray: Stray) -> Route
        ensures { result ≡ hearings.queues stray self.now.state }
    {
        if self.strays.len() < MOST_STRAYS {
            Route::Queues(stray)
        } else {
            Route::Drops(EntityDrop::TableFull)
        }
    }

    // Lets the record at an index hear a PDU, with its large file flag.
    fn hear_at(&mut self, place: usize, large: bool, pdu: &Pdu<'_>) -> Result<(), EntityDrop>
        ensures heard { OnOk result (StepsAt place large (view pdu.now) self.old self.new) }
        ensures dropped { IfErr result (λ by. (by ≡ drops.NoMemory)
            × FindsNoMemory place (view pdu.now) self.old self.new) }
    {
        match self.step_at(place, large, pdu) {
            Ok(()) => Ok(()),
            Err(_) => {
                self.count(EntityDrop::NoMemory);
                Err(EntityDrop::NoMemory)
            }
        }
    }

    fn step_at(&mut self, place: usize, large: bool, pdu: &Pdu<'_>) -> Result<(), AllocError>
        ensures steps { OnOk result (StepsAt place large (view pdu.now) self.old self.new) }
        ensures lacks { OnErr result (LacksAt place (view pdu.now) self.old self.new) }
    {
        self.table.reserve(3)?;
        self.table.hear(place, large, pdu)?;
        Ok(())
    }

    // Opens a record by a PDU, which the record hears, with its large file flag.
    fn hear_first(
        &mut self,
        addressing: Addressing,
        large: bool,
        pdu: &Pdu<'_>,
    ) -> Result<(), EntityDrop>
        requires { MayOpen addressing self.old.state }
        ensures heard { OnOk result (OpensOne addressing large (view pdu.now) self.old self.new) }
        ensures dropped { IfErr result (λ by. DropsBy routes.Opens by (view pdu.now) self.old
            self.new) }
    {
        match self.open(addressing, large, pdu) {
            Ok(()) => Ok(()),
            Err(_) => {
                self.count(EntityDrop::NoMemory);
                Err(EntityDrop::NoMemory)
            }
        }
    }

    fn open(&mut self, addressing: Addressing, large: bool, pdu: &Pdu<'_>) -> Result<(), AllocError>
        requires { MayOpen addressing self.old.state }
        ensures opens { OnOk result (OpensOne addressing large (view pdu.now) self.old self.new) }
        ensures err { OnErr result (self.new ≡ self.old) }
    {
        self.table.open(addressing, large, pdu)?;
        Ok(())
    }

    // Answers a Finished of no record.
    fn queue(&mut self, stray: Stray)
        requires { length self.old.state.strays < 64 }
        ensures { self.new ≡ record self.old { state = queued stray self.old.state } }
    {
        let _ = self.strays.push_back(stray);
    }
}
