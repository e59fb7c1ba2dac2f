ghost use Rattle.std.specs.Prelude.{◌≡◌, drop, length, get_or, IfOk, MatchOption, None};
ghost use Rattle.cfdp_timers.specs.ButInactivity.{OnlyInactivity, IsLeastOther};
ghost use Rattle.cfdp_entity.specs.Config.{IsConfig};
ghost use Rattle.cfdp_entity.specs.Errors.{drop_number};
ghost use Rattle.cfdp_entity.specs.Entity.{entity_standing, first_entity, phase_told, dropped};
ghost use Rattle.cfdp_entity.specs.Entity.{progress_told};

use crate::config::EntityConfig;
use crate::error::EntityDrop;
use crate::sent::SentPdus;
use crate::stray::Stray;
use crate::table::Table;
use cfdp_directives::{Indication, Phase};
use cfdp_extents::Forgotten;
use cfdp_header::TransactionId;
use cfdp_store::{Inbox, Outbox};
use circular_buffer::HeapCircularBuffer;
use std::alloc::{AllocError, Global};
use std::marker::Model;
use valid_config::Valid;

/// The most stray acknowledgements that wait.
pub(crate) const MOST_STRAYS: usize = 64;

/// An entity of CFDP, class 2 (CCSDS 727.0-B-5): it sends files of its outbox to its peer, and
/// publishes in its inbox the files that its peer sends.
///
/// PDUs are given to it by `receive` and taken from it by `poll`; `tick` gives it the time, and
/// must be called before a timer can fire. It has room for 4,096 records. It keeps closed ones, and
/// all that it indicated, until its user discards them: by `forget`, `forget_closed`,
/// `next_indication` and `forget_indications`.
#[derive(Drop)]
pub struct Entity<O: Outbox, I: Inbox> {
    pub(crate) alloc: Global,
    pub(crate) config: EntityConfig,
    pub(crate) table: Table<O, I>,
    pub(crate) strays: HeapCircularBuffer<Stray>,
    // The index after the record served last.
    pub(crate) cursor: usize,
    // The number of the next put; none if the last of eight octets is used.
    pub(crate) next: Option<u64>,
    // By their number, of 1 to 17.
    drops: [u64; 18],
    pub(crate) sent: SentPdus,
    // The transactions that were discarded.
    pub(crate) forgotten: Forgotten,
}

impl<O: Outbox, I: Inbox> Model for Entity<O, I> {
    ghost use Rattle.std.specs.Prelude.{◌≡◌};
    ghost use Rattle.cfdp_entity.specs.Coded.{state_codes};
    ghost use Rattle.cfdp_entity.specs.Config.{IsConfig};
    ghost use Rattle.cfdp_entity.specs.Entity.{Counted, AreFree, AreUnforgotten, next_of};

    ghost Value = { Counted };

    ghost coded = { Prim.hlevel (state_codes) };

    ghost view = { λ e. record {
      state = record {
        table = e.table.state;
        strays = e.strays.items;
        cursor = e.cursor;
        next = next_of e.next;
        drops = e.drops;
        sent = e.sent;
        config = e.config;
        forgotten = e.forgotten;
      };
      inbox_failures = e.table.inbox_failures;
      outbox_failures = e.table.outbox_failures;
    } };

    ghost invariant = { λ e. IsConfig e.config × (e.strays.capacity ≡ 64)
        × AreFree e.config.entity (next_of e.next) e.table.state.records
        × AreUnforgotten e.config.entity (next_of e.next) e.forgotten };
}

impl<O: Outbox, I: Inbox> Entity<O, I> {
    /// Returns an entity without records, over its two stores.
    ///
    /// # Errors
    ///
    /// `AllocError` if there is no memory for it.
    pub fn new(
        alloc: Global,
        config: Valid<EntityConfig>,
        outbox: O,
        inbox: I,
    ) -> Result<Self, AllocError>
        ensures state { IfOk result (λ e. e.state ≡ entity_standing (O.stands outbox)
            (first_entity (O.files outbox) (I.published inbox) config)) }
        ensures inbox_failures { IfOk result (λ e. e.inbox_failures ≡ I.failures inbox) }
        ensures outbox_failures { IfOk result (λ e. e.outbox_failures ≡ O.failures outbox) }
    {
        let config = config.get();
        let strays = HeapCircularBuffer::with_capacity(alloc, MOST_STRAYS)?;
        let next = Some(config.first_number);
        let table = Table::new(alloc, outbox, inbox, config.policy)?;
        Ok(Entity {
            alloc,
            config,
            table,
            strays,
            cursor: 0,
            next,
            drops: [0; 18],
            sent: SentPdus::none(),
            forgotten: Forgotten::new(alloc),
        })
    }

    /// Returns how far a transaction has come; `None` if it has no record here.
    pub fn phase(&self, id: TransactionId) -> Option<Phase>
        ensures { result ≡ phase_told id self.now.state.table }
    {
        match self.table.place_of(id) {
            Some(place) => self.table.phase_at(place),
            None => None,
        }
    }

    /// Returns the offset up to which octets of a transaction's file were sent by this entity, even
    /// if they didn't come, or have come to it, even if some are missing: what a Keep Alive says
    /// (CCSDS 727.0-B-5, 5.2.8). `None` if the transaction has no record here.
    pub fn progress(&self, id: TransactionId) -> Option<u64>
        ensures { result ≡ progress_told id self.now.state.table }
    {
        match self.table.place_of(id) {
            Some(place) => self.table.progress_at(place),
            None => None,
        }
    }

    /// Returns how often `receive` dropped a PDU by this cause. The count stays at the greatest
    /// `u64`.
    pub fn drops(&self, by: EntityDrop) -> u64
        ensures count { result ≡ get_or self.now.state.drops (drop_number by) 0 }
        ensures kinds { length self.now.state.drops ≡ 18 }
    {
        match self.drops.get(usize::from(by.number())) {
            Some(count) => *count,
            None => 0,
        }
    }

    /// Returns how many PDUs `poll` gave, by what they are.
    pub fn sent(&self) -> SentPdus
        ensures { result ≡ self.now.state.sent }
    {
        self.sent
    }

    /// Returns the earliest deadline of the armed timers except those of kind Inactivity, in units
    /// of the clock of `tick`; `None` if no other is armed. `next_timeout` counts all timers.
    pub fn next_deadline(&self) -> Option<u64>
        ensures { MatchOption result (OnlyInactivity self.now.state.table.armed)
            (λ deadline. IsLeastOther self.now.state.table.armed deadline) }
    {
        self.table.next_deadline()
    }

    /// Returns what was indicated, in order, except for the first ones that were discarded.
    pub fn indications(&self) -> &[Indication]
        ensures { result.now ≡ drop self.now.state.table.gone self.now.state.table.told }
    {
        self.table.told()
    }

    /// Borrows the outbox.
    pub fn outbox(&self) -> &O
        ensures files { O.files result.now ≡ self.now.state.table.sources }
        ensures stands { O.stands result.now ≡ self.now.state.table.stands }
        ensures failures { O.failures result.now ≡ self.now.outbox_failures }
    {
        self.table.outbox()
    }

    /// Borrows the inbox.
    pub fn inbox(&self) -> &I
        ensures published { I.published result.now ≡ self.now.state.table.files }
        ensures failures { I.failures result.now ≡ self.now.inbox_failures }
    {
        self.table.inbox()
    }

    pub(crate) fn count(&mut self, drop: EntityDrop)
        ensures counted { self.new ≡ record self.old { state = dropped drop self.old.state } }
    {
        let place = usize::from(drop.number());
        self.drops[place] = self.drops[place].saturating_add(1);
    }
}
