// What a user asks of a transaction, and the time.
ghost use Rattle.std.specs.Prelude.{◌≡◌, ◌≤◌, max, OnOk, OnErr};
ghost use Rattle.cfdp_store.specs.Chains.{Raises};
ghost use Rattle.cfdp_timers.specs.Due.{due_count};
ghost use Rattle.cfdp_entity.specs.Entity.{with_table};
ghost use Rattle.cfdp_entity.specs.Requests.{AnswersRequest, RequestsAt};
ghost use Rattle.cfdp_entity.specs.Storing.{AsksToTick};
ghost use Rattle.cfdp_entity.specs.Table.{Ticks};
ghost use Rattle.cfdp_entity.specs.declared.request.Request.TheVariants as requests;

use crate::entity::Entity;
use crate::error::RequestError;
use crate::request::Request;
use cfdp_header::TransactionId;
use cfdp_store::{Inbox, Outbox};
use std::alloc::AllocError;

impl<O: Outbox, I: Inbox> Entity<O, I> {
    /// Does what is asked of a transaction: what [`cancel`](Self::cancel),
    /// [`suspend`](Self::suspend), [`resume`](Self::resume) or [`prompt`](Self::prompt) does.
    ///
    /// # Errors
    ///
    /// The first cause that holds, if one does, in the order of [`RequestError`]. All is then as it
    /// was.
    pub fn request(&mut self, id: TransactionId, request: Request) -> Result<(), RequestError>
        ensures { AnswersRequest request id result self.old self.new }
    {
        let Some(place) = self.table.place_of(id) else {
            return Err(RequestError::Unknown);
        };
        if let Some(refusal) = self.table.refusal_at(place, request) {
            return Err(refusal);
        }
        match self.request_at(place, request) {
            Ok(()) => Ok(()),
            Err(_) => Err(RequestError::NoMemory),
        }
    }

    /// Gives up a transaction that is sent or received, and says so to the other entity.
    ///
    /// # Errors
    ///
    /// The first that holds, in this order: `Unknown`, `AlreadyClosed`, `NoMemory`. All is then as
    /// it was.
    pub fn cancel(&mut self, id: TransactionId) -> Result<(), RequestError>
        ensures { AnswersRequest requests.Cancel id result self.old self.new }
    {
        self.request(id, Request::Cancel)
    }

    /// Suspends a transaction that is sent or received: nothing of it is sent, and no time runs for
    /// it, until it is resumed.
    ///
    /// # Errors
    ///
    /// The first that holds, in this order: `Unknown`, `AlreadyClosed`, `AlreadySo` if it is
    /// suspended, `NoMemory`. All is then as it was.
    pub fn suspend(&mut self, id: TransactionId) -> Result<(), RequestError>
        ensures { AnswersRequest requests.Suspend id result self.old self.new }
    {
        self.request(id, Request::Suspend)
    }

    /// Lets a suspended transaction go on.
    ///
    /// # Errors
    ///
    /// The first that holds, in this order: `Unknown`, `AlreadyClosed`, `AlreadySo` if it isn't
    /// suspended, `NoMemory`. All is then as it was.
    pub fn resume(&mut self, id: TransactionId) -> Result<(), RequestError>
        ensures { AnswersRequest requests.Resume id result self.old self.new }
    {
        self.request(id, Request::Resume)
    }

    /// Asks the receiver of a file that is sent for a Keep Alive if `keep_alive` is set, otherwise
    /// for a NAK.
    ///
    /// # Errors
    ///
    /// The first that holds, in this order: `Unknown`, `WrongSide` if this entity is the file's
    /// receiver, `AlreadyClosed`, `AlreadySo` if a Prompt is due already, `NoMemory`. All is
    /// then as it was.
    pub fn prompt(&mut self, id: TransactionId, keep_alive: bool) -> Result<(), RequestError>
        ensures { AnswersRequest (requests.Prompt keep_alive) id result self.old self.new }
    {
        self.request(id, Request::Prompt { keep_alive })
    }

    /// Notes the time, in any unit that the durations of the policy have. If it is earlier than the
    /// last, it counts as the last. The timers that are due fire in their order, each once; if such
    /// a step arms one, it fires at a later tick.
    ///
    /// # Errors
    ///
    /// `AllocError` if a timer is due, but there is no memory for what is indicated. All is then
    /// as it was, the time too.
    pub fn tick(&mut self, now: u64) -> Result<(), AllocError>
        ensures ticked { OnOk result (Ticks now self.old.state.table self.new.state.table) }
        ensures raises { OnOk result (AsksToTick Raises now self.old.state.table
            self.old.inbox_failures self.new.inbox_failures) }
        ensures table { self.new.state ≡ with_table self.old.state self.new.state.table }
        ensures err { OnErr result (self.new ≡ self.old) }
        ensures lacks { OnErr result (1 ≤ due_count self.old.state.table.armed
            (max self.old.state.table.now now)) }
        ensures grows { self.old.inbox_failures ≤ self.new.inbox_failures }
        ensures outbox { self.new.outbox_failures ≡ self.old.outbox_failures }
    {
        self.table.tick(now)
    }

    // What is asked of the transaction whose record is at an index.
    fn request_at(&mut self, place: usize, request: Request) -> Result<(), AllocError>
        ensures asked { OnOk result (RequestsAt place request self.old self.new) }
        ensures err { OnErr result (self.new ≡ self.old) }
    {
        self.table.reserve(3)?;
        self.table.request(place, request);
        Ok(())
    }
}
