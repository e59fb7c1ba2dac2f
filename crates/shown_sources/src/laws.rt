//! The law, the contract of a function that does nothing.
ghost use Rattle.std.specs.Prelude.{◌≡◌, ℕ, List, Result};
ghost use Rattle.cfdp_header.specs.Files.{FileMap};
ghost use Rattle.cfdp_header.specs.declared.value.TransactionId.{TransactionId};
ghost use Rattle.cfdp_entity.specs.declared.error.RequestError.{RequestError};
ghost use Rattle.cfdp_entity.specs.declared.request.Request.{Request};
ghost use Rattle.cfdp_entity.specs.Entity.{EntityState};
ghost use Rattle.cfdp_entity.specs.Forgetting.{ForgetsSome};
ghost use Rattle.cfdp_entity.specs.Putting.{Accepts, put_refusal};
ghost use Rattle.cfdp_entity.specs.Table.{TableState, Ticks};
ghost use Rattle.cfdp_store.specs.declared.stored.Stored.{Stored};
ghost use Rattle.cfdp_station.specs.Requests.{StationAnswers};
ghost use Rattle.cfdp_station.specs.Station.{StationState};
ghost use Rattle.cfdp_station.specs.Taking.{TakesFrame};
ghost use Rattle.cfdp_station.specs.Transmitting.{PollsOnce};
ghost use Rattle.cfdp_station.specs.declared.polled.Polled.{Polled};
ghost use Rattle.shown_sources.specs.Shown.{AreAsLong, ReadsAs, entity_sending, station_sending};
ghost use Rattle.shown_sources.specs.Shown.{table_sending};

/// Of the files that a station sends only two things count: how long each is, and which octets are
/// read of it. So a station does the same if it has other files that are as long, as if they stood:
/// a poll does, if the octets that it read are those that the other files have there; a put is
/// accepted, or refused by the same cause; and a frame that comes, a request, the time, and a
/// record that is discarded don't ask for the files at all. From then on, the other files are still
/// as long.
pub fn only_what_is_read_of_files_counts()
    ensures polls { (files : FileMap) (answer : Polled) (old new : StationState) →
        PollsOnce answer old new → AreAsLong old.entity.state.table.sources files
        → ReadsAs answer files old.entity.state new.entity.state
        → PollsOnce answer (station_sending files old) (station_sending files new) }
    ensures polled { (files : FileMap) (answer : Polled) (old new : StationState) →
        PollsOnce answer old new → AreAsLong old.entity.state.table.sources files
        → AreAsLong new.entity.state.table.sources files }
    ensures puts { (files : FileMap) (source destination : List ℕ) (id : TransactionId)
        (old new : EntityState) → Accepts source destination id old new
        → AreAsLong old.table.sources files
        → Accepts source destination id (entity_sending files old) (entity_sending files new)
        × AreAsLong new.table.sources files }
    ensures refused { (files : FileMap) (stored : Stored) (source destination : List ℕ)
        (e : EntityState) → AreAsLong e.table.sources files
        → put_refusal stored source destination (entity_sending files e)
        ≡ put_refusal stored source destination e }
    ensures frames { (files : FileMap) (frame : List ℕ) (old new : StationState) →
        TakesFrame frame old new
        → TakesFrame frame (station_sending files old) (station_sending files new)
        × (new.entity.state.table.sources ≡ old.entity.state.table.sources) }
    ensures requests { (files : FileMap) (c : Request) (id : TransactionId)
        (answer : Result (Unit {0}) RequestError) (old new : StationState) →
        StationAnswers c id answer old new
        → StationAnswers c id answer (station_sending files old) (station_sending files new)
        × (new.entity.state.table.sources ≡ old.entity.state.table.sources) }
    ensures ticks { (files : FileMap) (now : ℕ) (old new : TableState) → Ticks now old new
        → Ticks now (table_sending files old) (table_sending files new)
        × (new.sources ≡ old.sources) }
    ensures forgets { (files : FileMap) (old new : EntityState) → ForgetsSome old new
        → ForgetsSome (entity_sending files old) (entity_sending files new)
        × (new.table.sources ≡ old.table.sources) }
{}
