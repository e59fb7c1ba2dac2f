// The names of the file that a sender sends.
ghost use Rattle.std.specs.Prelude.{◌≡◌, true, false, IfSome, IsSome};

use cfdp_directives::Octets;
use ghost_list::GhostList;
use std::marker::Model;

/// The names of a file at both ends. A closed sender needs them no more, and memory releases them,
/// while clauses see them for good.
#[derive(Debug, Drop)]
pub(crate) struct Names {
    source: GhostList<u8>,
    destination: GhostList<u8>,
    held: Option<Held>,
}

// The names in memory.
#[derive(Debug, Drop)]
struct Held {
    source: Octets,
    destination: Octets,
}

impl Model for Names {
    ghost use Rattle.std.specs.Prelude.{◌≡◌, is_some, IfSome};
    ghost use Rattle.cfdp_sender.specs.Names.{NamesState};

    ghost Value = { NamesState };

    ghost view = { λ n. record {
      source = n.source;
      destination = n.destination;
      kept = is_some n.held;
    } };

    ghost invariant = { λ n. IfSome n.held
        (λ h. (h.source ≡ n.source) × (h.destination ≡ n.destination)) };
}

impl Names {
    /// Returns these names, which are kept.
    pub(crate) fn new(source: Octets, destination: Octets) -> Self
        ensures { result ≡ record { source = source; destination = destination; kept = true } }
    {
        Names {
            source: GhostList::of(source.as_slice()),
            destination: GhostList::of(destination.as_slice()),
            held: Some(Held {
                source,
                destination,
            }),
        }
    }

    /// Releases the names.
    pub(crate) fn let_go(&mut self)
        ensures { self.new ≡ record self.old { kept = false } }
    {
        self.held = None;
    }

    /// Returns the name at this end, while it is kept.
    pub(crate) fn source(&self) -> &[u8]
        ensures { self.now.kept ≡ true → result.now ≡ self.now.source }
    {
        match &self.held {
            Some(held) => held.source.as_slice(),
            None => &[],
        }
    }

    /// Returns the name at the receiver, while it is kept.
    pub(crate) fn destination(&self) -> &[u8]
        ensures { self.now.kept ≡ true → result.now ≡ self.now.destination }
    {
        match &self.held {
            Some(held) => held.destination.as_slice(),
            None => &[],
        }
    }

    /// Returns the name at this end and the name at the receiver, while they are kept.
    pub(crate) fn both(&self) -> Option<(&[u8], &[u8])>
        ensures source { IfSome result (λ names. names.0.now ≡ self.now.source) }
        ensures destination { IfSome result (λ names. names.1.now ≡ self.now.destination) }
        ensures some { self.now.kept ≡ true → IsSome result }
    {
        match &self.held {
            Some(held) => Some((held.source.as_slice(), held.destination.as_slice())),
            None => None,
        }
    }
}
