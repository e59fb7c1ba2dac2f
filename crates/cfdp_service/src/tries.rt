//! How often files were sent once more.
ghost use Rattle.std.specs.Prelude.{◌<◌, length, IfSome};

use std::alloc::Global;

/// How often the file of a name was sent once more.
#[derive(Drop)]
struct Tried {
    name: Vec<u8>,
    count: u32,
}

/// How often files were sent once more, by their names, as long as that may go on.
#[derive(Drop)]
pub struct Tries {
    tried: Vec<Tried>,
}

impl Tries {
    /// Returns an empty count.
    pub fn new(alloc: Global) -> Tries {
        Tries {
            tried: Vec::new(alloc),
        }
    }

    /// Returns how often this file was sent once more.
    pub fn count(&self, name: &[u8]) -> u32 {
        match self.place(name) {
            Some(place) => self.tried[place].count,
            None => 0,
        }
    }

    /// Counts that it is. If there is no memory, it isn't counted, and may be sent more often.
    pub fn counts(&mut self, alloc: Global, name: &[u8]) {
        if let Some(place) = self.place(name) {
            let tried = &mut self.tried[place];
            tried.count = tried.count.saturating_add(1);
        } else if let Ok(name) = Vec::from_slice(alloc, name) {
            let _ = self.tried.push(Tried { name, count: 1 });
        }
    }

    /// Forgets it, as its sending is over.
    pub fn forget(&mut self, name: &[u8]) {
        if let Some(place) = self.place(name) {
            let _ = self.tried.remove(place);
        }
    }

    /// Returns its index.
    fn place(&self, name: &[u8]) -> Option<usize>
        ensures { IfSome result (λ place. place < length self.now.tried.items) }
    {
        self.tried
            .iter()
            .position(|tried| tried.name.as_slice() == name)
    }
}
