//! A client that keeps what it is told.
ghost use Rattle.std.specs.Prelude.{◌-◌, vec_capacity, vec_len};

use dev_types::{Bytes, Client, Handle, NoMemory, Notice, Status};
use std::alloc::Global;

/// A client that keeps what it is told, in order.
#[derive(Drop)]
pub struct Listener {
    pub heard: Vec<Notice>,
}

impl Client for Listener {
    ghost notices = { λ l. l.heard.items };

    ghost spare = { λ l. vec_capacity l.heard - vec_len l.heard };

    fn reserve(&mut self, _alloc: Global, n: u32) -> Result<(), NoMemory> {
        Ok(self.heard.reserve(n as usize)?)
    }

    fn deleted(&mut self, source: Handle, user: u64, bytes: Bytes) {
        self.heard.push_reserved(Notice::Deleted {
            source,
            user,
            bytes,
        });
    }

    fn let_go(&mut self, source: Handle, user: u64) {
        self.heard.push_reserved(Notice::LetGo { source, user });
    }

    fn status(&mut self, status: Status) {
        self.heard.push_reserved(Notice::Told(status));
    }
}
