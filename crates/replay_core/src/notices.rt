//! What a client was told, kept in memory.
ghost use Rattle.std.specs.Prelude.{◌≡◌, ◌-◌, ◌<◌, ◌↔◌, Some, [], IsTrue, length, slice_get, vec_capacity, vec_len};
ghost use Rattle.replay_core.specs.Views.{notices_of};

use dev_types::{Bytes, Client, Handle, NoMemory, Notice, Status};
use std::alloc::Global;

/// A client that keeps what it is told, in order.
#[derive(Drop)]
pub struct NoticeList {
    notices: Vec<Notice>,
}

impl NoticeList {
    /// A client that was told nothing yet.
    pub fn new(alloc: Global) -> NoticeList
        ensures { notices_of result ≡ [] }
    {
        NoticeList {
            notices: Vec::new(alloc),
        }
    }

    /// The number of notices.
    pub fn len(&self) -> u64
        ensures { result ≡ length (notices_of self.now) }
    {
        self.notices.len() as u64
    }

    pub fn is_empty(&self) -> bool
        ensures { IsTrue result ↔ (notices_of self.now ≡ []) }
    {
        self.notices.is_empty()
    }

    /// The notices, in order.
    pub fn as_slice(&self) -> &[Notice]
        ensures { result.now ≡ notices_of self.now }
    {
        self.notices.as_slice()
    }

    /// Notice `i`, counted from 0.
    pub fn get(&self, i: u64) -> &Notice
        requires { i < length (notices_of self.now) }
        ensures { slice_get (notices_of self.now) i ≡ Some result.now }
    {
        &self.notices[i as usize]
    }
}

impl Client for NoticeList {
    ghost notices = { λ l. notices_of l };

    ghost spare = { λ l. vec_capacity l.notices - vec_len l.notices };

    fn reserve(&mut self, _alloc: Global, n: u32) -> Result<(), NoMemory> {
        Ok(self.notices.reserve(n as usize)?)
    }

    fn deleted(&mut self, source: Handle, user: u64, bytes: Bytes) {
        self.notices.push_reserved(Notice::Deleted {
            source,
            user,
            bytes,
        });
    }

    fn let_go(&mut self, source: Handle, user: u64) {
        self.notices.push_reserved(Notice::LetGo { source, user });
    }

    fn status(&mut self, status: Status) {
        self.notices.push_reserved(Notice::Told(status));
    }
}
