// Bytes that come at the end and leave at the front.
ghost use Rattle.std.specs.Prelude.{◌≡◌, ◌==◌, ◌++◌, ◌≤◌, [], List, ℕ, length, drop, take, OnOk, OnErr};

use std::alloc::{AllocError, Global};
use std::marker::Model;

/// A row of bytes. What left at its front still takes room until it is more than half of what is
/// held.
#[derive(Drop)]
pub struct Queue {
    held: Vec<u8>,
    front: usize,
}

impl Model for Queue {
    ghost use Rattle.std.specs.Prelude.{◌≤◌, List, ℕ, length, drop};

    ghost Value = { List ℕ };

    ghost view = { λ q. drop q.front q.held.items };

    ghost invariant = { λ q. q.front ≤ length q.held.items };
}

impl Queue {
    pub fn new(alloc: Global) -> Queue
        ensures { result ≡ [] }
    {
        Queue {
            held: Vec::new(alloc),
            front: 0,
        }
    }

    pub fn len(&self) -> usize
        ensures { result ≡ length self.now }
    {
        self.held.len() - self.front
    }

    pub fn is_empty(&self) -> bool
        ensures { result ≡ (length self.now == 0) }
    {
        self.len() == 0
    }

    pub fn as_slice(&self) -> &[u8]
        ensures { result.now ≡ self.now }
    {
        &self.held[self.front..]
    }

    /// Adds bytes at the end. Each byte that left is paid for once, when the others move to the
    /// front.
    pub fn extend(&mut self, piece: &[u8]) -> Result<(), AllocError>
        ensures ok { OnOk result (self.new ≡ self.old ++ piece.now) }
        ensures err { OnErr result (self.new ≡ self.old) }
    {
        if self.front > self.held.len() / 2 {
            self.shift();
        }
        self.held.extend_from_slice(piece)
    }

    // Gives back the room of what left.
    fn shift(&mut self)
        ensures { self.new ≡ self.old }
    {
        self.held.rotate_left(self.front);
        let len = self.held.len() - self.front;
        self.held.truncate(len);
        self.front = 0;
    }

    /// Lets the first `n` bytes go.
    pub fn advance(&mut self, n: usize)
        requires { n ≤ length self.old }
        ensures { self.new ≡ drop n self.old }
    {
        self.front += n;
    }

    /// Keeps the first `n` bytes, or all if they are fewer.
    pub fn truncate(&mut self, n: usize)
        ensures { self.new ≡ take n self.old }
    {
        let most = n.min(self.len());
        self.held.truncate(self.front + most);
    }
}
