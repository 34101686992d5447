//! A box for each buffer.

ghost use Rattle.std.specs.Prelude.{◌≡◌, ◌<◌, ◌↔◌, Some, None, length, replicate, slice_set, IfOk, IsTrue};
ghost use Rattle.std.specs.Bool.{OnTrue, OnFalse};
ghost use Rattle.nc_mail.specs.Boxes.{waiting};

use nc_num::{HartNo, NoMemory};
use std::alloc::Global;
use std::marker::Model;

/// A mailbox: a box for each buffer, with the hart for which its message waits. Contracts see the list of the boxes.
#[derive(Drop)]
pub struct Mail {
    boxes: Vec<Option<HartNo>>,
}

impl Model for Mail {
    ghost use Rattle.std.specs.Prelude.{List, Option};
    ghost use Rattle.nc_num.specs.declared.names.HartNo.{HartNo};

    ghost Value = { List (Option HartNo) };

    ghost view = { λ m. m.boxes.items };
}

impl Mail {
    /// Makes an empty box for each of `buffers` buffers, which are counted from 0.
    ///
    /// # Errors
    ///
    /// `NoMemory` where memory runs out.
    pub fn new(alloc: Global, buffers: u8) -> Result<Mail, NoMemory>
        ensures { IfOk result (λ m. m ≡ replicate buffers None) }
    {
        let boxes = vec![in alloc; None; usize::from(buffers)]?;
        Ok(Mail { boxes })
    }

    /// Puts a message for the hart `to` into the box of buffer `buf`, which exists. It replaces a message that waits
    /// there.
    pub fn post(&mut self, buf: u8, to: HartNo)
        requires { buf < length self.old }
        ensures { self.new ≡ slice_set self.old buf (Some to) }
    {
        self.boxes[usize::from(buf)] = Some(to);
    }

    /// Returns the hart for which the message of buffer `buf` waits, or None where no message waits.
    pub fn waits(&self, buf: u8) -> Option<HartNo>
        requires { buf < length self.now }
        ensures { result ≡ waiting self.now buf }
    {
        self.boxes[usize::from(buf)]
    }

    /// Takes the message of buffer `buf` where it waits for the hart `me`, and returns whether it did. Otherwise the
    /// mailbox is unchanged.
    pub fn take(&mut self, buf: u8, me: HartNo) -> bool
        requires { buf < length self.old }
        ensures taken { IsTrue result ↔ (waiting self.old buf ≡ Some me) }
        ensures emptied { OnTrue result (self.new ≡ slice_set self.old buf None) }
        ensures as_before { OnFalse result (self.new ≡ self.old) }
    {
        let waits = self.boxes[usize::from(buf)] == Some(me);
        if waits {
            self.boxes[usize::from(buf)] = None;
        }
        waits
    }
}
