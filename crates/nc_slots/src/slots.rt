//! A word for each bounce slot.

ghost use Rattle.std.specs.Prelude.{◌≡◌, ◌<◌, Some, None, length, replicate, slice_set, IfOk};
ghost use Rattle.nc_slots.specs.SlotWords.{holder_of, answer_to, tried};

use nc_num::{HartNo, NoMemory};
use std::alloc::Global;
use std::marker::Model;

/// The answer to a try of a slot word.
#[derive(Clone, Copy, Debug, PartialEq, Eq)]
pub enum TryAnswer {
    /// The word was free, and is now held by the hart that tried it.
    Got,
    /// The word is held by this hart, and stays so.
    Held(HartNo),
}

/// The slot words: for each slot, the hart that holds it. Contracts see the list of the holders.
#[derive(Drop)]
pub struct Slots {
    words: Vec<Option<HartNo>>,
}

impl Model for Slots {
    ghost use Rattle.std.specs.Prelude.{List, Option};
    ghost use Rattle.nc_num.specs.declared.names.HartNo.{HartNo};

    ghost Value = { List (Option HartNo) };

    ghost view = { λ s. s.words.items };
}

impl Slots {
    /// Makes a free word for each of `n` slots, which are counted from 0.
    ///
    /// # Errors
    ///
    /// `NoMemory` where memory runs out.
    pub fn new(alloc: Global, n: u32) -> Result<Slots, NoMemory>
        ensures { IfOk result (λ s. s ≡ replicate n None) }
    {
        let words = vec![in alloc; None; n as usize]?;
        Ok(Slots { words })
    }

    /// Tries to get slot `k`, which is in range, for the hart `h`. The answer is `Held` exactly where a hart holds the
    /// word, even where that hart is `h`; then the words are unchanged.
    pub fn try_word(&mut self, h: HartNo, k: u32) -> TryAnswer
        requires { k < length self.old }
        ensures answer { result ≡ answer_to (holder_of self.old k) }
        ensures words { self.new ≡ tried self.old h k }
    {
        let word = &mut self.words[k as usize];
        match *word {
            None => {
                *word = Some(h);
                TryAnswer::Got
            }
            Some(g) => TryAnswer::Held(g),
        }
    }

    /// Gives back slot `k`, which the hart `h` holds: its word becomes free.
    pub fn back(&mut self, h: HartNo, k: u32)
        requires { holder_of self.old k ≡ Some h }
        ensures { self.new ≡ slice_set self.old k None }
    {
        self.words[k as usize] = None;
    }

    /// Returns the hart that holds slot `k`, or None where the word is free or `k` is out of range.
    pub fn holder(&self, k: u32) -> Option<HartNo>
        ensures { result ≡ holder_of self.now k }
    {
        match self.words.get(k as usize) {
            Some(word) => *word,
            None => None,
        }
    }
}
