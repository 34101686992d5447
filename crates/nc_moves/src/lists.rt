//! The lists of what a step moves.

ghost use Rattle.std.specs.Prelude.{◌≡◌, ◌≤◌, ◌<◌, ◌++◌, [], ◌∷◌, length, OnOk, OnErr};

use nc_model::{Grant, Owner};
use nc_num::{MapId, NoMemory, Span};
use std::alloc::Global;
use std::marker::Model;

/// Ranges and their new owners, at most 34, in order. Contracts see the list.
#[derive(Debug, Drop)]
pub struct TransferList {
    items: Vec<(Span, Owner)>,
}

impl Model for TransferList {
    ghost use Rattle.std.specs.Prelude.{◌≤◌, List, length};
    ghost use Rattle.nc_num.specs.declared.places.Span.{Span};
    ghost use Rattle.nc_model.specs.declared.owners.Owner.{Owner};

    ghost Value = { List (Span × Owner) };

    ghost view = { λ s. s.items.items };

    ghost invariant = { λ s. length s.items.items ≤ 34 };
}

impl TransferList {
    /// Makes an empty list, and takes no memory.
    pub fn new(alloc: Global) -> TransferList
        ensures { result ≡ [] }
    {
        TransferList {
            items: Vec::new(alloc),
        }
    }

    /// Appends a range and its new owner to a list of fewer than 34.
    ///
    /// # Errors
    ///
    /// `NoMemory` where memory runs out; then the list is unchanged.
    pub fn push(&mut self, span: Span, owner: Owner) -> Result<(), NoMemory>
        requires room { length self.old < 34 }
        ensures ok { OnOk result (self.new ≡ self.old ++ (span, owner) ∷ []) }
        ensures err { OnErr result (self.new ≡ self.old) }
    {
        self.items.push((span, owner))?;
        Ok(())
    }

    /// Returns the ranges and their new owners, at most 34, in order.
    pub fn as_slice(&self) -> &[(Span, Owner)]
        ensures value { result.now ≡ self.now }
        ensures few { length self.now ≤ 34 }
    {
        &self.items
    }
}

/// New grants, at most 32, in order. Contracts see the list.
#[derive(Debug, Drop)]
pub struct GrantList {
    items: Vec<Grant>,
}

impl Model for GrantList {
    ghost use Rattle.std.specs.Prelude.{◌≤◌, List, length};
    ghost use Rattle.nc_model.specs.declared.owners.Grant.{Grant};

    ghost Value = { List Grant };

    ghost view = { λ s. s.items.items };

    ghost invariant = { λ s. length s.items.items ≤ 32 };
}

impl GrantList {
    /// Makes an empty list, and takes no memory.
    pub fn new(alloc: Global) -> GrantList
        ensures { result ≡ [] }
    {
        GrantList {
            items: Vec::new(alloc),
        }
    }

    /// Appends a grant to a list of fewer than 32.
    ///
    /// # Errors
    ///
    /// `NoMemory` where memory runs out; then the list is unchanged.
    pub fn push(&mut self, grant: Grant) -> Result<(), NoMemory>
        requires room { length self.old < 32 }
        ensures ok { OnOk result (self.new ≡ self.old ++ grant ∷ []) }
        ensures err { OnErr result (self.new ≡ self.old) }
    {
        self.items.push(grant)?;
        Ok(())
    }

    /// Returns the grants, at most 32, in order.
    pub fn as_slice(&self) -> &[Grant]
        ensures value { result.now ≡ self.now }
        ensures few { length self.now ≤ 32 }
    {
        &self.items
    }
}

/// Mappings whose grants end, at most 32, in order. Contracts see the list.
#[derive(Debug, Drop)]
pub struct IdList {
    items: Vec<MapId>,
}

impl Model for IdList {
    ghost use Rattle.std.specs.Prelude.{◌≤◌, List, length};
    ghost use Rattle.nc_num.specs.declared.names.MapId.{MapId};

    ghost Value = { List MapId };

    ghost view = { λ s. s.items.items };

    ghost invariant = { λ s. length s.items.items ≤ 32 };
}

impl IdList {
    /// Makes an empty list, and takes no memory.
    pub fn new(alloc: Global) -> IdList
        ensures { result ≡ [] }
    {
        IdList {
            items: Vec::new(alloc),
        }
    }

    /// Appends a mapping to a list of fewer than 32.
    ///
    /// # Errors
    ///
    /// `NoMemory` where memory runs out; then the list is unchanged.
    pub fn push(&mut self, id: MapId) -> Result<(), NoMemory>
        requires room { length self.old < 32 }
        ensures ok { OnOk result (self.new ≡ self.old ++ id ∷ []) }
        ensures err { OnErr result (self.new ≡ self.old) }
    {
        self.items.push(id)?;
        Ok(())
    }

    /// Returns the mappings, at most 32, in order.
    pub fn as_slice(&self) -> &[MapId]
        ensures value { result.now ≡ self.now }
        ensures few { length self.now ≤ 32 }
    {
        &self.items
    }
}

/// The words of bounce slots that are given back, at most 32, in order. Contracts see the list.
#[derive(Debug, Drop)]
pub struct SlotList {
    items: Vec<u32>,
}

impl Model for SlotList {
    ghost use Rattle.std.specs.Prelude.{◌≤◌, ℕ, List, length};

    ghost Value = { List ℕ };

    ghost view = { λ s. s.items.items };

    ghost invariant = { λ s. length s.items.items ≤ 32 };
}

impl SlotList {
    /// Makes an empty list, and takes no memory.
    pub fn new(alloc: Global) -> SlotList
        ensures { result ≡ [] }
    {
        SlotList {
            items: Vec::new(alloc),
        }
    }

    /// Appends the word of a slot to a list of fewer than 32.
    ///
    /// # Errors
    ///
    /// `NoMemory` where memory runs out; then the list is unchanged.
    pub fn push(&mut self, word: u32) -> Result<(), NoMemory>
        requires room { length self.old < 32 }
        ensures ok { OnOk result (self.new ≡ self.old ++ word ∷ []) }
        ensures err { OnErr result (self.new ≡ self.old) }
    {
        self.items.push(word)?;
        Ok(())
    }

    /// Returns the words of slots, at most 32, in order.
    pub fn as_slice(&self) -> &[u32]
        ensures value { result.now ≡ self.now }
        ensures few { length self.now ≤ 32 }
    {
        &self.items
    }
}
