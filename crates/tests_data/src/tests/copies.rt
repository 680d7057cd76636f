//! The copy of each type whose copies are compared, by its one call.

use super::Copied;
use fold_run::FoldScript;
use model::{
    Carried, Finished, JournalRow, Move, Part, PrivateCopy, Reply, Route, Routing, StateMark,
    StateTxn, Tagged, UnseenRow, UnseenState,
};
use mutation::{Admitted, AdmittedMutation, Batch, GivenRange, Mutation, Stamped, Transaction};
use system_keys::{
    Bytes, Change, KeyRange, Location, OrderedKey, OutOfMemory, ServerId, TagTeams, Teams,
};

// ---- fold_run

impl Copied for FoldScript {
    fn copied(&self) -> Result<FoldScript, OutOfMemory> {
        self.copy()
    }
}

// ---- model

impl Copied for Carried {
    fn copied(&self) -> Result<Carried, OutOfMemory> {
        self.copy()
    }
}

impl Copied for Finished {
    fn copied(&self) -> Result<Finished, OutOfMemory> {
        self.copy()
    }
}

impl Copied for JournalRow {
    fn copied(&self) -> Result<JournalRow, OutOfMemory> {
        self.copy()
    }
}

impl Copied for Move {
    fn copied(&self) -> Result<Move, OutOfMemory> {
        self.copy()
    }
}

impl Copied for Part {
    fn copied(&self) -> Result<Part, OutOfMemory> {
        self.copy()
    }
}

impl Copied for PrivateCopy {
    fn copied(&self) -> Result<PrivateCopy, OutOfMemory> {
        self.copy()
    }
}

impl Copied for Reply {
    fn copied(&self) -> Result<Reply, OutOfMemory> {
        self.copy()
    }
}

impl Copied for Route {
    fn copied(&self) -> Result<Route, OutOfMemory> {
        self.copy()
    }
}

impl Copied for Routing {
    fn copied(&self) -> Result<Routing, OutOfMemory> {
        self.copy()
    }
}

impl Copied for StateMark {
    fn copied(&self) -> Result<StateMark, OutOfMemory> {
        self.copy()
    }
}

impl Copied for StateTxn {
    fn copied(&self) -> Result<StateTxn, OutOfMemory> {
        self.copy()
    }
}

impl Copied for Tagged {
    fn copied(&self) -> Result<Tagged, OutOfMemory> {
        self.copy()
    }
}

impl Copied for UnseenRow {
    fn copied(&self) -> Result<UnseenRow, OutOfMemory> {
        self.copy()
    }
}

impl Copied for UnseenState {
    fn copied(&self) -> Result<UnseenState, OutOfMemory> {
        self.copy()
    }
}

// ---- mutation

impl Copied for Admitted {
    fn copied(&self) -> Result<Admitted, OutOfMemory> {
        self.copy()
    }
}

impl Copied for AdmittedMutation {
    fn copied(&self) -> Result<AdmittedMutation, OutOfMemory> {
        self.copy()
    }
}

impl Copied for Batch {
    fn copied(&self) -> Result<Batch, OutOfMemory> {
        self.copy()
    }
}

impl Copied for GivenRange {
    fn copied(&self) -> Result<GivenRange, OutOfMemory> {
        self.copy()
    }
}

impl Copied for Mutation {
    fn copied(&self) -> Result<Mutation, OutOfMemory> {
        self.copy()
    }
}

impl Copied for Stamped {
    fn copied(&self) -> Result<Stamped, OutOfMemory> {
        self.copy()
    }
}

impl Copied for Transaction {
    fn copied(&self) -> Result<Transaction, OutOfMemory> {
        self.copy()
    }
}

// ---- system_keys

impl Copied for Bytes {
    fn copied(&self) -> Result<Bytes, OutOfMemory> {
        self.copy()
    }
}

impl Copied for Change {
    fn copied(&self) -> Result<Change, OutOfMemory> {
        self.copy()
    }
}

impl Copied for KeyRange {
    fn copied(&self) -> Result<KeyRange, OutOfMemory> {
        self.copy()
    }
}

impl Copied for Location {
    fn copied(&self) -> Result<Location, OutOfMemory> {
        self.copy()
    }
}

impl Copied for OrderedKey {
    fn copied(&self) -> Result<OrderedKey, OutOfMemory> {
        self.copy()
    }
}

impl Copied for ServerId {
    fn copied(&self) -> Result<ServerId, OutOfMemory> {
        self.copy()
    }
}

impl Copied for TagTeams {
    fn copied(&self) -> Result<TagTeams, OutOfMemory> {
        self.copy()
    }
}

impl Copied for Teams {
    fn copied(&self) -> Result<Teams, OutOfMemory> {
        self.copy()
    }
}
