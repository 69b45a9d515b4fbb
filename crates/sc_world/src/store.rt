//! The entities that are stored.
ghost use Rattle.std.specs.Prelude.{◌≡◌, [], OnOk, OnErr};
ghost use Rattle.std.specs.Option.{option_copied};

use crate::entity::EntityData;
use sc_names::Uid;
use std::alloc::{AllocError, Global};
use std::collections::BTreeMap;
use std::marker::Model;

/// What is stored, by uid. Contracts see the list of the entities, which ascends by uid.
#[derive(Drop)]
pub struct Store {
    entities: BTreeMap<Uid, EntityData>,
}

impl Model for Store {
    ghost use Rattle.std.specs.Prelude.{List};
    ghost use Rattle.std.specs.Coded.{codes};
    ghost use Rattle.sc_names.specs.declared.uid.Uid.{Uid};
    ghost use Rattle.sc_values.specs.contracts.value.Value as value;
    ghost use Rattle.sc_world.specs.declared.entity.EntityData.{EntityData};

    ghost Value = { List (Uid × EntityData) };

    ghost coded = { Prim.hlevel (codes, value.the_row.coded) };

    ghost use Rattle.sc_world.specs.Stores.{IsMap};

    ghost view = { λ s. s.entities.entries };

    ghost invariant = { λ s. IsMap s.entities.entries };
}

impl Store {
    ghost use Rattle.sc_world.specs.Stores.{stored, with_entity, IsMap};

    /// A store with no entity, which holds no memory yet.
    pub fn new(alloc: Global) -> Store
        ensures { result ≡ [] }
    {
        Store {
            entities: BTreeMap::new(alloc),
        }
    }

    /// What is stored of an entity.
    #[tactic(auto, unfolding(crate::specs::Stores::stored))]
    pub fn get(&self, uid: &Uid) -> Option<&EntityData>
        ensures { option_copied result ≡ stored uid.now self.now }
    {
        self.entities.get(uid)
    }

    /// Stores an entity, in the place of what is stored of it.
    #[tactic(auto, unfolding(crate::specs::Stores::with_entity))]
    pub fn insert(&mut self, uid: Uid, entity: EntityData) -> Result<(), AllocError>
        ensures ok { OnOk result (self.new ≡ with_entity uid entity self.old) }
        ensures err { OnErr result (self.new ≡ self.old) }
    {
        self.entities.insert(uid, entity)?;
        Ok(())
    }

    /// The entities themselves, ascending by uid.
    pub fn entities(&self) -> &BTreeMap<Uid, EntityData>
        ensures value { result.now.entries ≡ self.now }
        ensures ascending { IsMap self.now }
    {
        &self.entities
    }
}
