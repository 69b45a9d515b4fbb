//! What a world has to store from the first, before what its defaults name.
ghost use Rattle.std.specs.Prelude.{◌≡◌, ◌++◌, flat_map, IfOk, OnOk};
ghost use Rattle.sc_world.specs.Filling.{first_uids};
ghost use Rattle.sc_world.specs.Named.{request_uids, uids_in_entry};
ghost use Rattle.sc_world.specs.Stores.{IsMap};

use crate::named::{put_all, put_in_entity, put_in_record};
use crate::store::Store;
use crate::world::Request;
use sc_lists::Seq;
use sc_names::{Lits, Uid};
use sc_schema::{Schema, actions};
use std::alloc::{AllocError, Global};

/// The declared actions, what a request names, the literals, and what given entities name.
pub(crate) fn first_uids(
    alloc: Global,
    s: &Schema,
    given: &Store,
    request: &Request,
    lits: &Lits,
) -> Result<Seq<Uid>, AllocError>
    ensures uids { IfOk result (λ us. us ≡ first_uids s.now given.now request.now lits.now) }
    ensures ascending { IfOk result (λ us. IsMap given.now) }
{
    let mut uids = Seq::new(alloc);
    put_all(alloc, &mut uids, actions(s))?;
    put_request(alloc, &mut uids, request)?;
    put_all(alloc, &mut uids, lits.as_slice())?;
    put_given(alloc, &mut uids, given)?;
    Ok(uids)
}

fn put_request(alloc: Global, uids: &mut Seq<Uid>, request: &Request) -> Result<(), AllocError>
    ensures { OnOk result (uids.new ≡ uids.old ++ request_uids request.now) }
{
    uids.push(request.principal.try_clone(alloc)?)?;
    uids.push(request.action.try_clone(alloc)?)?;
    uids.push(request.resource.try_clone(alloc)?)?;
    put_in_record(alloc, uids, &request.context)
}

fn put_given(alloc: Global, uids: &mut Seq<Uid>, given: &Store) -> Result<(), AllocError>
    ensures uids { OnOk result (uids.new ≡ uids.old ++ flat_map uids_in_entry given.now) }
    ensures ascending { IsMap given.now }
{
    for (_, entity) in given.entities().iter() {
        put_in_entity(alloc, uids, entity)?;
    }
    Ok(())
}
