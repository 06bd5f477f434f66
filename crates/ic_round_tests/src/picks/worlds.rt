use ic_base::NoMemory;
use ic_principal::{Bytes, Principal, Text};
use ic_state::{Canister, Controllers, World};
use std::test::*;

// A canister is added, and a user calls it at a later time.
#[test]
fn world_once_through(rt: HostRuntime) -> Result<(), NoMemory> {
    let alloc = rt.alloc();
    let id = Principal::canister_id(0);
    let nobody = Controllers {
        items: Vec::new(alloc),
    };
    let method = Text {
        items: String::new(alloc),
    };
    let arg = Bytes {
        items: Vec::new(alloc),
    };
    let mut world = World::new(alloc).add(Canister::new(alloc, id, nobody, 1000)?)?;
    assert!(rt; world.drained());
    world.set_time(7);
    let world = World::seal(
        world
            .submit(Principal::canister_id(1), id, method, arg)?
            .open(),
    );
    assert!(rt; !world.drained());
    assert!(rt; world.answer(0).is_none());
    assert_eq!(rt; world.first_for(&id), Some(0));
    assert_eq!(rt; world.first_for(&Principal::canister_id(1)), None);
    let totals = world.totals();
    assert_eq!(rt;
        [totals.created, totals.held, totals.burned],
        [1000, 1000, 0]
    );
    assert_eq!(rt; world.parts().requests.len(), 1);
    Ok(())
}
