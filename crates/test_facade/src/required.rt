//! Whether all that is required is there, in an optional message, a list and a map, too.

ghost use Rattle.std.specs.Prelude.{is_some};

use buffa::fields::Required;
use std::collections::BTreeMap;
use std::string::String;
use std::test::Fail;

// A message with a name that is required, as far as that goes.
#[derive(Drop)]
struct Named {
    name: Option<String>,
}

impl Required for Named {
    ghost initialized = { λ m. is_some m.name };

    fn is_initialized(&self) -> bool {
        self.name.is_some()
    }
}

#[test]
fn a_message_lacks_what_is_required(rt: HostRuntime) -> Result<(), Fail> {
    let named = Named {
        name: Some(String::new(rt.alloc())),
    };
    let is_whole = named.is_initialized();
    assert!(rt; is_whole);
    let named = Named { name: None };
    assert!(rt; !named.is_initialized());
    assert!(rt; !Some(named).is_initialized());
    assert!(rt; None::<Named>.is_initialized());
    Ok(())
}

#[test]
fn messages_in_lists_and_maps_are_looked_into(rt: HostRuntime) -> Result<(), Fail> {
    let alloc = rt.alloc();
    let mut list = Vec::new(alloc);
    assert!(rt; list.is_initialized());
    list.push(Named {
        name: Some(String::new(alloc)),
    })?;
    assert!(rt; list.is_initialized());
    list.push(Named { name: None })?;
    assert!(rt; !list.is_initialized());
    let mut map = BTreeMap::new(alloc);
    map.insert(7, Named { name: None })?;
    assert!(rt; !map.is_initialized());
    map.clear();
    assert!(rt; map.is_initialized());
    Ok(())
}
