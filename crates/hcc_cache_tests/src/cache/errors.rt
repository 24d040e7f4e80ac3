//! How refusals are told.

use hcc_cache::{CloseError, CopyError, InsertError, LookupError, NewError};
use std::test::Fail;

#[test]
fn a_cache_that_is_not_made(rt: HostRuntime) -> Result<(), Fail> {
    for (error, text) in [
        (NewError::BadSlots, "BadSlots"),
        (NewError::BadRoom, "BadRoom"),
        (NewError::BadClients, "BadClients"),
        (NewError::BadHandles, "BadHandles"),
        (NewError::BadShards, "BadShards"),
        (NewError::BadCapacity, "BadCapacity"),
        (NewError::BadSerials, "BadSerials"),
        (NewError::OutOfMemory, "OutOfMemory"),
    ] {
        assert_eq!(rt; error.to_string(rt.alloc())?.as_str(), text);
    }
    Ok(())
}

#[test]
fn a_handle_that_is_not_given(rt: HostRuntime) -> Result<(), Fail> {
    for (error, text) in [
        (LookupError::HandlesFull, "HandlesFull"),
        (LookupError::Spent, "Spent"),
    ] {
        assert_eq!(rt; error.to_string(rt.alloc())?.as_str(), text);
    }
    Ok(())
}

#[test]
fn an_entry_that_is_not_inserted(rt: HostRuntime) -> Result<(), Fail> {
    for (error, text) in [
        (InsertError::HandlesFull, "HandlesFull"),
        (InsertError::Spent, "Spent"),
        (InsertError::TooLarge, "TooLarge"),
        (InsertError::CapacityFull, "CapacityFull"),
        (InsertError::OccupancyFull, "OccupancyFull"),
    ] {
        assert_eq!(rt; error.to_string(rt.alloc())?.as_str(), text);
    }
    Ok(())
}

#[test]
fn a_value_that_is_not_copied(rt: HostRuntime) -> Result<(), Fail> {
    for (error, text) in [
        (CopyError::Refused(InsertError::Spent), "Spent"),
        (CopyError::OutOfMemory, "OutOfMemory"),
    ] {
        assert_eq!(rt; error.to_string(rt.alloc())?.as_str(), text);
    }
    Ok(())
}

#[test]
fn a_cache_that_is_not_closed(rt: HostRuntime) -> Result<(), Fail> {
    let missing = CloseError::Missing { have: 1, want: 2 };
    assert_eq!(rt;
        missing.to_string(rt.alloc())?.as_str(),
        "1 of 2 clients came back"
    );
    let out = CloseError::HandlesOut { client: 0 };
    assert_eq!(rt;
        out.to_string(rt.alloc())?.as_str(),
        "client 0 holds a handle"
    );
    Ok(())
}
