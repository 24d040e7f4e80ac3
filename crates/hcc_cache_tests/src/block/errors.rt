//! How refusals are told.

use hcc_block::{ReadError, SourceFailed};
use std::test::Fail;

#[test]
fn a_block_that_is_not_read(rt: HostRuntime) -> Result<(), Fail> {
    for (error, text) in [
        (ReadError::NoSuchBlock, "NoSuchBlock"),
        (ReadError::SourceFault, "SourceFault"),
    ] {
        assert_eq!(rt; error.to_string(rt.alloc())?.as_str(), text);
    }
    assert_eq!(rt;
        SourceFailed.to_string(rt.alloc())?.as_str(),
        "SourceFailed"
    );
    Ok(())
}
