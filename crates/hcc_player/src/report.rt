//! The last line of what a play on a cache writes.
ghost use Rattle.std.specs.Prelude.{◌≡◌, IfOk, string_bytes};
ghost use Rattle.serde_json.specs.View.{view};
ghost use Rattle.hcc_player.specs.Report.{sums_data, sums_text};

use crate::sums::Sums;
use serde_json::{Value, json};
use std::alloc::{AllocError, Global};

/// The sums as a line of JSON, with its line feed.
pub(crate) fn sums_text(alloc: Global, sums: Sums) -> Result<String, AllocError>
    ensures { IfOk result (λ text. string_bytes text ≡ sums_text sums) }
{
    let value = sums_value(alloc, sums)?;
    let mut text = value.to_string(alloc)?;
    text.push_str("\n")?;
    Ok(text)
}

/// The sums as a value of JSON.
fn sums_value(alloc: Global, sums: Sums) -> Result<Value, AllocError>
    ensures { IfOk result (λ value. view value ≡ sums_data sums) }
{
    json!(in alloc; {
        "charges": sums.charges,
        "occupied": sums.occupied,
        "slots": sums.slots,
        "usage": sums.usage,
    })
}
