//! The report of a play of block reads.
ghost use Rattle.std.specs.Prelude.{◌≡◌, IfOk, map, string_bytes};
ghost use Rattle.serde_json.specs.View.{view};
ghost use Rattle.hcc_player.specs.BlocksReport.{client_data, report_data, report_text};

use super::tally::ClientReport;
use crate::sums::Sums;
use serde_json::{Value, json};
use std::alloc::{AllocError, Global};

/// The text of a report, with a line feed behind it.
pub fn report_text(
    alloc: Global,
    sums: Sums,
    clients: &[ClientReport],
) -> Result<String, AllocError>
    ensures { IfOk result (λ text. string_bytes text ≡ report_text sums clients.now) }
{
    let value = report_value(alloc, sums, clients)?;
    let mut text = value.to_string(alloc)?;
    text.push_str("\n")?;
    Ok(text)
}

/// A report as a value.
fn report_value(alloc: Global, sums: Sums, clients: &[ClientReport]) -> Result<Value, AllocError>
    ensures { IfOk result (λ value. view value ≡ report_data sums clients.now) }
{
    let clients = Value::Array(client_values(alloc, clients)?);
    json!(in alloc; {
        "charges": sums.charges,
        "clients": clients,
        "occupied": sums.occupied,
        "slots": sums.slots,
        "usage": sums.usage,
    })
}

/// The reports of clients.
fn client_values(alloc: Global, clients: &[ClientReport]) -> Result<Vec<Value>, AllocError>
    ensures { IfOk result (λ values. map view values.items ≡ map client_data clients.now) }
{
    let mut values = Vec::with_capacity(alloc, clients.len())?;
    for client in clients {
        values.push(client_value(alloc, client)?)?;
    }
    Ok(values)
}

/// The report of one client.
fn client_value(alloc: Global, client: &ClientReport) -> Result<Value, AllocError>
    ensures { IfOk result (λ value. view value ≡ client_data client.now) }
{
    json!(in alloc; {
        "blocks": client.tally.blocks,
        "faults": client.tally.faults,
        "hits": client.hits,
        "misses": client.misses,
        "missing": client.tally.missing,
        "sum": client.tally.sum,
    })
}
