ghost use Rattle.std.specs.Prelude.{◌≡◌, IfOk};
ghost use Rattle.zb_wire.specs.declared.request.LineFault.TheVariants as faults;
ghost use Rattle.zb_wire.specs.Fields.{field_fault, place_fault};

use crate::LineFault;
use std::alloc::{AllocError, Global};
use zb_model::Text;

/// The fault of a field that is missing, of the wrong kind or unknown.
pub fn field_fault(alloc: Global, field: &str) -> Result<LineFault, AllocError>
    ensures { IfOk result (λ fault. fault ≡ field_fault field.now) }
{
    Ok(LineFault::Field {
        field: Text::of(alloc, field)?,
        path: None,
    })
}

/// The fault of a field whose value fails at this place.
pub fn place_fault(alloc: Global, field: &str, path: Text) -> Result<LineFault, AllocError>
    ensures { IfOk result (λ fault. fault ≡ place_fault field.now path) }
{
    Ok(LineFault::Field {
        field: Text::of(alloc, field)?,
        path: Some(path),
    })
}

/// The fault of a field that is outside its limits.
pub fn range_fault(alloc: Global, field: &str) -> Result<LineFault, AllocError>
    ensures { IfOk result (λ fault. fault ≡ faults.Range field.now) }
{
    Ok(LineFault::Range {
        field: Text::of(alloc, field)?,
    })
}
