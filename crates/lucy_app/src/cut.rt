// The fields of a text, which blanks part.
ghost use Rattle.std.specs.Prelude.{◌≡◌, IfOk, map};
ghost use Rattle.lucy_fields.specs.Fields.{is_blank};
ghost use Rattle.lucy_app.specs.Fields.{field_texts};

use std::alloc::{AllocError, Global};

fn is_blank(byte: u8) -> bool
    ensures { result ≡ is_blank byte }
{
    byte == b' ' || byte == b'\t' || byte == b'\r' || byte == b'\n'
}

/// The fields in order.
pub(crate) fn fields(alloc: Global, text: &[u8]) -> Result<Vec<&[u8]>, AllocError>
    ensures { IfOk result (λ v. map (λ field. field.now) v.items ≡ field_texts text.now) }
{
    text.split(|byte| is_blank(*byte))
        .filter(|piece| !piece.is_empty())
        .collect(alloc)
}
