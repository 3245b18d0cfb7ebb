// Spans that are told.
ghost use Rattle.std.specs.Prelude.{◌≡◌, true, IfOk, OnOk};
ghost use Rattle.lucy_explain.specs.Spans.{IsWithin, AreWithin};

use lucy_tree::Span;
use std::alloc::{AllocError, Global};

// Whether a span is a part of a text of so many bytes.
fn is_within(span: Span, bytes: usize) -> bool
    ensures { result ≡ true → IsWithin bytes span }
{
    span.from <= span.to && span.to as usize <= bytes
}

// One span more, where it is a part of the text.
fn push_within(spans: &mut Vec<Span>, span: Span, bytes: usize) -> Result<(), AllocError>
    ensures { OnOk result (AreWithin bytes spans.old.items → AreWithin bytes spans.new.items) }
{
    if !is_within(span, bytes) {
        return Ok(());
    }
    spans.push(span)?;
    Ok(())
}

/// Those of these spans that are parts of a text of so many bytes, in order.
pub(crate) fn within(alloc: Global, spans: &[Span], bytes: usize) -> Result<Vec<Span>, AllocError>
    ensures { IfOk result (λ v. AreWithin bytes v.items) }
{
    let mut kept = Vec::new(alloc);
    'each: for span in spans {
        push_within(&mut kept, *span, bytes)?;
    }
    Ok(kept)
}
