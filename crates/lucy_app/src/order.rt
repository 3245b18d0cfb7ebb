// The command `order`: the verdict on the two words of the input.
ghost use Rattle.std.specs.Prelude.{◌≡◌, ◌≤◌, ◌∷◌, ℕ, List, [], IfOk, IfErr};
ghost use Rattle.lucy_word.specs.Bits.{Bits};
ghost use Rattle.lucy_word.specs.Limits.{limit_number};
ghost use Rattle.lucy_word.specs.Reading.{IsReadable};
ghost use Rattle.lucy_word.specs.declared.limit.Limit.TheVariants as limit;
ghost use Rattle.lucy_app.specs.Fields.{field_texts};
ghost use Rattle.lucy_check.specs.Horizon.{AreFar};
ghost use Rattle.lucy_app.specs.Order.{IsVerdictLine, RefusesWord, RefusesFields, verdict_line};
ghost use Rattle.lucy_app.specs.declared.order.Unjudged.TheVariants as unjudged;
ghost use Rattle.lucy_app.specs.declared.input_refusal.InputCause.TheVariants as cause;
ghost use Rattle.lucy_text.specs.Sources.{ReadStop, Read};
ghost use Rattle.lucy_app.specs.Owes.{OwesOrder};
ghost use Rattle.lucy_app.specs.Outcomes.{RefusesInput, IsLineOn, IsUnjudged, judging_refusal, IsOwedOutcome, Tellable};

use crate::cut::fields;
use crate::input_refusal::InputCause;
use crate::refusal::Refusal;
use lucy_check::{Verdict, adapt, horizon_of};
use lucy_text::{Source, read_up_to};
use lucy_word::{Limit, Word, WordError};
use std::alloc::{AllocError, Global};

/// Why two words have no verdict.
#[derive(Drop)]
pub(crate) enum Unjudged {
    /// The input is refused.
    Input(InputCause),
    /// Memory ran out.
    OutOfMemory,
}

impl From<AllocError> for Unjudged {
    ghost from_gives = { λ _ e. e ≡ unjudged.OutOfMemory };

    fn from(_: AllocError) -> Self {
        Unjudged::OutOfMemory
    }
}

impl From<Unjudged> for Refusal {
    ghost from_gives = { λ error e. e ≡ judging_refusal error };

    fn from(error: Unjudged) -> Self {
        match error {
            Unjudged::Input(cause) => Refusal::Input(cause),
            Unjudged::OutOfMemory => Refusal::OutOfMemory,
        }
    }
}

fn line(alloc: Global, verdict: Verdict) -> Result<Vec<u8>, AllocError>
    ensures { IfOk result (λ v. v.items ≡ verdict_line verdict) }
{
    let line = match verdict {
        Verdict::Adaptable(size) => format!(in alloc; "adaptable size {size}\n"),
        Verdict::Rates => format!(in alloc; "unequal rates\n"),
        Verdict::Late(at) => format!(in alloc; "late at {at}\n"),
    };
    Ok(line?.into_bytes())
}

// The word in the field with this number, from 1.
fn word(alloc: Global, number: u64, field: &[u8]) -> Result<Word, Unjudged>
    ensures ok { IfOk result (IsReadable field.now) }
    ensures refused { IfErr result (IsUnjudged (RefusesWord number field.now)) }
{
    let cause = match Word::read(alloc, field) {
        Ok(word) => return Ok(word),
        Err(WordError::BadWord(place)) => InputCause::BadWord(number, place),
        Err(WordError::TooLong) => InputCause::Limit(Limit::Written),
        Err(WordError::NoOne) => InputCause::NoOne(number),
        Err(WordError::OutOfMemory) => return Err(Unjudged::OutOfMemory),
    };
    Err(Unjudged::Input(cause))
}

// The line on two words, unless too many instants decide about them.
fn compared(alloc: Global, first: &Word, second: &Word) -> Result<Vec<u8>, Unjudged>
    ensures ok { IfOk result (λ v. IsLineOn first.now second.now v.items) }
    ensures refused { IfErr result (IsUnjudged (λ c. AreFar first.now second.now × (c ≡ cause.Limit limit.Compare))) }
{
    let most = Limit::Compare.number();
    if horizon_of(first, second) > most {
        return Err(Unjudged::Input(InputCause::Limit(Limit::Compare)));
    }
    Ok(line(alloc, adapt(first, second))?)
}

// The line on the two words that these fields are.
fn verdict_of(alloc: Global, first: &[u8], second: &[u8]) -> Result<Vec<u8>, Unjudged>
    ensures ok { IfOk result (λ v. (a : Bits) × (b : Bits) × IsReadable first.now a × IsReadable second.now b × IsLineOn a b v.items) }
    ensures refused { IfErr result (IsUnjudged (RefusesFields (first.now ∷ second.now ∷ []))) }
{
    let first = word(alloc, 1, first)?;
    let second = word(alloc, 2, second)?;
    compared(alloc, &first, &second)
}

// The line on the two words that the text is, unless too many instants decide about them.
fn verdict_on(alloc: Global, text: &[u8]) -> Result<Vec<u8>, Refusal>
    ensures ok { IfOk result (λ v. IsVerdictLine text.now v.items) }
    ensures refused { IfErr result (RefusesInput (RefusesFields (field_texts text.now))) }
{
    let fields = fields(alloc, text)?;
    let [first, second] = fields.as_slice() else {
        return Err(Refusal::Input(InputCause::Count(fields.len())));
    };
    Ok(verdict_of(alloc, first, second)?)
}

/// The line on all bytes of the source, read to its end or to one byte past the limit, or why there is none.
pub(crate) fn answer<I: Source>(alloc: Global, input: &mut I) -> Result<Vec<u8>, Refusal>
    ensures outcome { (taken : List ℕ) × (stop : ReadStop) × Read (limit_number limit.OrderInput) (I.seen input.old) (I.seen input.new)
        taken stop × IsOwedOutcome (OwesOrder taken stop) result }
    ensures tellable { IfErr result Tellable }
    ensures count { (I.seen input.old).faults ≤ (I.seen input.new).faults }
{
    let most = Limit::OrderInput.number() as usize;
    let bytes = read_up_to(alloc, input, most)?;
    if bytes.len() > most {
        return Err(Refusal::Input(InputCause::Limit(Limit::OrderInput)));
    }
    verdict_on(alloc, &bytes)
}
