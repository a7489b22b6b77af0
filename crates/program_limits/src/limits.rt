//! What documents have as a bound, as a ceiling with a walk, and what limits a run of theirs.

ghost use Rattle.std.specs.Prelude.{◌≡◌, ◌^◌, ◌<◌, IfOk, IfErr};
ghost use Rattle.program_limits.specs.Limits.{HaveNoBound, IsAnalysisFault};
ghost use Rattle.program_limits.specs.Limits.{IsBound, IsBracket, IsCeiling, IsCeilingFault};
ghost use Rattle.program_limits.specs.Limits.{IsLimit, IsLimitFault, IsProduct};

use bound_scan::bound;
use ceiling_checked::{Bracket, Ceiling, ceiling, reached};
use flow_acceptance::counts::product_of;
use flow_graph::{Refusal, rediscover};
use print_lines::{Fault, Limit};
use read_documents::Documents;
use std::alloc::Global;

/// What a run that is followed may take at most is below this, in word times: 3,400 years.
const LONGEST: u128 = 1 << 50;

/// The bound of documents, in word times.
///
/// # Errors
///
/// [`Fault::Refused`] where the deck with its notes isn't accepted, or there is no memory.
pub fn bound_of(alloc: Global, documents: &Documents) -> Result<u64, Fault>
    ensures bound { IfOk result (IsBound documents.now) }
    ensures below { IfOk result (λ bound. bound < 2 ^ 50) }
    ensures fault { IfErr result (IsAnalysisFault documents.now) }
{
    Ok(bound(alloc, &documents.deck, &documents.times, &documents.notes)?)
}

/// A ceiling of documents.
///
/// # Errors
///
/// [`Fault::Refused`] where the deck with its notes isn't accepted, but for its size; where what no
/// ceiling is above is 2^127 word times or more; or there is no memory.
pub fn ceiling_of(alloc: Global, documents: &Documents) -> Result<Ceiling, Fault>
    ensures ceiling { IfOk result (IsCeiling documents.now) }
    ensures fault { IfErr result (IsCeilingFault documents.now) }
{
    Ok(ceiling(alloc, &documents.deck, &documents.times, &documents.notes)?)
}

/// A ceiling of documents, with a walk beside it.
///
/// # Errors
///
/// Those of [`ceiling_of`].
pub fn bracket_of(alloc: Global, documents: &Documents) -> Result<Bracket, Fault>
    ensures bracket { IfOk result (IsBracket documents.now) }
    ensures fault { IfErr result (IsCeilingFault documents.now) }
{
    Ok(reached(alloc, &documents.deck, &documents.times, &documents.notes)?)
}

/// What a run of documents that keeps to the notes uses at most, in word times, and how that is
/// known: of short notes by the bound; where they are too large for one, and of long notes, by a
/// ceiling.
///
/// # Errors
///
/// [`Fault::Refused`] where the deck with its notes isn't accepted, but for its size; where the
/// ceiling that is found comes to 2^50 word times or more; or there is no memory.
pub fn limit_of(alloc: Global, documents: &Documents) -> Result<(Limit, u64), Fault>
    ensures limit { IfOk result (λ found. IsLimit documents.now found.0 found.1) }
    ensures below { IfOk result (λ found. found.1 < 2 ^ 50) }
    ensures fault { IfErr result (IsLimitFault documents.now) }
{
    if !documents.notes.is_short() {
        return past_bound(alloc, documents);
    }
    match bound_of(alloc, documents) {
        Ok(most) => Ok((Limit::Bound, most)),
        Err(Fault::Refused(Refusal::TooLarge(_))) => past_bound(alloc, documents),
        Err(fault) => Err(fault),
    }
}

/// The same, where they have no bound.
fn past_bound(alloc: Global, documents: &Documents) -> Result<(Limit, u64), Fault>
    requires none { HaveNoBound documents.now }
    ensures limit { IfOk result (λ found. IsLimit documents.now found.0 found.1) }
    ensures below { IfOk result (λ found. found.1 < 2 ^ 50) }
    ensures fault { IfErr result (IsLimitFault documents.now) }
{
    let total = ceiling_of(alloc, documents)?.total();
    if total < LONGEST {
        return Ok((Limit::Ceiling, total as u64));
    }
    let product = product(alloc, documents)?;
    Err(Fault::Refused(Refusal::TooLarge(product)))
}

/// Executed words times counts; 2^127 where that is more.
fn product(alloc: Global, documents: &Documents) -> Result<u128, Fault>
    ensures product { IfOk result (IsProduct documents.now) }
    ensures memory { IfErr result (λ fault. fault ≡ Fault.Refused Refusal.Memory) }
{
    let flow = rediscover(alloc, &documents.deck, &documents.notes)?;
    Ok(product_of(flow.executed().len(), documents.notes.marks()))
}
