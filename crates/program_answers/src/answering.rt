//! The answers to questions about documents, each written to an output.

ghost use Rattle.std.specs.Prelude.{◌≡◌, IfErr};
ghost use Rattle.print_lines.specs.Does.{Does};
ghost use Rattle.base_devices.specs.Device.{Device};
ghost use Rattle.program_limits.specs.Limits.{HaveNoBound, IsAnalysisFault, IsBracket};
ghost use Rattle.program_limits.specs.Limits.{IsCeilingFault, IsDiscoveryFault};
ghost use Rattle.program_answers.specs.Basis.{IsBasis};
ghost use Rattle.program_answers.specs.declared.basis.Basis.TheVariants as bases;
ghost use Rattle.program_answers.specs.Says.{ByEither, Refuses, Says, SaysBound};
ghost use Rattle.program_answers.specs.Says.{SaysCeiling, SaysGraph, SaysOutline, SaysPicture};
ghost use Rattle.program_answers.specs.Says.{SaysPictureInRounds, SaysReport, SaysRounds};
ghost use Rattle.program_answers.specs.Says.{SaysRoundsWaits};
ghost use Rattle.program_answers.specs.Says.{SaysSize, SaysTable, SaysWaits, SaysWalk};

use crate::analysis::analysis_of;
use crate::basis::{Basis, basis_of};
use crate::shares::shares_of;
use crate::telling::{
    tell_ceiling, tell_graph, tell_report, tell_rounds, tell_rounds_waits, tell_table, tell_waits,
    tell_walk,
};
use base_devices::Output;
use bound_scan::Analysis;
use ceiling_checked::Bracket;
use picture_walks::{picture, picture_in_rounds};
use print_ceilings::{PieceIndex, WaitsInRounds, all_waits_in_rounds};
use print_graphs::Graph;
use print_lines::{Fault, Status, tell_bound, tell_text};
use print_walks::{Size, Table, Waits, all_waits};
use program_command::Question;
use program_limits::{bound_of, bracket_of};
use read_documents::Documents;
use std::alloc::Global;

/// Writes the bound.
fn say_bound<O: Output>(alloc: Global, documents: &Documents, out: &mut O) -> Result<Status, Fault>
    ensures does { (err : Device) → Does (SaysBound documents.now) (IsAnalysisFault documents.now)
        (O.device out.old) (O.device out.new) err err result }
    ensures spared { IfErr result (λ _. out.new ≡ out.old) }
{
    let bound = bound_of(alloc, documents)?;
    Ok(tell_bound(out, bound))
}

/// Writes the report.
fn say_report<O: Output>(alloc: Global, documents: &Documents, out: &mut O) -> Result<Status, Fault>
    ensures does { (err : Device) → Does (SaysReport documents.now) (IsAnalysisFault documents.now)
        (O.device out.old) (O.device out.new) err err result }
    ensures spared { IfErr result (λ _. out.new ≡ out.old) }
{
    let analysis = analysis_of(alloc, documents)?;
    Ok(tell_report(out, documents, &analysis))
}

/// Writes the walk beside a ceiling.
fn say_rounds<O: Output>(
    alloc: Global,
    documents: &Documents,
    bracket: &Bracket,
    out: &mut O,
) -> Result<Status, Fault>
    requires none { HaveNoBound documents.now }
    requires right { IsBracket documents.now bracket.now }
    ensures does { (err : Device) → Does (ByEither SaysWalk SaysRounds documents.now)
        (IsCeilingFault documents.now)
        (O.device out.old) (O.device out.new) err err result }
    ensures spared { IfErr result (λ _. out.new ≡ out.old) }
{
    let index = PieceIndex::of(alloc, &bracket.walk)?;
    Ok(tell_rounds(out, documents, bracket, index))
}

/// Writes a worst walk.
fn say_walk<O: Output>(alloc: Global, documents: &Documents, out: &mut O) -> Result<Status, Fault>
    ensures does { (err : Device) → Does (ByEither SaysWalk SaysRounds documents.now)
        (IsCeilingFault documents.now)
        (O.device out.old) (O.device out.new) err err result }
    ensures spared { IfErr result (λ _. out.new ≡ out.old) }
{
    let basis = basis_of(alloc, documents)?;
    match basis {
        Basis::Bound(analysis) => Ok(tell_walk(out, documents, &analysis)),
        Basis::Ceiling(bracket) => say_rounds(alloc, documents, &bracket, out),
    }
}

/// Writes where the word times of the walk beside a ceiling go.
fn say_rounds_waits<O: Output>(
    alloc: Global,
    documents: &Documents,
    bracket: &Bracket,
    out: &mut O,
) -> Result<Status, Fault>
    requires none { HaveNoBound documents.now }
    requires right { IsBracket documents.now bracket.now }
    ensures does { (err : Device) → Does (ByEither SaysWaits SaysRoundsWaits documents.now)
        (IsCeilingFault documents.now)
        (O.device out.old) (O.device out.new) err err result }
    ensures spared { IfErr result (λ _. out.new ≡ out.old) }
{
    let waits = WaitsInRounds::of(alloc, &bracket.walk, &documents.times)?;
    Ok(tell_rounds_waits(out, documents, bracket, &waits))
}

/// Writes where the word times of the walk of an analysis go.
fn say_bound_waits<O: Output>(
    alloc: Global,
    documents: &Documents,
    analysis: &Analysis,
    out: &mut O,
) -> Result<Status, Fault>
    requires { IsBasis documents.now (bases.Bound analysis.now) }
    ensures does { (err : Device) → Does (ByEither SaysWaits SaysRoundsWaits documents.now)
        (IsCeilingFault documents.now)
        (O.device out.old) (O.device out.new) err err result }
    ensures spared { IfErr result (λ _. out.new ≡ out.old) }
{
    let waits = Waits::of(alloc, analysis, &documents.times)?;
    Ok(tell_waits(out, documents, analysis, &waits))
}

/// Writes where the word times of a worst walk go.
fn say_waits<O: Output>(alloc: Global, documents: &Documents, out: &mut O) -> Result<Status, Fault>
    ensures does { (err : Device) → Does (ByEither SaysWaits SaysRoundsWaits documents.now)
        (IsCeilingFault documents.now)
        (O.device out.old) (O.device out.new) err err result }
    ensures spared { IfErr result (λ _. out.new ≡ out.old) }
{
    let basis = basis_of(alloc, documents)?;
    match basis {
        Basis::Bound(analysis) => say_bound_waits(alloc, documents, &analysis, out),
        Basis::Ceiling(bracket) => say_rounds_waits(alloc, documents, &bracket, out),
    }
}

/// Writes the table of worst times.
fn say_table<O: Output>(alloc: Global, documents: &Documents, out: &mut O) -> Result<Status, Fault>
    ensures does { (err : Device) → Does (SaysTable documents.now) (IsAnalysisFault documents.now)
        (O.device out.old) (O.device out.new) err err result }
    ensures spared { IfErr result (λ _. out.new ≡ out.old) }
{
    let analysis = analysis_of(alloc, documents)?;
    let table = Table::of(alloc, &analysis)?;
    Ok(tell_table(out, documents, &table))
}

/// Writes how large the analysis is.
fn say_size<O: Output>(alloc: Global, documents: &Documents, out: &mut O) -> Result<Status, Fault>
    ensures does { (err : Device) → Does (SaysSize documents.now) (IsAnalysisFault documents.now)
        (O.device out.old) (O.device out.new) err err result }
    ensures spared { IfErr result (λ _. out.new ≡ out.old) }
{
    let analysis = analysis_of(alloc, documents)?;
    let size = Size::of(alloc, &documents.deck, &documents.notes, &analysis)?;
    let text = size.text(alloc)?;
    Ok(tell_text(out, &text))
}

/// Writes the flow graph.
fn say_graph<O: Output>(alloc: Global, documents: &Documents, out: &mut O) -> Result<Status, Fault>
    ensures does { (err : Device) → Does (SaysGraph documents.now)
        (IsDiscoveryFault documents.now)
        (O.device out.old) (O.device out.new) err err result }
    ensures spared { IfErr result (λ _. out.new ≡ out.old) }
{
    let graph = Graph::of(alloc, &documents.deck, &documents.notes)?;
    Ok(tell_graph(out, documents, &graph))
}

/// Writes the outline of the flow graph.
fn say_outline<O: Output>(
    alloc: Global,
    documents: &Documents,
    out: &mut O,
) -> Result<Status, Fault>
    ensures does { (err : Device) → Does (SaysOutline documents.now)
        (IsDiscoveryFault documents.now)
        (O.device out.old) (O.device out.new) err err result }
    ensures spared { IfErr result (λ _. out.new ≡ out.old) }
{
    let graph = Graph::outline(alloc, &documents.deck, &documents.notes)?;
    Ok(tell_graph(out, documents, &graph))
}

/// Writes a picture of the walk of an analysis.
fn say_bound_picture<O: Output>(
    alloc: Global,
    documents: &Documents,
    analysis: &Analysis,
    out: &mut O,
) -> Result<Status, Fault>
    requires { IsBasis documents.now (bases.Bound analysis.now) }
    ensures does { (err : Device) → Does (ByEither SaysPicture SaysPictureInRounds documents.now)
        (IsCeilingFault documents.now)
        (O.device out.old) (O.device out.new) err err result }
    ensures spared { IfErr result (λ _. out.new ≡ out.old) }
{
    let (deck, times) = (&documents.deck, &documents.times);
    let shares = shares_of(u128::from(analysis.bound()), &all_waits(analysis, times));
    let text = picture(alloc, analysis, shares, deck, times)?;
    Ok(tell_text(out, text.as_bytes()))
}

/// Writes a picture of the walk beside a ceiling.
fn say_rounds_picture<O: Output>(
    alloc: Global,
    documents: &Documents,
    bracket: &Bracket,
    out: &mut O,
) -> Result<Status, Fault>
    requires none { HaveNoBound documents.now }
    requires right { IsBracket documents.now bracket.now }
    ensures does { (err : Device) → Does (ByEither SaysPicture SaysPictureInRounds documents.now)
        (IsCeilingFault documents.now)
        (O.device out.old) (O.device out.new) err err result }
    ensures spared { IfErr result (λ _. out.new ≡ out.old) }
{
    let (deck, times, notes) = (&documents.deck, &documents.times, &documents.notes);
    let (walk, ceiling) = (&bracket.walk, bracket.ceiling.total());
    let shares = shares_of(walk.total(), &all_waits_in_rounds(walk, times));
    let text = picture_in_rounds(alloc, walk, ceiling, shares, deck, times, notes)?;
    Ok(tell_text(out, text.as_bytes()))
}

/// Writes a picture of a worst walk.
fn say_picture<O: Output>(
    alloc: Global,
    documents: &Documents,
    out: &mut O,
) -> Result<Status, Fault>
    ensures does { (err : Device) → Does (ByEither SaysPicture SaysPictureInRounds documents.now)
        (IsCeilingFault documents.now)
        (O.device out.old) (O.device out.new) err err result }
    ensures spared { IfErr result (λ _. out.new ≡ out.old) }
{
    let basis = basis_of(alloc, documents)?;
    match basis {
        Basis::Bound(analysis) => say_bound_picture(alloc, documents, &analysis, out),
        Basis::Ceiling(bracket) => say_rounds_picture(alloc, documents, &bracket, out),
    }
}

/// Writes a ceiling and its walk.
fn say_ceiling<O: Output>(
    alloc: Global,
    documents: &Documents,
    out: &mut O,
) -> Result<Status, Fault>
    ensures does { (err : Device) → Does (SaysCeiling documents.now) (IsCeilingFault documents.now)
        (O.device out.old) (O.device out.new) err err result }
    ensures spared { IfErr result (λ _. out.new ≡ out.old) }
{
    let bracket = bracket_of(alloc, documents)?;
    Ok(tell_ceiling(out, documents, &bracket))
}

/// Writes the answer to a question about documents, and tells how the program ends.
///
/// # Errors
///
/// Why there is none: the deck with its notes is refused, or the program is out of memory. Nothing
/// has been written then. (A write that fails is no error here: the status tells it.)
pub fn answer_question<O: Output>(
    alloc: Global,
    question: Question,
    documents: &Documents,
    out: &mut O,
) -> Result<Status, Fault>
    ensures does { (err : Device) → Does (Says question documents.now)
        (Refuses question documents.now) (O.device out.old) (O.device out.new) err err result }
    ensures spared { IfErr result (λ _. out.new ≡ out.old) }
{
    match question {
        Question::Bound => say_bound(alloc, documents, out),
        Question::Report => say_report(alloc, documents, out),
        Question::Walk => say_walk(alloc, documents, out),
        Question::Waits => say_waits(alloc, documents, out),
        Question::Table => say_table(alloc, documents, out),
        Question::Size => say_size(alloc, documents, out),
        Question::Graph => say_graph(alloc, documents, out),
        Question::Outline => say_outline(alloc, documents, out),
        Question::Draw => say_picture(alloc, documents, out),
        Question::Ceiling => say_ceiling(alloc, documents, out),
    }
}
