//! The top call: the words, the source to its end or a seed, the trace, the heap and the rounds, what is
//! written, the sink.
ghost use Rattle.std.specs.Prelude.{◌≡◌, ◌≢◌, ◌<◌, ◌^◌, Some, None, true, IfOk, IfSome, OnErr};
ghost use Rattle.hm_outside.specs.Makers.{Made};
ghost use Rattle.hm_heap.specs.Founds.{all_regions};
ghost use Rattle.hm_report.specs.Findings.{ascends, has_finding};
ghost use Rattle.hm_report.specs.Summary.{summary_text};
ghost use Rattle.hm_sizes.specs.Configs.{IsValid};
ghost use Rattle.hm_stats.specs.Tables.{entry_count};
ghost use Rattle.hm_trace.specs.Stress.{stress};
ghost use Rattle.hm_trace.specs.Views.{scripts_of};
ghost use Rattle.hm_run.specs.Endings.{CommandEnds, Ends, RunsTrace, TextEnds, SourceEnds, TellsVerdict, OutputFits, status_of, line_of, status_after, output_text, fault_line};
ghost use Rattle.hm_run.specs.LiveSums.{live_sums};
ghost use Rattle.hm_run.specs.Streams.{IsSound, IsTakenWithin, IsWritten, sink_of, source_of};
ghost use Rattle.hm_run.specs.Words.{IfMade, IfUnasked, asked_in, config_of, is_watched};
ghost use Rattle.hm_run.specs.Limits.{most_taken};
ghost use Rattle.hm_run.specs.declared.status.Status.TheVariants as statuses;
ghost use Rattle.hm_run.specs.declared.words.Asked.{Asked};
ghost use Rattle.hm_run.specs.Statuses.{code_of};

use crate::notes::notes_of;
use crate::reading::{ReadStop, read_all};
use crate::refusal::Refusal;
use crate::rounds::{Machine, Ran, run_trace};
use crate::status::Status;
use crate::trace_fault::line_of_fault;
use crate::verdict_line::{line_of_verdict, status_of_verdict};
use crate::words::{Asked, Command, Options, Output, read_words};
use crate::writing::finish;
use hm_base::{List, NoMemory};
use hm_check::check_journal;
use hm_heap::Closed;
use hm_journal::write_journal;
use hm_outside::{Gate, PageMaker, Pages, Sink, Source};
use hm_report::{Results, has_finding, report, summary, write_totals};
use hm_stats::{table, write_table};
use hm_trace::{ReadRefusal, Trace, TraceFault, read_trace, stress_trace};
use std::alloc::Global;
use std::sync::Wait;
use std::thread::Threads;

/// What a run ends with.
#[derive(Drop)]
pub struct Run<P> {
    /// The exit status of the program.
    pub status: u8,
    /// The histories, and the pages of each region, if the run came so far that its text was written, or a front of it.
    pub closed: Option<Closed<P>>,
    /// The results of the trace's steps, where `closed` is there, and only there.
    pub results: Option<List<Results>>,
}

// Writes why a run is refused.
fn refuse<K: Sink, P>(sink: &mut K, refusal: Refusal) -> Run<P>
    ensures closed { result.closed ≡ None }
    ensures results { result.results ≡ None }
    ensures written { IsWritten result.status (status_of refusal) (sink_of K.Sink sink.old sink.new)
        (line_of refusal) }
    ensures status { result.status ≢ code_of statuses.NoMemory }
{
    Run {
        status: finish(sink, refusal.status(), refusal.line()).code(),
        closed: None,
        results: None,
    }
}

// What is handed out for want of memory, when nothing was written.
fn give_up<P>() -> Run<P>
    ensures status { result.status ≡ code_of statuses.NoMemory }
    ensures closed { result.closed ≡ None }
    ensures results { result.results ≡ None }
{
    Run {
        status: Status::NoMemory.code(),
        closed: None,
        results: None,
    }
}

// Writes the fault of a text that is no trace.
fn refuse_text<K: Sink, P>(
    alloc: Global,
    sink: &mut K,
    fault: &TraceFault,
) -> Result<Run<P>, NoMemory>
    ensures closed { IfOk result (λ run. run.closed ≡ None) }
    ensures results { IfOk result (λ run. run.results ≡ None) }
    ensures written { IfOk result (λ run. IsWritten run.status 3 (sink_of K.Sink sink.old sink.new)
        (fault_line fault.now)) }
    ensures status { IfOk result (λ run. run.status ≢ code_of statuses.NoMemory) }
    ensures memory { OnErr result (sink.new ≡ sink.old) }
{
    let line = line_of_fault(alloc, fault)?;
    Ok(Run {
        status: finish(sink, Status::NoTrace, line.as_bytes()).code(),
        closed: None,
        results: None,
    })
}

// By how many threads histories are counted at most.
const WORKERS: u32 = 4;

// What is written of a trace that was run. Where the text needs none of the trace, its memory goes back first.
fn text_of<R: Threads + Sync, P>(
    rt: &R,
    alloc: Global,
    options: &Options,
    output: Output,
    trace: Trace,
    ran: &Ran<P>,
) -> Result<Vec<u8>, NoMemory>
    requires order { ascends ran.now.results.items ≡ true }
    requires few { entry_count ran.now.closed.histories < 2 ^ 63 }
    requires watched { is_watched output ≡ true
        → ran.now.totals.items ≡ live_sums (config_of options.now) (scripts_of trace) ran.now.closed.histories }
    ensures text { IfOk result (λ text.
        text.items ≡ output_text options.now output trace ran.now.closed ran.now.results.items) }
    ensures fits { IfOk result (λ _. OutputFits options.now output ran.now.closed) }
{
    let histories = ran.closed.histories.items();
    match output {
        Output::Report => {
            let notes = notes_of(alloc, trace.rounds())?;
            drop(trace);
            report(alloc, &notes, &ran.results)
        }
        Output::Journal => {
            drop(trace);
            write_journal(alloc, &options.config(), options.seed, histories)
        }
        Output::Stats => {
            drop(trace);
            let counted = table(rt, alloc, histories, WORKERS)?;
            write_table(alloc, &counted)
        }
        Output::Watch => {
            drop(trace);
            write_totals(alloc, &ran.totals)
        }
    }
}

// Writes the text of a trace that was run. `found` tells whether there is a finding.
fn write_results<K: Sink, P>(sink: &mut K, ran: Ran<P>, found: bool, text: &[u8]) -> Run<P>
    requires found { found ≡ has_finding ran.results.items }
    ensures closed { result.closed ≡ Some ran.closed }
    ensures results { result.results ≡ Some ran.results.items }
    ensures written { IsWritten result.status (status_after ran.results.items) (sink_of K.Sink sink.old sink.new)
        text.now }
    ensures status { result.status ≢ code_of statuses.NoMemory }
{
    let planned = if found {
        Status::Finding
    } else {
        Status::Clean
    };
    let Ran {
        closed,
        results,
        ..
    } = ran;
    Run {
        status: finish(sink, planned, text).code(),
        closed: Some(closed),
        results: Some(List::of(results)),
    }
}

// Runs a text that was read. Its memory goes back before the trace is run.
fn run_text<R: Threads + Wait + Sync, K: Sink, M: PageMaker, G: Gate>(
    machine: Machine<'_, R, G>,
    maker: &mut M,
    options: &Options,
    output: Output,
    bytes: Vec<u8>,
    sink: &mut K,
) -> Result<Run<M::P>, NoMemory>
    requires valid { IsValid (config_of options.now) }
    ensures ends { IfOk result (λ run.
        TextEnds M.P.Pages run (sink_of K.Sink sink.old sink.new) options.now output bytes.items) }
    ensures status { IfOk result (λ run. run.status ≢ code_of statuses.NoMemory) }
    ensures made { IfOk result (λ run. IfSome run.closed (λ _.
        Made (M.made maker.old) (M.made maker.new) (all_regions (config_of options.now)))) }
    ensures unmade { IfOk result (λ run. run.closed ≡ None → maker.new ≡ maker.old) }
    ensures memory { OnErr result (sink.new ≡ sink.old) }
{
    let rt = machine.rt;
    let alloc = machine.alloc;
    let read = read_trace(alloc, &bytes);
    drop(bytes);
    let trace = match read {
        Ok(trace) => trace,
        Err(ReadRefusal::Fault(fault)) => return refuse_text(alloc, sink, &fault),
        Err(ReadRefusal::NoMemory) => return Err(NoMemory),
    };
    let ran = run_trace(machine, maker, options, output.is_watched(), &trace)?;
    let text = text_of(rt, alloc, options, output, trace, &ran)?;
    let found = has_finding(&ran.results);
    Ok(write_results(sink, ran, found, &text))
}

// Runs the text that the source holds.
fn run_source<R: Threads + Wait + Sync, S: Source, K: Sink, M: PageMaker, G: Gate>(
    machine: Machine<'_, R, G>,
    maker: &mut M,
    options: &Options,
    output: Output,
    source: &mut S,
    sink: &mut K,
) -> Result<Run<M::P>, NoMemory>
    requires valid { IsValid (config_of options.now) }
    ensures bound { IsTakenWithin most_taken (source_of S.Source source.old source.new) }
    ensures sound { OnErr result (IsSound (source_of S.Source source.old source.new)) }
    ensures ends { IfOk result (λ run. CommandEnds M.P.Pages run (sink_of K.Sink sink.old sink.new)
        (source_of S.Source source.old source.new) options.now (Command.Run output)) }
    ensures status { IfOk result (λ run. run.status ≢ code_of statuses.NoMemory) }
    ensures made { IfOk result (λ run. IfSome run.closed (λ _.
        Made (M.made maker.old) (M.made maker.new) (all_regions (config_of options.now)))) }
    ensures unmade { IfOk result (λ run. run.closed ≡ None → maker.new ≡ maker.old) }
    ensures memory { OnErr result (sink.new ≡ sink.old) }
{
    match read_all(machine.alloc, source) {
        Ok(bytes) => run_text(machine, maker, options, output, bytes, sink),
        Err(ReadStop::NoMemory) => Err(NoMemory),
        Err(ReadStop::Fault) => Ok(refuse(sink, Refusal::ReadFault)),
        Err(ReadStop::TooLong) => Ok(refuse(sink, Refusal::TooLong)),
    }
}

// Writes the verdict on a text that was read. Its memory goes back before the line is made.
fn judge_text<K: Sink, P: Pages>(
    alloc: Global,
    bytes: Vec<u8>,
    sink: &mut K,
) -> Result<Run<P>, NoMemory>
    ensures ends { IfOk result (λ run. TellsVerdict P.Pages run (sink_of K.Sink sink.old sink.new) bytes.items) }
    ensures closed { IfOk result (λ run. run.closed ≡ None) }
    ensures status { IfOk result (λ run. run.status ≢ code_of statuses.NoMemory) }
    ensures memory { OnErr result (sink.new ≡ sink.old) }
{
    let verdict = check_journal(alloc, &bytes)?;
    drop(bytes);
    let line = line_of_verdict(alloc, verdict)?;
    Ok(Run {
        status: finish(sink, status_of_verdict(verdict), line.as_bytes()).code(),
        closed: None,
        results: None,
    })
}

// Checks the journal that the source holds.
fn check_source<S: Source, K: Sink, P: Pages>(
    alloc: Global,
    source: &mut S,
    sink: &mut K,
) -> Result<Run<P>, NoMemory>
    ensures bound { IsTakenWithin most_taken (source_of S.Source source.old source.new) }
    ensures sound { OnErr result (IsSound (source_of S.Source source.old source.new)) }
    ensures ends { IfOk result (λ run. SourceEnds P.Pages run (sink_of K.Sink sink.old sink.new)
        (source_of S.Source source.old source.new)
        (TellsVerdict P.Pages run (sink_of K.Sink sink.old sink.new))) }
    ensures closed { IfOk result (λ run. run.closed ≡ None) }
    ensures status { IfOk result (λ run. run.status ≢ code_of statuses.NoMemory) }
    ensures memory { OnErr result (sink.new ≡ sink.old) }
{
    match read_all(alloc, source) {
        Ok(bytes) => judge_text(alloc, bytes, sink),
        Err(ReadStop::NoMemory) => Err(NoMemory),
        Err(ReadStop::Fault) => Ok(refuse(sink, Refusal::ReadFault)),
        Err(ReadStop::TooLong) => Ok(refuse(sink, Refusal::TooLong)),
    }
}

// Runs the stress trace of a seed. Its memory goes back before the results are counted.
fn run_stress<R: Threads + Wait + Sync, K: Sink, M: PageMaker, G: Gate>(
    machine: Machine<'_, R, G>,
    maker: &mut M,
    options: &Options,
    seed: u64,
    sink: &mut K,
) -> Result<Run<M::P>, NoMemory>
    requires valid { IsValid (config_of options.now) }
    ensures ends { IfOk result (λ run. RunsTrace M.P.Pages run (sink_of K.Sink sink.old sink.new) options.now
        (stress seed) (λ left. summary_text seed)) }
    ensures status { IfOk result (λ run. run.status ≢ code_of statuses.NoMemory) }
    ensures made { IfOk result (λ run. IfSome run.closed (λ _.
        Made (M.made maker.old) (M.made maker.new) (all_regions (config_of options.now)))) }
    ensures unmade { IfOk result (λ run. run.closed ≡ None → maker.new ≡ maker.old) }
    ensures memory { OnErr result (sink.new ≡ sink.old) }
{
    let alloc = machine.alloc;
    let trace = stress_trace(alloc, seed)?;
    let ran = run_trace(machine, maker, options, false, &trace)?;
    drop(trace);
    let summed = summary(alloc, seed, &ran.results)?;
    Ok(write_results(sink, ran, summed.found, &summed.text))
}

// Does what the words ask for.
fn carry_out<R: Threads + Wait + Sync, S: Source, K: Sink, M: PageMaker, G: Gate>(
    machine: Machine<'_, R, G>,
    maker: &mut M,
    asked: &Asked,
    source: &mut S,
    sink: &mut K,
) -> Result<Run<M::P>, NoMemory>
    requires valid { IsValid (config_of asked.now.options) }
    ensures bound { IsTakenWithin most_taken (source_of S.Source source.old source.new) }
    ensures sound { OnErr result (IsSound (source_of S.Source source.old source.new)) }
    ensures ends { IfOk result (λ run. CommandEnds M.P.Pages run (sink_of K.Sink sink.old sink.new)
        (source_of S.Source source.old source.new) asked.now.options asked.now.command) }
    ensures untouched { IfMade asked.now.command (source.new ≡ source.old) }
    ensures status { IfOk result (λ run. run.status ≢ code_of statuses.NoMemory) }
    ensures made { IfOk result (λ run. IfSome run.closed (λ _.
        Made (M.made maker.old) (M.made maker.new) (all_regions (config_of asked.now.options)))) }
    ensures unmade { IfOk result (λ run. run.closed ≡ None → maker.new ≡ maker.old) }
    ensures memory { OnErr result (sink.new ≡ sink.old) }
{
    let options = &asked.options;
    match asked.command {
        Command::Run { output } => run_source(machine, maker, options, output, source, sink),
        Command::Check => check_source(machine.alloc, source, sink),
        Command::Stress { seed } => run_stress(machine, maker, options, seed, sink),
    }
}

/// Reads a trace from the source, or makes it from a seed, as the words say; runs it, and writes the report of
/// its notes and results, the journal of its histories, what these come to, the sums of the sizes of live large blocks
/// after each round, or the summary; or reads a journal, and writes the verdict on it; or one line that says why it was
/// refused. All memory is taken before the first byte is written. What was closed is handed out, with the results of the
/// steps. Where a trace is run, pages of each region are made once, in order, and else none.
pub fn replay<R: Threads + Wait + Sync, S: Source, K: Sink, M: PageMaker, G: Gate>(
    machine: Machine<'_, R, G>,
    words: &[String],
    source: &mut S,
    sink: &mut K,
    maker: &mut M,
) -> Run<M::P>
    ensures bound { IsTakenWithin most_taken (source_of S.Source source.old source.new) }
    ensures ends { Ends M.P.Pages words.now result (source_of S.Source source.old source.new)
        (sink_of K.Sink sink.old sink.new) }
    ensures untouched { IfUnasked (asked_in words.now) (source.new ≡ source.old) }
    ensures memory { result.status ≡ code_of statuses.NoMemory → sink.new ≡ sink.old }
    ensures made { (asked : Asked) → asked_in words.now ≡ Some asked → IfSome result.closed (λ _.
        Made (M.made maker.old) (M.made maker.new) (all_regions (config_of asked.options))) }
    ensures unmade { result.closed ≡ None → result.status ≢ code_of statuses.NoMemory → maker.new ≡ maker.old }
{
    let asked = match read_words(words) {
        Some(asked) => asked,
        None => return refuse(sink, Refusal::Usage),
    };
    match carry_out(machine, maker, &asked, source, sink) {
        Ok(run) => run,
        Err(NoMemory) => give_up(),
    }
}
